//! The ports that a switch reported.

ghost use Rattle.std.specs.Prelude.{◌≡◌, is_some, IsTrue, OnOk, OnErr};
ghost use Rattle.desk_words.specs.Openings.{kept_by};

use of10_port::PortStatus;
use port_view::PortView;
use std::alloc::AllocError;

/// Takes in what the switch reported of one of its ports.
#[inline(always)]
pub(crate) fn keep(ports: &mut PortView, told: &Option<PortStatus>) -> Result<(), AllocError>
    ensures ok { OnOk result (ports.new ≡ kept_by told.now ports.old) }
    ensures err { OnErr result (ports.new ≡ ports.old) }
    ensures memory { OnErr result (IsTrue (is_some told.now)) }
{
    if let Some(status) = told {
        ports.take_status(status)?;
    }
    Ok(())
}
