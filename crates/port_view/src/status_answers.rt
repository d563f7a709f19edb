ghost use Rattle.std.specs.Prelude.{◌≡◌, List, ℕ, length};
ghost use Rattle.of10_port.specs.Ports.{port_number};
ghost use Rattle.port_view.specs.KnownPorts.{is_known, kept_of};

use flowspace::is_in_port;
use of10_port::PortStatus;

/// The most ports that are known: as many as fit a FEATURES_REPLY.
pub(crate) const MOST: usize = 1364;

/// The reason of a status that deletes its port, and the greatest reason (OpenFlow 1.0.0, section 5.4.3).
pub(crate) const DELETE: u8 = 1;

const MODIFY: u8 = 2;

/// What becomes of a port status.
#[derive(Clone, Copy, Debug, PartialEq, Eq)]
pub enum Kept {
    /// It changes what is known.
    Kept,
    /// It says nothing of the ports: its number stands for no port, it has no such reason, or it deletes a
    /// port that isn't known.
    Ignored,
    /// It reports one port more than are kept.
    TooManyPorts,
}

/// What becomes of a status, where so many ports are known, with or without the port that it reports.
#[tactic(auto, unfolding(crate::specs::KnownPorts::kept_of))]
pub(crate) fn answer_to(status: &PortStatus, is_there: bool, count: usize) -> Kept
    ensures { (known : List (List ℕ)) → is_there ≡ is_known (port_number status.now.port) known → count ≡ length known → result ≡ kept_of status.now known }
{
    let number = status.port.number();
    if !is_in_port(number) || status.reason > MODIFY || (status.reason == DELETE && !is_there) {
        return Kept::Ignored;
    }
    if !is_there && count >= MOST {
        return Kept::TooManyPorts;
    }
    Kept::Kept
}
