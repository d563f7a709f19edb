//! The ports for which FLOOD and ALL stand (OpenFlow 1.0.0, section 5.2.1).

ghost use Rattle.std.specs.Prelude.{◌≡◌, if◌then◌else◌, false, true, [], IfOk};
ghost use Rattle.std.specs.List.{All, list_any};
ghost use Rattle.flowspace.specs.Owners.{HasPort};
ghost use Rattle.port_view.specs.SlicePorts.{ports_of_slice, flooded};
ghost use Rattle.slice_side.specs.Checking.{is_sent_to, ports_named};

use crate::around::Around;
use of10_action::Action;
use of10_port::protocol::{ALL, FLOOD};
use std::alloc::{AllocError, Global};

/// The ports of a slice for which FLOOD and ALL stand, each where it is named.
#[derive(Drop)]
pub(crate) struct Floods {
    pub(crate) flood: Vec<u16>,
    pub(crate) all: Vec<u16>,
}

fn is_sent_to(action: &Action, port: u16) -> bool
    ensures { result ≡ is_sent_to port action.now }
{
    match *action {
        Action::Output { port: other, .. } => other == port,
        _ => false,
    }
}

/// Whether some action sends to the port.
fn is_named(actions: &[Action], port: u16) -> bool
    ensures { result ≡ list_any (is_sent_to port) actions.now }
{
    actions.iter().any(|action| is_sent_to(action, port))
}

/// The slice's ports, or those of them that flood; none where they aren't wanted.
fn ports_where(
    alloc: Global,
    around: &Around<'_>,
    wanted: bool,
    every: bool,
) -> Result<Vec<u16>, AllocError>
    ensures { IfOk result (λ ports. ports.items ≡ (if wanted then flooded every (ports_of_slice around.now.policy.now.rules around.now.slot around.now.ports.now) else [])) }
{
    if !wanted {
        return Ok(Vec::new(alloc));
    }
    around
        .ports
        .flood_ports(alloc, around.policy, around.slot, every)
}

/// For which ports FLOOD and ALL stand, as far as these actions name them.
pub(crate) fn floods_for(
    alloc: Global,
    around: &Around<'_>,
    actions: &[Action],
) -> Result<Floods, AllocError>
    ensures flood { IfOk result (λ floods. floods.flood.items ≡ ports_named 0xfffb actions.now (flooded false (ports_of_slice around.now.policy.now.rules around.now.slot around.now.ports.now))) }
    ensures all { IfOk result (λ floods. floods.all.items ≡ ports_named 0xfffc actions.now (flooded true (ports_of_slice around.now.policy.now.rules around.now.slot around.now.ports.now))) }
{
    let flood = ports_where(alloc, around, is_named(actions, FLOOD), false)?;
    let all = ports_where(alloc, around, is_named(actions, ALL), true)?;
    Ok(Floods { flood, all })
}
