//! Replies with statistics (OpenFlow 1.0.0, section 5.3.5).

ghost use Rattle.std.specs.Prelude.{◌≡◌, ◌%◌, ◌==◌, ◌≤◌, IfOk, length};
ghost use Rattle.of10_action.specs.Reading.{Reads};
ghost use Rattle.of10_ctl.specs.declared.kind.TheConstants.{STATS_REPLY};
ghost use Rattle.of10_ctl.specs.Kinds.{IsOf};
ghost use Rattle.of10_stats.specs.Replies.{part_of};

use crate::protocol::MORE;
use crate::request::FRONT;
use of10_action::WireFault;
use of10_ctl::Frame;
use of10_model::wire::u16_at;

/// One part of an answer (OpenFlow 1.0.0, section 5.3.5).
#[derive(Clone, Copy, Debug, PartialEq, Eq)]
pub struct StatsPart {
    /// The type of statistics.
    pub kind: u16,
    /// Whether more parts follow.
    pub more: bool,
    /// Where the entries begin in the message, in bytes.
    pub from: usize,
}

// Whether the flags say that more parts follow.
fn has_more(flags: u16) -> bool
    ensures { result ≡ (flags % 2 == 1) }
{
    flags & MORE == 1
}

/// What the message says in front of its entries; `Length` where it has fewer than 12 bytes (OpenFlow
/// 1.0.0, section 5.3.5).
#[tactic(auto, unfolding(crate::specs::Replies::part_of))]
pub fn part(frame: &Frame) -> Result<StatsPart, WireFault>
    requires { IsOf STATS_REPLY frame.now }
    ensures exact { Reads (λ x. x) result (part_of frame.now) }
    ensures inside { IfOk result (λ p. p.from ≤ length frame.now) }
{
    let bytes = frame.as_slice();
    if bytes.len() < FRONT {
        return Err(WireFault::Length(bytes.len() as u16));
    }
    Ok(StatsPart {
        kind: u16_at(bytes, 8),
        more: has_more(u16_at(bytes, 10)),
        from: FRONT,
    })
}
