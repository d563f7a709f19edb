ghost use Rattle.std.specs.Prelude.{true, ◌≡◌, ◌<◌, length};
ghost use Rattle.turn_desk.specs.Histories.{seen_of};
ghost use Rattle.turn_desk.specs.Rule.{is_idle, lefts, stride_of};

use crate::object::Object;
use crate::rule::Turns;
use crate::view::Member;
use atomic_table::{Seat, Table};
use std::alloc::Global;
use std::snapshot::Snapshot;

pub(crate) type View<O> = Option<Member<O, <O as Object>::Op, <O as Object>::Reply>>;

/// The object and the lock around it. Word 0 counts the tickets drawn and word 1 the turns passed.
#[derive(Drop)]
pub struct TurnDesk<O: Object> {
    pub(crate) table: Table<Option<O>, View<O>, Snapshot<O>, Turns<O>, Global>,
    ghost words: { table.shared.table_id.words ≡ 2 },
    ghost slots: { table.shared.table_id.slots ≡ 1 },
}

/// The right to ask a desk so many times, and what is known of the desk's history: its seat number, and a
/// beginning of the history that ends with its own last call or later.
#[derive(Drop)]
pub struct TurnSeat<O: Object> {
    pub(crate) seat: Seat<Option<O>, View<O>>,
    pub(crate) left: u64,
    pub(crate) count: u64,
    ghost counted: { length (seen_of seat.me.0) ≡ count },
    ghost idle: { is_idle seat.me ≡ true },
    ghost lefts: { lefts seat.me.0 ≡ left },
    ghost spread: { 0 < stride_of seat.me.0 },
}
