//! One turn: a ticket, looks until it is served, the object's step where it lies, and the pass to the next.

ghost use Rattle.std.specs.Prelude.{true, [], ◌∷◌, MatchBool, length, ◌≡◌, ◌<◌, ◌+◌, ◌^◌};
ghost use Rattle.std.specs.declared.option.Option.TheVariants.{Some};
ghost use Rattle.turn_desk.specs.Histories.{Called, seen_of};
ghost use Rattle.turn_desk.specs.Rule.{stride_of, WaitsWith, drawn_view, TakesTurn, HoldsWith, passed_view, is_idle, lefts};

use crate::object::Object;
use crate::parts::{TurnDesk, View};
use crate::rule::{Draws, Looks, Passes, Said};
use atomic_table::Seat;
use std::marker::Brand;
use std::snapshot::Snapshot;
use std::sync::Wait;
use std::thread;

impl<O: Object> TurnDesk<O> {
    // A ticket.
    fn draw(&self, seat: &mut Seat<Option<O>, View<O>>) -> u64
        requires desk { seat.old.table_id ≡ self.now.table.shared.table_id }
        requires idle { is_idle seat.old.me ≡ true }
        requires left { 0 < lefts seat.old.me.0 }
        ensures desk { seat.new.table_id ≡ seat.old.table_id }
        ensures view { seat.new.me ≡ (drawn_view result seat.old.me.0, []) }
        ensures small { result < 2 ^ 63 }
    {
        self.table.shared.fetch_add::<Draws>(seat, 0, 1)
    }

    // Whether the turn of the ticket has come.
    fn look(&self, seat: &mut Seat<Option<O>, View<O>>, ticket: u64) -> bool
        requires desk { seat.old.table_id ≡ self.now.table.shared.table_id }
        requires waits { WaitsWith ticket seat.old.me }
        ensures desk { seat.new.table_id ≡ seat.old.table_id }
        ensures turn { MatchBool result (TakesTurn O.acts ticket seat.old.me.0 seat.new.me) (seat.new.me ≡ seat.old.me) }
    {
        self.table.shared.load::<Looks<O>>(seat, 1) == ticket
    }

    // Looks until the turn of the ticket has come, and lets other threads on between two looks.
    fn wait<R: Wait>(&self, rt: &R, seat: &mut Seat<Option<O>, View<O>>, ticket: u64)
        requires desk { seat.old.table_id ≡ self.now.table.shared.table_id }
        requires waits { WaitsWith ticket seat.old.me }
        ensures desk { seat.new.table_id ≡ seat.old.table_id }
        ensures turn { TakesTurn O.acts ticket seat.old.me.0 seat.new.me }
    {
        for _ in rt.forever() {
            if self.look(seat, ticket) {
                return;
            }
            thread::yield_now();
        }
        unreachable!()
    }

    // The object makes the step where it lies.
    fn act_in_place(&self, seat: &mut Seat<Option<O>, View<O>>, op: O::Op) -> O::Reply
        requires desk { seat.old.table_id ≡ self.now.table.shared.table_id }
        requires turn { (x : O) × (seat.old.me.1 ≡ (0, Some x) ∷ []) }
        ensures desk { seat.new.table_id ≡ seat.old.table_id }
        ensures acted { (x : O) × (y : O) × (seat.old.me.1 ≡ (0, Some x) ∷ []) × (seat.new.me ≡ (seat.old.me.0, (0, Some y) ∷ [])) × O.acts x op result y }
    {
        let Some(object) = seat.slot_mut(&self.table.shared, 0) else {
            unreachable!()
        };
        object.act(op)
    }

    // Gives the object back and passes the turn. The history grows by what was said.
    fn pass<W: Said<O::Op, O::Reply>>(
        &self,
        seat: &mut Seat<Option<O>, View<O>>,
        op: Snapshot<O::Op>,
        reply: Snapshot<O::Reply>,
    )
        requires said { (W.op ≡ Some op.value) × (W.reply ≡ Some reply.value) }
        requires desk { seat.old.table_id ≡ self.now.table.shared.table_id }
        requires holds { HoldsWith O.acts op.value reply.value seat.old.me }
        ensures desk { seat.new.table_id ≡ seat.old.table_id }
        ensures view { seat.new.me ≡ (passed_view op.value reply.value seat.old.me.0, []) }
    {
        self.table.shared.fetch_add::<Passes<W>>(seat, 1, 1);
    }

    // One turn: the number of turns before it, and the reply.
    pub(crate) fn turn<R: Wait>(
        &self,
        rt: &R,
        seat: &mut Seat<Option<O>, View<O>>,
        op: O::Op,
    ) -> (u64, O::Reply)
        requires desk { seat.old.table_id ≡ self.now.table.shared.table_id }
        requires idle { is_idle seat.old.me ≡ true }
        requires left { 0 < lefts seat.old.me.0 }
        ensures desk { seat.new.table_id ≡ seat.old.table_id }
        ensures idle { is_idle seat.new.me ≡ true }
        ensures left { lefts seat.new.me.0 + 1 ≡ lefts seat.old.me.0 }
        ensures stride { stride_of seat.new.me.0 ≡ stride_of seat.old.me.0 }
        ensures count { length (seen_of seat.new.me.0) ≡ result.0 + 1 }
        ensures called { Called O.acts seat.old.me.0 op result.1 seat.new.me.0 }
        ensures small { result.0 < 2 ^ 63 }
    {
        let ticket = self.draw(seat);
        self.wait(rt, seat, ticket);
        let said = Snapshot::of(&op);
        let reply = self.act_in_place(seat, op);
        self.pass::<Brand>(seat, said, Snapshot::of(&reply));
        (ticket, reply)
    }
}
