//! A desk is made, asked and closed.

ghost use Rattle.std.specs.Prelude.{[], length, IfOk, IfErr, IfSome, IfNone, ◌≡◌, ◌≤◌, ◌<◌, ◌+◌, ◌^◌};
ghost use Rattle.std.specs.declared.option.Option.TheVariants.{Some};
ghost use Rattle.turn_desk.specs.Histories.{Called, Runs};
ghost use Rattle.turn_desk.specs.Seats.{IsSeatOf, SameDesk, first, first_object, seen, view};

use crate::object::Object;
use crate::parts::{TurnDesk, TurnSeat};
use atomic_table::Table;
use std::alloc::{AllocError, Global};
use std::snapshot::Snapshot;
use std::sync::Wait;

/// The seat has no calls left.
#[derive(Clone, Copy, Debug, PartialEq, Eq)]
pub struct Spent;

impl<O: Object> TurnDesk<O> {
    /// A desk with this object, and its first seat, which has seen nothing and has 2^63 calls.
    pub fn new(alloc: Global, object: O) -> Result<(TurnDesk<O>, TurnSeat<O>), AllocError>
        ensures seat { IfOk result (λ made. IsSeatOf made.0 made.1) }
        ensures calls { IfOk result (λ made. made.1.left ≡ 2 ^ 63) }
        ensures seen { IfOk result (λ made. seen made.1 ≡ []) }
        ensures first { IfOk result (λ made. (first_object made.0 ≡ object) × (first made.1 ≡ Some object)) }
    {
        let about = Snapshot::of(&object);
        let mut slots = Vec::new(alloc);
        slots.push(Some(object))?;
        match Table::new(alloc, &[0, 0], slots, &about) {
            Ok((table, seat)) => Ok((
                TurnDesk { table },
                TurnSeat {
                    seat,
                    left: 1 << 63,
                    count: 0,
                },
            )),
            Err(_) => Err(AllocError),
        }
    }

    /// One turn, for which it waits. The reply is the object's at this place of the one history. The list
    /// that the seat has seen goes on, and ends with this call. `Spent` exactly where the seat has no calls
    /// left. A turn takes no memory beyond the object's own.
    pub fn submit<R: Wait>(
        &self,
        rt: &R,
        seat: &mut TurnSeat<O>,
        op: O::Op,
    ) -> Result<O::Reply, Spent>
        requires desk { IsSeatOf self.now seat.old }
        ensures desk { SameDesk seat.new seat.old }
        ensures called { IfOk result (λ reply. Called O.acts (view seat.old) op reply (view seat.new)) }
        ensures fewer { IfOk result (λ reply. seat.new.left + 1 ≡ seat.old.left) }
        ensures spent { IfErr result (λ e. (seat.old.left ≡ 0) × (seat.new ≡ seat.old)) }
    {
        if seat.left == 0 {
            return Err(Spent);
        }
        let (before, reply) = self.turn(rt, &mut seat.seat, op);
        seat.left -= 1;
        seat.count = before + 1;
        Ok(reply)
    }

    /// The object as the list that the seat has seen leaves it. `None` exactly where the calls that the seat
    /// has left and the length of that list are together below 2^63: another seat may have calls left, or
    /// have made calls that this one hasn't seen. Then the object is dropped.
    pub fn close(self, seat: TurnSeat<O>) -> Option<O>
        requires desk { IsSeatOf self seat }
        ensures some { IfSome result (λ object. (2 ^ 63 ≤ seat.left + length (seen seat)) × Runs O.acts (first_object self) (seen seat) object) }
        ensures none { IfNone result (seat.left + length (seen seat) < 2 ^ 63) }
    {
        let TurnDesk { table } = self;
        let TurnSeat { seat, left, count } = seat;
        let mut closed = table.close_with(seat);
        let object = closed.take(0);
        closed.free();
        if left.saturating_add(count) >= 1 << 63 {
            object
        } else {
            None
        }
    }
}
