//! Seats are split, joined and met.

ghost use Rattle.std.specs.Prelude.{true, ◌≡◌, ◌≢◌, ◌≤◌, ◌+◌, ◌^◌, length};
ghost use Rattle.turn_desk.specs.Histories.{GoesOn, NoneBy, StartsWith, longer};
ghost use Rattle.turn_desk.specs.Rule.{is_idle, joined, Known};
ghost use Rattle.turn_desk.specs.Seats.{IsSeatOf, SameDesk, own_number, seen, first};

use crate::object::Object;
use crate::parts::{TurnDesk, TurnSeat, View};
use crate::rule::{Amount, Cut, Learns, Merges};
use atomic_table::Seat;
use std::marker::Brand;

impl<O: Object> TurnSeat<O> {
    /// The calls that are left.
    pub fn left(&self) -> u64
        ensures { result ≡ self.now.left }
    {
        self.left
    }
}

impl<O: Object> TurnDesk<O> {
    // As `split`, where the caller says once more how many calls go.
    fn cut<W: Amount>(&self, seat: &mut TurnSeat<O>, calls: u64) -> TurnSeat<O>
        requires amount { W.calls ≡ calls }
        requires desk { IsSeatOf self.now seat.old }
        requires enough { calls ≤ seat.old.left }
        ensures desk { SameDesk seat.new seat.old × SameDesk result seat.old }
        ensures calls { (result.left ≡ calls) × (seat.new.left + calls ≡ seat.old.left) }
        ensures seen { (seen seat.new ≡ seen seat.old) × (seen result ≡ seen seat.old) }
        ensures number { own_number seat.new ≡ own_number seat.old }
        ensures own { own_number result ≢ own_number seat.new }
        ensures fresh { NoneBy (own_number result) (seen result) }
        ensures first { (first seat.new ≡ first seat.old) × (first result ≡ first seat.old) }
    {
        let mut other = self.table.shared.split_seat::<Cut<W>>(&mut seat.seat);
        self.learn(&mut other);
        seat.left -= calls;
        TurnSeat {
            seat: other,
            left: calls,
            count: seat.count,
        }
    }

    /// A new seat with a number of its own, of which there is no entry yet. It has seen what `seat` has seen, and
    /// has `calls` of the calls that `seat` had left, and `seat` keeps the rest. Takes no memory.
    pub fn split(&self, seat: &mut TurnSeat<O>, calls: u64) -> TurnSeat<O>
        requires desk { IsSeatOf self.now seat.old }
        requires enough { calls ≤ seat.old.left }
        ensures desk { SameDesk seat.new seat.old × SameDesk result seat.old }
        ensures calls { (result.left ≡ calls) × (seat.new.left + calls ≡ seat.old.left) }
        ensures seen { (seen seat.new ≡ seen seat.old) × (seen result ≡ seen seat.old) }
        ensures number { own_number seat.new ≡ own_number seat.old }
        ensures own { own_number result ≢ own_number seat.new }
        ensures fresh { NoneBy (own_number result) (seen result) }
        ensures first { (first seat.new ≡ first seat.old) × (first result ≡ first seat.old) }
    {
        self.cut::<Brand>(seat, calls)
    }

    // A load, by which a seat learns which entries of its list aren't its own, and that what the one that it met had
    // seen begins it.
    fn learn(&self, seat: &mut Seat<Option<O>, View<O>>)
        requires desk { seat.old.table_id ≡ self.now.table.shared.table_id }
        ensures desk { seat.new.table_id ≡ seat.old.table_id }
        ensures view { seat.new.me ≡ seat.old.me }
        ensures known { Known seat.new.me.0 }
    {
        self.table.shared.load::<Learns>(seat, 1);
    }

    // The calls of both, and the longer list.
    fn merge(&self, seat: &mut Seat<Option<O>, View<O>>, other: Seat<Option<O>, View<O>>)
        requires desk { (seat.old.table_id ≡ self.now.table.shared.table_id) × (other.table_id ≡ self.now.table.shared.table_id) }
        requires idle { (is_idle seat.old.me ≡ true) × (is_idle other.me ≡ true) }
        ensures desk { seat.new.table_id ≡ seat.old.table_id }
        ensures view { seat.new.me ≡ (joined seat.old.me.0 other.me.0, seat.old.me.1) }
        ensures known { Known seat.new.me.0 }
    {
        self.table.shared.join_seat::<Merges>(seat, other);
        self.learn(seat);
    }

    /// Ends `other`. The calls that it had left are added to those of `seat`, which has then seen the longer
    /// of the two lists; the other is a beginning of it. What is new to `seat` has no entry of its own, and no
    /// more calls are left than the desk has ever had but for those on the list.
    pub fn join(&self, seat: &mut TurnSeat<O>, other: TurnSeat<O>)
        requires desk { IsSeatOf self.now seat.old × IsSeatOf self.now other }
        ensures desk { SameDesk seat.new seat.old }
        ensures calls { seat.new.left ≡ seat.old.left + other.left }
        ensures seen { seen seat.new ≡ longer (seen seat.old) (seen other) }
        ensures mine { StartsWith (seen seat.new) (seen seat.old) }
        ensures own { GoesOn (own_number seat.old) (seen seat.new) (seen seat.old) }
        ensures theirs { StartsWith (seen seat.new) (seen other) }
        ensures number { own_number seat.new ≡ own_number seat.old }
        ensures within { seat.new.left + length (seen seat.new) ≤ 2 ^ 63 }
        ensures first { first seat.new ≡ first seat.old }
    {
        let TurnSeat {
            seat: spent,
            left,
            count,
        } = other;
        self.merge(&mut seat.seat, spent);
        seat.left += left;
        seat.count = seat.count.max(count);
    }

    /// Both seats have then seen the longer of their two lists; the other is a beginning of it. What is new to
    /// a seat has no entry of its own.
    pub fn meet(&self, a: &mut TurnSeat<O>, b: &mut TurnSeat<O>)
        requires desk { IsSeatOf self.now a.old × IsSeatOf self.now b.old }
        ensures desk { SameDesk a.new a.old × SameDesk b.new b.old }
        ensures calls { (a.new.left ≡ a.old.left) × (b.new.left ≡ b.old.left) }
        ensures longer { seen b.new ≡ longer (seen b.old) (seen a.old) }
        ensures same { seen a.new ≡ seen b.new }
        ensures from_a { StartsWith (seen b.new) (seen a.old) }
        ensures from_b { StartsWith (seen b.new) (seen b.old) }
        ensures own { GoesOn (own_number a.old) (seen a.new) (seen a.old) × GoesOn (own_number b.old) (seen b.new) (seen b.old) }
        ensures number { (own_number a.new ≡ own_number a.old) × (own_number b.new ≡ own_number b.old) }
        ensures first { (first a.new ≡ first a.old) × (first b.new ≡ first b.old) }
    {
        let one = self.split(a, 0);
        self.join(b, one);
        let two = self.split(b, 0);
        self.join(a, two);
    }
}
