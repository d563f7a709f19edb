//! The rule of the lock, and what its steps show.

use crate::object::Object;
use crate::view::Member;
use atomic_table::{Join, Play, Split, TableRule};
use std::marker::{Brand, PhantomData};
use std::snapshot::Snapshot;

// The rule.
pub struct Turns<O: Object> {
    of: PhantomData<O>,
}

impl<O: Object> TableRule<Option<O>, Option<Member<O, O::Op, O::Reply>>, Snapshot<O>> for Turns<O> {
    ghost use Rattle.turn_desk.specs.Rule.{IsRuled, newcomer};

    ghost holds = { λ key. IsRuled O.acts key.value };

    ghost first = { λ key. newcomer key.value };
}

// How many calls go to the new seat; each call of a program picks it.
pub trait Amount {
    ghost use Rattle.std.specs.Prelude.{ℕ};

    ghost calls: { ℕ };
}

impl Amount for Brand {
    ghost calls = { 0 };
}

// A seat is split: calls go to the new one.
pub struct Cut<W: Amount> {
    of: PhantomData<W>,
}

impl<O, P, R, W: Amount> Split<Option<Member<O, P, R>>> for Cut<W> {
    ghost use Rattle.turn_desk.specs.Rule.{cut_left, cut_right};

    ghost left = { cut_left W.calls };

    ghost right = { cut_right W.calls };
}

// Two seats become one.
pub struct Merges;

impl<O, P, R> Join<Option<Member<O, P, R>>> for Merges {
    ghost use Rattle.turn_desk.specs.Rule.{joined};
    ghost use Rattle.std.specs.declared.option.Option.TheVariants.{None};

    ghost both = { joined };

    ghost spent = { None };
}

// The load of a meet: the shorter list begins the longer.
pub struct Learns;

impl<O, P, R> Play<Option<O>, Option<Member<O, P, R>>> for Learns {
    ghost use Rattle.turn_desk.specs.Rule.{Learned};

    ghost then = { Learned };
}

// A ticket is drawn.
pub struct Draws;

impl<O, P, R> Play<Option<O>, Option<Member<O, P, R>>> for Draws {
    ghost use Rattle.turn_desk.specs.Rule.{Drawn};

    ghost then = { Drawn };
}

// A look at the ticket that is served.
pub struct Looks<O: Object> {
    of: PhantomData<O>,
}

impl<O: Object> Play<Option<O>, Option<Member<O, O::Op, O::Reply>>> for Looks<O> {
    ghost use Rattle.turn_desk.specs.Rule.{Looked};

    ghost then = { Looked O.acts };
}

// What was asked and answered in a turn; each call of a program picks it.
pub trait Said<P, R> {
    ghost use Rattle.std.specs.declared.option.Option.{Option};

    ghost op: { Option P };

    ghost reply: { Option R };
}

impl<P, R> Said<P, R> for Brand {
    ghost use Rattle.std.specs.declared.option.Option.TheVariants.{None};

    ghost op = { None };

    ghost reply = { None };
}

// The turn is passed.
pub struct Passes<W> {
    of: PhantomData<W>,
}

impl<O, P, R, W: Said<P, R>> Play<Option<O>, Option<Member<O, P, R>>> for Passes<W> {
    ghost use Rattle.turn_desk.specs.Rule.{Passed};

    ghost then = { Passed W.op W.reply };
}
