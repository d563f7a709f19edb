//! What a seat knows. No value of these types is ever made.

use std::collections::LinkedList;

// One turn: the number of the seat whose it was, what was asked and what was answered.
pub struct Entry<P, R> {
    pub by: u64,
    pub op: P,
    pub reply: R,
}

// Whether a seat has a ticket, and the turn.
pub enum Stage<O> {
    Idle,
    Waits(u64),
    Holds(u64, O),
}

// The first object, and the seat's number. Then the distance of the numbers `number + stride`,
// `number + 2 * stride` and so on, which the seat may give to seats that are split off. Then the calls that
// are left, the list that the seat has seen, a beginning of that list that has all the seat's own calls, and
// the list of the seat that it met last.
pub struct Member<O, P, R> {
    pub first: O,
    pub number: u64,
    pub stride: u64,
    pub left: u64,
    pub stage: Stage<O>,
    pub seen: LinkedList<Entry<P, R>>,
    pub mine: LinkedList<Entry<P, R>>,
    pub other: LinkedList<Entry<P, R>>,
}
