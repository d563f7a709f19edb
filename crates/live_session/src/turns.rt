//! When a reader has the desk to itself, and when others have their turn. None of it has a clause: nothing is claimed
//! of waking.

use crate::bells::Bells;
use crate::side::Side;
use fv_live::Host;
use std::sync::{MutexGuard, Wait};
use std::thread;
use std::time::{Duration, Instant};

/// After how many of a slice's messages others have their turn: one of them may cost as much as many packets do.
const MESSAGES_OF_A_SLICE: u32 = 16;

/// After how many microseconds a slice's messages let others have their turn, though there are fewer, and rest.
const SHARE_OF_A_SLICE: u64 = 200;

/// How many times as long as such messages took the slice then leaves the desk to the others: dear messages, one
/// behind the other, have it for a quarter of the time.
const REST: u32 = 3;

/// The longest rest, in seconds: the time that messages took may be that in which the system ran other threads.
const LONGEST_REST: u64 = 1;

/// The same of a switch's messages.
const MESSAGES_OF_A_SWITCH: u32 = 1024;

/// The turns of a reader while it hands on the messages of one piece.
#[derive(Drop)]
pub(crate) struct Turns<'a> {
    bells: &'a Bells,
    side: Side,
    // Whether others have their turn after each message.
    each: bool,
    // How many messages are handed on before others have their turn.
    left: u32,
    hold: Option<MutexGuard<'a, ()>>,
    // Since when, of a slice.
    since: Option<Instant>,
}

fn messages_of(side: Side) -> u32 {
    match side {
        Side::Switch => MESSAGES_OF_A_SWITCH,
        Side::Slice(_) => MESSAGES_OF_A_SLICE,
    }
}

impl<'a> Turns<'a> {
    /// Those of a reader of this side. Where others have their turn after each message, as the gate of a test wants
    /// it, no message waits for room in the lane either.
    pub(crate) fn new(bells: &'a Bells, side: Side, each: bool) -> Turns<'a> {
        Turns {
            bells,
            side,
            each,
            left: messages_of(side),
            hold: None,
            since: None,
        }
    }

    fn take_hold<R: Host>(&mut self, rt: &R) {
        if self.hold.is_some() {
            return;
        }
        self.hold = Some(self.bells.hold(rt));
        if matches!(self.side, Side::Slice(_)) {
            self.since = Instant::now(rt).ok();
        }
    }

    /// How long a slice rests that has had the desk for longer than its share. Where others have their turn after each
    /// message anyway, as the gate of a test wants it, none does.
    fn rest<R: Host>(&self, rt: &R) -> Option<Duration> {
        if self.each {
            return None;
        }
        let had = self.since?.elapsed(rt).ok()?;
        let rest = had
            .saturating_mul(REST)
            .min(Duration::from_secs(LONGEST_REST));
        (had > Duration::from_micros(SHARE_OF_A_SLICE)).then_some(rest)
    }

    // What goes on wakes those for whom messages wait. What ends is also the end of those who wait for its side.
    fn wake<R: Wait>(&self, rt: &R, goes_on: bool) {
        if goes_on {
            self.bells.ring(rt);
        } else {
            self.bells.ring_for(rt, self.side);
        }
    }

    fn let_go(&mut self) {
        drop(self.hold.take());
        self.left = messages_of(self.side);
    }

    /// Before a message: nobody else asks the desk. One that a slice has for the switch waits while much waits there
    /// already, so that no slice fills the lane up.
    pub(crate) fn begin<R: Host>(&mut self, rt: &R, is_for_the_switch: bool) {
        self.take_hold(rt);
        if self.each || !is_for_the_switch {
            return;
        }
        for _ in rt.forever() {
            if !self.bells.is_lane_full() {
                return;
            }
            self.let_go();
            self.bells.ring(rt);
            self.bells.wait_for_room(rt);
            self.take_hold(rt);
        }
    }

    /// After a message, by which the connection goes on or not. A slice whose messages took long rests.
    pub(crate) fn end<R: Host>(&mut self, rt: &R, goes_on: bool) {
        self.left = self.left.saturating_sub(1);
        let rest = self.rest(rt);
        if self.each || self.left == 0 || !goes_on || rest.is_some() {
            self.let_go();
            self.wake(rt, goes_on);
        }
        match rest {
            Some(rest) if goes_on => thread::sleep(rt, rest),
            _ => {}
        }
    }

    /// The desk has said that the connection is over. Who is woken then sees that a switch's is.
    pub(crate) fn close(&self) {
        self.bells.end(self.side);
    }

    /// After all messages.
    pub(crate) fn finish<R: Wait>(mut self, rt: &R) {
        self.let_go();
        self.bells.ring(rt);
    }
}
