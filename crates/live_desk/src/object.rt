use crate::waiting::Waiting;
use proxy_core::{Desk, Dest, Taken, Timed, Verdict};
use std::alloc::{AllocError, Global};
use std::sync::Arc;
use turn_desk::Object;

/// The desk of one switch, as what a turn lock keeps.
#[derive(Drop)]
pub struct DeskObject {
    /// Where a step takes its memory.
    pub alloc: Global,
    pub desk: Desk,
    /// Who is to be woken after a step.
    pub waiting: Arc<Waiting, Global>,
}

/// What a desk is asked in one turn.
#[derive(Drop)]
pub enum DeskOp {
    /// To take in an event.
    Step(Timed),
    /// For the oldest message that waits for a destination.
    Take(Dest),
}

/// What it answers in one turn.
#[derive(Drop)]
pub enum DeskReply {
    /// What becomes of the connection that the event came from; or memory ran out.
    Stepped(Result<Verdict, AllocError>),
    /// What is there to be sent.
    Took(Taken),
}

impl Object for DeskObject {
    ghost use Rattle.live_desk.specs.Operates.{Operates};

    type Op = DeskOp;

    type Reply = DeskReply;

    ghost acts = { λ old op reply new. Operates old op reply new };

    fn act(&mut self, op: DeskOp) -> DeskReply {
        match op {
            DeskOp::Step(timed) => {
                let was_open = self.desk.is_open();
                let stepped = self.desk.step(self.alloc, timed);
                self.waiting.note(&self.desk, was_open);
                self.waiting.note_lane(self.desk.lane_bytes());
                DeskReply::Stepped(stepped)
            }
            DeskOp::Take(dest) => {
                let taken = self.desk.take(dest);
                self.waiting.note_lane(self.desk.lane_bytes());
                DeskReply::Took(taken)
            }
        }
    }
}
