//! The messages that wait for a connection, within its limit.

use crate::tests::tables::{Part, play};
use expectations::told;
use of10_ctl::message;
use outbox::Outbox;
use std::alloc::{AllocError, Global};
use std::test::Fail;

const LIMIT: u64 = 4_194_304;

/// What is done to the messages that wait.
enum Call {
    /// An ECHO_REPLY with this transaction and so many bytes behind the header is put there.
    Put(u32, u16),
    /// The same with each transaction from 1 on, so many times.
    PutEach(u32, u16),
    /// The answer is the transaction of the oldest.
    Take,
    /// The answer is those of all, the oldest first.
    TakeAll,
    Clear,
}

/// The messages that wait.
#[derive(Drop)]
struct Waiting {
    alloc: Global,
    outbox: Outbox,
}

impl Waiting {
    fn put(&mut self, xid: u32, body: u16) -> Result<(), AllocError> {
        let body = vec![in self.alloc; 0; usize::from(body.min(65527))]?;
        let frame = message(self.alloc, 3, xid, &body)?;
        self.outbox.reserve(1)?;
        self.outbox.push(frame);
        Ok(())
    }

    /// The transactions of so many messages at most that are taken, the oldest first.
    fn taken(&mut self, most: u32) -> Result<Vec<u32>, AllocError> {
        let mut xids = Vec::new(self.alloc);
        for _ in 0..most {
            match self.outbox.take() {
                Some(frame) => xids.push(frame.head().xid)?,
                None => break,
            }
        }
        Ok(xids)
    }
}

/// The answer says the transactions that were taken, and whether the connection is choked.
impl Part<Call> for Waiting {
    fn answer(&mut self, call: &Call) -> Result<String, AllocError> {
        let mut taken = Vec::new(self.alloc);
        match *call {
            Call::Put(xid, body) => self.put(xid, body)?,
            Call::PutEach(count, body) => {
                for xid in 0..count {
                    self.put(xid + 1, body)?;
                }
            }
            Call::Take => taken = self.taken(1)?,
            Call::TakeAll => taken = self.taken(1000)?,
            Call::Clear => self.outbox.clear(),
        }
        told(self.alloc, &(taken, self.outbox.choked()))
    }
}

/// Plays the calls on an outbox with a limit.
fn play_messages(alloc: Global, limit: u64, rows: &[(Call, &str)]) -> Result<(), Fail> {
    let outbox = Outbox::new(alloc, limit);
    play(&mut Waiting { alloc, outbox }, rows)
}

const CHOKED: &[(Call, &str)] = &[
    (Call::Put(0, 0), "([], false)"),
    (Call::PutEach(64, 65527), "([], false)"),
    (Call::Put(65, 65527), "([], true)"),
    (Call::Put(66, 0), "([], true)"),
    (
        Call::TakeAll,
        "([0, 1, 2, 3, 4, 5, 6, 7, 8, 9, 10, 11, 12, 13, 14, 15, 16, 17, 18, 19, 20, 21, 22, 23, 24, 25, 26, 27, 28, \
        29, 30, 31, 32, 33, 34, 35, 36, 37, 38, 39, 40, 41, 42, 43, 44, 45, 46, 47, 48, 49, 50, 51, 52, 53, 54, 55, \
        56, 57, 58, 59, 60, 61, 62, 63, 64], true)",
    ),
    (Call::Put(67, 0), "([], true)"),
    (Call::Take, "([], true)"),
    (Call::Clear, "([], false)"),
    (Call::Put(68, 0), "([], false)"),
    (Call::TakeAll, "([68], false)"),
];

#[test]
fn the_65th_of_the_longest_messages_chokes(rt: HostRuntime) -> Result<(), Fail> {
    play_messages(rt.alloc(), LIMIT, CHOKED)
}

const ROOM: &[(Call, &str)] = &[
    (Call::Put(1, 4), "([], false)"),
    (Call::Put(2, 0), "([], false)"),
    (Call::Take, "([1], false)"),
    (Call::Put(3, 4), "([], false)"),
    (Call::Put(4, 0), "([], true)"),
    (Call::TakeAll, "([2, 3], true)"),
];

#[test]
fn what_was_taken_leaves_room(rt: HostRuntime) -> Result<(), Fail> {
    play_messages(rt.alloc(), 20, ROOM)
}
