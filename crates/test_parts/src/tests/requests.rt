//! The requests of a slice, beside a plain list of all of them.

use crate::tests::tables::{Part, expect_alike, play};
use draws::Draws;
use expectations::told;
use std::alloc::{AllocError, Global};
use std::test::Fail;
use xid_map::{AskKind, Asked, Issued, XidMap};

fn asked(xid: u32, kind: AskKind) -> Asked {
    Asked {
        xid,
        first: [(xid % 256) as u8; 64],
        first_len: 64,
        kind,
        port: 7,
    }
}

/// What a slice's requests are asked.
enum Call {
    /// So many are issued. Have they the transaction ids from this one on?
    Issue(u32, u32),
    /// The number of the one that has this transaction id.
    Find(u32),
    Next,
}

/// The requests of a slice.
#[derive(Drop)]
struct Requests {
    alloc: Global,
    map: XidMap,
}

/// Issues the request, if there were not too many. The answer is its transaction id.
fn issue(map: &mut XidMap, asked: Asked) -> u32 {
    if map.next().0 < 1_000_000 {
        map.issue(asked)
    } else {
        0
    }
}

impl Part<Call> for Requests {
    fn answer(&mut self, call: &Call) -> Result<String, AllocError> {
        match *call {
            Call::Issue(count, first) => {
                let mut follow = true;
                for xid in 0..count {
                    follow &= issue(&mut self.map, asked(xid, AskKind::FlowMod))
                        == first.wrapping_add(xid);
                }
                told(self.alloc, &follow)
            }
            Call::Find(physical) => match self.map.find(physical) {
                Some(found) => told(self.alloc, &found.number),
                None => told(self.alloc, &"none"),
            },
            Call::Next => told(self.alloc, &self.map.next()),
        }
    }
}

const ISSUED: &[(Call, &str)] = &[
    (Call::Next, "(0, 16777216)"),
    (Call::Issue(4097, 0x0100_0000), "true"),
    (Call::Find(0x0100_0000), "\"none\""),
    (Call::Find(0x0100_0001), "1"),
    (Call::Find(0x0200_0001), "\"none\""),
    (Call::Next, "(4097, 16781313)"),
];

#[test]
fn the_oldest_of_4097_is_forgotten(rt: HostRuntime) -> Result<(), Fail> {
    let alloc = rt.alloc();
    let map = XidMap::new(alloc, 1)?;
    play(&mut Requests { alloc, map }, ISSUED)
}

/// The request under a transaction id of slot 5, among the last 4,096 of all since the last forgetting.
fn listed(requests: &[Issued], physical: u32) -> Option<Issued> {
    let from = requests.len().saturating_sub(4096);
    for request in &requests[from..] {
        if 0x0500_0000 + request.number % 0x0100_0000 == u64::from(physical) {
            return Some(*request);
        }
    }
    None
}

/// Marks the request in both, as failed or as done.
fn mark(map: &mut XidMap, requests: &mut [Issued], number: u64, failed: bool) {
    if failed {
        map.mark_error(number);
    } else {
        map.mark_done(number);
    }
    for request in requests {
        if request.number == number {
            request.failed |= failed;
            request.done |= !failed;
        }
    }
}

/// Issues the request in both. Has it the transaction id that was foretold?
fn issue_both(
    map: &mut XidMap,
    requests: &mut Vec<Issued>,
    asked: Asked,
) -> Result<bool, AllocError> {
    let (number, physical) = map.next();
    let (failed, done) = (false, false);
    requests.push(Issued {
        number,
        asked,
        failed,
        done,
    })?;
    Ok(issue(map, asked) == physical)
}

#[test]
fn finds_as_the_list_of_all_requests(rt: HostRuntime) -> Result<(), Fail> {
    let mut draws = Draws::new(2);
    let mut map = XidMap::new(rt.alloc(), 5)?;
    let mut requests = Vec::new(rt.alloc());
    let (mut hits, mut forgets, mut wraps) = (0u32, 0u32, 0u32);
    for step in 0..12_000u32 {
        let (number, _) = map.next();
        let other = number
            .saturating_add(2)
            .saturating_sub(draws.number_below(4_200));
        match draws.number_below(4_000) {
            0 => {
                map.forget_all();
                requests.clear();
                forgets = forgets.saturating_add(1);
            }
            1..400 => mark(&mut map, &mut requests, other, draws.number_below(2) == 0),
            _ => expect_alike(
                step,
                issue_both(&mut map, &mut requests, asked(step, AskKind::Flow))?,
            )?,
        }
        let sought = 0x0500_0000 + (other % 0x0100_0000) as u32;
        let found = map.find(sought);
        expect_alike(step, found == listed(&requests, sought))?;
        if let Some(request) = found {
            hits = hits.saturating_add(u32::from(request.failed || request.done));
        }
        wraps = wraps.saturating_add(u32::from(requests.len() > 4096));
    }
    if hits > 100 && forgets > 0 && wraps > 2_000 {
        Ok(())
    } else {
        Err(Fail::new(format_args!("hits {hits}, forgets {forgets}, wraps {wraps}")))
    }
}
