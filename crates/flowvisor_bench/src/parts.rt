//! The parts of a slice: its requests, its rate, and the pairs that it has booked.

use flow_book::FlowBook;
use of10_flow::protocol::{ADD, MODIFY};
use of10_match::Match;
use rate_bucket::RateBucket;
use samples::tcp;
use std::alloc::{AllocError, Global};
use xid_map::{AskKind, Asked, XidMap};

/// How many requests are remembered.
const REMEMBERED: u64 = 4_096;

/// How many pairs are booked. Their matches are those of the first TCP ports.
const BOOKED: u16 = 4_096;

/// How many TCP ports there are matches of. Those of the last ports are not booked.
const PORTS: u16 = 4_608;

/// So many pairs have one priority.
const OF_PRIORITY: u16 = 512;

/// The most requests that a map may issue.
const MOST_REQUESTS: u64 = 1 << 62;

/// The first transaction id of the slice in slot 1, and how many it has.
const FIRST_ID: u32 = 0x0100_0000;

const IDS: u32 = 0x0100_0000;

/// A call to a part of a slice.
#[derive(Clone, Copy)]
pub enum Part {
    /// Issuing a request.
    Issue,
    /// Finding a request by its transaction id.
    Find,
    /// Asking whether a message keeps the rate.
    Ask,
    /// Looking a pair up.
    Booked,
    /// Whether a piece shares a header with a booked match of a priority.
    Overlaps,
    /// Counting what a MODIFY would book.
    Newcomers,
}

impl Part {
    /// Makes so many calls, and counts what they find.
    pub fn run(self, alloc: Global, count: u64) -> Result<u64, AllocError> {
        match self {
            Part::Issue => issue(alloc, count),
            Part::Find => find(alloc, count),
            Part::Ask => Ok(ask(count)),
            Part::Booked | Part::Overlaps | Part::Newcomers => self.consult(alloc, count),
        }
    }
}

/// A flow-mod of the slice.
fn asked(xid: u32) -> Asked {
    Asked {
        xid,
        first: [0; 64],
        first_len: 64,
        kind: AskKind::FlowMod,
        port: 0,
    }
}

/// A map that has issued so many requests, and how many of their transaction ids are the slice's.
fn issued(alloc: Global, count: u64) -> Result<(XidMap, u64), AllocError> {
    let mut map = XidMap::new(alloc, 1)?;
    let mut found = 0u64;
    for number in 0..count.min(MOST_REQUESTS) {
        let id = map.issue(asked((number % u64::from(IDS)) as u32));
        if id / IDS == FIRST_ID / IDS {
            found = found.saturating_add(1);
        }
    }
    Ok((map, found))
}

/// Issues so many requests, and counts the transaction ids that are the slice's.
fn issue(alloc: Global, count: u64) -> Result<u64, AllocError> {
    let (_map, found) = issued(alloc, count)?;
    Ok(found)
}

/// Looks so often for one of the remembered requests, and counts those that are found by their numbers.
fn find(alloc: Global, count: u64) -> Result<u64, AllocError> {
    let (map, _) = issued(alloc, REMEMBERED)?;
    let mut found = 0u64;
    for number in 0..count {
        let spread = number % REMEMBERED * 1_031 % REMEMBERED;
        let request = map.find(FIRST_ID + spread as u32);
        if let Some(request) = request {
            found = found.saturating_add(u64::from(request.number == spread));
        }
    }
    Ok(found)
}

/// Asks so often, two questions a millisecond of which one may be asked, and counts the answers that are
/// yes.
fn ask(count: u64) -> u64 {
    let mut bucket = RateBucket::new(1_000, 1_000);
    let mut found = 0u64;
    for number in 0..count {
        if bucket.ask(number / 2) {
            found = found.saturating_add(1);
        }
    }
    found
}

fn priority(port: u16) -> u16 {
    port / OF_PRIORITY
}

/// The TCP port that a number picks. Those of two numbers in a row are far apart.
fn picked(number: u64) -> u16 {
    (number % u64::from(PORTS) * 1_031 % u64::from(PORTS)) as u16
}

/// The match of each TCP port.
fn matches(alloc: Global) -> Result<Vec<Match>, AllocError> {
    let mut matches = Vec::new(alloc);
    for port in 0..PORTS {
        matches.push(tcp(None, port))?;
    }
    Ok(matches)
}

/// Books a pair.
fn add(book: &mut FlowBook, piece: &Match, priority: u16) -> Result<(), AllocError> {
    book.reserve(1)?;
    if book.count() < u32::from(PORTS) {
        book.added(ADD, &[*piece], priority, false, 0);
    }
    Ok(())
}

/// The book with its pairs.
fn filled(alloc: Global) -> Result<FlowBook, AllocError> {
    let mut book = FlowBook::new(alloc);
    for port in 0..BOOKED {
        add(&mut book, &tcp(None, port), priority(port))?;
    }
    Ok(book)
}

impl Part {
    /// The TCP port of the match that a call with this number is about. A MODIFY includes none of the booked matches,
    /// so that it is compared with each.
    fn port(self, number: u64) -> u16 {
        match self {
            Part::Newcomers => BOOKED + (number % u64::from(PORTS - BOOKED)) as u16,
            _ => picked(number),
        }
    }

    /// Asks the book about a match: whether it is booked, whether it overlaps at one priority after the other, or
    /// what a MODIFY would book.
    fn found(self, book: &FlowBook, piece: &Match, number: u64) -> u64 {
        match self {
            Part::Overlaps => u64::from(book.overlaps(&[*piece], (number % 8) as u16)),
            Part::Newcomers => u64::from(book.newcomers(MODIFY, &[*piece], 0)),
            _ => u64::from(book.booked(piece, priority(picked(number))).is_some()),
        }
    }

    /// Asks the book so often, and counts what is found.
    fn consult(self, alloc: Global, count: u64) -> Result<u64, AllocError> {
        let matches = matches(alloc)?;
        let book = filled(alloc)?;
        let mut found = 0u64;
        for number in 0..count {
            if let Some(piece) = matches.get(usize::from(self.port(number))) {
                found = found.saturating_add(self.found(&book, piece, number));
            }
        }
        Ok(found)
    }
}
