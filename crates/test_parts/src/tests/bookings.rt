//! The book of a slice beside a plain list of its pairs, and the state that a slice begins with.

ghost use Rattle.std.specs.Prelude.{◌≢◌, ◌≤◌, All, AllPairs, IfOk, length, IsTrue};

use crate::tests::tables::{Part, expect_alike, expect_seen, play};
use draws::Draws;
use expectations::{expect_told, told};
use flow_book::{Booked, FlowBook, SliceState};
use flowspace::{Slice, Text};
use match_meet::{disjoint, includes};
use of10_flow::protocol::{ADD, DELETE, MODIFY, MODIFY_STRICT};
use of10_match::Match;
use samples::{ANY, Packets, match_of};
use std::alloc::{AllocError, Global};
use std::test::Fail;

/// Matches of which some include others, by how many bits of 10.1.2.3 the destination is to have, and its TCP port
/// where it is given.
const SAMPLES: &[(u8, Option<u16>)] = &[
    (0, None),
    (0, Some(80)),
    (0, Some(22)),
    (8, None),
    (16, Some(80)),
    (32, Some(80)),
    (32, Some(22)),
    (32, None),
];

/// The sample of this number; behind the samples, the packets to 10.1.2.3 and the TCP ports from 0 on.
fn sample(which: u16) -> Match {
    let behind = which.saturating_sub(SAMPLES.len() as u16);
    let (bits, tcp) = match SAMPLES.get(usize::from(which)) {
        Some(sample) => *sample,
        None => (32, Some(behind)),
    };
    let net = 0x0a01_0203;
    match_of(&Packets {
        net,
        bits,
        tcp,
        ..ANY
    })
}

/// Whether the first doesn't include the second, which is then another.
fn differ(one: &Match, other: &Match) -> bool
    ensures { IsTrue result → one.now ≢ other.now }
{
    let _ = one.pattern();
    !includes(one, other)
}

/// Whether each piece is another match.
fn all_differ(pieces: &[Match], piece: &Match) -> bool
    ensures { IsTrue result → All (λ other. other ≢ piece.now) pieces.now }
{
    for other in pieces {
        if !differ(other, piece) {
            return false;
        }
    }
    true
}

/// The samples of these numbers, without those that one before them includes; a hundred at most.
fn apart(alloc: Global, numbers: &[u16]) -> Result<Vec<Match>, AllocError>
    ensures distinct { IfOk result (λ pieces. AllPairs (λ a b. a ≢ b) pieces.items) }
    ensures few { IfOk result (λ pieces. length pieces.items ≤ 100) }
{
    let mut pieces = Vec::new(alloc);
    for number in numbers {
        let piece = sample(*number);
        if pieces.len() < 100 && all_differ(&pieces, &piece) {
            pieces.push(piece)?;
        }
    }
    Ok(pieces)
}

/// A flow-mod without its pieces, and the quota of its slice.
#[derive(Clone, Copy)]
struct FlowMod {
    command: u16,
    priority: u16,
    asked: bool,
    number: u64,
    quota: u32,
}

/// How many of the pieces are newcomers, whether they are within the quota, and whether they overlap.
fn foretold(book: &FlowBook, sent: &FlowMod, pieces: &[Match]) -> (u32, bool, bool)
    requires distinct { AllPairs (λ a b. a ≢ b) pieces.now }
    requires few { length pieces.now ≤ 100 }
{
    (
        book.newcomers(sent.command, pieces, sent.priority),
        book.fits(sent.command, pieces, sent.priority, sent.quota),
        book.overlaps(pieces, sent.priority),
    )
}

/// Books the pieces.
fn add(book: &mut FlowBook, sent: &FlowMod, pieces: &[Match]) -> Result<(), AllocError>
    requires distinct { AllPairs (λ a b. a ≢ b) pieces.now }
    requires few { length pieces.now ≤ 100 }
{
    book.reserve(100)?;
    if book.count() < 1000 {
        book.added(sent.command, pieces, sent.priority, sent.asked, sent.number);
    }
    Ok(())
}

/// What a book is called for, about the matches that are the samples of the numbers. A flow-mod that is asked about
/// or sent has a command, pieces and a priority.
enum Call {
    /// How many pieces would it book, are they and what is booked within this quota, and do they overlap?
    Ask(u16, &'static [u16], u16, u32),
    /// It is sent, asks or not for reports of removals, and has the number of its request.
    Send(u16, &'static [u16], u16, bool, u64),
    /// The request of this number fails for a match and a priority.
    Fail(u64, u16, u16),
    /// What is no longer booked of a match and a priority?
    Remove(u16, u16),
    /// Which requests booked so many matches, from a first one on, and a priority? For one that isn't booked
    /// the answer is 0.
    Find(u16, u16, u16),
}

/// The book.
#[derive(Drop)]
struct Bookings {
    alloc: Global,
    book: FlowBook,
}

impl Bookings {
    /// Asks about the flow-mod, or sends it.
    fn flow_mod(
        &mut self,
        sent: &FlowMod,
        numbers: &[u16],
        sends: bool,
    ) -> Result<String, AllocError> {
        let pieces = apart(self.alloc, numbers)?;
        if sends {
            add(&mut self.book, sent, &pieces)?;
            told(self.alloc, &self.book.count())
        } else {
            told(self.alloc, &foretold(&self.book, sent, &pieces))
        }
    }

    fn found(&self, first: u16, count: u16, priority: u16) -> Result<String, AllocError> {
        let mut found = Vec::new(self.alloc);
        for place in 0..count {
            let booked = self
                .book
                .booked(&sample(first.saturating_add(place)), priority);
            found.push(match booked {
                Some(booked) => booked.number,
                None => 0,
            })?;
        }
        told(self.alloc, &found)
    }
}

impl Part<Call> for Bookings {
    fn answer(&mut self, call: &Call) -> Result<String, AllocError> {
        match *call {
            Call::Ask(command, numbers, priority, quota) => {
                let sent = FlowMod {
                    command,
                    priority,
                    asked: false,
                    number: 0,
                    quota,
                };
                self.flow_mod(&sent, numbers, false)
            }
            Call::Send(command, numbers, priority, asked, number) => {
                let sent = FlowMod {
                    command,
                    priority,
                    asked,
                    number,
                    quota: 0,
                };
                self.flow_mod(&sent, numbers, true)
            }
            Call::Fail(number, which, priority) => {
                self.book.failed(number, &sample(which), priority);
                told(self.alloc, &self.book.count())
            }
            Call::Remove(which, priority) => match self.book.removed(&sample(which), priority) {
                Some(booked) => told(self.alloc, &(booked.asked, booked.number)),
                None => told(self.alloc, &"none"),
            },
            Call::Find(first, count, priority) => self.found(first, count, priority),
        }
    }
}

/// Plays the calls on a book that is empty at first.
fn play_book(alloc: Global, rows: &[(Call, &str)]) -> Result<(), Fail> {
    let book = FlowBook::new(alloc);
    play(&mut Bookings { alloc, book }, rows)
}

/// The packets to TCP port 80.
const WEB: u16 = 1;

const PRIORITIES: &[(Call, &str)] = &[
    (Call::Ask(ADD, &[WEB], 10, 0), "(1, false, false)"),
    (Call::Ask(ADD, &[WEB], 10, 1), "(1, true, false)"),
    (Call::Send(ADD, &[WEB], 10, true, 7), "1"),
    (Call::Ask(MODIFY, &[WEB], 11, 1), "(0, true, false)"),
    (Call::Ask(MODIFY_STRICT, &[WEB], 11, 1), "(1, false, false)"),
    (Call::Ask(ADD, &[WEB], 10, 1), "(0, true, true)"),
    (Call::Ask(DELETE, &[WEB], 11, 1), "(0, true, false)"),
    (Call::Send(ADD, &[WEB], 10, false, 8), "1"),
    (Call::Fail(8, WEB, 10), "1"),
    (Call::Remove(WEB, 10), "(false, 7)"),
    (Call::Find(WEB, 1, 10), "[0]"),
];

#[test]
fn a_modify_looks_at_every_priority(rt: HostRuntime) -> Result<(), Fail> {
    play_book(rt.alloc(), PRIORITIES)
}

/// 37 times the numbers below 96, modulo 97, each by 8 greater, as the samples of these ports are numbered.
const MANY: &[u16] = &[
    8, 45, 82, 22, 59, 96, 36, 73, 13, 50, 87, 27, 64, 101, 41, 78, 18, 55, 92, 32, 69, 9, 46, 83,
    23, 60, 97, 37, 74, 14, 51, 88, 28, 65, 102, 42, 79, 19, 56, 93, 33, 70, 10, 47, 84, 24, 61,
    98, 38, 75, 15, 52, 89, 29, 66, 103, 43, 80, 20, 57, 94, 34, 71, 11, 48, 85, 25, 62, 99, 39,
    76, 16, 53, 90, 30, 67, 104, 44, 81, 21, 58, 95, 35, 72, 12, 49, 86, 26, 63, 100, 40, 77, 17,
    54, 91, 31,
];

/// 96 times 37 is 60 modulo 97, so that no flow-mod is for port 60.
const AT_ONCE: &[(Call, &str)] = &[
    (Call::Send(ADD, &[8], 5, true, 7), "1"),
    (Call::Send(ADD, &[56], 5, true, 7), "2"),
    (Call::Send(ADD, &[104], 5, true, 7), "3"),
    (Call::Send(ADD, MANY, 5, false, 8), "96"),
    (
        Call::Find(8, 97, 5),
        "[7, 8, 8, 8, 8, 8, 8, 8, 8, 8, 8, 8, 8, 8, 8, 8, 8, 8, 8, 8, 8, 8, 8, 8, 8, 8, 8, 8, 8, 8, 8, 8, 8, \
        8, 8, 8, 8, 8, 8, 8, 8, 8, 8, 8, 8, 8, 8, 8, 7, 8, 8, 8, 8, 8, 8, 8, 8, 8, 8, 8, 0, 8, 8, 8, 8, 8, \
        8, 8, 8, 8, 8, 8, 8, 8, 8, 8, 8, 8, 8, 8, 8, 8, 8, 8, 8, 8, 8, 8, 8, 8, 8, 8, 8, 8, 8, 8, 7]",
    ),
];

#[test]
fn many_come_to_the_book_at_once(rt: HostRuntime) -> Result<(), Fail> {
    play_book(rt.alloc(), AT_ONCE)
}

/// What can come up where the book is called.
const CASES: &[&str] = &[
    "ADD books",
    "ADD books again",
    "MODIFY books",
    "MODIFY books both",
    "MODIFY of a booked one",
    // the pair isn't booked, but a match that it includes is
    "MODIFY of a wider one",
    "MODIFY_STRICT books",
    "MODIFY_STRICT of a booked one",
    "DELETE",
    "DELETE_STRICT",
    "fits",
    "is too many",
    "overlaps",
    "overlaps nothing",
    "removes a booked one",
    "removes nothing",
    "failure releases",
    "failure of another",
    "failure of nothing",
    "is asked",
    "is not asked",
    "is not booked",
];

/// The place of the pair in the list, or the length of the list.
fn place_of(list: &[Booked], pattern: &Match, priority: u16) -> usize {
    let mut place = 0usize;
    for booked in list {
        if booked.pattern == *pattern && booked.priority == priority {
            return place;
        }
        place = place.saturating_add(1);
    }
    list.len()
}

fn find(list: &[Booked], pattern: &Match, priority: u16) -> Option<Booked> {
    match list.get(place_of(list, pattern, priority)) {
        Some(booked) => Some(*booked),
        None => None,
    }
}

fn remove(list: &mut Vec<Booked>, pattern: &Match, priority: u16) {
    let place = place_of(list, pattern, priority);
    if place < list.len() {
        list.remove(place);
    }
}

fn includes_a_booked_one(list: &[Booked], piece: &Match) -> bool {
    for booked in list {
        if includes(piece, &booked.pattern) {
            return true;
        }
    }
    false
}

fn is_newcomer(list: &[Booked], sent: &FlowMod, piece: &Match) -> bool {
    match sent.command {
        ADD | MODIFY_STRICT => find(list, piece, sent.priority).is_none(),
        MODIFY => !includes_a_booked_one(list, piece),
        _ => false,
    }
}

fn piece_case(command: u16, comes: bool, booked: bool) -> &'static str {
    match command {
        ADD if comes => "ADD books",
        ADD => "ADD books again",
        MODIFY if comes => "MODIFY books",
        MODIFY if booked => "MODIFY of a booked one",
        MODIFY => "MODIFY of a wider one",
        MODIFY_STRICT if comes => "MODIFY_STRICT books",
        MODIFY_STRICT => "MODIFY_STRICT of a booked one",
        DELETE => "DELETE",
        _ => "DELETE_STRICT",
    }
}

/// The book beside the list of the plain program, and what came up.
#[derive(Drop)]
struct Both {
    alloc: Global,
    book: FlowBook,
    list: Vec<Booked>,
    seen: Vec<&'static str>,
}

impl Both {
    /// Lists the piece of the flow-mod if it is a newcomer to what was listed before. Whether it is one.
    fn list_piece(
        &mut self,
        before: &[Booked],
        sent: &FlowMod,
        piece: &Match,
    ) -> Result<bool, AllocError> {
        let comes = is_newcomer(before, sent, piece);
        let was_booked = find(before, piece, sent.priority).is_some();
        self.seen.push(piece_case(sent.command, comes, was_booked))?;
        if comes {
            self.list.push(Booked {
                pattern: *piece,
                priority: sent.priority,
                asked: sent.asked,
                number: sent.number,
            })?;
        } else if sent.command == ADD {
            for booked in &mut self.list {
                if booked.pattern == *piece && booked.priority == sent.priority {
                    booked.asked = sent.asked;
                }
            }
        }
        Ok(comes)
    }

    /// Lists the pieces. What the plain program foretells of them.
    fn list(&mut self, sent: &FlowMod, pieces: &[Match]) -> Result<(u32, bool, bool), AllocError> {
        let before = Vec::from_slice(self.alloc, &self.list)?;
        let (mut newcomers, mut overlaps) = (0u32, false);
        for piece in pieces {
            if self.list_piece(&before, sent, piece)? {
                newcomers = newcomers.saturating_add(1);
            }
            for booked in &before {
                overlaps |= booked.priority == sent.priority && !disjoint(&booked.pattern, piece);
            }
        }
        if sent.command == MODIFY && newcomers == 2 {
            self.seen.push("MODIFY books both")?;
        }
        let fits = before.len().saturating_add(newcomers as usize) <= sent.quota as usize;
        self.seen.push(if fits { "fits" } else { "is too many" })?;
        self.seen.push(if overlaps {
            "overlaps"
        } else {
            "overlaps nothing"
        })?;
        Ok((newcomers, fits, overlaps))
    }

    /// Sends a flow-mod. Whether both foretold the same of it.
    fn flow_mod(&mut self, draws: &mut Draws, number: u64) -> Result<bool, AllocError> {
        let command = match draws.number_below(6) {
            5 => MODIFY,
            command => command as u16,
        };
        let sent = FlowMod {
            command,
            priority: draws.number_below(2) as u16,
            asked: draws.number_below(2) == 0,
            number,
            quota: draws.number_below(12) as u32,
        };
        let numbers = [draws.number_below(8) as u16, draws.number_below(8) as u16];
        let pieces = apart(self.alloc, &numbers)?;
        let alike = foretold(&self.book, &sent, &pieces) == self.list(&sent, &pieces)?;
        add(&mut self.book, &sent, &pieces)?;
        Ok(alike)
    }

    /// One that is booked, or any.
    fn draw(&self, draws: &mut Draws) -> (Match, u16, u64) {
        let place = draws.number_below(16) as usize;
        match self.list.get(place) {
            Some(booked) => (booked.pattern, booked.priority, booked.number),
            None => (
                sample(draws.number_below(8) as u16),
                draws.number_below(2) as u16,
                draws.number_below(8),
            ),
        }
    }

    /// Whether both remove the same.
    fn removal(&mut self, draws: &mut Draws) -> Result<bool, AllocError> {
        let (pattern, priority, _) = self.draw(draws);
        let wanted = find(&self.list, &pattern, priority);
        self.seen.push(match wanted {
            Some(_) => "removes a booked one",
            None => "removes nothing",
        })?;
        remove(&mut self.list, &pattern, priority);
        Ok(self.book.removed(&pattern, priority) == wanted)
    }

    /// The request that booked the pair fails, or one that booked another.
    fn failure(&mut self, draws: &mut Draws) -> Result<(), AllocError> {
        let (pattern, priority, of_first) = self.draw(draws);
        let (_, _, of_another) = self.draw(draws);
        let number = if draws.number_below(2) == 0 {
            of_first
        } else {
            of_another
        };
        let case = match find(&self.list, &pattern, priority) {
            Some(booked) if booked.number == number => {
                remove(&mut self.list, &pattern, priority);
                "failure releases"
            }
            Some(_) => "failure of another",
            None => "failure of nothing",
        };
        self.book.failed(number, &pattern, priority);
        self.seen.push(case)?;
        Ok(())
    }

    /// Whether both have booked the same.
    fn alike(&mut self) -> Result<bool, AllocError> {
        let mut alike = self.book.count() as usize == self.list.len();
        for which in 0..16u16 {
            let (pattern, priority) = (sample(which / 2), which % 2);
            let wanted = find(&self.list, &pattern, priority);
            self.seen.push(match &wanted {
                Some(booked) if booked.asked => "is asked",
                Some(_) => "is not asked",
                None => "is not booked",
            })?;
            alike &= self.book.booked(&pattern, priority) == wanted;
        }
        Ok(alike)
    }
}

#[test]
fn answers_as_a_plain_list(rt: HostRuntime) -> Result<(), Fail> {
    let alloc = rt.alloc();
    let mut draws = Draws::new(5);
    let mut both = Both {
        alloc,
        book: FlowBook::new(alloc),
        list: Vec::new(alloc),
        seen: Vec::new(alloc),
    };
    for step in 0..8_000u32 {
        let answered_alike = match draws.number_below(8) {
            0..3 => both.removal(&mut draws)?,
            3 | 4 => {
                both.failure(&mut draws)?;
                true
            }
            _ => both.flow_mod(&mut draws, u64::from(step))?,
        };
        let alike = answered_alike && both.alike()?;
        expect_alike(step, alike)?;
    }
    expect_seen(&both.seen, CASES, 50)
}

#[test]
fn a_new_slice_is_not_up(rt: HostRuntime) -> Result<(), Fail> {
    let alloc = rt.alloc();
    let alice = Slice {
        name: Text::of(alloc, "alice")?,
        controller: Text::of(alloc, "127.0.0.1:6633")?,
        rate: 1,
        burst: 2,
        quota: 4096,
    };
    let mut state = SliceState::new(alloc, 1, &alice)?;
    let came = told(
        alloc,
        &(
            (state.up, state.miss_send_len, state.moment),
            state.xids.next(),
            (state.collections.room(0), state.book.count()),
            (
                state.bucket.ask(0),
                state.bucket.ask(0),
                state.bucket.ask(0),
            ),
        ),
    )?;
    let wanted = "((false, 128, 0), (0, 16777216), (0, 0), (true, true, false))";
    expect_told(0, &came, wanted)
}
