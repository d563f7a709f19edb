//! What is asked of the entries of a book.

ghost use Rattle.std.specs.Prelude.{◌≡◌, ◌≤◌, not, length};
ghost use Rattle.std.specs.List.{list_any};
ghost use Rattle.of10_model.specs.Normal.{IsNormal};
ghost use Rattle.of10_model.specs.Meet.{is_disjoint};
ghost use Rattle.flow_book.specs.Order.{ArePairsInOrder};
ghost use Rattle.flow_book.specs.Books.{is_booked, includes_booked, is_newcomer, newcomers_in, overlaps_in};

use crate::entries::Entries;
use crate::entry::Entry;
use crate::finding::{place_from, place_of};
use match_meet::{disjoint, includes};
use of10_flow::protocol::{ADD, MODIFY, MODIFY_STRICT};
use of10_match::Match;

/// The least spelling of a match: no pair of a priority stands below one that is spelled so.
const LEAST: [u8; 40] = [0; 40];

pub(crate) fn is_booked(entries: &Entries, pattern: &Match, priority: u16) -> bool
    requires { ArePairsInOrder entries.now.booked }
    ensures value { result ≡ is_booked pattern.now priority entries.now.booked }
    ensures normal { IsNormal pattern.now }
{
    place_of(entries, pattern, priority).is_ok()
}

/// Whether the match includes one that is booked, of any priority.
fn includes_any(entries: &Entries, pattern: &Match) -> bool
    ensures { result ≡ includes_booked pattern.now entries.now.booked }
{
    for index in 0..entries.len() {
        if includes(pattern, &entries.at(index).booked().pattern) {
            return true;
        }
    }
    false
}

/// Whether the match includes one that is booked, of any priority. The pair itself, if it is booked, is
/// found by a look-up.
fn includes_booked(entries: &Entries, pattern: &Match, priority: u16) -> bool
    requires { ArePairsInOrder entries.now.booked }
    ensures { result ≡ includes_booked pattern.now entries.now.booked }
{
    is_booked(entries, pattern, priority) || includes_any(entries, pattern)
}

/// Whether a flow-mod with the command books the piece while it isn't booked.
pub(crate) fn is_newcomer(entries: &Entries, command: u16, piece: &Match, priority: u16) -> bool
    requires { ArePairsInOrder entries.now.booked }
    ensures { result ≡ is_newcomer command priority entries.now.booked piece.now }
{
    match command {
        ADD | MODIFY_STRICT => !is_booked(entries, piece, priority),
        MODIFY => !includes_booked(entries, piece, priority),
        _ => false,
    }
}

pub(crate) fn newcomers(entries: &Entries, command: u16, pieces: &[Match], priority: u16) -> usize
    requires { ArePairsInOrder entries.now.booked }
    ensures value { result ≡ newcomers_in command pieces.now priority entries.now.booked }
    ensures within { result ≤ length pieces.now }
{
    pieces
        .iter()
        .filter(|piece| is_newcomer(entries, command, piece, priority))
        .count()
}

fn shares_header(entry: &Entry, pieces: &[Match]) -> bool
    ensures { result ≡ list_any (λ piece. not (is_disjoint entry.now.pattern piece)) pieces.now }
{
    pieces
        .iter()
        .any(|piece| !disjoint(&entry.booked().pattern, piece))
}

/// Whether a piece shares a header with an entry of the priority. No other entries are looked at but the
/// first of the next priority.
pub(crate) fn overlaps(entries: &Entries, pieces: &[Match], priority: u16) -> bool
    requires { ArePairsInOrder entries.now.booked }
    ensures { result ≡ overlaps_in pieces.now priority entries.now.booked }
{
    for index in place_from(entries, priority, &LEAST)..entries.len() {
        let entry = entries.at(index);
        if entry.booked().priority != priority {
            return false;
        }
        if shares_header(entry, pieces) {
            return true;
        }
    }
    false
}
