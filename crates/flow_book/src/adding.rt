//! What a flow-mod adds to the entries of a book.

ghost use Rattle.std.specs.Prelude.{◌≡◌, ◌+◌, ◌≤◌, ◌<◌, ◌∷◌, ◌^◌, [], false, length, filter, map, All, IsPermutation, vec_len, vec_capacity};
ghost use Rattle.of10_model.specs.Normal.{IsNormal};
ghost use Rattle.flow_book.specs.Order.{ArePairsInOrder};
ghost use Rattle.flow_book.specs.Books.{is_booked, is_newcomer, newcomers_in, first_booked, booked_again};
ghost use Rattle.flow_book.specs.Adding.{with_asked, again, AreNew, IsSettled};

use crate::booked::Booked;
use crate::entries::Entries;
use crate::entry::Entry;
use crate::finding::{place_for, place_of};
use crate::pairs::is_newcomer;
use of10_flow::protocol::ADD;
use of10_match::Match;

/// Collects entries for the pieces that the flow-mod books while they aren't booked. There is room for
/// them.
pub(crate) fn gather(
    entries: &Entries,
    command: u16,
    pieces: &[Match],
    priority: u16,
    asked: bool,
    number: u64,
    fresh: &mut Vec<Entry>,
)
    requires order { ArePairsInOrder entries.now.booked }
    requires empty { fresh.old.items ≡ [] }
    requires room { newcomers_in command pieces.now priority entries.now.booked ≤ vec_capacity fresh.old }
    ensures items { fresh.new.items ≡ map (first_booked priority asked number) (filter (is_newcomer command priority entries.now.booked) pieces.now) }
    ensures normal { All (λ b. IsNormal b.pattern) fresh.new.items }
    ensures len { vec_len fresh.new ≡ newcomers_in command pieces.now priority entries.now.booked }
    ensures capacity { vec_capacity fresh.old ≤ vec_capacity fresh.new }
{
    for piece in pieces {
        if is_newcomer(entries, command, piece, priority) {
            let pattern = *piece;
            fresh.push_reserved(Entry::new(Booked {
                pattern,
                priority,
                asked,
                number,
            }));
        }
    }
}

/// Books the pair anew where it is booked.
fn book_pair_again(entries: &mut Entries, piece: &Match, priority: u16, asked: bool)
    requires { ArePairsInOrder entries.old.booked }
    ensures items { entries.new.booked ≡ map (with_asked piece.now priority asked) entries.old.booked }
    ensures order { ArePairsInOrder entries.new.booked }
    ensures room { entries.new.room ≡ entries.old.room }
{
    if let Ok(place) = place_of(entries, piece, priority) {
        entries.set_asked(place, asked);
    }
}

fn book_pieces_again(entries: &mut Entries, pieces: &[Match], priority: u16, asked: bool)
    requires { ArePairsInOrder entries.old.booked }
    ensures items { entries.new.booked ≡ map (again pieces.now priority asked) entries.old.booked }
    ensures order { ArePairsInOrder entries.new.booked }
    ensures room { entries.new.room ≡ entries.old.room }
{
    for piece in pieces {
        book_pair_again(entries, piece, priority, asked);
    }
}

/// Books those pieces of the flow-mod anew that are booked, if it is an ADD.
pub(crate) fn book_again(
    entries: &mut Entries,
    command: u16,
    pieces: &[Match],
    priority: u16,
    asked: bool,
)
    requires { ArePairsInOrder entries.old.booked }
    ensures items { entries.new.booked ≡ map (booked_again command pieces.now priority asked) entries.old.booked }
    ensures order { ArePairsInOrder entries.new.booked }
    ensures room { entries.new.room ≡ entries.old.room }
{
    if command == ADD {
        book_pieces_again(entries, pieces, priority, asked);
    }
}

/// Puts an entry whose pair isn't booked to its place. There is room for it.
fn settle(entries: &mut Entries, entry: Entry)
    requires order { ArePairsInOrder entries.old.booked }
    requires few { length entries.old.booked < 2 ^ 32 }
    requires absent { is_booked entry.pattern entry.priority entries.old.booked ≡ false }
    requires room { 0 < entries.old.room }
    ensures added { IsPermutation (entry ∷ entries.old.booked) entries.new.booked }
    ensures order { ArePairsInOrder entries.new.booked }
    ensures len { length entries.new.booked ≡ length entries.old.booked + 1 }
    ensures room { entries.new.room + 1 ≡ entries.old.room }
{
    match place_for(entries, &entry) {
        Ok(_) => unreachable!(),
        Err(place) => entries.insert(place, entry),
    }
}

/// Puts entries of pairs that aren't booked to their places. There is room for them.
pub(crate) fn settle_all(entries: &mut Entries, fresh: &mut Vec<Entry>)
    requires order { ArePairsInOrder entries.old.booked }
    requires few { length entries.old.booked + vec_len fresh.old < 2 ^ 32 }
    requires unbooked { AreNew fresh.old.items entries.old.booked }
    requires room { vec_len fresh.old ≤ entries.old.room }
    ensures { IsSettled fresh.old entries.old fresh.new entries.new }
{
    while let Some(entry) = fresh.pop() {
        settle(entries, entry);
    }
}
