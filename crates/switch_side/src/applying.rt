ghost use Rattle.std.specs.Prelude.{ℕ, ◌≡◌, ◌==◌, ◌∷◌, false, List, [], length, slice_get, OnOk};
ghost use Rattle.flowspace.specs.Policies.{PolicyView};
ghost use Rattle.xid_map.specs.Collections as collections;
ghost use Rattle.flow_book.specs.Books.{BookCall, BookStands};
ghost use Rattle.flow_book.specs.Books as books;
ghost use Rattle.slice_words.specs.Items.{Settings, Sight};
ghost use Rattle.slice_words.specs.Standing.{SliceStands};
ghost use Rattle.desk_words.specs.Openings.{KnownSwitch};
ghost use Rattle.desk_words.specs.Histories.{SliceSide, side_after};
ghost use Rattle.switch_side.specs.declared.change.Change.TheVariants.{Failed, Collected, Finished, Given};
ghost use Rattle.switch_side.specs.Changes.{IsMade, IsMadeAt, StateHasRoom, StateHasRoomAt, StatesHaveRoom, StandOn};
ghost use Rattle.switch_side.specs.Dispatches.{AllStand, AreChanges, told_at};

use crate::change::Change;
use crate::collecting::add_all;
use flow_book::{FlowBook, SliceState};
use of10_match::{Header12, Match};
use slice_words::MOST_NUMBERED;
use std::alloc::{AllocError, Global};
use std::mem;
use xid_map::AskKind;

/// Takes memory for so many more bytes of what the request of the number collects.
fn make_space(state: &mut SliceState, number: u64, bytes: usize) -> Result<(), AllocError>
    ensures room { OnOk result (collections.HasRoomToCollect number bytes state.new.collections) }
    ensures stands { (s : Settings) (sight : Sight) → SliceStands s sight state.old → SliceStands s sight state.new }
{
    match u32::try_from(bytes) {
        Ok(count) => state.collections.reserve(number, count),
        Err(_) => Err(AllocError),
    }
}

/// Makes the room that a change needs in the slice's state.
fn make_room(state: &mut SliceState, change: &Change) -> Result<(), AllocError>
    ensures room { OnOk result (StateHasRoom change.now state.new) }
    ensures stands { (s : Settings) (sight : Sight) → SliceStands s sight state.old → SliceStands s sight state.new }
{
    match change {
        Change::Given { .. } => {
            if state.buffers.count() >= MOST_NUMBERED {
                return Err(AllocError);
            }
            Ok(())
        }
        Change::Collected {
            number,
            entries,
            ..
        } => make_space(state, *number, entries.as_slice().len()),
        _ => Ok(()),
    }
}

/// The same in the state at a place, if there is one.
fn make_room_at(states: &mut [SliceState], place: usize, change: &Change) -> Result<(), AllocError>
    ensures room { OnOk result (StateHasRoomAt place change.now states.new) }
    ensures stands { StandOn states.old states.new }
    ensures others { (other : ℕ) → (place == other) ≡ false → slice_get states.new other ≡ slice_get states.old other }
{
    if place < states.len() {
        make_room(&mut states[place], change)?;
    }
    Ok(())
}

/// Makes the room that `apply_all` of the changes needs, and leaves what the states stand for as it was. That
/// there is none is answered as out of memory, and so are changes whose slots don't ascend.
#[inline(always)]
pub fn reserve(states: &mut [SliceState], changes: &[(u8, Change)]) -> Result<(), AllocError>
    ensures stands { StandOn states.old states.new }
    ensures room { OnOk result (StatesHaveRoom changes.now states.new) }
{
    let mut next = 0;
    for (slot, change) in changes {
        let place = usize::from(*slot);
        if place < next {
            return Err(AllocError);
        }
        make_room_at(states, place, change)?;
        next = place + 1;
    }
    Ok(())
}

/// The request of the number has failed for the pair.
fn release(book: &mut FlowBook, number: u64, pair: (Match, u16))
    ensures { (calls : List BookCall) → BookStands calls book.old → BookStands (books.Failed number pair.0 pair.1 ∷ calls) book.new }
{
    book.failed(number, &pair.0, pair.1);
}

/// The request of the number has failed, and with it the pair, if there is one. What it collected is dropped.
fn fail(state: &mut SliceState, number: u64, pair: Option<(Match, u16)>)
    ensures stands { IsMade (Failed number pair) state.old state.new }
    ensures same { state.new.buffers ≡ state.old.buffers }
{
    state.xids.mark_error(number);
    state.collections.finish(number);
    if let Some(pair) = pair {
        release(&mut state.book, number, pair);
    }
}

/// What was held under the number is lost, and the packet that came under it is held.
fn give(state: &mut SliceState, physical: u32, header: Header12)
    requires { StateHasRoom (Given physical header) state.old }
    ensures { IsMade (Given physical header) state.old state.new }
{
    state.buffers.lose(physical);
    state.buffers.give(physical, header);
}

/// The entries came for the request of the number, which collects them.
fn collect(state: &mut SliceState, number: u64, kind: AskKind, entries: &[u8])
    requires { StateHasRoom (Collected number kind entries.now) state.old }
    ensures { IsMade (Collected number kind entries.now) state.old state.new }
{
    add_all(&mut state.collections, number, kind, entries);
}

/// The slice was sent what the request of the number collected.
fn finish(state: &mut SliceState, number: u64)
    ensures { IsMade (Finished number) state.old state.new }
{
    state.xids.mark_done(number);
    state.collections.finish(number);
}

/// Makes the change in the slice's state. Takes no memory.
pub fn apply(state: &mut SliceState, change: Change)
    requires { StateHasRoom change state.old }
    ensures { IsMade change state.old state.new }
{
    match change {
        Change::Released { pattern, priority } => {
            state.book.removed(&pattern, priority);
        }
        Change::Failed { number, pair } => fail(state, number, pair),
        Change::Replied { number } => state.xids.mark_done(number),
        Change::Collected {
            number,
            kind,
            entries,
        } => collect(state, number, kind, entries.as_slice()),
        Change::Finished { number } => finish(state, number),
        Change::Lost { physical } => state.buffers.lose(physical),
        Change::Given { physical, header } => give(state, physical, header),
    }
}

/// Makes the change in the state of a slot, if there is one.
fn apply_at(states: &mut Vec<SliceState>, slot: u8, change: Change)
    requires { StateHasRoomAt slot change states.old.items }
    ensures { IsMadeAt slot change states.old.items states.new.items }
{
    let place = usize::from(slot);
    if place < states.len() {
        apply(&mut states[place], change);
    }
}

/// Makes changes one after the other, each in the state of its slot.
#[inline(never)]
fn apply_each(states: &mut Vec<SliceState>, changes: Vec<(u8, Change)>)
    requires { StatesHaveRoom changes.items states.old.items }
    ensures stands { (p : PolicyView) (switch : KnownSwitch) (sides : ℕ → SliceSide) (moment : ℕ) (message : List ℕ) → AllStand p switch sides states.old.items → AreChanges p switch sides moment message changes.items → AllStand p switch (λ slot. side_after p slot switch (sides slot) (told_at moment message)) states.new.items }
    ensures count { length states.new.items ≡ length states.old.items }
{
    for (slot, change) in changes {
        apply_at(states, slot, change);
    }
}

/// Makes the changes of a message of the switch, each in the state of its slot, after which there are none. Takes no
/// memory.
#[inline(always)]
pub fn apply_all(alloc: Global, states: &mut Vec<SliceState>, changes: &mut Vec<(u8, Change)>)
    requires { StatesHaveRoom changes.old.items states.old.items }
    ensures stands { (p : PolicyView) (switch : KnownSwitch) (sides : ℕ → SliceSide) (moment : ℕ) (message : List ℕ) → AllStand p switch sides states.old.items → AreChanges p switch sides moment message changes.old.items → AllStand p switch (λ slot. side_after p slot switch (sides slot) (told_at moment message)) states.new.items }
    ensures count { length states.new.items ≡ length states.old.items }
    ensures none { changes.new.items ≡ [] }
{
    // Most messages bring none, and each packet in its turn would make an iterator of it.
    if changes.is_empty() {
        return;
    }
    apply_each(states, mem::replace(changes, Vec::new(alloc)));
}
