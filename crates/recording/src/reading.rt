//! Files of records are read.

ghost use Rattle.std.specs.Prelude.{ℕ, ◌≡◌, ◌≢◌, ◌+◌, ◌≤◌, List, [], length, take, Ok, Err, IfOk, IfErr, OnOk};
ghost use Rattle.std.specs.List.{All};
ghost use Rattle.recording.specs.declared.item.Item.{Item};
ghost use Rattle.recording.specs.declared.fault.RecordingFault.TheVariants.{Memory};
ghost use Rattle.recording.specs.declared.layout.Layout.TheVariants.{Trace};
ghost use Rattle.recording.specs.Recordings.{GivesAsRecording, IsItem, IsRead, HasFirstIn, IsBegun, IsBegunIn, item_at, magic_of, record_in, items_in, read_in, read_items, read_trace};
ghost use Rattle.recording.specs.Standing.{TableStands};

use crate::fault::RecordingFault;
use crate::item::{Item, RECORD_HEAD};
use crate::layout::Layout;
use crate::ups::Ups;
use of10_model::wire::{u8_at, u32_at, u64_at};
use std::alloc::Global;

/// What the head of a record says that stands at a place of a file.
#[tactic(auto, unfolding(crate::specs::Recordings::item_at))]
pub fn item_at(bytes: &[u8], at: usize) -> Item
    requires { at + 16 ≤ length bytes.now }
    ensures value { result ≡ item_at bytes.now at }
    ensures from { result.from ≡ at + 16 }
{
    Item {
        kind: u8_at(bytes, at),
        switch: u8_at(bytes, at + 1),
        slot: u8_at(bytes, at + 2),
        moment: u64_at(bytes, at + 8),
        from: at + RECORD_HEAD,
        size: u32_at(bytes, at + 4) as usize,
    }
}

/// The record at a place, where `ups` says who is up.
#[tactic(auto, unfolding(crate::specs::Recordings::record_in))]
fn record(
    layout: Layout,
    slices: u8,
    bytes: &[u8],
    ups: &Ups,
    at: usize,
) -> Result<Item, RecordingFault>
    requires { at ≤ length bytes.now }
    ensures value { (before : List Item) → TableStands ups.now.switches ups.now.slices before → result ≡ record_in layout slices bytes.now before at }
    ensures item { IfOk result (IsRead layout slices bytes.now) }
    ensures from { IfOk result (λ i. i.from ≡ at + 16) }
    ensures memory { result ≢ Err Memory }
{
    let left = bytes.len() - at;
    if left < RECORD_HEAD {
        return Err(RecordingFault::Torn(at as u64));
    }
    let item = item_at(bytes, at);
    if !layout.has_form(slices, u8_at(bytes, at + 3), &item) {
        return Err(RecordingFault::Bad(at as u64));
    }
    if left - RECORD_HEAD < item.size {
        return Err(RecordingFault::Torn(at as u64));
    }
    if !layout.is_whole(bytes, &item) {
        return Err(RecordingFault::Bad(at as u64));
    }
    if !ups.admits(layout, &item) {
        return Err(RecordingFault::NotOpen(at as u64));
    }
    Ok(item)
}

// The records behind the bytes that begin a file.
fn records(
    alloc: Global,
    layout: Layout,
    bytes: &[u8],
    slices: u8,
) -> Result<Vec<Item>, RecordingFault>
    requires { 8 ≤ length bytes.now }
    ensures exact { GivesAsRecording (λ v. v.items) result (items_in layout (length bytes.now) slices bytes.now [] 8) }
    ensures within { IfOk result (λ v. All (IsRead layout slices bytes.now) v.items) }
    ensures memory { result ≡ Err Memory → HasFirstIn layout slices bytes.now }
{
    let mut items = Vec::new(alloc);
    let mut ups = Ups::new();
    let mut at = 8;
    while at < bytes.len() {
        let item = match record(layout, slices, bytes, &ups, at) {
            Ok(item) => item,
            Err(fault) => return Err(fault),
        };
        items.push(item)?;
        ups.note(&item);
        at = item.from + item.size;
    }
    Ok(items)
}

/// Whether the bytes begin as a file of the layout does, or what is wrong with their beginning.
#[tactic(auto, unfolding(crate::specs::Recordings::read_in))]
fn check_opening(layout: Layout, bytes: &[u8]) -> Result<(), RecordingFault>
    ensures begun { OnOk result ((8 ≤ length bytes.now) × (take 8 bytes.now ≡ magic_of layout)) }
    ensures refused { IfErr result (λ fault. (slices : ℕ) → read_in layout slices bytes.now ≡ Err fault) }
    ensures memory { result ≢ Err Memory }
{
    if bytes.len() < 8 {
        return Err(RecordingFault::Torn(0));
    }
    if !bytes.starts_with(&layout.magic()) {
        return Err(RecordingFault::Bad(0));
    }
    Ok(())
}

#[tactic(auto, unfolding(crate::specs::Recordings::read_in))]
fn read(
    alloc: Global,
    layout: Layout,
    bytes: &[u8],
    slices: u8,
) -> Result<Vec<Item>, RecordingFault>
    ensures exact { GivesAsRecording (λ v. v.items) result (read_in layout slices bytes.now) }
    ensures within { IfOk result (λ v. All (IsRead layout slices bytes.now) v.items) }
    ensures memory { result ≡ Err Memory → IsBegunIn layout slices bytes.now }
{
    match check_opening(layout, bytes) {
        Ok(()) => records(alloc, layout, bytes, slices),
        Err(fault) => Err(fault),
    }
}

/// The records of a recording, in order, under a policy of so many slices. The first fault is answered, in
/// this order at each record: a head that is cut off, a head of no form, bytes that are cut off, and a
/// record that can't come by who is up. Memory is taken for records that are read alone.
pub fn items(alloc: Global, bytes: &[u8], slices: u8) -> Result<Vec<Item>, RecordingFault>
    ensures exact { GivesAsRecording (λ v. v.items) result (read_items slices bytes.now) }
    ensures within { IfOk result (λ v. All (IsItem slices bytes.now) v.items) }
    ensures memory { result ≡ Err Memory → IsBegun slices bytes.now }
{
    read(alloc, Layout::Recording, bytes, slices)
}

/// The records of a trace likewise. Where a record carries bytes that aren't one whole frame, it is at fault as a
/// head of no form is, once its bytes are there.
pub fn trace_items(alloc: Global, bytes: &[u8], slices: u8) -> Result<Vec<Item>, RecordingFault>
    ensures exact { GivesAsRecording (λ v. v.items) result (read_trace slices bytes.now) }
    ensures within { IfOk result (λ v. All (IsRead Trace slices bytes.now) v.items) }
    ensures memory { result ≡ Err Memory → IsBegunIn Trace slices bytes.now }
{
    read(alloc, Layout::Trace, bytes, slices)
}

// The records behind the bytes that begin a file, one after the other.
fn accept_records(layout: Layout, bytes: &[u8], slices: u8) -> Result<(), RecordingFault>
    requires { 8 ≤ length bytes.now }
    ensures accepted { OnOk result ((items : List Item) × (items_in layout (length bytes.now) slices bytes.now [] 8 ≡ Ok items)) }
    ensures refused { IfErr result (λ fault. items_in layout (length bytes.now) slices bytes.now [] 8 ≡ Err fault) }
{
    let mut ups = Ups::new();
    let mut at = 8;
    while at < bytes.len() {
        let item = match record(layout, slices, bytes, &ups, at) {
            Ok(item) => item,
            Err(fault) => return Err(fault),
        };
        ups.note(&item);
        at = item.from + item.size;
    }
    Ok(())
}

#[tactic(auto, unfolding(crate::specs::Recordings::read_in))]
fn accept_in(layout: Layout, bytes: &[u8], slices: u8) -> Result<(), RecordingFault>
    ensures accepted { OnOk result ((items : List Item) × (read_in layout slices bytes.now ≡ Ok items)) }
    ensures refused { IfErr result (λ fault. read_in layout slices bytes.now ≡ Err fault) }
{
    match check_opening(layout, bytes) {
        Ok(()) => accept_records(layout, bytes, slices),
        Err(fault) => Err(fault),
    }
}

/// Whether [`items`] reads the file, or its first fault. It makes no list of the records, and takes no memory.
pub fn accept(bytes: &[u8], slices: u8) -> Result<(), RecordingFault>
    ensures accepted { OnOk result ((items : List Item) × (read_items slices bytes.now ≡ Ok items)) }
    ensures refused { IfErr result (λ fault. read_items slices bytes.now ≡ Err fault) }
{
    accept_in(Layout::Recording, bytes, slices)
}

/// Whether [`trace_items`] reads the file, or its first fault, likewise.
pub fn accept_trace(bytes: &[u8], slices: u8) -> Result<(), RecordingFault>
    ensures accepted { OnOk result ((items : List Item) × (read_trace slices bytes.now ≡ Ok items)) }
    ensures refused { IfErr result (λ fault. read_trace slices bytes.now ≡ Err fault) }
{
    accept_in(Layout::Trace, bytes, slices)
}
