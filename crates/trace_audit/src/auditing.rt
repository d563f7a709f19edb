//! The records of a trace, judged one after the other as its file is read.

ghost use Rattle.std.specs.Prelude.{ℕ, ◌≡◌, ◌≢◌, ◌+◌, ◌≤◌, ◌<◌, ◌^◌, List, length, Ok, Err, IfOk};
ghost use Rattle.recording.specs.declared.item.Item.{Item};
ghost use Rattle.recording.specs.declared.layout.Layout.TheVariants.{Trace as TraceLayout};
ghost use Rattle.recording.specs.declared.fault.RecordingFault.TheVariants.{Memory as MemoryOfReading};
ghost use Rattle.recording.specs.Recordings.{Told, IsRead, item_at, read_trace};
ghost use Rattle.desk_words.specs.Recorded.{bytes_carried, told_by, told_in};
ghost use Rattle.trace_audit.specs.declared.fault.AuditFault.TheVariants.{Trace, Memory};
ghost use Rattle.trace_audit.specs.Auditing.{answer_of, audit_of, GivesAudit};
ghost use Rattle.trace_audit.specs.Sessions.{EachSent};
ghost use Rattle.trace_audit.specs.Facts.{KeepsSlice};
ghost use Rattle.trace_audit.specs.Standing.{AreFresh, SwitchesStand, TakesAmong};

use crate::fault::AuditFault;
use crate::switch::Switch;
use crate::why::Why;
use flowspace::Policy;
use recording::{Item, SENT_BYTES, SWITCHES, TRACE_MAGIC, accept_trace, item_at};
use std::alloc::{AllocError, Global};

/// No switch has connected yet.
fn fresh_switches(alloc: Global) -> Result<Vec<Switch>, AllocError>
    ensures { IfOk result (λ v. AreFresh v.items) }
{
    let mut switches = Vec::new(alloc);
    while switches.len() < SWITCHES {
        switches.push(Switch::new(alloc))?;
    }
    Ok(switches)
}

/// What is wrong with the record at a place of the file, which is taken in at its switch.
fn take_among(
    alloc: Global,
    policy: &Policy,
    file: &[u8],
    switches: &mut Vec<Switch>,
    at: u32,
    item: &Item,
    spare: &mut Vec<u8>,
) -> Result<Option<Why>, AllocError>
    requires stand { (before : List Told) × SwitchesStand policy.now.rules file.now before switches.old.items }
    requires item { (item.now ≡ item_at file.now at) × (at + 16 ≤ length file.now) }
    requires read { IsRead TraceLayout (length policy.now.slices) file.now item.now }
    ensures takes { (before : List Told) → SwitchesStand policy.now.rules file.now before switches.old.items → TakesAmong policy.now file.now (told_by item.now (bytes_carried file.now item.now)) before result switches.new.items }
{
    let switch = &mut switches[usize::from(item.switch)];
    switch.take(alloc, policy, file, at, item, spare)
}

/// The answer for a trace that is read whole.
fn audit_accepted(alloc: Global, policy: &Policy, file: &[u8]) -> Result<u32, AuditFault>
    requires short { length file.now < 2 ^ 32 }
    requires items { (items : List Item) × (read_trace (length policy.now.slices) file.now ≡ Ok items) }
    ensures { (items : List Item) → read_trace (length policy.now.slices) file.now ≡ Ok items → GivesAudit result (answer_of policy.now file.now items) }
{
    let mut switches = fresh_switches(alloc)?;
    let mut spare = Vec::new(alloc);
    let mut count = 0;
    let mut at = TRACE_MAGIC.len();
    while at < file.len() {
        let item = item_at(file, at);
        let why = take_among(
            alloc,
            policy,
            file,
            &mut switches,
            at as u32,
            &item,
            &mut spare,
        )?;
        if let Some(why) = why {
            return Err(AuditFault::No { at: at as u64, why });
        }
        if item.kind == SENT_BYTES {
            count += 1;
        }
        at = item.from + item.size;
    }
    Ok(count)
}

/// How many messages a trace has that were sent for slices, where each is one that the slice may have sent by the
/// policy, as far as a switch's session says; else the first that isn't. The file is accepted whole before a
/// message is judged. Of each flow-mod then the slice writes each header of its match, its outputs go to the
/// slice's ports, but for a delete's, which do nothing, and it leaves every flow table treating other headers
/// as before. Of each packet-out the packet is one that the slice writes, or one that bears its mark, and it
/// goes to the slice's ports. A packet that is named by its number is the last that the switch gave under it
/// since it connected.
pub fn audit(alloc: Global, policy: &Policy, trace: &[u8]) -> Result<u32, AuditFault>
    requires short { length trace.now < 2 ^ 32 }
    ensures exact { GivesAudit result (audit_of policy.now trace.now) }
    ensures facts { (items : List Item) → read_trace (length policy.now.slices) trace.now ≡ Ok items → IfOk result (λ n. EachSent (KeepsSlice policy.now) (told_in trace.now items)) }
    ensures never { result ≢ Err (Trace MemoryOfReading) }
    ensures memory { result ≡ Err Memory → (items : List Item) × (read_trace (length policy.now.slices) trace.now ≡ Ok items) }
{
    let _slices = policy.slices();
    match accept_trace(trace, policy.slice_count()) {
        Ok(()) => audit_accepted(alloc, policy, trace),
        Err(fault) => Err(AuditFault::Trace(fault)),
    }
}
