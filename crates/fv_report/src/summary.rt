//! The summary of a recording.

ghost use Rattle.std.specs.Prelude.{ℕ, ◌≡◌, ◌++◌, List, length, codes, decimal, Ok, OnOk, IfOk};
ghost use Rattle.recording.specs.declared.item.Item.{Item};
ghost use Rattle.recording.specs.Recordings.{read_items};
ghost use Rattle.desk_words.specs.Recorded.{told_in};
ghost use Rattle.run_words.specs.Summaries.{count_line, count_lines, summary, summary_text};
ghost use Rattle.fv_report.specs.Counting.{IsCount, AreCounts, HasCounted};
ghost use Rattle.fv_report.specs.Writing.{Wrote, Counted};

use crate::counter::{Count, Counter};
use crate::line::put;
use event_player::{Player, ReportFault};
use flowspace::Policy;
use fv_base::Sink;
use itoa::Buffer;
use std::alloc::{AllocError, Global};

fn put_number(text: &mut Vec<u8>, number: u64) -> Result<(), AllocError>
    ensures { OnOk result (text.new.items ≡ text.old.items ++ decimal number) }
{
    text.extend_from_slice(Buffer::new().format(number).as_bytes())
}

/// Appends a line of the messages for whom it names.
fn put_count(text: &mut Vec<u8>, name: &str, count: Count) -> Result<(), AllocError>
    ensures { OnOk result ((messages : List (List ℕ)) → IsCount messages count → text.new.items ≡ text.old.items ++ count_line name.now messages) }
{
    text.extend_from_slice(name.as_bytes())?;
    text.extend_from_slice(b" ")?;
    put_number(text, count.messages)?;
    text.extend_from_slice(b" ")?;
    put_number(text, count.bytes)?;
    text.extend_from_slice(b"\n")
}

/// Appends a line of each slice, by slot.
fn put_counts(text: &mut Vec<u8>, policy: &Policy, counts: &[Count]) -> Result<(), AllocError>
    requires { length counts.now ≡ length policy.now.slices }
    ensures { OnOk result ((messages : ℕ → List (List ℕ)) → AreCounts messages counts.now → text.new.items ≡ text.old.items ++ count_lines messages policy.now.slices) }
{
    for (slot, slice) in policy.slices().iter().enumerate() {
        put_count(text, slice.name.as_str(), counts[slot])?;
    }
    Ok(())
}

/// The summary, once all is counted.
fn made(
    alloc: Global,
    policy: &Policy,
    events: u64,
    counter: &Counter,
) -> Result<Vec<u8>, AllocError>
    requires { length counter.now.slices.items ≡ length policy.now.slices }
    ensures { IfOk result (λ text. (slots : ℕ) (lane : List (List ℕ)) (slices : ℕ → List (List ℕ)) → HasCounted slots lane slices counter.now → text.items ≡ summary_text events lane slices policy.now.slices) }
{
    let mut text = Vec::new(alloc);
    text.extend_from_slice(b"events ")?;
    put_number(&mut text, events)?;
    text.extend_from_slice(b"\n")?;
    put_count(&mut text, "lane", counter.lane)?;
    put_counts(&mut text, policy, &counter.slices)?;
    Ok(text)
}

/// Writes the summary of a recording to `out`: how many events there were, and how many messages the switch
/// and each slice got. A fault leaves a prefix of it. Each record is read as it is played, so that memory is
/// taken for what is played alone.
pub fn summarise<K: Sink>(
    alloc: Global,
    policy: &Policy,
    bytes: &[u8],
    out: &mut K,
) -> Result<(), ReportFault>
    requires { (items : List Item) × (read_items (length policy.now.slices) bytes.now ≡ Ok items) }
    ensures writes { (items : List Item) → read_items (length policy.now.slices) bytes.now ≡ Ok items → Wrote result (summary policy.now (told_in bytes.now items)) (K.contents out.old) (K.contents out.new) }
    ensures counted { Counted result (K.faults out.old) (K.faults out.new) }
{
    let counter = Counter::new(alloc, policy.slice_count())?;
    let mut spare = Vec::new(alloc);
    let mut player = Player::new(alloc, policy, counter, &mut spare);
    player.play_file(bytes)?;
    let text = made(alloc, policy, player.place.number, &player.teller)?;
    put(out, &text)
}
