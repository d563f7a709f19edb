//! The report of a whole recording.

ghost use Rattle.std.specs.Prelude.{◌≡◌, List, length, Ok};
ghost use Rattle.recording.specs.declared.item.Item.{Item};
ghost use Rattle.recording.specs.Recordings.{read_items};
ghost use Rattle.desk_words.specs.Recorded.{told_in};
ghost use Rattle.desk_words.specs.Reports.{report};
ghost use Rattle.fv_report.specs.Writing.{Wrote, Counted};

use crate::line::{LineBuffer, Writer};
use event_player::{Player, ReportFault};
use flowspace::Policy;
use fv_base::Sink;
use std::alloc::Global;

/// Writes all lines of the report of an accepted file.
fn write_file<K: Sink>(
    player: &mut Player<'_, Writer<'_, K>>,
    file: &[u8],
) -> Result<(), ReportFault>
    requires items { (items : List Item) × (read_items (length player.old.policy.now.slices) file.now ≡ Ok items) }
    requires first { player.old.place.number ≡ 0 }
    ensures same { player.new.teller.out.ghost_name ≡ player.old.teller.out.ghost_name }
    ensures writes { (items : List Item) → read_items (length player.old.policy.now.slices) file.now ≡ Ok items → Wrote result (report player.old.policy.now (told_in file.now items)) (K.contents player.old.teller.out.now) (K.contents player.new.teller.out.now) }
    ensures counted { Counted result (K.faults player.old.teller.out.now) (K.faults player.new.teller.out.now) }
{
    player.play_file(file)?;
    player.teller.put_last(player.place.number)
}

/// Writes the report of a recording to `out`. Each event has a line for each message that the switch and the
/// slices get, for a connection that is closed, and for the end of the switch's connection. At the end stands
/// how many events there were. A fault leaves a prefix of the report. Each record is read as it is played, so
/// that memory is taken for what is played alone.
pub fn report<K: Sink>(
    alloc: Global,
    policy: &Policy,
    bytes: &[u8],
    out: &mut K,
) -> Result<(), ReportFault>
    requires { (items : List Item) × (read_items (length policy.now.slices) bytes.now ≡ Ok items) }
    ensures writes { (items : List Item) → read_items (length policy.now.slices) bytes.now ≡ Ok items → Wrote result (report policy.now (told_in bytes.now items)) (K.contents out.old) (K.contents out.new) }
    ensures counted { Counted result (K.faults out.old) (K.faults out.new) }
{
    let mut line = LineBuffer::new(alloc);
    let mut spare = Vec::new(alloc);
    let writer = Writer {
        out,
        line: &mut line,
    };
    let mut player = Player::new(alloc, policy, writer, &mut spare);
    write_file(&mut player, bytes)
}
