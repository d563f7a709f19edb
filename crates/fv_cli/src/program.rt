//! The program's call without the system: the words in, files and output by their traits, the status out.

ghost use Rattle.std.specs.Prelude.{◌≡◌, ◌≤◌, List, length, true, Ok, IfOk};
ghost use Rattle.fv_base.specs.Words.{form_of};
ghost use Rattle.recording.specs.declared.item.Item.{Item};
ghost use Rattle.recording.specs.Recordings.{all_told, read_items};
ghost use Rattle.desk_words.specs.Recorded.{told_in};
ghost use Rattle.desk_words.specs.Reports.{report};
ghost use Rattle.fv_generator.specs.Made.{records_of};
ghost use Rattle.fv_generator.specs.Policies.{the_policy};
ghost use Rattle.run_words.specs.Summaries.{summary};
ghost use Rattle.fv_cli.specs.Endings.{IsRunEnding, IsGenEnding, IsCheckCause, IsReplayCause, Causes, is_before_run, CountsReads, CountsPuts, EndedWith, Completes};

use crate::base::{Failed, Files, Form, Sink, Words, WordsFault, read_words};
use crate::ending::Ending;
use crate::flattening::flatten;
use crate::lines::{accepted_line, put_pieces};
use crate::loading::{load_policy, load_recording};
use flowspace::Policy;
use fv_report::{ReportFault, report, summarise};
use std::alloc::{AllocError, Global};

/// Says whether the policy is accepted.
fn check<F: Files, O: Sink>(alloc: Global, policy: &str, files: &mut F, out: &mut O) -> Ending
    ensures cause { IsCheckCause (record { files = F.contents files.old; read_before = F.faults files.old; read_after = F.faults files.new; out_before = O.contents out.old; out_after = O.contents out.new; put_before = O.faults out.old; put_after = O.faults out.new }) policy.now result }
    ensures early { is_before_run result ≡ true → O.contents out.new ≡ O.contents out.old }
    ensures reads { CountsReads result (F.faults files.old) (F.faults files.new) }
    ensures puts { CountsPuts result (O.faults out.old) (O.faults out.new) }
{
    let policy = match load_policy(alloc, files, policy) {
        Ok(policy) => policy,
        Err(ending) => return ending,
    };
    match put_pieces(out, &accepted_line(&policy)) {
        Ok(()) => Ending::Done,
        Err(Failed) => Ending::WriteFault,
    }
}

/// Runs the recording under the policy and writes the report.
fn replay<F: Files, O: Sink>(
    alloc: Global,
    policy: &str,
    recording: &str,
    files: &mut F,
    out: &mut O,
) -> Ending
    ensures cause { IsReplayCause (record { files = F.contents files.old; read_before = F.faults files.old; read_after = F.faults files.new; out_before = O.contents out.old; out_after = O.contents out.new; put_before = O.faults out.old; put_after = O.faults out.new }) policy.now recording.now result }
    ensures early { is_before_run result ≡ true → O.contents out.new ≡ O.contents out.old }
    ensures reads { CountsReads result (F.faults files.old) (F.faults files.new) }
    ensures puts { CountsPuts result (O.faults out.old) (O.faults out.new) }
{
    let policy = match load_policy(alloc, files, policy) {
        Ok(policy) => policy,
        Err(ending) => return ending,
    };
    let slices = policy.slices().len() as u8;
    let recording = match load_recording(alloc, files, recording, slices) {
        Ok(recording) => recording,
        Err(ending) => return ending,
    };
    run(alloc, &policy, &recording, out)
}

/// Runs the recording under the policy, under which it is accepted.
fn run<O: Sink>(alloc: Global, policy: &Policy, recording: &[u8], out: &mut O) -> Ending
    requires { (items : List Item) × (read_items (length policy.now.slices) recording.now ≡ Ok items) }
    ensures cause { (items : List Item) → read_items (length policy.now.slices) recording.now ≡ Ok items → IsRunEnding (report policy.now (told_in recording.now items)) (O.contents out.old) (O.contents out.new) (O.faults out.old) (O.faults out.new) result }
    ensures puts { CountsPuts result (O.faults out.old) (O.faults out.new) }
{
    match report(alloc, policy, recording, out) {
        Ok(()) => Ending::Done,
        Err(ReportFault::WriteFault) => Ending::WriteFault,
        Err(ReportFault::Memory) => Ending::NoMemoryToRun,
    }
}

/// A made recording, which is accepted under the policy that is made for it.
fn made_recording(alloc: Global, seed: u64, count: u32) -> Result<Vec<u8>, AllocError>
    requires { count ≤ 1000000 }
    ensures read { IfOk result (λ bytes. read_items (length the_policy.slices) bytes.items ≡ Ok (all_told 8 (records_of seed count))) }
    ensures told { IfOk result (λ bytes. told_in bytes.items (all_told 8 (records_of seed count)) ≡ records_of seed count) }
{
    fv_generator::made(alloc, seed, count)
}

/// Makes a recording, runs it under the policy that is made for it, and writes the summary.
fn generate<O: Sink>(alloc: Global, seed: u64, count: u32, out: &mut O) -> Ending
    requires { count ≤ 1000000 }
    ensures cause { IsGenEnding (summary the_policy (records_of seed count)) (O.contents out.old) (O.contents out.new) (O.faults out.old) (O.faults out.new) result }
    ensures early { is_before_run result ≡ true → O.contents out.new ≡ O.contents out.old }
    ensures puts { CountsPuts result (O.faults out.old) (O.faults out.new) }
{
    let Ok(policy) = fv_generator::policy(alloc) else {
        return Ending::NoMemory;
    };
    let Ok(bytes) = made_recording(alloc, seed, count) else {
        return Ending::NoMemory;
    };
    match summarise(alloc, &policy, &bytes, out) {
        Ok(()) => Ending::Done,
        Err(ReportFault::WriteFault) => Ending::WriteFault,
        Err(ReportFault::Memory) => Ending::NoMemoryToRun,
    }
}

/// Does what the words ask for.
fn decide<F: Files, O: Sink>(alloc: Global, words: &Words, files: &mut F, out: &mut O) -> Ending
    ensures cause { Causes (record { files = F.contents files.old; read_before = F.faults files.old; read_after = F.faults files.new; out_before = O.contents out.old; out_after = O.contents out.new; put_before = O.faults out.old; put_after = O.faults out.new }) (form_of words.now) result }
    ensures early { is_before_run result ≡ true → O.contents out.new ≡ O.contents out.old }
    ensures reads { CountsReads result (F.faults files.old) (F.faults files.new) }
    ensures puts { CountsPuts result (O.faults out.old) (O.faults out.new) }
{
    match read_words(words) {
        Ok(Form::Check { policy }) => check(alloc, policy, files, out),
        Ok(Form::Replay { policy, recording }) => replay(alloc, policy, recording, files, out),
        Ok(Form::Gen { seed, count }) => generate(alloc, seed, count, out),
        Ok(Form::Flatten { outer, name, inner }) => flatten(alloc, outer, name, inner, files, out),
        Ok(
            Form::Serve { .. }
            | Form::Virtual { .. }
            | Form::Change { .. }
            | Form::Audit { .. }
            | Form::Trace { .. },
        )
        | Err(WordsFault::Usage) => Ending::Usage,
    }
}

/// Does what the words ask for, and answers the exit status. What it writes to `out`:
///
/// - `check POLICY`: how many slices and rules an accepted policy has
/// - `replay POLICY RECORDING`: the report of the recording under the policy
/// - `gen SEED COUNT`: the summary of a recording that it makes
/// - `flatten OUTER NAME INNER`: the text of the policy of OUTER in which the slice NAME is divided by INNER
///
/// `serve POLICY LISTEN COUNT` is none of its forms. Each status but 0 has a line, which goes to `err`.
///
/// | status | means |
/// |---|---|
/// | 0 | all was done |
/// | 1 | the words have no form, or that of `serve` |
/// | 2 | a policy was read and is refused, or the division is; the line says why and where |
/// | 3 | the recording was read and is refused; the line says why and where |
/// | 4, 5 | a file can't be read; the output can't be written |
/// | 6, 7 | out of memory; a file is too large (policy 1 MiB, recording 256 MiB) |
///
/// The words are looked at first, then each file in their order, which is read and accepted before the next one;
/// a slice's name is looked up before the inner policy is read. Nothing is written to `out` before all of them
/// are found good.
pub fn offline<F: Files, O: Sink, E: Sink>(
    alloc: Global,
    words: &Words,
    files: &mut F,
    out: &mut O,
    err: &mut E,
) -> u8
    ensures ended { EndedWith (record { files = F.contents files.old; read_before = F.faults files.old; read_after = F.faults files.new; out_before = O.contents out.old; out_after = O.contents out.new; put_before = O.faults out.old; put_after = O.faults out.new }) words.now (E.contents err.old) (E.contents err.new) (E.faults err.old) (E.faults err.new) result }
    ensures complete { Completes (record { files = F.contents files.old; read_before = F.faults files.old; read_after = F.faults files.new; out_before = O.contents out.old; out_after = O.contents out.new; put_before = O.faults out.old; put_after = O.faults out.new }) (form_of words.now) result }
{
    let ending = decide(alloc, words, files, out);
    ending.say(err);
    ending.status()
}
