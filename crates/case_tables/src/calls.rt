//! Whole calls of the program over files and sinks in memory, and what they answer.

use crate::case::Case;
use crate::fault::Fault;
use crate::records::{Cut, recording};
use fv_base::{MemoryFiles, MemorySink, Words};
use fv_cli::offline;
use std::alloc::Global;

/// The words between which a `|` stands; none in an empty text.
pub(crate) fn words_in(alloc: Global, text: &str) -> Result<Words, Fault> {
    let mut words = Words::new(alloc);
    if !text.is_empty() {
        for word in text.split('|') {
            words.push(word)?;
        }
    }
    Ok(words)
}

/// Adds a policy where the case has one.
fn add_policy(files: &mut MemoryFiles, path: &str, policy: &[u8]) -> Result<(), Fault> {
    if policy.is_empty() {
        files.expect_missing(path)?;
    } else {
        files.add(path, policy)?;
    }
    Ok(())
}

/// The files of the call: the policies that the case has, and a recording where it has steps.
fn files_of(alloc: Global, case: &Case, cut: Cut) -> Result<MemoryFiles, Fault> {
    let mut files = MemoryFiles::new(alloc);
    add_policy(&mut files, "policy", &case.policy.bytes)?;
    add_policy(&mut files, "other", &case.other.bytes)?;
    if case.steps.is_empty() {
        files.expect_missing("recording")?;
    } else {
        let recording = recording(alloc, case.steps.as_str(), cut)?;
        files.add("recording", &recording)?;
    }
    Ok(files)
}

fn sink_of(alloc: Global, case: &Case) -> Result<MemorySink, Fault> {
    let mut failing = Vec::new(alloc);
    if let Some(call) = case.manner.failing {
        failing.push(call)?;
    }
    Ok(MemorySink::with_plan(alloc, case.manner.most, failing))
}

fn text_of(bytes: &[u8]) -> Result<&str, Fault> {
    let text = std::str::from_utf8(bytes).ok();
    text.ok_or(Fault::Bad("what came is no text"))
}

fn put_failed_reads(told: &mut String, files: &MemoryFiles) -> Result<(), Fault> {
    let policy = files.faults("policy");
    let other = files.faults("other");
    let recording = files.faults("recording");
    if policy != 0 || other != 0 || recording != 0 {
        write!(
            told,
            "failed reads: policy {policy}, other {other}, recording {recording}\n"
        )?;
    }
    Ok(())
}

/// What came of the call of a case, as a table spells it. Behind it stands how many reads of each file failed, where one
/// did, and how many calls of the sink, where it isn't one with status 5 and none with all others.
pub(crate) fn answer(alloc: Global, case: &Case, cut: Cut) -> Result<String, Fault> {
    let words = words_in(alloc, case.words.as_str())?;
    let mut files = files_of(alloc, case, cut)?;
    let mut out = sink_of(alloc, case)?;
    let mut err = MemorySink::new(alloc);
    let status = offline(alloc, &words, &mut files, &mut out, &mut err);
    let mut told = String::from_str(alloc, text_of(out.as_slice())?)?;
    if !told.is_empty() && !told.as_str().ends_with('\n') {
        told.push_str("\\\n")?;
    }
    if status != 0 || !err.as_slice().is_empty() {
        write!(told, "! {status} {}", text_of(err.as_slice())?)?;
    }
    put_failed_reads(&mut told, &files)?;
    let puts = out.faults();
    if puts != u64::from(status == 5) {
        write!(told, "failed puts: {puts}\n")?;
    }
    Ok(told)
}
