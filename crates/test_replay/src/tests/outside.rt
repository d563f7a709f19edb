//! Files and sinks in memory, and whole files. Each test is a table of calls, one after the other at one object, with
//! what each answers and what is seen behind it; a call that fails answers `None`.

use fv_base::{Files, LoadFault, MemoryFiles, MemorySink, NeverSink, Sink, load_file, put_all};
use std::alloc::{AllocError, Global};
use std::process::Abort;
use std::test::Fail;

const MEBIBYTE: usize = 1_048_576;

/// How bytes are put into a sink.
#[derive(Clone, Copy)]
enum Way {
    /// All of them, in as many calls as that takes.
    Whole,
    /// As many as one call takes.
    Once,
}

/// A call of a sink: the bytes that are put, how many were taken, and then what the sink has and how many calls
/// failed.
type Put = (Way, &'static str, Option<usize>, &'static str, u64);

fn put(sink: &mut MemorySink, way: Way, bytes: &[u8]) -> Option<usize> {
    match way {
        Way::Once if !bytes.is_empty() => sink.put(bytes).ok(),
        _ => put_all(sink, bytes).is_ok().then_some(bytes.len()),
    }
}

/// The sink does what the table says.
fn expect_puts(rt: &impl Abort, sink: &mut MemorySink, table: &[Put]) {
    for (way, bytes, taken, kept, faults) in table {
        let came = put(sink, *way, bytes.as_bytes());
        assert!(rt;
            came == *taken && sink.as_slice() == kept.as_bytes() && sink.faults() == *faults,
            "{bytes}"
        );
    }
}

/// A sink that takes at most three bytes at once, and whose calls of these numbers fail.
fn expect_planned(
    rt: &impl Abort,
    alloc: Global,
    failing: &[u64],
    table: &[Put],
) -> Result<(), AllocError> {
    let failing = Vec::from_slice(alloc, failing)?;
    let mut sink = MemorySink::with_plan(alloc, 3, failing);
    expect_puts(rt, &mut sink, table);
    Ok(())
}

#[test]
fn all_bytes_are_put_in_pieces(rt: HostRuntime) -> Result<(), Fail> {
    const TABLE: &[Put] = &[
        (Way::Whole, "abcdefgh", Some(8), "abcdefgh", 0),
        (Way::Whole, "", Some(0), "abcdefgh", 0),
    ];
    Ok(expect_planned(&rt, rt.alloc(), &[], TABLE)?)
}

#[test]
fn a_failed_put_leaves_a_prefix(rt: HostRuntime) -> Result<(), Fail> {
    // the calls behind the one that fails don't fail
    const TABLE: &[Put] = &[
        (Way::Whole, "abcdefgh", None, "abc", 1),
        (Way::Whole, "xy", Some(2), "abcxy", 1),
    ];
    Ok(expect_planned(&rt, rt.alloc(), &[1], TABLE)?)
}

#[test]
fn a_sink_fails_at_the_calls_of_its_list(rt: HostRuntime) -> Result<(), Fail> {
    const TABLE: &[Put] = &[
        (Way::Once, "abcde", Some(3), "abc", 0),
        (Way::Once, "fgh", None, "abc", 1),
        (Way::Once, "ij", Some(2), "abcij", 1),
        (Way::Once, "k", None, "abcij", 2),
    ];
    Ok(expect_planned(&rt, rt.alloc(), &[1, 3], TABLE)?)
}

#[test]
fn sinks_of_each_kind_take_all(rt: HostRuntime) {
    const TABLE: &[Put] = &[(Way::Whole, "abcdefgh", Some(8), "abcdefgh", 0)];
    expect_puts(&rt, &mut MemorySink::new(rt.alloc()), TABLE);
    let mut counted = NeverSink::new();
    let is_put = put_all(&mut counted, b"abcdefgh").is_ok();
    assert!(rt; is_put && counted.taken() == 8);
}

/// What is done with files.
#[derive(Clone, Copy)]
enum Act {
    /// A file with this text is added.
    Add(&'static str),
    /// It is said that there is no file.
    ExpectMissing,
    /// Bytes are read from a place on: how many came, and what then stands in the four bytes that are read into.
    Read(u64, Option<usize>, &'static [u8; 4]),
    /// The file is loaded where it is within a limit.
    Load(u64, Result<&'static str, LoadFault>),
    Look,
}

/// What is done with a path, and how many of its reads failed then.
type Step = (&'static str, Act, u64);

/// Whether the file is loaded as these bytes, or not loaded for this reason.
fn loads(
    alloc: Global,
    files: &mut MemoryFiles,
    path: &str,
    limit: u64,
    wanted: Result<&[u8], LoadFault>,
) -> Result<bool, AllocError> {
    match (load_file(alloc, files, path, limit), wanted) {
        (Err(LoadFault::Memory), _) => Err(AllocError),
        (Ok(file), Ok(bytes)) => Ok(file.as_slice() == bytes),
        (Err(fault), Err(other)) => Ok(fault == other),
        _ => Ok(false),
    }
}

/// Whether the files do what is wanted of a path.
fn acts(
    alloc: Global,
    files: &mut MemoryFiles,
    into: &mut [u8; 4],
    path: &str,
    act: Act,
) -> Result<bool, AllocError> {
    match act {
        Act::Add(text) => files.add(path, text.as_bytes())?,
        Act::ExpectMissing => files.expect_missing(path)?,
        Act::Read(from, count, bytes) => {
            let came = files.read(path, from, into).ok();
            return Ok(came == count && &*into == bytes);
        }
        Act::Load(limit, Ok(text)) => {
            return loads(alloc, files, path, limit, Ok(text.as_bytes()));
        }
        Act::Load(limit, Err(fault)) => return loads(alloc, files, path, limit, Err(fault)),
        Act::Look => {}
    }
    Ok(true)
}

/// The files do what the table says, step by step.
fn expect_steps(
    rt: &impl Abort,
    alloc: Global,
    files: &mut MemoryFiles,
    table: &[Step],
) -> Result<(), AllocError> {
    let mut into = [0; 4];
    for (path, act, faults) in table {
        let is_so = acts(alloc, files, &mut into, path, *act)?;
        assert!(rt; is_so && files.faults(path) == *faults, "{path}");
    }
    Ok(())
}

/// Files of which at most three bytes are read at once, and whose reads of these numbers fail.
fn expect_planned_files(
    rt: &impl Abort,
    alloc: Global,
    failing: &[u64],
    table: &[Step],
) -> Result<(), AllocError> {
    let failing = Vec::from_slice(alloc, failing)?;
    let mut files = MemoryFiles::with_plan(alloc, 3, failing);
    expect_steps(rt, alloc, &mut files, table)
}

#[test]
fn files_are_loaded_up_to_the_limit(rt: HostRuntime) -> Result<(), Fail> {
    const TABLE: &[Step] = &[
        ("eight", Act::Add("abcdefgh"), 0),
        ("eight", Act::Add("another"), 0),
        ("none", Act::Add(""), 0),
        ("eight", Act::Load(9, Ok("abcdefgh")), 0),
        ("eight", Act::Load(8, Ok("abcdefgh")), 0),
        ("eight", Act::Load(7, Err(LoadFault::TooLarge)), 0),
        ("none", Act::Load(0, Ok("")), 0),
        ("large", Act::Load(1_048_576, Err(LoadFault::TooLarge)), 0),
    ];
    let alloc = rt.alloc();
    let large = vec![in alloc; 7; MEBIBYTE + 1]?;
    let mut files = MemoryFiles::new(alloc);
    files.add("large", &large)?;
    expect_steps(&rt, alloc, &mut files, TABLE)?;
    let is_whole = loads(alloc, &mut files, "large", 268_435_456, Ok(&large))?;
    assert!(rt; is_whole);
    Ok(())
}

#[test]
fn failed_reads_are_counted_for_their_path(rt: HostRuntime) -> Result<(), Fail> {
    const TABLE: &[Step] = &[
        ("eight", Act::Add("abcdefgh"), 0),
        ("eight", Act::Load(8, Err(LoadFault::ReadFault)), 1),
        ("missing", Act::Look, 0),
        ("missing", Act::Load(8, Err(LoadFault::ReadFault)), 1),
        ("eight", Act::Load(8, Ok("abcdefgh")), 1),
    ];
    Ok(expect_planned_files(&rt, rt.alloc(), &[1], TABLE)?)
}

#[test]
fn files_fail_at_the_calls_of_their_list(rt: HostRuntime) -> Result<(), Fail> {
    const TABLE: &[Step] = &[
        ("five", Act::Add("abcde"), 0),
        ("five", Act::Read(0, Some(3), b"abc\0"), 0),
        ("five", Act::Read(3, None, b"abc\0"), 1),
        ("five", Act::Read(3, Some(2), b"dec\0"), 1),
        ("five", Act::Read(5, None, b"dec\0"), 2),
    ];
    Ok(expect_planned_files(&rt, rt.alloc(), &[1, 3], TABLE)?)
}

#[test]
fn a_declared_missing_path_has_a_count_of_its_own(rt: HostRuntime) -> Result<(), Fail> {
    // a file that is added later is found, and the count stays
    const TABLE: &[Step] = &[
        ("declared", Act::ExpectMissing, 0),
        ("declared", Act::Read(0, None, &[0; 4]), 1),
        ("another", Act::Look, 0),
        ("another", Act::Read(0, None, &[0; 4]), 1),
        ("another", Act::Read(0, None, &[0; 4]), 2),
        ("declared", Act::Look, 1),
        ("declared", Act::Add("ab"), 1),
        ("declared", Act::Read(0, Some(2), b"ab\0\0"), 1),
    ];
    let mut files = MemoryFiles::new(rt.alloc());
    Ok(expect_steps(&rt, rt.alloc(), &mut files, TABLE)?)
}

#[test]
fn load_faults_say_what_is_wrong(rt: HostRuntime) -> Result<(), Fail> {
    const TABLE: &[(LoadFault, &str)] = &[
        (LoadFault::ReadFault, "the file can't be read"),
        (LoadFault::TooLarge, "the file is too large"),
        (LoadFault::Memory, "out of memory"),
    ];
    for (fault, text) in TABLE {
        let told = format!(in rt.alloc(); "{fault}")?;
        assert!(rt; told.as_str() == *text, "{told}");
    }
    Ok(())
}
