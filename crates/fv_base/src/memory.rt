//! The outside in memory, which shows its contents.

ghost use Rattle.std.specs.Prelude.{◌≡◌, ◌≤◌, ◌<◌, ◌+◌, ◌-◌, ◌^◌, min, ℕ, List, [], Some, None, length, drop, ◌||◌, ◌&&◌, is_ok, vec_len, vec_capacity, take, option_map, IsTrue, IsFalse, IfOk, IfSome, IsOkAnd, OnOk, OnErr};
ghost use Rattle.std.specs.Result.{result_ok};
ghost use Rattle.std.specs.Str.{bytes_eq};
ghost use Rattle.fv_base.specs.Counts.{count_at, is_declared, one_more, raised_at};
ghost use Rattle.fv_base.specs.Memory.{Starts, bytes_taken, called, file_at, files_plan, moved, read_count, sink_plan, with_file};
ghost use Rattle.fv_base.specs.Told.{GivesBytes, Rose, appended};

use super::{Counts, Failed, Files, Sink, one_more};
use std::alloc::{AllocError, Global};

/// How the calls on an object in memory go: how many bytes one moves at most, and which calls fail.
#[derive(Drop)]
pub struct Plan {
    most: usize,
    failing: Vec<u64>,
    calls: u64,
}

impl Plan {
    /// A call moves at most `most` bytes, and the calls whose numbers, from 0, are in `failing` fail. Where
    /// `most` is 0 each call fails.
    pub fn new(most: usize, failing: Vec<u64>) -> Plan
        ensures { Starts result most failing.items }
    {
        Plan {
            most,
            failing,
            calls: 0,
        }
    }

    /// How many of the bytes that are there the next call moves; none where it fails.
    pub fn next(&mut self, there: usize) -> Option<usize>
        requires { 0 < there }
        ensures value { result ≡ moved self.old there }
        ensures counted { self.new ≡ called self.old }
        ensures some { IfSome result (λ n. 0 < n) }
        ensures within { IfSome result (λ n. n ≤ there) }
    {
        let fails = self.failing.contains(&self.calls);
        self.calls = self.calls.saturating_add(1);
        if fails || self.most == 0 {
            None
        } else {
            Some(there.min(self.most))
        }
    }
}

/// A sink that keeps what it takes. A put fails where its plan says so, and where memory for growing is
/// wanted.
#[derive(Drop)]
pub struct MemorySink {
    kept: Vec<u8>,
    faults: u64,
    plan: Plan,
}

impl MemorySink {
    /// A sink that takes all bytes of a put.
    pub fn new(alloc: Global) -> MemorySink
        ensures told { ⟦<MemorySink as Sink>⟧.contents result ≡ Some [] }
        ensures count { ⟦<MemorySink as Sink>⟧.faults result ≡ 0 }
        ensures plan { Starts (sink_plan result) usize.MAX [] }
    {
        MemorySink::with_plan(alloc, usize::MAX, Vec::new(alloc))
    }

    /// A sink that takes at most `most` bytes in one put, and fails at the calls whose numbers, from 0,
    /// are in `failing`. Where `most` is 0 each call fails.
    pub fn with_plan(alloc: Global, most: usize, failing: Vec<u64>) -> MemorySink
        ensures told { ⟦<MemorySink as Sink>⟧.contents result ≡ Some [] }
        ensures count { ⟦<MemorySink as Sink>⟧.faults result ≡ 0 }
        ensures plan { Starts (sink_plan result) most failing.items }
    {
        MemorySink {
            kept: Vec::new(alloc),
            faults: 0,
            plan: Plan::new(most, failing),
        }
    }

    /// What was put so far.
    pub fn as_slice(&self) -> &[u8]
        ensures { Some result.now ≡ ⟦<MemorySink as Sink>⟧.contents self.now }
    {
        &self.kept
    }

    /// How many calls failed.
    pub fn faults(&self) -> u64
        ensures { result ≡ ⟦<MemorySink as Sink>⟧.faults self.now }
    {
        self.faults
    }
}

impl Sink for MemorySink {
    ghost contents = { λ sink. Some sink.kept.items };

    ghost faults = { λ sink. sink.faults };

    fn put(&mut self, bytes: &[u8]) -> Result<usize, Failed>
        requires { 0 < length bytes.now }
        ensures some { IfOk result (λ n. 1 ≤ n) }
        ensures within { IfOk result (λ n. n ≤ length bytes.now) }
        ensures taken { IfOk result (λ n. Some self.new.kept.items ≡ appended (Some self.old.kept.items) (take n bytes.now)) }
        ensures refused { OnErr result (self.new.kept.items ≡ self.old.kept.items) }
        ensures cause { OnErr result (Rose self.old.faults self.new.faults) }
        ensures count { self.old.faults ≤ self.new.faults }
        ensures moves { IfOk result (λ n. Some n ≡ moved (sink_plan self.old) (length bytes.now)) }
        ensures full { OnErr result (IfSome (moved (sink_plan self.old) (length bytes.now)) (λ n. vec_capacity self.old.kept < vec_len self.old.kept + n)) }
        ensures calm { OnOk result (self.new.faults ≡ self.old.faults) }
        ensures counted { OnErr result (self.new.faults ≡ one_more self.old.faults) }
        ensures plan { sink_plan self.new ≡ called (sink_plan self.old) }
    {
        if let Some(count) = self.plan.next(bytes.len()) {
            if self.kept.extend_from_slice(&bytes[..count]).is_ok() {
                return Ok(count);
            }
        }
        self.faults = one_more(self.faults);
        Err(Failed)
    }
}

/// A sink that never fails. It keeps nothing but the number of bytes that it took, so it shows nothing.
#[derive(Drop)]
pub struct NeverSink {
    taken: u64,
}

impl NeverSink {
    /// A sink that took nothing yet.
    pub fn new() -> NeverSink
        ensures { bytes_taken result ≡ 0 }
    {
        NeverSink { taken: 0 }
    }

    /// How many bytes were put; it stays at the last value of a u64.
    pub fn taken(&self) -> u64
        ensures { result ≡ bytes_taken self.now }
    {
        self.taken
    }
}

impl Sink for NeverSink {
    ghost contents = { λ sink. None };

    ghost faults = { λ sink. 0 };

    fn put(&mut self, bytes: &[u8]) -> Result<usize, Failed>
        ensures all { IsOkAnd result (λ n. n ≡ length bytes.now) }
        ensures counted { bytes_taken self.new ≡ min (bytes_taken self.old + length bytes.now) (2 ^ 64 - 1) }
    {
        self.taken = self.taken.saturating_add(bytes.len() as u64);
        Ok(bytes.len())
    }
}

// A path and its file.
#[derive(Drop)]
struct File {
    path: String,
    bytes: Vec<u8>,
}

// The bytes of the first file at the path.
fn bytes_at<'a>(files: &'a [File], path: &str) -> Option<&'a [u8]>
    ensures { option_map (λ bytes. bytes.now) result ≡ file_at files.now path.now }
{
    for file in files {
        if file.path.as_str() == path {
            return Some(&file.bytes);
        }
    }
    None
}

// Copies the bytes from place `from` on over the front of `into`, as many as there are, `most` at most.
fn copy(bytes: &[u8], from: u64, most: usize, into: &mut [u8]) -> usize
    requires some { 0 < most }
    requires within { most ≤ length into.old }
    ensures within { result ≤ length into.old }
    ensures given { GivesBytes (drop from bytes.now) into.old result into.new }
    ensures count { result ≡ min (length bytes.now - from) most }
{
    if from >= bytes.len() as u64 {
        return 0;
    }
    let left = &bytes[from as usize..];
    let count = left.len().min(most);
    into[..count].copy_from_slice(&left[..count]);
    count
}

/// Files by their path. Where a path has two files, the first one counts. Each path that was added, or
/// declared as missing, has a count of faults of its own; only all other paths share one count. A read takes
/// no memory: it fails only where the plan says so, and at a path without a file.
#[derive(Drop)]
pub struct MemoryFiles {
    alloc: Global,
    files: Vec<File>,
    counts: Counts,
    plan: Plan,
}

impl MemoryFiles {
    /// No files; a read gives all bytes that there are and fit.
    pub fn new(alloc: Global) -> MemoryFiles
        ensures told { (at : List ℕ) → ⟦<MemoryFiles as Files>⟧.contents result at ≡ None }
        ensures count { (at : List ℕ) → ⟦<MemoryFiles as Files>⟧.faults result at ≡ 0 }
        ensures plan { Starts (files_plan result) usize.MAX [] }
    {
        MemoryFiles::with_plan(alloc, usize::MAX, Vec::new(alloc))
    }

    /// No files. A read gives at most `most` bytes, and the calls whose numbers, from 0, are in `failing`
    /// fail. Where `most` is 0 each call fails.
    pub fn with_plan(alloc: Global, most: usize, failing: Vec<u64>) -> MemoryFiles
        ensures told { (at : List ℕ) → ⟦<MemoryFiles as Files>⟧.contents result at ≡ None }
        ensures count { (at : List ℕ) → ⟦<MemoryFiles as Files>⟧.faults result at ≡ 0 }
        ensures plan { Starts (files_plan result) most failing.items }
    {
        MemoryFiles {
            alloc,
            files: Vec::new(alloc),
            counts: Counts::new(alloc),
            plan: Plan::new(most, failing),
        }
    }

    /// Adds a file behind the others.
    pub fn add(&mut self, path: &str, bytes: &[u8]) -> Result<(), AllocError>
        ensures told { OnOk result ((at : List ℕ) → ⟦<MemoryFiles as Files>⟧.contents self.new at ≡ with_file (⟦<MemoryFiles as Files>⟧.contents self.old) path.now bytes.now at) }
        ensures same { OnErr result ((at : List ℕ) → ⟦<MemoryFiles as Files>⟧.contents self.new at ≡ ⟦<MemoryFiles as Files>⟧.contents self.old at) }
        ensures count { (at : List ℕ) → ⟦<MemoryFiles as Files>⟧.faults self.new at ≡ ⟦<MemoryFiles as Files>⟧.faults self.old at }
        ensures declared { (at : List ℕ) → is_declared self.new.counts at ≡ (is_declared self.old.counts at || (is_ok result && bytes_eq path.now at)) }
        ensures plan { files_plan self.new ≡ files_plan self.old }
    {
        let own = String::from_str(self.alloc, path)?;
        let bytes = Vec::from_slice(self.alloc, bytes)?;
        self.files.reserve(1)?;
        self.counts.declare(path)?;
        self.files.push_reserved(File { path: own, bytes });
        Ok(())
    }

    /// Declares a path without a file: from now on it has a count of faults of its own, which begins where
    /// the shared one stands. A file may be added at it later. Where the path has a count already, nothing
    /// changes.
    pub fn expect_missing(&mut self, path: &str) -> Result<(), AllocError>
        ensures told { (at : List ℕ) → ⟦<MemoryFiles as Files>⟧.contents self.new at ≡ ⟦<MemoryFiles as Files>⟧.contents self.old at }
        ensures count { (at : List ℕ) → ⟦<MemoryFiles as Files>⟧.faults self.new at ≡ ⟦<MemoryFiles as Files>⟧.faults self.old at }
        ensures declared { (at : List ℕ) → is_declared self.new.counts at ≡ (is_declared self.old.counts at || (is_ok result && bytes_eq path.now at)) }
        ensures plan { files_plan self.new ≡ files_plan self.old }
    {
        self.counts.declare(path)
    }

    /// How many reads of the path failed.
    pub fn faults(&self, path: &str) -> u64
        ensures { result ≡ ⟦<MemoryFiles as Files>⟧.faults self.now path.now }
    {
        self.counts.of(path)
    }
}

impl Files for MemoryFiles {
    ghost contents = { λ files. file_at files.files.items };

    ghost faults = { λ files. count_at files.counts };

    fn read(&mut self, path: &str, from: u64, into: &mut [u8]) -> Result<usize, Failed>
        requires { 0 < length into.old }
        ensures within { IfOk result (λ n. n ≤ length into.old) }
        ensures given { IfOk result (λ n. IfSome (file_at self.old.files.items path.now) (λ file. GivesBytes (drop from file) into.old n into.new)) }
        ensures cause { OnErr result (Rose (count_at self.old.counts path.now) (count_at self.new.counts path.now)) }
        ensures same { (at : List ℕ) → file_at self.new.files.items at ≡ file_at self.old.files.items at }
        ensures count { (at : List ℕ) → count_at self.old.counts at ≤ count_at self.new.counts at }
        ensures exact { result_ok result ≡ read_count (files_plan self.old) (file_at self.old.files.items path.now) from (length into.old) }
        ensures unread { OnErr result (into.new ≡ into.old) }
        ensures calm { OnOk result ((at : List ℕ) → count_at self.new.counts at ≡ count_at self.old.counts at) }
        ensures counted { OnErr result ((at : List ℕ) → count_at self.new.counts at ≡ raised_at self.old.counts path.now at) }
        ensures own { (at : List ℕ) → IsFalse (bytes_eq path.now at) → IsTrue (is_declared self.old.counts at) → count_at self.new.counts at ≡ count_at self.old.counts at }
        ensures declared { (at : List ℕ) → is_declared self.new.counts at ≡ is_declared self.old.counts at }
        ensures plan { files_plan self.new ≡ called (files_plan self.old) }
    {
        let next = self.plan.next(into.len());
        if let Some(most) = next {
            if let Some(bytes) = bytes_at(&self.files, path) {
                return Ok(copy(bytes, from, most, into));
            }
        }
        self.counts.raise(path);
        Err(Failed)
    }
}
