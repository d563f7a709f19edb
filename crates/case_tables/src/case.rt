//! A case of a table, as far as it is read. Between cases a blank line stands. What the lines say:
//!
//! - `# ..`: what the case shows
//! - `> ..`: a step of its recording
//! - `| ..`: a line of its policy
//! - `& ..`: a line of its other policy
//! - `: ..`: how it is played
//! - any other: what is to come
//!
//! Names are written out in all but the first and those of `: words`; `opened` is a name of steps. A policy's line
//! that ends with `\` has no line feed behind it. A policy, and how cases are played, hold for those behind it too,
//! up to the end of the table; so they may stand alone. The files have the names `policy`, `other` and `recording`.
//! What is to come are the lines of the output, where `_` is an empty one, and of which the last one ends with `\`
//! where no line feed came; and, where the status isn't 0, `! ` with the status and the error line; where a read
//! failed, `failed reads: policy 1, other 0, recording 0`.
//!
//! - `: words check|policy`: the words of the call; before, they are those of a replay
//! - `: policy ff`: the policy, as digits of its bytes
//! - `: sink 7`: the sink takes at most 7 bytes at once
//! - `: fails 2`: the sink's call with this number, from 0 on, fails
//! - `: bytes`: each case is played once more, with a record for each byte of the connections; `: whole`: it isn't
//! - `: read`: each line to come is a row, `priority = 1 => ok 2 1`: what stands in the place of `...` in the policy,
//!   and what is said of reading it; or that alone
//! - `: print`: what is said of the policy's text when it is read and printed
//! - `: forms`: each line to come is a row of words and of what they are read as, `check|P => Check { policy: "P" }`

use crate::fault::Fault;
use crate::lines::put_line;
use crate::names::Names;
use crate::records::bytes_of;
use std::alloc::Global;

/// What is asked for.
#[derive(Clone, Copy)]
pub(crate) enum Act {
    Call,
    Read,
    Print,
    Forms,
}

/// How the calls of a case go.
#[derive(Clone, Copy)]
pub(crate) struct Manner {
    pub(crate) act: Act,
    /// The most bytes that the sink takes at once.
    pub(crate) most: usize,
    /// The sink's call that fails.
    pub(crate) failing: Option<u64>,
    /// Also with a record for each byte.
    pub(crate) by_bytes: bool,
}

/// The file of a policy; an empty one isn't there.
#[derive(Drop)]
pub(crate) struct PolicyFile {
    pub(crate) bytes: Vec<u8>,
    /// Whether it is that of the case before.
    is_old: bool,
}

impl PolicyFile {
    fn new(alloc: Global) -> PolicyFile {
        PolicyFile {
            bytes: Vec::new(alloc),
            is_old: true,
        }
    }

    fn put_line(&mut self, names: &Names, line: &str) -> Result<(), Fault> {
        if self.is_old {
            self.bytes.clear();
            self.is_old = false;
        }
        let mut text = names.written_out(line)?;
        if line.ends_with('\\') {
            text.pop();
        } else {
            text.push_str("\n")?;
        }
        self.bytes.extend_from_slice(text.as_bytes())?;
        Ok(())
    }
}

/// A case, as far as it is read.
#[derive(Drop)]
pub(crate) struct Case {
    alloc: Global,
    pub(crate) about: String,
    pub(crate) manner: Manner,
    pub(crate) words: String,
    pub(crate) policy: PolicyFile,
    pub(crate) other: PolicyFile,
    pub(crate) steps: String,
    pub(crate) wanted: String,
}

fn number(text: &str) -> Result<u64, Fault> {
    let number = text.parse::<u64>().ok();
    number.ok_or(Fault::Bad("a number is wanted"))
}

impl Case {
    /// The first case of a table.
    pub(crate) fn new(alloc: Global) -> Result<Case, Fault> {
        Ok(Case {
            alloc,
            about: String::new(alloc),
            manner: Manner {
                act: Act::Call,
                most: usize::MAX,
                failing: None,
                by_bytes: false,
            },
            words: String::from_str(alloc, "replay|policy|recording")?,
            policy: PolicyFile::new(alloc),
            other: PolicyFile::new(alloc),
            steps: String::new(alloc),
            wanted: String::new(alloc),
        })
    }

    /// Goes on to the next case.
    pub(crate) fn clear(&mut self) {
        self.about.clear();
        self.policy.is_old = true;
        self.other.is_old = true;
        self.steps.clear();
        self.wanted.clear();
    }

    pub(crate) fn put_line(&mut self, names: &Names, line: &str) -> Result<(), Fault> {
        match line.split_once(" ").unwrap_or((line, "")) {
            ("#", _) => put_line(&mut self.about, line),
            ("|", text) => self.policy.put_line(names, text),
            ("&", text) => self.other.put_line(names, text),
            ("_", _) => put_line(&mut self.wanted, ""),
            (">", step) => put_line(&mut self.steps, names.written_out(step)?.as_str()),
            (":", setting) => self.set(names, setting),
            _ => put_line(&mut self.wanted, names.written_out(line)?.as_str()),
        }
    }

    fn set(&mut self, names: &Names, setting: &str) -> Result<(), Fault> {
        let (way, value) = setting.split_once(" ").unwrap_or((setting, ""));
        match way {
            "words" => self.words = String::from_str(self.alloc, value)?,
            "policy" => {
                self.policy.bytes = bytes_of(self.alloc, names.written_out(value)?.as_str())?;
            }
            "sink" => self.manner.most = number(value)? as usize,
            "fails" => self.manner.failing = Some(number(value)?),
            "bytes" => self.manner.by_bytes = true,
            "whole" => self.manner.by_bytes = false,
            "read" => self.manner.act = Act::Read,
            "print" => self.manner.act = Act::Print,
            "forms" => self.manner.act = Act::Forms,
            _ => return Err(Fault::Bad("no way to play is called so")),
        }
        Ok(())
    }
}
