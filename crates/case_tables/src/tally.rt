//! Cases that are played, and what is said of those that came otherwise.

use crate::calls::answer;
use crate::case::{Act, Case};
use crate::fault::Fault;
use crate::records::Cut;
use crate::telling::{form_text, print_text, read_with};
use std::alloc::Global;

/// How many calls of a table came as they should, and what is said of the others.
#[derive(Drop)]
pub(crate) struct Tally {
    alloc: Global,
    count: u32,
    pub(crate) differences: String,
}

impl Tally {
    pub(crate) fn new(alloc: Global) -> Tally {
        Tally {
            alloc,
            count: 0,
            differences: String::new(alloc),
        }
    }

    /// What is said of the table of this name.
    pub(crate) fn told(&self, name: &str) -> Result<String, Fault> {
        let Tally { count, .. } = self;
        let differences = self.differences.as_str();
        if *count == 0 && differences.is_empty() {
            return Err(Fault::Bad("a table has no case"));
        }
        Ok(format!(in self.alloc; "{name}: {count} as they should be\n{differences}")?)
    }

    fn expect(&mut self, about: &str, wanted: &str, came: &str) -> Result<(), Fault> {
        if wanted == came {
            self.count = self.count.saturating_add(1);
        } else {
            write!(
                self.differences,
                "not so: {about}\nwanted:\n{wanted}\ncame:\n{came}\n"
            )?;
        }
        Ok(())
    }

    pub(crate) fn play(&mut self, case: &Case) -> Result<(), Fault> {
        match case.manner.act {
            Act::Call => self.play_call(case),
            Act::Read | Act::Print | Act::Forms => self.play_rows(case),
        }
    }

    fn play_call(&mut self, case: &Case) -> Result<(), Fault> {
        let (about, wanted) = (case.about.as_str(), case.wanted.as_str());
        let came = answer(self.alloc, case, Cut::Whole)?;
        self.expect(about, wanted, came.as_str())?;
        if case.manner.by_bytes {
            let came = answer(self.alloc, case, Cut::Bytes)?;
            self.expect(about, wanted, came.as_str())?;
        }
        Ok(())
    }

    /// Each line to come is a row: what is given and what is wanted, or what is wanted alone.
    fn play_rows(&mut self, case: &Case) -> Result<(), Fault> {
        for row in case.wanted.as_str().lines() {
            let (given, wanted) = row.split_once(" => ").unwrap_or(("", row));
            let came = row_text(self.alloc, case, given)?;
            self.expect(row, wanted, came.as_str())?;
        }
        Ok(())
    }
}

/// What comes of a row.
fn row_text(alloc: Global, case: &Case, given: &str) -> Result<String, Fault> {
    match case.manner.act {
        Act::Forms => form_text(alloc, given),
        Act::Print => print_text(alloc, &case.policy.bytes),
        Act::Call | Act::Read => read_with(alloc, &case.policy.bytes, given),
    }
}
