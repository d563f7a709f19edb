//! The tables of a file. Each begins with a line `= ` and its name.

use crate::case::Case;
use crate::fault::Fault;
use crate::names::Names;
use crate::tally::Tally;
use std::alloc::Global;

/// The tables of a file, as far as they are read and played.
#[derive(Drop)]
pub(crate) struct Sheet<'a> {
    alloc: Global,
    names: &'a Names,
    /// The name of the table that is read; before the first one there is none.
    name: Option<String>,
    case: Case,
    tally: Tally,
    /// What is said of the tables before.
    pub(crate) told: String,
    /// Whether all of it came as it should.
    pub(crate) is_well: bool,
}

impl<'a> Sheet<'a> {
    pub(crate) fn new(alloc: Global, names: &'a Names) -> Result<Sheet<'a>, Fault> {
        Ok(Sheet {
            alloc,
            names,
            name: None,
            case: Case::new(alloc)?,
            tally: Tally::new(alloc),
            told: String::new(alloc),
            is_well: true,
        })
    }

    pub(crate) fn put_line(&mut self, line: &str) -> Result<(), Fault> {
        if let Some(name) = line.strip_prefix("= ") {
            self.end_table()?;
            self.name = Some(String::from_str(self.alloc, name)?);
            self.case = Case::new(self.alloc)?;
            self.tally = Tally::new(self.alloc);
            Ok(())
        } else if line.is_empty() {
            self.end_case()
        } else {
            self.case.put_line(self.names, line)
        }
    }

    /// Plays what is left of the table, if there is one, and says what came of it.
    pub(crate) fn end_table(&mut self) -> Result<(), Fault> {
        self.end_case()?;
        if let Some(name) = &self.name {
            let told = self.tally.told(name.as_str())?;
            self.told.push_str(told.as_str())?;
            self.is_well &= self.tally.differences.is_empty();
        }
        Ok(())
    }

    /// Plays the case, if it is one.
    fn end_case(&mut self) -> Result<(), Fault> {
        if !self.case.wanted.is_empty() {
            if self.name.is_none() {
                return Err(Fault::Bad("a case stands in no table"));
            }
            self.tally.play(&self.case)?;
        } else if !self.case.steps.is_empty() {
            return Err(Fault::Bad("a case wants nothing"));
        }
        self.case.clear();
        Ok(())
    }
}
