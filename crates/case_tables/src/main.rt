//! Plays tables of cases: `case_tables NAMES TABLE..`. The first file has names and what they stand for, the others
//! have tables, whose form `case` says. A case is a whole call of the program over files and sinks in memory,
//! a policy that is read or printed, or words that are read. For each table a line is printed, with how many
//! calls were as they should be; of each other one, what was wanted and what came. The exit status is 1 where
//! there is such a one, and where a file can't be read or isn't of that form.
#![tactic(auto)]

mod calls;
mod case;
mod fault;
mod lines;
mod names;
mod records;
mod sheet;
mod tally;
mod telling;

use fault::Fault;
use names::Names;
use sheet::Sheet;
use std::process::ExitCode;
use std::{env, fs};

/// Plays the tables of a file; whether all came as they should.
fn play_file(rt: &HostRuntime, names: &Names, path: &str) -> Result<bool, Fault> {
    let text = fs::read_to_string(rt, path)?;
    let text = lines::written_out(rt.alloc(), text.as_str())?;
    let mut sheet = Sheet::new(rt.alloc(), names)?;
    for line in text.as_str().lines() {
        if let Err(fault) = sheet.put_line(line) {
            eprintln!(rt; "{path}: {line}")?;
            return Err(fault);
        }
    }
    sheet.end_table()?;
    if sheet.told.is_empty() {
        return Err(Fault::Bad("a file has no table"));
    }
    rt.print(sheet.told.as_str())?;
    Ok(sheet.is_well)
}

fn play_all(rt: &HostRuntime) -> Result<bool, Fault> {
    let mut paths = env::args(rt)?.skip(1);
    let names = paths.next().ok_or(Fault::Bad("no file has the names"))?;
    let text = fs::read_to_string(rt, names.as_str())?;
    let names = Names::read(rt.alloc(), text.as_str())?;
    let mut all_well = true;
    for path in paths {
        all_well &= play_file(rt, &names, path.as_str())?;
    }
    Ok(all_well)
}

fn main(rt: HostRuntime) -> ExitCode {
    match play_all(&rt) {
        Ok(true) => ExitCode::from(0),
        Ok(false) => ExitCode::from(1),
        Err(fault) => {
            let _ = eprintln!(rt; "{}", fault.text());
            ExitCode::from(1)
        }
    }
}
