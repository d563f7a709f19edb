//! Lines that stand many times. Between a line `* 40` and a line `*` they are taken forty times. In them `{7+2}` is 7,
//! 9, 11 and so on, and `{100:8}` is 100, 101 and so on, as eight hexadecimal digits.

use crate::fault::Fault;
use std::alloc::Global;

/// The number that a counter has in this round, counted from 0.
fn number_in(first: &str, step: &str, round: u32) -> Result<u32, Fault> {
    match (first.parse::<u32>(), step.parse::<u32>()) {
        (Ok(first), Ok(step)) => Ok(first.wrapping_add(step.wrapping_mul(round))),
        _ => Err(Fault::Bad("a counter has no number")),
    }
}

fn put_counter(out: &mut String, counter: &str, round: u32) -> Result<(), Fault> {
    match counter.split_once(":") {
        Some((first, "8")) => write!(out, "{:08x}", number_in(first, "1", round)?)?,
        Some((first, "4")) => write!(out, "{:04x}", number_in(first, "1", round)?)?,
        Some(_) => return Err(Fault::Bad("a counter has 4 digits or 8")),
        None => {
            let (first, step) = counter.split_once("+").unwrap_or((counter, "1"));
            write!(out, "{}", number_in(first, step, round)?)?;
        }
    }
    Ok(())
}

fn put_counted(out: &mut String, line: &str, round: u32) -> Result<(), Fault> {
    let mut pieces = line.split('{');
    out.push_str(pieces.next().unwrap_or(""))?;
    for piece in pieces {
        let (counter, behind) = piece
            .split_once("}")
            .ok_or(Fault::Bad("a counter has no end"))?;
        put_counter(out, counter, round)?;
        out.push_str(behind)?;
    }
    out.push_str("\n")?;
    Ok(())
}

fn put_rounds(out: &mut String, block: &str, rounds: u32) -> Result<(), Fault> {
    for round in 0..rounds {
        for line in block.lines() {
            put_counted(out, line, round)?;
        }
    }
    Ok(())
}

/// Appends a line.
pub(crate) fn put_line(out: &mut String, line: &str) -> Result<(), Fault> {
    out.push_str(line)?;
    out.push_str("\n")?;
    Ok(())
}

/// The text with such lines written out.
pub(crate) fn written_out(alloc: Global, text: &str) -> Result<String, Fault> {
    let mut out = String::new(alloc);
    let mut block = String::new(alloc);
    let mut rounds = None;
    for line in text.lines() {
        match (line.strip_prefix('*'), rounds) {
            (None, None) => put_line(&mut out, line)?,
            (None, Some(_)) => put_line(&mut block, line)?,
            (Some(""), Some(count)) => {
                put_rounds(&mut out, block.as_str(), count)?;
                block.clear();
                rounds = None;
            }
            (Some(count), None) => {
                let count = count.trim_start().parse::<u32>().ok();
                rounds = Some(count.ok_or(Fault::Bad("rounds have no count"))?);
            }
            (Some(_), Some(_)) => return Err(Fault::Bad("rounds in rounds")),
        }
    }
    if rounds.is_some() {
        return Err(Fault::Bad("rounds have no end"));
    }
    Ok(out)
}
