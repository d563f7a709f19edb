//! Measures calls that the proxy makes for each message, the reading of a large policy and the report of a
//! recording:
//! `flowvisor_bench BENCHMARK COUNT`, where the benchmark is one that `benchmark` names, or `all` for all but
//! the reading of policies. It prints what the calls found and, from a million of them on, how many millions
//! or how many megabytes there were in a second. Of those with many rules or many booked pairs it prints how
//! many thousand, and of the report of a recording how many events, from ten thousand on. Of policies it
//! prints how many, from ten on.
//!
//! `flowvisor_bench worst COUNT` sends each of the messages that cost a desk most time so often to a desk, and
//! prints how many messages the last one brought and how many microseconds the longest step took.
//! `flowvisor_bench flat COUNT` prints how long the report of so many packets takes under 2 rules and under
//! 2,048.
#![tactic(auto)]

mod benchmark;
mod checking;
mod costly_messages;
mod expanding;
mod longest_steps;
mod many_rules;
mod messages;
mod parts;
mod policies;
mod reporting;
mod sampling;
mod timing;

use benchmark::{ALL, CHECK, Named, Scale, run};
use longest_steps::measure_worst;
use many_rules::measure_flat;
use messages::Messages;
use sampling::Samples;
use std::alloc::Global;
use std::process::ExitCode;
use std::rt::Clock;
use std::time::Instant;
use std::{env, io};

/// The most calls that may be asked for.
const MOST_CALLS: u64 = 100_000_000_000;

const USAGE: &str =
    "usage: flowvisor_bench matches|meet|includes|framing|packet-in-64|packet-in-1500|pieces|build|actions|check|issue|find|ask|booked|overlaps|newcomers|report|report-buffered|worst|flat|all COUNT\n";

/// What is measured.
#[derive(Clone, Copy)]
enum Measured {
    One(Named),
    All,
    Worst,
    Flat,
}

/// What the words ask for.
#[derive(Clone, Copy)]
struct Order {
    measured: Measured,
    count: u64,
}

/// What a word asks for.
fn asked_for(name: &str) -> Option<Measured> {
    match name {
        "all" => Some(Measured::All),
        "worst" => Some(Measured::Worst),
        "flat" => Some(Measured::Flat),
        "check" => Some(Measured::One(CHECK)),
        _ => {
            for named in ALL {
                if named.0 == name {
                    return Some(Measured::One(*named));
                }
            }
            None
        }
    }
}

fn read_words(rt: &HostRuntime) -> Option<Order> {
    let mut words = env::args(rt).ok()?.skip(1);
    let measured = asked_for(words.next()?.as_str())?;
    let count = words.next()?.parse::<u64>().ok()?;
    if words.next().is_some() || count > MOST_CALLS {
        return None;
    }
    Some(Order { measured, count })
}

/// Prints how fast so many calls were that took so long.
fn print_speed(
    rt: &impl Print,
    name: &str,
    scale: Scale,
    count: u64,
    micros: u128,
) -> io::Result<()> {
    let Scale { each, unit, .. } = scale;
    let tenths = u128::from(count)
        .saturating_mul(10)
        .saturating_mul(u128::from(each))
        / micros.max(1);
    let whole = tenths / 10;
    let tenth = tenths % 10;
    println!(rt; "{name}: {whole}.{tenth} {unit} a second")
}

/// Runs one benchmark and prints what it counted, and how fast it was.
fn measure<R: Clock + Print>(
    rt: &R,
    alloc: Global,
    samples: &Samples,
    messages: &Messages,
    named: Named,
    count: u64,
) -> io::Result<()> {
    let (name, benchmark, scale) = named;
    let start = Instant::now(rt)?;
    let found = run(alloc, samples, messages, benchmark, count)?;
    let micros = start.elapsed(rt)?.as_micros();
    println!(rt; "{name}: {found} of {count}")?;
    if count < scale.least || micros == 0 {
        return Ok(());
    }
    print_speed(rt, name, scale, count, micros)
}

fn obey<R: Clock + Print>(rt: &R, alloc: Global, order: Order) -> io::Result<()> {
    let samples = Samples::new();
    let messages = Messages::new(alloc)?;
    match order.measured {
        Measured::One(named) => measure(rt, alloc, &samples, &messages, named, order.count),
        Measured::All => {
            for named in ALL {
                measure(rt, alloc, &samples, &messages, *named, order.count)?;
            }
            Ok(())
        }
        Measured::Worst => measure_worst(rt, alloc, order.count),
        Measured::Flat => measure_flat(rt, alloc, order.count),
    }
}

fn main(rt: HostRuntime) -> io::Result<ExitCode> {
    let Some(order) = read_words(&rt) else {
        rt.eprint(USAGE)?;
        return Ok(ExitCode::from(1));
    };
    obey(&rt, rt.alloc(), order)?;
    Ok(ExitCode::from(0))
}
