//! Measures the turns that threads take at a turn lock around a counter: `turn_bench MILLISECONDS`. For 1, 2, 4
//! and 66 threads it prints how many thousand turns they take together in a second, by the turn lock alone,
//! with a mutex held around each turn, and, beside both, under a mutex alone. Each is measured for so many
//! milliseconds. At 0 each thread takes one turn, and the turns are counted.
#![tactic(auto)]

mod asker;
mod counter;
mod round;

use round::{Round, Rounds, play_all};
use std::process::ExitCode;
use std::time::Duration;
use std::{env, io};

/// How many threads ask at once.
const THREADS: [usize; 4] = [1, 2, 4, 66];

/// The longest time that may be asked for.
const MOST_MILLISECONDS: u64 = 60_000;

const USAGE: &str = "usage: turn_bench MILLISECONDS\n";

fn read_words(rt: &HostRuntime) -> Option<Duration> {
    let mut words = env::args(rt).ok()?.skip(1);
    let millis = words.next()?.parse::<u64>().ok()?;
    if words.next().is_some() || millis > MOST_MILLISECONDS {
        return None;
    }
    Some(Duration::from_millis(millis))
}

/// The thousands of turns in a second.
fn rate(round: Round) -> u128 {
    u128::from(round.turns).saturating_mul(1_000) / round.micros.max(1)
}

/// Prints what was found of so many threads.
fn print_rounds<R: Print>(
    rt: &R,
    threads: usize,
    rounds: &Rounds,
    is_timed: bool,
) -> io::Result<()> {
    let Rounds { alone, held, mutex } = *rounds;
    if is_timed {
        println!(rt;
            "{threads} threads: {} thousand turns a second, {} with a hold, {} under a mutex",
            rate(alone),
            rate(held),
            rate(mutex)
        )
    } else {
        println!(rt;
            "{threads} threads: {} turns, {} with a hold, {} under a mutex",
            alone.turns, held.turns, mutex.turns
        )
    }
}

fn main(rt: HostRuntime) -> io::Result<ExitCode> {
    let Some(time) = read_words(&rt) else {
        rt.eprint(USAGE)?;
        return Ok(ExitCode::from(1));
    };
    for threads in THREADS {
        let rounds = play_all(rt, rt.alloc(), threads, time)?;
        print_rounds(&rt, threads, &rounds, !time.is_zero())?;
    }
    Ok(ExitCode::from(0))
}
