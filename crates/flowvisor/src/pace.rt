//! How long a dialler waits before it dials, and how often it tries.

ghost use Rattle.std.specs.Prelude.{◌≡◌};
ghost use Rattle.flowvisor.specs.Dialling.{tries_within, wait_before, wait_behind};

use std::rt::Clock;
use std::thread;
use std::time::{Duration, Instant};

/// A link that ended earlier after it came, in seconds, ended soon.
const SOON: u64 = 10;

/// How many dials in a row fail before one tries several times.
const PATIENT: u32 = 100;

/// How often one then tries. That takes a quarter of an hour at most where an address gives no answer, and a session is
/// older before it comes to that: so sessions that have ended, and still dial, are no more than there are places.
const TRIES: u32 = 60;

// How many milliseconds a dialler waits behind a link, where so many in a row ended soon.
fn wait_behind(short: u32) -> u64
    ensures { result ≡ wait_behind short }
{
    match short {
        0 => 100,
        1 => 1000,
        2 => 2000,
        3 => 4000,
        4 => 8000,
        _ => 10_000,
    }
}

/// How many milliseconds a dialler waits before an attempt, where so many before it failed in a row, and where so many
/// links in a row ended soon; none where there was no link yet.
fn wait_before(attempt: u32, short_links: Option<u32>) -> u64
    ensures { result ≡ wait_before attempt short_links }
{
    if attempt > 0 {
        return 1000 * u64::from(attempt.min(10));
    }
    match short_links {
        None => 0,
        Some(short) => wait_behind(short),
    }
}

/// How often one dial tries, where so many before it failed in a row.
pub fn tries_of(attempt: u32) -> u32
    ensures { result ≡ tries_within attempt }
{
    if attempt < PATIENT { 1 } else { TRIES }
}

/// What a dialler knows of the links that it gave.
#[derive(Drop)]
pub struct Pace {
    /// How many links in a row ended soon; none where there was no link yet.
    short_links: Option<u32>,
    /// When the newest link came, until it is seen how long it lasted.
    came: Option<Instant>,
}

impl Pace {
    /// No link was given yet.
    pub fn new() -> Pace {
        Pace {
            short_links: None,
            came: None,
        }
    }

    /// A link was given.
    pub fn link_came<R: Clock>(&mut self, rt: &R) {
        self.short_links = Some(self.short_links.unwrap_or(0));
        self.came = Instant::now(rt).ok();
    }

    // Sees how long the newest link lasted, which has ended.
    fn link_ended<R: Clock>(&mut self, rt: &R) {
        let Some(came) = self.came.take() else {
            return;
        };
        let is_short = came
            .elapsed(rt)
            .is_ok_and(|lasted| lasted < Duration::from_secs(SOON));
        self.short_links = Some(if is_short {
            self.short_links.unwrap_or(0).saturating_add(1)
        } else {
            0
        });
    }

    /// Waits before an attempt, where so many before it failed in a row.
    pub fn wait<R: Clock>(&mut self, rt: &R, attempt: u32) {
        self.link_ended(rt);
        let milliseconds = wait_before(attempt, self.short_links);
        thread::sleep(rt, Duration::from_millis(milliseconds));
    }
}
