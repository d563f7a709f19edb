use crate::pace::{Pace, tries_of};
use crate::sockets::Sockets;
use fv_live::{Dialer, Wires};
use std::net::TcpListener;
use std::sync::atomic::{AtomicU64, Ordering};
use std::test::Fail;
use std::time::{Duration, Instant};
use std::{io, rt};

/// A clock that goes on where one sleeps, and else as it is set.
#[derive(Drop)]
struct Passing {
    milliseconds: AtomicU64,
}

impl Passing {
    fn now(&self) -> u64 {
        self.milliseconds.load(Ordering::SeqCst)
    }

    fn pass(&self, milliseconds: u64) {
        self.milliseconds.fetch_add(milliseconds, Ordering::SeqCst);
    }
}

impl rt::Clock for Passing {
    fn monotonic(&self) -> io::Result<Duration> {
        Ok(Duration::from_millis(self.now()))
    }

    fn since_1970(&self) -> io::Result<Duration> {
        Ok(Duration::from_millis(self.now()))
    }

    fn sleep(&self, duration: Duration) {
        self.pass(u64::try_from(duration.as_millis()).unwrap_or(0));
    }
}

/// How long it waits before an attempt, in milliseconds.
fn waited(clock: &Passing, pace: &mut Pace, attempt: u32) -> u64 {
    let before = clock.now();
    pace.wait(clock, attempt);
    clock.now().wrapping_sub(before)
}

/// How long links lasted, one after the other, and how long it waits behind each, in milliseconds.
const LINKS: [(u64, u64); 9] = [
    (0, 1_000),
    (0, 2_000),
    (9_999, 4_000),
    (1, 8_000),
    (0, 10_000),
    (0, 10_000),
    (10_000, 100),
    (3_600_000, 100),
    (0, 1_000),
];

#[test]
fn links_that_end_soon_are_dialled_ever_later(rt: HostRuntime) -> Result<(), Fail> {
    let clock = Passing {
        milliseconds: AtomicU64::new(5),
    };
    let mut pace = Pace::new();
    assert_eq!(rt; waited(&clock, &mut pace, 0), 0);
    for (lasted, wanted) in LINKS {
        pace.link_came(&clock);
        clock.pass(lasted);
        assert_eq!(rt; waited(&clock, &mut pace, 0), wanted, "{lasted}");
    }
    Ok(())
}

#[test]
fn dials_that_fail_are_ten_seconds_apart_at_most(rt: HostRuntime) -> Result<(), Fail> {
    let clock = Passing {
        milliseconds: AtomicU64::new(0),
    };
    let mut pace = Pace::new();
    for (attempt, wanted, tries) in [
        (1, 1_000, 1),
        (9, 9_000, 1),
        (10, 10_000, 1),
        (99, 10_000, 1),
        (100, 10_000, 60),
        (999, 10_000, 60),
    ] {
        assert_eq!(rt; waited(&clock, &mut pace, attempt), wanted, "{attempt}");
        assert_eq!(rt; tries_of(attempt), tries, "{attempt}");
    }
    Ok(())
}

#[test]
fn controller_that_hangs_up_is_not_dialled_at_once(rt: HostRuntime) -> Result<(), Fail> {
    let listener = TcpListener::bind(&rt, "127.0.0.1:0")?;
    let at = format!(in rt.alloc(); "{}", listener.local_addr()?)?;
    let mut dialer = Sockets::new(rt.alloc()).dialer();
    let since = Instant::now(&rt)?;
    for _ in 0..2 {
        drop(dialer.dial(&rt, &at, 0).ok().ok_or("dialled")?);
        drop(listener.accept()?);
    }
    assert!(rt; since.elapsed(&rt)? >= Duration::from_secs(1));
    Ok(())
}
