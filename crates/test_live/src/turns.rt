//! A desk around a counter, asked by one thread and by two.

mod counter;

ghost use Rattle.std.specs.Prelude.{IfOk};
ghost use Rattle.turn_desk.specs.Seats.{IsSeatOf, SameDesk};

use counter::Counter;
use expectations::{expect, expect_eq};
use std::alloc::{AllocError, Global};
use std::sync::Wait;
use std::test::Fail;
use std::thread;
use turn_desk::{Spent, TurnDesk, TurnSeat};

// What a thread was answered, and its seat.
#[derive(Drop)]
struct Answered {
    replies: Vec<u64>,
    seat: TurnSeat<Counter>,
}

// Asks so often, or while there are calls left.
fn ask_all<R: Wait>(
    rt: &R,
    alloc: Global,
    desk: &TurnDesk<Counter>,
    seat: TurnSeat<Counter>,
    questions: u32,
) -> Result<Answered, AllocError>
    requires { IsSeatOf desk.now seat }
    ensures { IfOk result (λ answered. IsSeatOf desk.now answered.seat) }
{
    let mut replies = Vec::new(alloc);
    let mut seat = seat;
    for _ in 0..questions {
        if let Ok(reply) = desk.submit(rt, &mut seat, ()) {
            replies.push(reply)?;
        }
    }
    Ok(Answered { replies, seat })
}

#[test]
fn replies_to_two_threads_are_all_numbers_once(rt: HostRuntime) -> Result<(), Fail> {
    let alloc = rt.alloc();
    let (desk, mut seat) = TurnDesk::new(alloc, Counter { asked: 0 })?;
    let other = desk.split(&mut seat, 1_000);
    let shared = &desk;
    let (mine, theirs) = thread::join(
        &rt,
        || -> Result<Answered, AllocError>
            requires { IsSeatOf shared.now seat }
            ensures { IfOk result (λ answered. IsSeatOf shared.entry.now answered.seat) }
        { ask_all(&rt, alloc, shared, seat, 1_000) },
        || -> Result<Answered, AllocError>
            requires { IsSeatOf shared.now other }
            ensures { IfOk result (λ answered. IsSeatOf shared.entry.now answered.seat) }
        { ask_all(&rt, alloc, shared, other, 1_001) },
    );
    let Answered { replies, mut seat } = mine?;
    let theirs = theirs?;
    let mut all = replies;
    all.extend_from_slice(&theirs.replies)?;
    all.sort_unstable();
    expect!(all.iter().copied().eq(1..=2_000u64));
    expect_eq!(theirs.seat.left(), 0);
    desk.join(&mut seat, theirs.seat);
    expect!(desk.submit(&rt, &mut seat, ()) == Ok(2_001));
    let counter = desk.close(seat);
    expect!(counter.is_some_and(|counter| counter.asked == 2_001));
    Ok(())
}

#[test]
fn desk_with_a_seat_that_has_calls_is_not_given_back(rt: HostRuntime) -> Result<(), Fail> {
    let (desk, mut seat) = TurnDesk::new(rt.alloc(), Counter { asked: 0 })?;
    let other = desk.split(&mut seat, 5);
    expect_eq!(other.left(), 5);
    expect_eq!(seat.left(), (1 << 63) - 5);
    expect!(desk.close(seat).is_none());
    Ok(())
}

#[test]
fn desk_is_not_given_back_to_a_seat_that_has_not_seen_all(rt: HostRuntime) -> Result<(), Fail> {
    let alloc = rt.alloc();
    let (desk, mut seat) = TurnDesk::new(alloc, Counter { asked: 0 })?;
    let other = desk.split(&mut seat, 5);
    let theirs = ask_all(&rt, alloc, &desk, other, 5)?;
    expect_eq!(theirs.seat.left(), 0);
    expect!(desk.close(seat).is_none());
    Ok(())
}

#[test]
fn seat_without_calls_is_spent(rt: HostRuntime) -> Result<(), Fail> {
    let (desk, mut seat) = TurnDesk::new(rt.alloc(), Counter { asked: 0 })?;
    let mut other = desk.split(&mut seat, 0);
    expect!(desk.submit(&rt, &mut other, ()) == Err(Spent));
    expect!(desk.submit(&rt, &mut seat, ()) == Ok(1));
    desk.meet(&mut seat, &mut other);
    expect!(desk.close(other).is_none());
    Ok(())
}

#[test]
fn object_is_given_back_once_all_calls_are_made(rt: HostRuntime) -> Result<(), Fail> {
    let alloc = rt.alloc();
    let (desk, mut seat) = TurnDesk::new(alloc, Counter { asked: 0 })?;
    let other = desk.split(&mut seat, 5);
    let mut theirs = ask_all(&rt, alloc, &desk, other, 6)?;
    expect_eq!(theirs.replies.as_slice(), &[1, 2, 3, 4, 5][..]);
    desk.meet(&mut seat, &mut theirs.seat);
    let counter = desk.close(seat);
    expect!(counter.is_some_and(|counter| counter.asked == 5));
    Ok(())
}
