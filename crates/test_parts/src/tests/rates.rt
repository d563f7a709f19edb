//! Rates of messages beside the rule over all timestamps that were accepted.

use draws::Draws;
use rate_bucket::RateBucket;
use std::alloc::Global;
use std::test::Fail;

// The rule itself, over the accepted timestamps, the oldest first.
fn keeps_the_rate(rate: u32, burst: u32, accepted: &[u64], t: u64) -> bool {
    let mut count = accepted.len();
    for first in accepted {
        let passed = u128::from(t.saturating_sub(*first));
        let needed = 1000 * (count as u128 + 1);
        if needed > 1000 * u128::from(burst) + u128::from(rate) * passed {
            return false;
        }
        count = count.saturating_sub(1);
    }
    true
}

/// The bucket answers so, both times that it is asked about the timestamp.
fn expect_answer(bucket: &mut RateBucket, moment: u64, answer: bool) -> Result<(), Fail> {
    if bucket.conforms(moment) == answer && bucket.ask(moment) == answer {
        Ok(())
    } else {
        Err(Fail::new(format_args!("at {moment} not {answer}")))
    }
}

const ANSWERS: &[(u64, bool)] = &[(0, true), (0, true), (0, false), (1000, true), (500, false)];

#[test]
fn one_a_second_and_two_at_once() -> Result<(), Fail> {
    let mut bucket = RateBucket::new(1, 2);
    for (moment, answer) in ANSWERS {
        expect_answer(&mut bucket, *moment, *answer)?;
    }
    Ok(())
}

/// A rate and a burst, with the start and the step of the timestamps that are asked about.
type Asked = (u32, u32, u64, u64);

/// Asks about 600 timestamps that go on from the start, each by less than a step; one in four lies back from
/// there, by less than three steps. How many were refused?
fn refused(alloc: Global, draws: &mut Draws, asked: &Asked) -> Result<u32, Fail> {
    let (rate, burst, start, step) = *asked;
    let mut bucket = RateBucket::new(rate, burst.max(1));
    let mut accepted = Vec::new(alloc);
    let (mut now, mut latest, mut refused) = (start, 0, 0u32);
    for _ in 0..600u32 {
        now = now.saturating_add(draws.number_below(step.max(1)));
        let mut moment = now;
        if draws.number_below(4) == 0 {
            moment = now.saturating_sub(draws.number_below(step.saturating_mul(3).max(1)));
        }
        latest = moment.max(latest);
        let answer = keeps_the_rate(rate, burst, &accepted, latest);
        expect_answer(&mut bucket, moment, answer)?;
        if answer {
            accepted.push(latest)?;
        } else {
            refused = refused.saturating_add(1);
        }
    }
    Ok(refused)
}

const RATES: &[Asked] = &[
    (1, 1, 0, 1_200),
    (3, 2, 0, 400),
    (7, 40, 1_000_000_000, 150),
    (999, 5, 0, 3),
    (1_000_000, 1_000_000, 0, 2),
    (1, 3, u64::MAX - 500_000, 2_000),
    (u32::MAX, 1, 0, u64::MAX >> 11),
];

#[test]
fn answers_as_the_list_of_accepted_moments(rt: HostRuntime) -> Result<(), Fail> {
    let mut draws = Draws::new(1);
    let mut all = 0u32;
    for asked in RATES {
        all = all.saturating_add(refused(rt.alloc(), &mut draws, asked)?);
    }
    if all > 600 && all < 3_000 {
        Ok(())
    } else {
        Err(Fail::new(format_args!("{all} refused")))
    }
}
