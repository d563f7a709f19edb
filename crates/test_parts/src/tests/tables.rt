//! Tables of calls, each beside the text of what it is to answer; and what draws are to come to.

use draws::times;
use expectations::expect_told;
use std::alloc::AllocError;
use std::test::Fail;

/// A part that is called.
pub(crate) trait Part<Call> {
    /// The text of what it answers.
    fn answer(&mut self, call: &Call) -> Result<String, AllocError>;
}

/// Makes the calls one after another. Each is answered as its row says.
pub(crate) fn play<Call, P: Part<Call>>(part: &mut P, rows: &[(Call, &str)]) -> Result<(), Fail> {
    let mut place = 0u32;
    for (call, wanted) in rows {
        let came = part.answer(call)?;
        expect_told(place, &came, wanted)?;
        place = place.saturating_add(1);
    }
    Ok(())
}

/// Two parts did the same in a step.
pub(crate) fn expect_alike(step: u32, alike: bool) -> Result<(), Fail> {
    if alike {
        Ok(())
    } else {
        Err(Fail::new(format_args!("not alike at {step}")))
    }
}

/// What was drawn came to each of the cases so often at least.
pub(crate) fn expect_seen(
    seen: &[&'static str],
    cases: &[&'static str],
    least: usize,
) -> Result<(), Fail> {
    for case in cases {
        let times = times(seen, case);
        if times < least {
            return Err(Fail::new(format_args!("{case}: {times} times")));
        }
    }
    Ok(())
}
