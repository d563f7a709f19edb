use crate::desks::{Before, ECHO, clock, expect, hear};
use fv_live::MemorySource;
use live_samples::desk;
use live_session::{OpenGate, ReaderEnd, Side, run_reader};
use samples::bytes;
use std::test::Fail;

/// The places of those who sleep: behind the switch's, alice's and bob's.
const ALICE: usize = 1;

const BOB: usize = 2;

/// What the desk heard before, whose connection comes and ends, and the bits of those who then still sleep.
const WOKEN: [(Before, Side, u64); 3] = [
    (Before::Opened, Side::Slice(0), 1 << BOB),
    (Before::Opened, Side::Slice(1), 1 << ALICE),
    (Before::Nothing, Side::Switch, 0),
];

#[test]
fn link_of_a_slice_wakes_no_other_slice(rt: HostRuntime) -> Result<(), Fail> {
    let alloc = rt.alloc();
    for (before, side, asleep) in WOKEN {
        let (desk, mut seat, bells) = desk(alloc)?;
        let mut reading = desk.split(&mut seat, 100);
        expect(
            &rt,
            hear(&rt, alloc, &desk, &mut seat, before)?,
            "what the desk heard before",
        );
        let waiting = bells.waiting()?;
        waiting.lie_down(ALICE);
        waiting.lie_down(BOB);
        let mut source = MemorySource::new(bytes(alloc, &[ECHO])?, 3, Vec::new(alloc));
        let mut clock = clock(alloc)?;
        let end = run_reader(
            &rt,
            alloc,
            &desk,
            &mut reading,
            &mut source,
            side,
            &mut clock,
            &OpenGate,
            &bells,
        );
        expect(&rt, end == ReaderEnd::Closed, "how the reader ended");
        expect(&rt, waiting.wake_all() == asleep, "who sleeps");
    }
    Ok(())
}
