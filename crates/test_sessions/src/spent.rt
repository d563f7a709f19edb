use crate::desks::{ECHO, Found, clock, expect, finds};
use fv_live::MemorySource;
use live_samples::desk;
use live_session::{OpenGate, ReaderEnd, Side, run_reader, tell_end};
use samples::bytes;
use std::test::Fail;

/// How many calls were kept for the end of a reader whose own are spent, and what the switch finds then.
const KEPT: [(u32, Found); 2] = [(1, Found::Ended), (0, Found::Message)];

#[test]
fn call_that_was_kept_takes_the_switch_down(rt: HostRuntime) -> Result<(), Fail> {
    let alloc = rt.alloc();
    for (calls, found) in KEPT {
        let (desk, mut seat, bells) = desk(alloc)?;
        let mut reading = desk.split(&mut seat, 2);
        let mut kept = desk.split(&mut seat, u64::from(calls));
        let mut source = MemorySource::new(bytes(alloc, &[ECHO, ECHO])?, 3, Vec::new(alloc));
        let mut clock = clock(alloc)?;
        let end = run_reader(
            &rt,
            alloc,
            &desk,
            &mut reading,
            &mut source,
            Side::Switch,
            &mut clock,
            &OpenGate,
            &bells,
        );
        expect(&rt, end == ReaderEnd::Spent, "how the reader ended");
        let told = tell_end(&rt, &desk, &mut kept, Side::Switch, &mut clock, &bells);
        expect(&rt, told.is_ok() == (calls > 0), "whether a call was left");
        expect(
            &rt,
            finds(&rt, &desk, &mut seat, found),
            "what the switch finds",
        );
    }
    Ok(())
}
