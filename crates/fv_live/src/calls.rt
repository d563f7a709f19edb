//! Which calls on an object in memory fail.

ghost use Rattle.std.specs.Prelude.{◌≡◌};
ghost use Rattle.fv_live.specs.Calls.{NoCallYet, fails_next, one_call_more};

/// The calls that are to fail, by their numbers, and how many were made.
#[derive(Drop)]
pub struct FailingCalls {
    numbers: Vec<u64>,
    calls: u64,
}

impl FailingCalls {
    /// The calls with these numbers fail, from 0; none was made yet.
    pub fn new(numbers: Vec<u64>) -> FailingCalls
        ensures { NoCallYet result numbers.items }
    {
        FailingCalls { numbers, calls: 0 }
    }

    /// Whether the next call fails. It is made now.
    pub fn next(&mut self) -> bool
        ensures value { result ≡ fails_next self.old }
        ensures counted { self.new ≡ one_call_more self.old }
    {
        let fails = self.numbers.contains(&self.calls);
        self.calls = self.calls.saturating_add(1);
        fails
    }
}
