//! What says the time.

ghost use Rattle.std.specs.Prelude.{◌≡◌, ◌<◌, ℕ, List, [], ◌∷◌, Option, Some, None, length, drop, vec_len};
ghost use Rattle.fv_live.specs.Live.{WasAsked};

/// What says the time. It can't fail.
pub trait Clock: Drop {
    /// The timestamps that it will answer, the last one from then on; where they are shown.
    ghost coming: { Self → Option (List ℕ) };

    /// The time in milliseconds, which may go back.
    fn now(&mut self) -> u64
        ensures { WasAsked (coming self.old) (result ∷ []) (coming self.new) };
}

/// A clock that answers given timestamps, one after the other, and the last of them from then on.
#[derive(Drop)]
pub struct MemoryClock {
    moments: Vec<u64>,
    at: usize,
    ghost some: { at < vec_len moments },
}

impl MemoryClock {
    /// A clock with these timestamps, of which there is one at least.
    pub fn new(moments: Vec<u64>) -> MemoryClock
        requires { 0 < vec_len moments }
        ensures { ⟦<MemoryClock as Clock>⟧.coming result ≡ Some moments.items }
    {
        MemoryClock { moments, at: 0 }
    }
}

impl Clock for MemoryClock {
    ghost coming = { λ clock. Some (drop clock.at clock.moments.items) };

    fn now(&mut self) -> u64 {
        let moment = self.moments[self.at];
        if self.at + 1 < self.moments.len() {
            self.at += 1;
        }
        moment
    }
}
