ghost use Rattle.std.specs.Prelude.{◌≡◌, ◌+◌, ◌-◌, ◌^◌, min};

use turn_desk::Object;

/// It counts how often it was asked.
#[derive(Drop)]
pub struct Counter {
    asked: u64,
}

impl Counter {
    /// Not asked yet.
    pub fn new() -> Counter {
        Counter { asked: 0 }
    }
}

impl Object for Counter {
    type Op = ();

    type Reply = u64;

    ghost acts = { λ old op reply new. (new.asked ≡ min (old.asked + 1) (2 ^ 64 - 1)) × (reply ≡ new.asked) };

    fn act(&mut self, _op: ()) -> u64 {
        self.asked = self.asked.saturating_add(1);
        self.asked
    }
}
