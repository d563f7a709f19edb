ghost use Rattle.std.specs.Prelude.{◌≡◌, ◌+◌, ◌-◌, ◌^◌, min};

use turn_desk::Object;

// It counts how often it was asked, and answers the number of each question, from 1.
#[derive(Drop)]
pub struct Counter {
    pub asked: u64,
}

impl Object for Counter {
    type Op = ();

    type Reply = u64;

    ghost acts = { λ old op reply new. (new.asked ≡ min (old.asked + 1) (2 ^ 64 - 1)) × (reply ≡ new.asked) };

    fn act(&mut self, _op: ()) -> u64 {
        self.asked = self.asked.saturating_add(1);
        self.asked
    }
}
