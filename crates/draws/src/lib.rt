//! Numbers that tests draw, the same at every run, by a linear congruential generator; and how often what
//! they drew came to a case.
#![tactic(auto)]

ghost use Rattle.std.specs.Prelude.{◌≡◌, ◌<◌, ◌+◌, ◌*◌, ◌/◌, ◌%◌, ◌^◌, count_by};

/// A generator; those of one seed draw the same numbers.
#[derive(Drop)]
pub struct Draws {
    state: u64,
}

impl Draws {
    /// The generator of a seed.
    pub fn new(seed: u64) -> Draws
        ensures { result.state ≡ seed }
    {
        Draws { state: seed }
    }

    /// The next number, below a limit.
    pub fn number_below(&mut self, limit: u64) -> u64
        requires { 0 < limit }
        ensures state { self.new.state ≡ (self.old.state * 6364136223846793005 + 1442695040888963407) % 2 ^ 64 }
        ensures value { result ≡ self.new.state / 2 ^ 33 % limit }
        ensures below { result < limit }
    {
        self.state = self
            .state
            .wrapping_mul(6364136223846793005)
            .wrapping_add(1442695040888963407);
        (self.state >> 33) % limit
    }

    /// The next number, below a limit of one byte.
    pub fn below(&mut self, limit: u8) -> u8
        requires { 0 < limit }
        ensures state { self.new.state ≡ (self.old.state * 6364136223846793005 + 1442695040888963407) % 2 ^ 64 }
        ensures value { result ≡ self.new.state / 2 ^ 33 % limit }
        ensures below { result < limit }
    {
        self.number_below(u64::from(limit)) as u8
    }
}

/// How many of the cases that were seen are this one.
pub fn times<T: PartialEq>(seen: &[T], case: &T) -> usize
    ensures { result ≡ count_by (λ one. T.eq one case.now) seen.now }
{
    seen.iter().filter(|one| *one == case).count()
}
