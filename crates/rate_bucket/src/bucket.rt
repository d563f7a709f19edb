//! Which messages of a slice keep its rate.

ghost use Rattle.std.specs.Prelude.{ℕ, ◌≡◌, ◌+◌, ◌-◌, ◌*◌, ◌≤◌, ◌↔◌, min, IsTrue, List, [], ◌∷◌, ◌++◌, length};
ghost use Rattle.rate_bucket.specs.Rates.{latest, Conforms, is_conforming, accepted, is_accepted, BucketStands};

use std::marker::Model;

/// Says which questions keep a rate, with no rounding. Timestamps are in milliseconds and may go back: a
/// question counts with the greatest timestamp asked up to it.
#[derive(Drop)]
pub struct RateBucket {
    rate: u32,
    burst: u32,
    moment: u64,
    level: u64,
}

impl Model for RateBucket {
    ghost use Rattle.rate_bucket.specs.Rates.{Bucket};

    ghost Value = { Bucket };

    ghost view = { λ b. record { rate = b.rate; burst = b.burst; moment = b.moment; level = b.level } };
}

impl RateBucket {
    /// A bucket of `rate` questions a second, and `burst` at once, that was asked nothing.
    pub fn new(rate: u32, burst: u32) -> RateBucket
        requires { 1 ≤ burst }
        ensures stands { BucketStands [] result }
        ensures rate { result.rate ≡ rate }
        ensures burst { result.burst ≡ burst }
    {
        RateBucket {
            rate,
            burst,
            moment: 0,
            level: 1000 * u64::from(burst),
        }
    }

    /// The thousandths of a question for which there is room at the timestamp.
    fn level_at(&self, moment: u64) -> u64
        ensures { result ≡ min (self.now.level + self.now.rate * (moment - self.now.moment)) (1000 * self.now.burst) }
    {
        let passed = u128::from(moment.saturating_sub(self.moment));
        let level = u128::from(self.level) + u128::from(self.rate) * passed;
        level.min(1000 * u128::from(self.burst)) as u64
    }

    /// Asks a question at the timestamp, and says whether it keeps the rate. A question that doesn't keep it
    /// uses up nothing.
    pub fn ask(&mut self, moment: u64) -> bool
        ensures answer { (questions : List ℕ) → BucketStands questions self.old → (IsTrue result ↔ Conforms self.old.rate self.old.burst (accepted self.old.rate self.old.burst questions) (latest (moment ∷ questions))) }
        ensures value { (questions : List ℕ) → BucketStands questions self.old → result ≡ is_accepted self.old.rate self.old.burst questions moment }
        ensures stands { (questions : List ℕ) → BucketStands questions self.old → BucketStands (moment ∷ questions) self.new }
        ensures rate { self.new.rate ≡ self.old.rate }
        ensures burst { self.new.burst ≡ self.old.burst }
    {
        let level = self.level_at(moment);
        self.moment = self.moment.max(moment);
        if level < 1000 {
            self.level = level;
            return false;
        }
        self.level = level - 1000;
        true
    }

    /// What `ask` would answer now.
    pub fn conforms(&self, moment: u64) -> bool
        ensures answer { (questions : List ℕ) → BucketStands questions self.now → (IsTrue result ↔ Conforms self.now.rate self.now.burst (accepted self.now.rate self.now.burst questions) (latest (moment ∷ questions))) }
        ensures value { (questions : List ℕ) → BucketStands questions self.now → result ≡ is_accepted self.now.rate self.now.burst questions moment }
    {
        self.level_at(moment) >= 1000
    }
}

/// The test by which questions are accepted is that each keeps the rate.
pub fn room_is_conformance()
    ensures { (rate burst : ℕ) (moments : List ℕ) (t : ℕ) → (IsTrue (is_conforming rate burst moments t) ↔ Conforms rate burst moments t) }
{}

/// However the questions come, from an accepted one to a later accepted one, both counted, there are in
/// thousandths no more than the burst and the rate times the time between them.
pub fn accepted_keep_the_rate()
    ensures { (rate burst : ℕ) (questions later between earlier : List ℕ) (a b : ℕ) → accepted rate burst questions ≡ later ++ (b ∷ (between ++ (a ∷ earlier))) → 1000 * (length between + 2) ≤ 1000 * burst + rate * (b - a) }
{}
