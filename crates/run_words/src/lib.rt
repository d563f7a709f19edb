//! Definitions of summaries, and worked examples: those of short recordings, as they follow from the
//! definitions.
#![tactic(auto)]

ghost use Rattle.run_words.specs.Examples.{NoRound, OneRound};

/// The summary of a made recording without rounds, and of one with a round in which a slice is refused.
pub fn made_recordings_are_summed()
    ensures no_round { NoRound }
    ensures one_round { OneRound }
{}
