//! The words that the program was called with.

ghost use Rattle.std.specs.Prelude.{◌≡◌, [], ◌∷◌, ◌++◌, OnOk, OnErr};
ghost use Rattle.std.specs.Result.{result_ok};
ghost use Rattle.std.specs.Option.{option_map};
ghost use Rattle.std.specs.List.{list_all};
ghost use Rattle.fv_base.specs.Words.{check_of, connections_of, form_of, form_bytes, four_of, gen_of, is_digit, is_number, is_plain, is_serve, number_of, of_three, of_two, rounds_of, seed_of, serve_of, three_of, within};

use std::alloc::{AllocError, Global};
use std::marker::Model;

/// A list of texts.
#[derive(Drop)]
pub struct Words {
    alloc: Global,
    items: Vec<String>,
}

impl Model for Words {
    ghost use Rattle.std.specs.Prelude.{List, ℕ, map};
    ghost use Rattle.std.specs.String.{string_bytes};

    ghost Value = { List (List ℕ) };

    ghost view = { λ words. map string_bytes words.items.items };
}

impl Words {
    /// No words.
    pub fn new(alloc: Global) -> Words
        ensures { result ≡ [] }
    {
        Words {
            alloc,
            items: Vec::new(alloc),
        }
    }

    /// Appends a word.
    pub fn push(&mut self, word: &str) -> Result<(), AllocError>
        ensures pushed { OnOk result (self.new ≡ self.old ++ word.now ∷ []) }
        ensures same { OnErr result (self.new ≡ self.old) }
    {
        self.items.push(String::from_str(self.alloc, word)?)?;
        Ok(())
    }
}

/// What the words ask for.
#[derive(Clone, Copy, Debug, PartialEq, Eq)]
pub enum Form<'a> {
    /// Say whether the policy at this path is accepted.
    Check {
        policy: &'a str,
    },
    /// Run the recording under the policy; both are paths.
    Replay {
        policy: &'a str,
        recording: &'a str,
    },
    /// Make a recording of so many rounds, drawn from the seed, and say in short what came of it.
    Gen {
        seed: u64,
        count: u32,
    },
    /// Serve the switches that connect to the place, so many connections, under the policy at this path.
    Serve {
        policy: &'a str,
        listen: &'a str,
        count: u32,
    },
    /// Say of each message of a slice that writes to its flow table whether the slice's own table stays true
    /// to the switch's, as the recording runs under the policy; both are paths.
    Virtual {
        policy: &'a str,
        recording: &'a str,
    },
    /// Say which entries have to go where the new policy follows the old one, after the recording ran under
    /// the old one; all are paths.
    Change {
        old: &'a str,
        new: &'a str,
        recording: &'a str,
    },
    /// Print the policy in which the slice of this name in the outer policy is divided by the inner one; the
    /// policies are paths.
    Flatten {
        outer: &'a str,
        name: &'a str,
        inner: &'a str,
    },
    /// Say whether the policy permits all that was sent in the trace; both are paths.
    Audit {
        policy: &'a str,
        trace: &'a str,
    },
    /// Write the trace of the recording under the policy; both are paths.
    Trace {
        policy: &'a str,
        recording: &'a str,
    },
}

/// Why the words ask for nothing.
#[derive(Clone, Copy, Debug, PartialEq, Eq)]
pub enum WordsFault {
    /// They have none of the forms.
    Usage,
}

/// The form that the words have.
pub fn read_words(words: &Words) -> Result<Form<'_>, WordsFault>
    ensures { option_map form_bytes (result_ok result) ≡ form_of words.now }
{
    match words.items.as_slice() {
        [] => Err(WordsFault::Usage),
        [_] => Err(WordsFault::Usage),
        [command, policy] => check(command, policy),
        [command, second, third] => three(command, second, third),
        [command, second, third, fourth] => four(command, second, third, fourth),
        [_, _, _, _, _, ..] => Err(WordsFault::Usage),
    }
}

/// Whether the first word asks for `serve`, whatever follows.
pub fn is_serve(words: &Words) -> bool
    ensures { result ≡ is_serve words.now }
{
    match words.items.as_slice() {
        [] => false,
        [command, ..] => command.as_str() == "serve",
    }
}

fn check<'a>(command: &str, policy: &'a str) -> Result<Form<'a>, WordsFault>
    ensures { option_map form_bytes (result_ok result) ≡ check_of command.now policy.now }
{
    if command == "check" && is_plain(policy) {
        Ok(Form::Check { policy })
    } else {
        Err(WordsFault::Usage)
    }
}

fn three<'a>(command: &str, second: &'a str, third: &'a str) -> Result<Form<'a>, WordsFault>
    ensures { option_map form_bytes (result_ok result) ≡ three_of command.now second.now third.now }
{
    if command == "gen" {
        generate(second, third)
    } else if is_plain(second) && is_plain(third) {
        of_two(command, second, third)
    } else {
        Err(WordsFault::Usage)
    }
}

fn four<'a>(
    command: &str,
    second: &'a str,
    third: &'a str,
    fourth: &'a str,
) -> Result<Form<'a>, WordsFault>
    ensures { option_map form_bytes (result_ok result) ≡ four_of command.now second.now third.now fourth.now }
{
    if command == "serve" {
        serve(second, third, fourth)
    } else if is_plain(second) && is_plain(third) && is_plain(fourth) {
        of_three(command, second, third, fourth)
    } else {
        Err(WordsFault::Usage)
    }
}

// The form of a command and two texts.
fn of_two<'a>(command: &str, first: &'a str, second: &'a str) -> Result<Form<'a>, WordsFault>
    ensures { option_map form_bytes (result_ok result) ≡ of_two command.now first.now second.now }
{
    match command {
        "replay" => Ok(Form::Replay {
            policy: first,
            recording: second,
        }),
        "virtual" => Ok(Form::Virtual {
            policy: first,
            recording: second,
        }),
        "audit" => Ok(Form::Audit {
            policy: first,
            trace: second,
        }),
        "trace" => Ok(Form::Trace {
            policy: first,
            recording: second,
        }),
        _ => Err(WordsFault::Usage),
    }
}

// The form of a command and three texts.
fn of_three<'a>(
    command: &str,
    first: &'a str,
    second: &'a str,
    third: &'a str,
) -> Result<Form<'a>, WordsFault>
    ensures { option_map form_bytes (result_ok result) ≡ of_three command.now first.now second.now third.now }
{
    match command {
        "change" => Ok(Form::Change {
            old: first,
            new: second,
            recording: third,
        }),
        "flatten" => Ok(Form::Flatten {
            outer: first,
            name: second,
            inner: third,
        }),
        _ => Err(WordsFault::Usage),
    }
}

fn generate<'a>(seed: &str, count: &str) -> Result<Form<'a>, WordsFault>
    ensures { option_map form_bytes (result_ok result) ≡ gen_of (seed_of seed.now) (rounds_of count.now) }
{
    let Some(seed) = number(seed, 0, u64::MAX) else {
        return Err(WordsFault::Usage);
    };
    let Some(count) = rounds(count) else {
        return Err(WordsFault::Usage);
    };
    Ok(Form::Gen { seed, count })
}

fn serve<'a>(policy: &'a str, listen: &'a str, count: &str) -> Result<Form<'a>, WordsFault>
    ensures { option_map form_bytes (result_ok result) ≡ serve_of policy.now listen.now (connections_of count.now) }
{
    let Some(count) = connections(count) else {
        return Err(WordsFault::Usage);
    };
    if is_plain(policy) && is_plain(listen) {
        Ok(Form::Serve {
            policy,
            listen,
            count,
        })
    } else {
        Err(WordsFault::Usage)
    }
}

// A word that stands for a value, and not for an option of the command line.
fn is_plain(word: &str) -> bool
    ensures { result ≡ is_plain word.now }
{
    !word.is_empty() && !word.starts_with('-')
}

fn is_digit(byte: u8) -> bool
    ensures { result ≡ is_digit byte }
{
    byte.is_ascii_digit()
}

// Decimal digits without a leading zero, or `0`.
fn is_number(word: &str) -> bool
    ensures { result ≡ is_number word.now }
{
    1 <= word.len() && has_digits(word) && (word.len() <= 1 || !word.starts_with('0'))
}

fn has_digits(word: &str) -> bool
    ensures { result ≡ list_all is_digit word.now }
{
    word.as_bytes().iter().all(|byte| is_digit(*byte))
}

// The number that a word is, where it is one within these limits.
fn number(word: &str, least: u64, most: u64) -> Option<u64>
    ensures { result ≡ within least most (number_of word.now) }
{
    if !is_number(word) {
        return None;
    }
    let Ok(number) = word.parse::<u64>() else {
        return None;
    };
    if least <= number && number <= most {
        Some(number)
    } else {
        None
    }
}

// How many rounds are to be made.
fn rounds(word: &str) -> Option<u32>
    ensures { result ≡ rounds_of word.now }
{
    let count = number(word, 0, 1_000_000)?;
    Some(count as u32)
}

// How many connections are asked for.
fn connections(word: &str) -> Option<u32>
    ensures { result ≡ connections_of word.now }
{
    let count = number(word, 1, 1_000_000_000)?;
    Some(count as u32)
}
