//! The program's words, and the same words as a command line of `clap` reads them.

use clap::builder::ValueParser;
use clap::{Arg, ArgAction, ArgMatches, Command};
use fv_base::{Form, Words, WordsFault, read_words};
use std::alloc::{AllocError, Global};
use std::process::Abort;
use std::test::Fail;

/// A word of a form: its name, and where it is a number the least and the most.
type Word = (&'static str, Option<(u64, u64)>);

/// The forms of the words, with the limits of their numbers.
const FORMS: &[(&str, &[Word])] = &[
    ("check", &[("policy", None)]),
    ("replay", &[("policy", None), ("recording", None)]),
    (
        "gen",
        &[
            ("seed", Some((0, u64::MAX))),
            ("count", Some((0, 1_000_000))),
        ],
    ),
    (
        "serve",
        &[
            ("policy", None),
            ("listen", None),
            ("count", Some((1, 1_000_000_000))),
        ],
    ),
];

fn argument(alloc: Global, word: Word) -> Arg<'static> {
    let (id, limits) = word;
    let text = Arg::new(alloc, id).required(true).action(ArgAction::Set);
    match limits {
        Some((least, most)) => text.value_parser(ValueParser::unsigned(least, most)),
        None => text,
    }
}

fn form_command(
    alloc: Global,
    name: &'static str,
    words: &[Word],
) -> Result<Command<'static>, AllocError> {
    let mut command = Command::new(alloc, name);
    for word in words {
        command = command.arg(argument(alloc, *word))?;
    }
    Ok(command)
}

fn command(alloc: Global) -> Result<Command<'static>, AllocError> {
    let mut command = Command::new(alloc, "flowvisor").subcommand_required(true);
    for (name, words) in FORMS {
        command = command.subcommand(form_command(alloc, name, words)?)?;
    }
    Ok(command)
}

/// The form that was matched.
fn form_in<'a>(matches: &ArgMatches<'a>) -> Option<Form<'a>> {
    if let Some(check) = matches.subcommand_matches("check") {
        return Some(Form::Check {
            policy: check.get_str("policy")?,
        });
    }
    if let Some(replay) = matches.subcommand_matches("replay") {
        return Some(Form::Replay {
            policy: replay.get_str("policy")?,
            recording: replay.get_str("recording")?,
        });
    }
    if let Some(made) = matches.subcommand_matches("gen") {
        return Some(Form::Gen {
            seed: made.get_one("seed")?,
            count: made.get_one("count")?,
        });
    }
    let serve = matches.subcommand_matches("serve")?;
    Some(Form::Serve {
        policy: serve.get_str("policy")?,
        listen: serve.get_str("listen")?,
        count: serve.get_one("count")?,
    })
}

fn words_of(alloc: Global, texts: &[&str]) -> Result<Words, AllocError> {
    let mut words = Words::new(alloc);
    for text in texts {
        words.push(text)?;
    }
    Ok(words)
}

/// The words of a command line, of which the program's name is the first.
type Line = &'static [&'static str];

/// The form that `clap` reads of a command line.
fn form_of(alloc: Global, line: Line) -> Result<Option<Form<'static>>, clap::Error> {
    let matches = command(alloc)?.try_get_matches_from(line)?;
    Ok(form_in(&matches))
}

/// Whether the words behind the program's name are read as `clap` reads the line, or both refuse them.
fn is_same(alloc: Global, line: Line, is_read: bool) -> Result<bool, AllocError> {
    let words = words_of(alloc, &line[line.len().min(1)..])?;
    Ok(match (read_words(&words), form_of(alloc, line)) {
        (Ok(form), Ok(other)) => is_read && other == Some(form),
        (Err(WordsFault::Usage), Err(_)) => !is_read,
        _ => false,
    })
}

/// All lines are read, or all refused.
fn expect_lines(
    rt: &impl Abort,
    alloc: Global,
    lines: &[Line],
    is_read: bool,
) -> Result<(), AllocError> {
    for line in lines {
        let is_so = is_same(alloc, line, is_read)?;
        assert!(rt; is_so, "{} words", line.len());
    }
    Ok(())
}

#[test]
fn words_are_read_as_a_command_line_is(rt: HostRuntime) -> Result<(), Fail> {
    const LINES: &[Line] = &[
        &["flowvisor", "check", "P"],
        &["flowvisor", "replay", "P", "R"],
        &["flowvisor", "gen", "1", "0"],
        &["flowvisor", "serve", "P", "L", "1"],
    ];
    Ok(expect_lines(&rt, rt.alloc(), LINES, true)?)
}

#[test]
fn words_are_refused_as_a_command_line_is(rt: HostRuntime) -> Result<(), Fail> {
    const LINES: &[Line] = &[
        &["flowvisor", "replay", "P"],
        &["flowvisor", "gen", "1", "1000001"],
    ];
    Ok(expect_lines(&rt, rt.alloc(), LINES, false)?)
}
