//! An option of a command, as a row of its table (profile).
ghost use Rattle.std.specs.Prelude.{◌≡◌, false};
ghost use Rattle.clap.specs.Words.{rule_of};
ghost use Rattle.command_line.specs.Rows.{rule_of_row};

use crate::arguments::{argument, filled_word, flag, maybe_word, number};
use crate::numbers::NumberOption;
use clap::Arg;
use std::alloc::Global;

/// An option or an argument of a command. Each has a name, and a text that `--help` says of it; a word has the name of
/// its value.
#[derive(Clone, Copy)]
pub(crate) enum OptionRow {
    /// A flag.
    Flag(&'static str, &'static str),
    /// An option with a number: one with no default has to be given.
    Number(NumberOption),
    /// An option with a number that may be left out.
    MaybeNumber(NumberOption),
    /// An option with a word that may be left out: its name, its value's, and its text.
    MaybeWord(&'static str, &'static str, &'static str),
    /// An option with the path of a file, which may be left out and is not empty: its name, and its text.
    MaybeFile(&'static str, &'static str),
    /// An option with a word that is not empty, the last where it is left out.
    FilledOr(&'static str, &'static str, &'static str, &'static str),
    /// An option with a word, the last where it is left out.
    WordOr(&'static str, &'static str, &'static str, &'static str),
    /// An option that may be left out, and so may its word: the last then.
    MaybeWordOr(&'static str, &'static str, &'static str, &'static str),
    /// An argument that has to be given.
    Argument(&'static str, &'static str, &'static str),
}

impl OptionRow {
    /// The name of the option or argument.
    fn name(&self) -> &'static str {
        match self {
            OptionRow::Flag(name, _) => name,
            OptionRow::Number(option) | OptionRow::MaybeNumber(option) => option.name,
            OptionRow::MaybeWord(name, _, _) => name,
            OptionRow::MaybeFile(name, _) => name,
            OptionRow::FilledOr(name, _, _, _) => name,
            OptionRow::WordOr(name, _, _, _) => name,
            OptionRow::MaybeWordOr(name, _, _, _) => name,
            OptionRow::Argument(name, _, _) => name,
        }
    }
}

/// The argument of a row; under the heading of its option, where the options of its command stand under headings.
pub(crate) fn row_argument<'a>(alloc: Global, row: &OptionRow, has_headings: bool) -> Arg<'a>
    ensures rule { rule_of result ≡ rule_of_row row.now }
    ensures own { result.global ≡ false }
{
    let argument = plain_argument(alloc, row);
    match heading_of(row.name()) {
        Some(heading) if has_headings => argument.help_heading(heading),
        _ => argument,
    }
}

/// The heading under which `--help` shows an option; None under the one that all commands have.
fn heading_of(name: &str) -> Option<&'static str> {
    match name {
        "site" | "encoder" | "sets" | "services" => Some("Encoder"),
        "listen"
        | "host"
        | "port"
        | "connections"
        | "turns"
        | "forever"
        | "idle"
        | "yield"
        | "allow"
        | "tries"
        | "timeout"
        | "window"
        | "reconnects"
        | "reconnect-silent"
        | "retry-every"
        | "give-up"
        | "silent"
        | "quiet" => Some("Connection"),
        "input" | "prefix" | "service" | "fit" | "strict" | "pass-over" | "from-line" => {
            Some("Lines")
        }
        "words" | "rbds" | "json" | "name" | "no-time" => Some("Form"),
        "log" | "log-wait" | "store" | "final-store" | "verbose" | "ladder" => Some("Output"),
        "state" | "join" | "rejoin" | "station" => Some("State"),
        "air" | "air-bits" => Some("On the air"),
        "faults" | "seed" => Some("Bad line"),
        "config" | "check-config" => Some("File of options"),
        _ => None,
    }
}

/// The argument of a row, under no heading.
fn plain_argument<'a>(alloc: Global, row: &OptionRow) -> Arg<'a>
    ensures rule { rule_of result ≡ rule_of_row row.now }
    ensures own { result.global ≡ false }
{
    match *row {
        OptionRow::Flag(name, help) => flag(alloc, name, help),
        OptionRow::Number(option) => number(alloc, &option),
        OptionRow::MaybeNumber(option) => number(alloc, &option).required(false),
        OptionRow::MaybeWord(name, value, help) => maybe_word(alloc, name, value, help),
        OptionRow::MaybeFile(name, help) => filled_word(alloc, name, "FILE", help),
        OptionRow::FilledOr(name, value, help, default) => {
            filled_word(alloc, name, value, help).default_value(default)
        }
        OptionRow::WordOr(name, value, help, default) => {
            maybe_word(alloc, name, value, help).default_value(default)
        }
        OptionRow::MaybeWordOr(name, value, help, missing) => {
            maybe_word(alloc, name, value, help)
                .num_args(0..=1)
                .default_missing_value(missing)
        }
        OptionRow::Argument(name, value, help) => argument(alloc, name, value, help),
    }
}
