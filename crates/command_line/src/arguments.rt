//! The options of the program's commands, as clap takes them (profile).
ghost use Rattle.std.specs.Prelude.{◌≡◌, false};
ghost use Rattle.clap.specs.Words.{rule_of};
ghost use Rattle.command_line.specs.CommandLine.{rule_for, filled_word, flag, maybe_number, maybe_word};
ghost use Rattle.command_line.specs.Rows.{argument_rule};

use crate::numbers::NumberOption;
use clap::builder::ValueParser;
use clap::{Arg, ArgAction};
use std::alloc::Global;

/// The argument of an option with a number.
pub fn number<'a>(alloc: Global, option: &NumberOption) -> Arg<'a>
    ensures rule { rule_of result ≡ rule_for option.now }
    ensures own { result.global ≡ false }
{
    match option.default {
        Some(text) => ranged(alloc, option).default_value(text),
        None => ranged(alloc, option).required(true),
    }
}

/// The argument of an option with a number in its range, with no default.
fn ranged<'a>(alloc: Global, option: &NumberOption) -> Arg<'a>
    ensures rule { rule_of result ≡ maybe_number option.now.name.now option.now.least option.now.most }
    ensures own { result.global ≡ false }
{
    let range = ValueParser::signed(i64::from(option.least), i64::from(option.most));
    maybe_word(alloc, option.name, "N", option.help).value_parser(range)
}

/// An option with a word that may be left out.
pub fn maybe_word<'a>(alloc: Global, option: &'a str, value: &'a str, help: &'a str) -> Arg<'a>
    ensures rule { rule_of result ≡ maybe_word option.now }
    ensures own { result.global ≡ false }
{
    Arg::new(alloc, option)
        .long(option)
        .value_name(value)
        .help(help)
        .action(ArgAction::Set)
}

/// An option with a word that is not empty, and may be left out.
pub fn filled_word<'a>(alloc: Global, option: &'a str, value: &'a str, help: &'a str) -> Arg<'a>
    ensures rule { rule_of result ≡ filled_word option.now }
    ensures own { result.global ≡ false }
{
    maybe_word(alloc, option, value, help).value_parser(ValueParser::NonEmptyString)
}

/// A flag.
pub fn flag<'a>(alloc: Global, name: &'a str, help: &'a str) -> Arg<'a>
    ensures rule { rule_of result ≡ flag name.now }
    ensures own { result.global ≡ false }
{
    Arg::new(alloc, name)
        .long(name)
        .help(help)
        .action(ArgAction::SetTrue)
}

/// An argument that has to be given.
pub fn argument<'a>(alloc: Global, name: &'a str, value: &'a str, help: &'a str) -> Arg<'a>
    ensures rule { rule_of result ≡ argument_rule name.now }
    ensures own { result.global ≡ false }
{
    Arg::new(alloc, name)
        .value_name(value)
        .help(help)
        .action(ArgAction::Set)
        .required(true)
}
