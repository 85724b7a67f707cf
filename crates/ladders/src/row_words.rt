//! What stands in words in a ladder (profile).
ghost use Rattle.std.specs.Prelude.{◌≡◌, ◌≤◌, ℕ, List, length, decimal};
ghost use Rattle.uecp_link.specs.Counters.{counter_of};
ghost use Rattle.uecp_text.specs.Written.{Adds};
ghost use Rattle.ladders.specs.Words.{label_words, said_line, with_counter};

use crate::row::{Label, Remark};
use itoa::Buffer;
use uecp_lines::{put_given_up, put_step};
use uecp_text::Output;

/// How many characters the word ` counter CC` has.
const COUNTER: usize = 11;

/// Adds what an arrow carries.
pub(crate) fn put_label(label: Label, output: &mut Output)
    ensures { Adds output.old output.new (label_words label) }
{
    match label {
        Label::Nothing => {}
        Label::Frame(number) => put_with_counter("frame", number, output),
        Label::Reply(number) => put_with_counter("reply", number, output),
        Label::Noise => output.text("noise"),
    }
}

/// Adds a name, the number of a message and its counter.
#[tactic(auto, unfolding(uecp_text::specs::Digits::counted))]
fn put_with_counter(name: &str, number: usize, output: &mut Output)
    ensures { Adds output.old output.new (with_counter name.now number) }
{
    output.text(name);
    output.decimal(number);
    output.text(" counter");
    output.byte(counter_of(number));
}

/// The counter that messages of this number have.
fn counter_of(number: usize) -> u8
    ensures { result ≡ counter_of number }
{
    (1 + number % 255) as u8
}

/// How many characters a label has.
pub(crate) fn label_length(label: Label) -> usize
    ensures { result ≡ length (label_words label) }
{
    match label {
        Label::Nothing => 0,
        Label::Frame(number) | Label::Reply(number) => with_counter_length(number),
        Label::Noise => "noise".len(),
    }
}

/// How many characters a name of five letters has, with a number and its counter.
fn with_counter_length(number: usize) -> usize
    ensures { (name : List ℕ) → length name ≡ 5 → result ≡ length (with_counter name number) }
{
    "frame".len() + 1 + digit_count(number) + COUNTER
}

/// How many decimal digits a number has.
fn digit_count(number: usize) -> usize
    ensures value { result ≡ length (decimal number) }
    ensures few { result ≤ 20 }
{
    Buffer::new().format(number).len()
}

/// Adds what is said of a row, and ends the line.
pub(crate) fn put_said(said: Remark, output: &mut Output)
    ensures { Adds output.old output.new (said_line said) }
{
    match said {
        Remark::Lost => output.text("lost\n"),
        Remark::Step { outcome, named } => put_step(outcome, named, output),
        Remark::GivenUp(given_up) => put_given_up(given_up, output),
    }
}
