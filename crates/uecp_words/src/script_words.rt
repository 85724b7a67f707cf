//! Lines of a frame script out of their words (profile).
ghost use Rattle.std.specs.Prelude.{◌≡◌, ◌⊎◌, ◌∷◌, codes, IfOk, IfErr, IfSome, IfNone};
ghost use Rattle.uecp_text.specs.declared.text_fault.TextFault.TheVariants.{NotACommand, OutOfMemory};
ghost use Rattle.uecp_text.specs.Words.{words, texts};
ghost use Rattle.uecp_words.specs.ScriptWords.{Says, SaysNothing, line_of};

use crate::element_words::spelling_of;
use std::alloc::Global;
use uecp_frame::{Address, Message};
use uecp_text::{TextFault, byte_of, bytes_or_none, number_of, words_of};

/// How many encoders a site has numbers for, in the low bits of an address.
const ENCODERS: u16 = 64;

/// One line of a frame script.
#[derive(Debug, Drop)]
pub enum ScriptLine {
    /// Begins a frame.
    Frame(Address, u8),
    /// Adds the spelling of an element.
    Element(Message),
    /// Adds bytes as they are.
    Raw(Vec<u8>),
}

/// Reads one line. `NotACommand` where its words say nothing, `OutOfMemory` where there is no memory.
pub fn script_line(alloc: Global, text: &[u8]) -> Result<ScriptLine, TextFault>
    ensures said { IfOk result (λ line. Says (words text.now) (line_of line)) }
    ensures refused { IfErr result (λ e. (e ≡ OutOfMemory) ⊎ ((e ≡ NotACommand) × SaysNothing (words text.now))) }
{
    let words = words_of(alloc, text)?;
    line_in(alloc, words.as_slice())
}

/// What the words of a line say.
fn line_in(alloc: Global, words: &[&[u8]]) -> Result<ScriptLine, TextFault>
    ensures said { IfOk result (λ line. Says (texts words.now) (line_of line)) }
    ensures refused { IfErr result (λ e. (e ≡ OutOfMemory) ⊎ ((e ≡ NotACommand) × SaysNothing (texts words.now))) }
{
    let Some((name, rest)) = words.split_first() else {
        return Err(TextFault::NotACommand);
    };
    match *name {
        b"frame" => frame_line(rest).ok_or(TextFault::NotACommand),
        b"raw" => raw_line(alloc, rest),
        _ => match spelling_of(words) {
            Some(spelling) => Ok(ScriptLine::Element(spelling)),
            None => Err(TextFault::NotACommand),
        },
    }
}

/// Reads the words after `frame`.
fn frame_line(words: &[&[u8]]) -> Option<ScriptLine>
    ensures said { IfSome result (λ line. Says (codes "frame" ∷ texts words.now) (line_of line)) }
    ensures refused { IfNone result (SaysNothing (codes "frame" ∷ texts words.now)) }
{
    let [address, counter] = words else {
        return None;
    };
    let value = number_of(address)?;
    let address = Address::new(value / ENCODERS, (value % ENCODERS) as u8)?;
    Some(ScriptLine::Frame(address, byte_of(counter)?))
}

/// Reads the word after `raw`.
fn raw_line(alloc: Global, words: &[&[u8]]) -> Result<ScriptLine, TextFault>
    ensures said { IfOk result (λ line. Says (codes "raw" ∷ texts words.now) (line_of line)) }
    ensures refused { IfErr result (λ e. (e ≡ OutOfMemory)
        ⊎ ((e ≡ NotACommand) × SaysNothing (codes "raw" ∷ texts words.now))) }
{
    let [digits] = words else {
        return Err(TextFault::NotACommand);
    };
    Ok(ScriptLine::Raw(bytes_or_none(alloc, digits)?))
}
