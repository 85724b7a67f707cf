//! What a line gives. Source: profile.
ghost use Rattle.std.specs.Prelude.{◌≡◌, IfOk, IfErr};
ghost use Rattle.uecp_text.specs.declared.text_fault.TextFault.TheVariants.{OutOfMemory};
ghost use Rattle.line_batches.specs.Intake.{Reads, ReadsFitted, ReadsPhrases, ReadsRefitted, ReadsText};
ghost use Rattle.line_batches.specs.Intake.{ReadsTitle};

use phrase_scripts::{PhraseLine, phrase_line};
use rds_text::Region;
use std::alloc::Global;
use titles::{Title, Titles, refitted_line, title_of};
use uecp_frame::Message;
use uecp_text::{TextFault, text_of};

/// What the lines of an input are.
#[derive(Clone, Copy, Debug)]
pub enum Input<'a> {
    /// Phrases between semicolons, with the programme types of the region.
    Phrases(Region),
    /// The same; one that says nothing as it stands is read with its strings made to fit.
    Fitted(Region),
    /// Titles, each a RadioText.
    Titles(Titles<'a>),
}

/// What a line gives.
#[derive(Debug, Drop)]
pub enum Given {
    /// Nothing: it is empty or a comment.
    Nothing,
    /// A message; and where it is of a line that was made to fit, what was sent: of a title its text as a string, of
    /// phrases the line with its strings made to fit.
    Gives(Message, Option<String>),
    /// It is refused for this.
    Refused(TextFault),
}

/// What a line gives, in UTF-8 and with its line feed.
///
/// Errors: `OutOfMemory` alone.
pub(crate) fn read_line(alloc: Global, input: &Input<'_>, line: &[u8]) -> Result<Given, TextFault>
    ensures reads { IfOk result (Reads input.now line.now) }
    ensures refused { IfErr result (λ fault. fault ≡ OutOfMemory) }
{
    match input {
        Input::Phrases(region) => read_phrases(alloc, *region, line),
        Input::Fitted(region) => read_fitted(alloc, *region, line),
        Input::Titles(titles) => read_title(alloc, titles, line),
    }
}

/// What a line of phrases gives, between semicolons, or nothing.
fn read_phrases(alloc: Global, region: Region, line: &[u8]) -> Result<Given, TextFault>
    ensures reads { IfOk result (ReadsPhrases region line.now) }
    ensures refused { IfErr result (λ fault. fault ≡ OutOfMemory) }
{
    match text_of(line) {
        None => Ok(Given::Nothing),
        Some(text) => read_text(alloc, region, text),
    }
}

/// What a text gives that a line of phrases says.
fn read_text(alloc: Global, region: Region, text: &[u8]) -> Result<Given, TextFault>
    ensures reads { IfOk result (ReadsText region text.now) }
    ensures refused { IfErr result (λ fault. fault ≡ OutOfMemory) }
{
    match phrase_line(alloc, region, text) {
        Ok(PhraseLine::Message(message)) => Ok(Given::Gives(message, None)),
        Ok(PhraseLine::Frame(_, _)) => Ok(Given::Refused(TextFault::NotACommand)),
        Err(TextFault::OutOfMemory) => Err(TextFault::OutOfMemory),
        Err(fault) => Ok(Given::Refused(fault)),
    }
}

/// What a line of phrases gives where it is made to fit, or nothing.
fn read_fitted(alloc: Global, region: Region, line: &[u8]) -> Result<Given, TextFault>
    ensures reads { IfOk result (ReadsFitted region line.now) }
    ensures refused { IfErr result (λ fault. fault ≡ OutOfMemory) }
{
    match text_of(line) {
        None => Ok(Given::Nothing),
        Some(text) => read_refitted(alloc, region, text),
    }
}

/// What a text gives that a line of phrases says, with its strings made to fit where it says nothing as it stands.
fn read_refitted(alloc: Global, region: Region, text: &[u8]) -> Result<Given, TextFault>
    ensures reads { IfOk result (ReadsRefitted region text.now) }
    ensures refused { IfErr result (λ fault. fault ≡ OutOfMemory) }
{
    match refitted_line(alloc, region, text) {
        Ok((line, fitted)) => match line {
            PhraseLine::Message(message) => Ok(Given::Gives(message, fitted)),
            PhraseLine::Frame(_, _) => Ok(Given::Refused(TextFault::NotACommand)),
        },
        Err(TextFault::OutOfMemory) => Err(TextFault::OutOfMemory),
        Err(fault) => Ok(Given::Refused(fault)),
    }
}

/// What a line gives that is a title.
fn read_title(alloc: Global, titles: &Titles<'_>, line: &[u8]) -> Result<Given, TextFault>
    ensures reads { IfOk result (ReadsTitle titles.now line.now) }
    ensures refused { IfErr result (λ fault. fault ≡ OutOfMemory) }
{
    match title_of(alloc, titles, line) {
        Ok(Title::Nothing) => Ok(Given::Nothing),
        Ok(Title::Stands(message)) => Ok(Given::Gives(message, None)),
        Ok(Title::Fits(message, fitted)) => Ok(Given::Gives(message, Some(fitted))),
        Err(TextFault::OutOfMemory) => Err(TextFault::OutOfMemory),
        Err(fault) => Ok(Given::Refused(fault)),
    }
}
