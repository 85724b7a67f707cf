//! What a line of a phrase script says (profile).
ghost use Rattle.std.specs.Prelude.{◌≡◌, ◌≤◌, ◌⊎◌, ℕ, List, chars, length, IfOk, IfErr, IfSome, IfNone};
ghost use Rattle.phrase_tokens.specs.Tokens.{LaysNone};
ghost use Rattle.phrase_tokens.specs.View.{tokens_of};
ghost use Rattle.uecp_text.specs.declared.text_fault.TextFault.TheVariants.{OutOfMemory};
ghost use Rattle.phrase_scripts.specs.Lines.{Line, line_of, SaysLine, SaysNothing, Tell, IsUnsaid};

use crate::frame_line::frame_in;
use crate::line_fault::{no_text, unread, unsaid};
use phrase_tokens::{Token, TokenFault, tokens_of};
use rds_text::Region;
use std::alloc::{AllocError, Global};
use uecp_frame::{Address, Message};
use uecp_phrases::message_in;
use uecp_text::TextFault;

/// What a line says.
#[derive(Debug, Drop)]
pub enum PhraseLine {
    /// The address and the counter of the next message.
    Frame(Address, u8),
    /// A message: what its phrases add, one after another.
    Message(Message),
}

/// Reads one line, in UTF-8: `frame` with an address of four and a counter of two hexadecimal digits, or phrases
/// between semicolons.
///
/// Errors: `Unsaid` where it says nothing, with the column from which on that shows; `OutOfMemory`.
///
/// ```
/// phrase_line(alloc, Region::Europe, b"frame 0041 01")?;    // Frame
/// phrase_line(alloc, Region::Europe, b"music; pty \"News\"")?; // Message
/// ```
#[tactic(auto, using(crate::proofs::Telling::says_none))]
pub fn phrase_line(alloc: Global, region: Region, text: &[u8]) -> Result<PhraseLine, TextFault>
    ensures said { IfOk result (λ line. SaysLine region text.now (line_of line)) }
    ensures refused { IfErr result (λ e. (e ≡ OutOfMemory) ⊎ (IsUnsaid e × SaysNothing region text.now)) }
{
    let Ok(line) = std::str::from_utf8(text) else {
        return Err(no_text(text));
    };
    let characters = characters_of(alloc, line)?;
    let characters = characters.as_slice();
    match tokens_of(alloc, characters) {
        Ok(tokens) => {
            let tokens = tokens.as_slice();
            match told_by(region, tokens) {
                Some(line) => Ok(line),
                None => Err(unsaid(alloc, region, characters, tokens)?),
            }
        }
        Err(TokenFault::Unread { column, reason }) => Err(unread(characters, column, reason)),
        Err(TokenFault::OutOfMemory) => Err(TextFault::OutOfMemory),
    }
}

/// The characters of a text.
fn characters_of(alloc: Global, line: &str) -> Result<Vec<char>, AllocError>
    ensures { IfOk result (λ characters. characters.items ≡ chars line.now) }
{
    line.chars().collect(alloc)
}

/// What the tokens of a line tell, if they tell anything.
#[tactic(auto, using(crate::proofs::Telling::tells_none))]
fn told_by(region: Region, tokens: &[Token]) -> Option<PhraseLine>
    ensures some { IfSome result (λ line. Tell region (tokens_of tokens.now) (line_of line)) }
    ensures none { IfNone result ((line : Line) → Tell region (tokens_of tokens.now) line → ⊥) }
{
    match message_in(region, tokens) {
        Some(message) => Some(PhraseLine::Message(message)),
        None => match frame_in(tokens) {
            Some((address, counter)) => Some(PhraseLine::Frame(address, counter)),
            None => None,
        },
    }
}
