//! Events out of the words of an event script (profile).
ghost use Rattle.std.specs.Prelude.{◌≡◌, ◌<◌, ℕ, List, [], ◌∷◌, ◌⊎◌, length, drop, codes, true, false, IfOk, IfErr};
ghost use Rattle.std.specs.List.{list_all};
ghost use Rattle.uecp_link.specs.declared.event.Side.{Side as End};
ghost use Rattle.uecp_text.specs.declared.text_fault.TextFault.TheVariants.{NotACommand, OutOfMemory};
ghost use Rattle.uecp_text.specs.Words.{texts};
ghost use Rattle.uecp_words.specs.EventWords.{Names, IsCutAs, IsFaultOf, IsMessageNumber, AreCuts, is_cut};
ghost use Rattle.uecp_words.specs.EventWords.{TellsMessage, end_word, noise_to, name_of, event_seen};

use crate::messages::message_of;
use std::alloc::Global;
use uecp_frame::Message;
use uecp_link::Side;
use uecp_text::{TextFault, bytes_of, bytes_or_none, decimal_of};

/// The greatest number that nine digits spell.
const NUMBER_MAX: u32 = 999_999_999;

/// The most digits of a number.
const DIGITS_MAX: usize = 9;

/// One line of an event script: an event that holds its bytes and lengths itself.
#[derive(Debug, Drop)]
pub enum EventLine {
    /// Gives the message the next number.
    Submit(Message),
    /// Feeds the frame of that message to the encoder, in pieces.
    Frame(usize, Vec<u16>),
    /// Feeds the reply to that message to the server, in pieces.
    Reply(usize, Vec<u16>),
    /// Feeds the bytes to the encoder or the server.
    Noise(Side, Vec<u8>),
    /// Tells the encoder or the server that its line was lost.
    LineLost(Side),
    /// Has the encoder or the server start again, and go on from what it kept.
    Restart(Side),
    /// Takes from the encoder the group that is to go out next.
    Take,
}

/// Reads the words of a line.
pub fn event_of(alloc: Global, words: &[&[u8]]) -> Result<EventLine, TextFault>
    ensures named { IfOk result (λ e. Names (texts words.now) (event_seen e)) }
    ensures pieces { IfOk result (λ e. IsCutAs (texts words.now) e) }
    ensures refused { IfErr result (λ e. IsFaultOf (texts words.now) e) }
{
    match words {
        [name, others @ ..] => event_named(alloc, name, others),
        [] => Err(TextFault::NotACommand),
    }
}

/// The event of that name, which the other words tell.
fn event_named(alloc: Global, name: &[u8], words: &[&[u8]]) -> Result<EventLine, TextFault>
    ensures named { IfOk result (λ e. Names (name.now ∷ texts words.now) (event_seen e)) }
    ensures pieces { IfOk result (λ e. IsCutAs (name.now ∷ texts words.now) e) }
    ensures refused { IfErr result (λ e. IsFaultOf (name.now ∷ texts words.now) e) }
{
    if name == b"submit".as_slice() {
        submit_of(alloc, words)
    } else if name == b"frame".as_slice() {
        frame_of(alloc, words)
    } else if name == b"reply".as_slice() {
        reply_of(alloc, words)
    } else if name == b"noise-encoder".as_slice() {
        noise_of(alloc, Side::Encoder, words)
    } else if name == b"noise-server".as_slice() {
        noise_of(alloc, Side::Server, words)
    } else if name == b"line-lost".as_slice() {
        loss_of(words)
    } else if name == b"restart".as_slice() {
        restart_line(words)
    } else if name == b"take".as_slice() {
        take_of(words)
    } else {
        Err(TextFault::NotACommand)
    }
}

/// A submission of the message that the words tell.
fn submit_of(alloc: Global, words: &[&[u8]]) -> Result<EventLine, TextFault>
    ensures named { IfOk result (λ e. Names (codes "submit" ∷ texts words.now) (event_seen e)) }
    ensures pieces { IfOk result (λ e. IsCutAs (codes "submit" ∷ texts words.now) e) }
    ensures refused { IfErr result (λ e. IsFaultOf (codes "submit" ∷ texts words.now) e) }
{
    match words {
        [word] => {
            let bytes = bytes_or_none(alloc, word)?;
            Ok(EventLine::Submit(message_of(bytes.as_slice())?))
        }
        _ => Err(TextFault::NotACommand),
    }
}

/// The frame of the message that the words tell.
fn frame_of(alloc: Global, words: &[&[u8]]) -> Result<EventLine, TextFault>
    ensures named { IfOk result (λ e. Names (codes "frame" ∷ texts words.now) (event_seen e)) }
    ensures pieces { IfOk result (λ e. IsCutAs (codes "frame" ∷ texts words.now) e) }
    ensures refused { IfErr result (λ e. IsFaultOf (codes "frame" ∷ texts words.now) e) }
{
    let (number, cut) = number_and_cut(alloc, words)?;
    Ok(EventLine::Frame(number, cut))
}

/// The reply to the message that the words tell.
fn reply_of(alloc: Global, words: &[&[u8]]) -> Result<EventLine, TextFault>
    ensures named { IfOk result (λ e. Names (codes "reply" ∷ texts words.now) (event_seen e)) }
    ensures pieces { IfOk result (λ e. IsCutAs (codes "reply" ∷ texts words.now) e) }
    ensures refused { IfErr result (λ e. IsFaultOf (codes "reply" ∷ texts words.now) e) }
{
    let (number, cut) = number_and_cut(alloc, words)?;
    Ok(EventLine::Reply(number, cut))
}

/// The number of a message and any cuts.
fn number_and_cut(alloc: Global, words: &[&[u8]]) -> Result<(usize, Vec<u16>), TextFault>
    ensures told { IfOk result (λ told. TellsMessage (texts words.now) told.0) }
    ensures pieces { IfOk result (λ told. AreCuts (drop 1 (texts words.now)) told.1.items) }
    ensures refused { IfErr result (λ e. ((e ≡ OutOfMemory) × (1 < length words.now))
        ⊎ ((e ≡ NotACommand) × ((number : ℕ) → TellsMessage (texts words.now) number → ⊥))) }
{
    match words {
        [number, cut @ ..] => Ok((message_number_of(number)?, cut_of(alloc, cut)?)),
        [] => Err(TextFault::NotACommand),
    }
}

/// Noise towards that end, of the bytes that the words tell.
fn noise_of(alloc: Global, side: Side, words: &[&[u8]]) -> Result<EventLine, TextFault>
    ensures named { IfOk result (λ e. Names (name_of (noise_to side []) ∷ texts words.now) (event_seen e)) }
    ensures pieces { IfOk result (λ e. IsCutAs (name_of (noise_to side []) ∷ texts words.now) e) }
    ensures refused { IfErr result (λ e. IsFaultOf (name_of (noise_to side []) ∷ texts words.now) e) }
{
    match words {
        [word] => Ok(EventLine::Noise(side, bytes_of(alloc, word, TextFault::NotACommand)?)),
        _ => Err(TextFault::NotACommand),
    }
}

/// The loss of the line at the end that the words tell.
fn loss_of(words: &[&[u8]]) -> Result<EventLine, TextFault>
    ensures named { IfOk result (λ e. Names (codes "line-lost" ∷ texts words.now) (event_seen e)) }
    ensures pieces { IfOk result (λ e. IsCutAs (codes "line-lost" ∷ texts words.now) e) }
    ensures refused { IfErr result (λ e. IsFaultOf (codes "line-lost" ∷ texts words.now) e) }
{
    match words {
        [word] => Ok(EventLine::LineLost(end_of(word)?)),
        _ => Err(TextFault::NotACommand),
    }
}

/// The start of the end that the words tell, which goes on from what it kept.
fn restart_line(words: &[&[u8]]) -> Result<EventLine, TextFault>
    ensures named { IfOk result (λ e. Names (codes "restart" ∷ texts words.now) (event_seen e)) }
    ensures pieces { IfOk result (λ e. IsCutAs (codes "restart" ∷ texts words.now) e) }
    ensures refused { IfErr result (λ e. IsFaultOf (codes "restart" ∷ texts words.now) e) }
{
    match words {
        [word] => Ok(EventLine::Restart(end_of(word)?)),
        _ => Err(TextFault::NotACommand),
    }
}

/// A take; no words tell more of it.
fn take_of(words: &[&[u8]]) -> Result<EventLine, TextFault>
    ensures named { IfOk result (λ e. Names (codes "take" ∷ texts words.now) (event_seen e)) }
    ensures pieces { IfOk result (λ e. IsCutAs (codes "take" ∷ texts words.now) e) }
    ensures refused { IfErr result (λ e. IsFaultOf (codes "take" ∷ texts words.now) e) }
{
    if !words.is_empty() {
        return Err(TextFault::NotACommand);
    }
    Ok(EventLine::Take)
}

/// The end of that name.
fn end_of(word: &[u8]) -> Result<Side, TextFault>
    ensures named { IfOk result (λ s. word.now ≡ end_word s) }
    ensures refused { IfErr result (λ e. (e ≡ NotACommand) × ((s : End) → word.now ≡ end_word s → ⊥)) }
{
    if word == b"encoder".as_slice() {
        Ok(Side::Encoder)
    } else if word == b"server".as_slice() {
        Ok(Side::Server)
    } else {
        Err(TextFault::NotACommand)
    }
}

/// The number of a message, of one to nine digits.
fn message_number_of(word: &[u8]) -> Result<usize, TextFault>
    ensures number { IfOk result (λ number. IsMessageNumber word.now number) }
    ensures refused { IfErr result (λ e. (e ≡ NotACommand) × ((number : ℕ) → IsMessageNumber word.now number → ⊥)) }
{
    if word.len() > DIGITS_MAX {
        return Err(TextFault::NotACommand);
    }
    match decimal_of(word, NUMBER_MAX) {
        Some(number) => Ok(number as usize),
        None => Err(TextFault::NotACommand),
    }
}

/// The lengths of pieces, each 0 to 65535.
fn cut_of(alloc: Global, words: &[&[u8]]) -> Result<Vec<u16>, TextFault>
    ensures cuts { IfOk result (λ cut. list_all is_cut (texts words.now) ≡ true) }
    ensures pieces { IfOk result (λ cut. AreCuts (texts words.now) cut.items) }
    ensures refused { IfErr result (λ e. ((e ≡ OutOfMemory) × (0 < length words.now))
        ⊎ ((e ≡ NotACommand) × (list_all is_cut (texts words.now) ≡ false))) }
{
    let mut cut = Vec::new(alloc);
    for word in words {
        match decimal_of(word, u32::from(u16::MAX)) {
            Some(length) => cut.push(length as u16)?,
            None => return Err(TextFault::NotACommand),
        }
    }
    Ok(cut)
}
