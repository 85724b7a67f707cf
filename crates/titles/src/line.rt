//! A line of phrases whose strings are made to fit (profile).
ghost use Rattle.std.specs.Prelude.{◌≡◌, ◌⊎◌, ◌++◌, ◌∷◌, IfOk, IfErr, IfSome, IfNone, option_map, true};
ghost use Rattle.std.specs.String.{string_bytes};
ghost use Rattle.uecp_text.specs.declared.text_fault.TextFault.TheVariants.{OutOfMemory};
ghost use Rattle.phrase_scripts.specs.Lines.{IsUnsaid, SaysNothing, line_of};
ghost use Rattle.titles.specs.Strings.{IsRefitted, has_no_quote};
ghost use Rattle.titles.specs.Lines.{SaysNeither, SaysRefitted};
ghost use Rattle.titles.specs.Parts.{PutsNext, PutsRefitted};

use crate::strings::{fit_string, shorten};
use crate::texts::{characters_of, put_characters, put_string};
use phrase_scripts::{PhraseLine, phrase_line};
use rds_text::Region;
use std::alloc::{AllocError, Global};
use uecp_text::TextFault;

/// What a line of phrases says; and where it says nothing as it stands, what it says with its strings made to fit, and
/// the line with those, as it could stand in its place. Outside of its strings nothing is changed.
///
/// Errors: `Unsaid` where it says nothing so either: why it says nothing as it stands; `OutOfMemory`.
///
/// ```
/// refitted_line(alloc, Region::Europe, "ps \"Ràdio Ärger\"".as_bytes())?; // a message, and ps "Ràdio Är"
/// ```
pub fn refitted_line(
    alloc: Global,
    region: Region,
    text: &[u8],
) -> Result<(PhraseLine, Option<String>), TextFault>
    ensures said { IfOk result (λ r. SaysRefitted region text.now (line_of r.0) (option_map string_bytes r.1)) }
    ensures refused { IfErr result (λ e. (e ≡ OutOfMemory) ⊎ (IsUnsaid e × SaysNeither region text.now)) }
{
    match phrase_line(alloc, region, text) {
        Ok(line) => Ok((line, None)),
        Err(TextFault::OutOfMemory) => Err(TextFault::OutOfMemory),
        Err(fault) => said_refitted(alloc, region, text, fault),
    }
}

/// What a line says with its strings made to fit, and that line; or the fault that it has as it stands.
fn said_refitted(
    alloc: Global,
    region: Region,
    text: &[u8],
    fault: TextFault,
) -> Result<(PhraseLine, Option<String>), TextFault>
    requires unsaid { IsUnsaid fault }
    requires nothing { SaysNothing region text.now }
    ensures said { IfOk result (λ r. SaysRefitted region text.now (line_of r.0) (option_map string_bytes r.1)) }
    ensures refused { IfErr result (λ e. (e ≡ OutOfMemory) ⊎ (IsUnsaid e × SaysNeither region text.now)) }
{
    let fitted = refitted(alloc, text)?;
    match phrase_line(alloc, region, fitted.as_str().as_bytes()) {
        Ok(line) => Ok((line, Some(fitted))),
        Err(TextFault::OutOfMemory) => Err(TextFault::OutOfMemory),
        Err(_) => Err(fault),
    }
}

/// A line with its strings made to fit.
fn refitted(alloc: Global, line: &[u8]) -> Result<String, AllocError>
    ensures { IfOk result (λ fitted. IsRefitted line.now (string_bytes fitted)) }
{
    let text = String::from_utf8_lossy(alloc, line)?;
    let characters = characters_of(alloc, text.as_str())?;
    let mut fitted = String::new(alloc);
    put_refitted(alloc, characters.as_slice(), &mut fitted)?;
    Ok(fitted)
}

/// Adds a text with its strings made to fit.
fn put_refitted(alloc: Global, text: &[char], fitted: &mut String) -> Result<(), AllocError>
    ensures { IfOk result (λ _. PutsRefitted text.now (string_bytes fitted.old) (string_bytes fitted.new)) }
{
    let mut left = text;
    'strings: loop {
        match put_next(alloc, left, fitted)? {
            Some(behind) => left = behind,
            None => return Ok(()),
        }
    }
}

/// Adds a text up to the end of its first string, with that made to fit, and answers what stands behind it; or all of
/// it, where no string stands in it.
fn put_next<'a>(
    alloc: Global,
    left: &'a [char],
    fitted: &mut String,
) -> Result<Option<&'a [char]>, AllocError>
    ensures { IfOk result (λ found. PutsNext left.now (option_map (λ behind. behind.now) found)
        (string_bytes fitted.old) (string_bytes fitted.new)) }
{
    let Some((outside, body)) = split_quote(left) else {
        put_characters(left, fitted)?;
        return Ok(None);
    };
    let mut bytes = Vec::new(alloc);
    match fit_string(alloc, body, &mut bytes)? {
        None => {
            put_characters(left, fitted)?;
            Ok(None)
        }
        Some(behind) => {
            shorten(outside, &mut bytes);
            put_characters(outside, fitted)?;
            put_string(bytes.as_slice(), fitted)?;
            Ok(Some(behind))
        }
    }
}

/// What stands before the first quote, and what behind it; None where there is none.
fn split_quote(text: &[char]) -> Option<(&[char], &[char])>
    ensures some { IfSome result (λ r. (text.now ≡ r.0.now ++ 0x22 ∷ r.1.now) × (has_no_quote r.0.now ≡ true)) }
    ensures none { IfNone result (has_no_quote text.now ≡ true) }
{
    let mut place = 0;
    while place < text.len() {
        if text[place] == '"' {
            let (outside, more) = text.split_at(place);
            return Some((outside, more.split_at(1).1));
        }
        place += 1;
    }
    None
}
