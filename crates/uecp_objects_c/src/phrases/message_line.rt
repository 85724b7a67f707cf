//! A message as a line of phrases. Source: profile.
ghost use Rattle.std.specs.Prelude.{◌≡◌, IfOk};
ghost use Rattle.rds_text.specs.declared.programme_type.Region.{Region as RegionValue};
ghost use Rattle.uecp_objects_c.specs.PhraseWords.{region_of, words_of, IsPutOrRefused};

use crate::phrases::region::region_of;
use c_values::buffer::put;
use rds_text::Region;
use std::alloc::{AllocError, Global};
use uecp_phrases::put_message;
use uecp_text::Output;

/// What is answered where memory was refused: no line is as long.
const NO_MEMORY: usize = usize::MAX;

/// The line of a message.
fn words_of(alloc: Global, region: Region, message: &[u8]) -> Result<Vec<u8>, AllocError>
    ensures { IfOk result (λ words. words.items ≡ words_of region message.now) }
{
    let mut output = Output::new(alloc);
    put_message(region, message, &mut output);
    output.check()?;
    let mut words = Vec::new(alloc);
    match output.write_out(&mut words) {
        Ok(()) => Ok(words),
        Err(_) => Err(AllocError),
    }
}

/// Puts the line of phrases that the message is written as at the start of `out`, in UTF-8, with no line feed and no
/// byte 00 behind it, and tells how many bytes it has; 0 of an empty message. Where `out` is shorter than that, nothing
/// is written. `SIZE_MAX`, and nothing is written, where memory was refused.
#[unsafe(no_mangle)]
pub extern "C" fn uecp_words(
    alloc: Global,
    is_north_america: bool,
    message: &[u8],
    out: &mut [u8],
) -> usize
    ensures { IsPutOrRefused (words_of (region_of is_north_america) message.now) out.old out.new result }
{
    match words_of(alloc, region_of(is_north_america), message) {
        Ok(words) => put(words.as_slice(), out),
        Err(_) => NO_MEMORY,
    }
}
