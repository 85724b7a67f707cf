//! The first line of what is left (profile).
ghost use Rattle.std.specs.Prelude.{◌≡◌, ◌<◌, ◌≤◌, ◌++◌, ℕ, List, [], length, take, drop, Ok, IfOk, IfErr};
ghost use Rattle.std.specs.Prelude.{MatchOption, true, false};
ghost use Rattle.std.specs.Io.KnownBytes.{Consumes, Keeps, prepend_known};
ghost use Rattle.line_feed.specs.Lines.{HasNoEnd, IsNext, IsUntaken};
ghost use Rattle.line_feed.specs.Reading.{HasLine};
ghost use Rattle.line_feed.specs.Parts.{EndsFirst, IsPut};
ghost use Rattle.line_feed.specs.declared.feed.Next.TheVariants.{End};

use crate::arrival::Arrival;
use crate::feed::{LINE_MAX, Next};
use crate::feed_fault::FeedFault;
use crate::held::Held;
use crate::source::Source;
use memchr::memchr;
use std::io::Read;

/// How many bytes the first line has, up to and with its line feed; None where there is no line feed.
pub(crate) fn first_line(bytes: &[u8]) -> Option<usize>
    ensures { MatchOption result (HasNoEnd bytes.now) (λ count. EndsFirst bytes.now count) }
{
    match memchr(b'\n', bytes) {
        Some(place) => Some(place + 1),
        None => None,
    }
}

/// Whether a line feed is among these bytes.
pub(crate) fn has_line(bytes: &[u8]) -> bool
    ensures line { result ≡ true → HasLine bytes.now }
    ensures none { result ≡ false → HasNoEnd bytes.now }
{
    match first_line(bytes) {
        Some(_) => true,
        None => false,
    }
}

/// The next line of what is held and of what the source has left, as [`Feed::next`](crate::Feed::next) says. Where its
/// line feed is held, nothing is read. It is the arrival that waits.
pub(crate) fn take_next<R: Read, A: Arrival>(
    held: &mut Held,
    source: &mut Source<R>,
    arrival: &mut A,
    line: &mut Vec<u8>,
) -> Result<Next, FeedFault>
    ensures next { IfOk result (IsNext (prepend_known held.old source.old.left) (prepend_known held.new source.new.left)
        line.new.items) }
    ensures fault { IfErr result (IsUntaken (prepend_known held.old source.old.left)
        (prepend_known held.new source.new.left)) }
    ensures emptied { IfErr result (λ _. line.new.items ≡ []) }
    ensures early { HasLine held.old → (source.new ≡ source.old) × (arrival.new ≡ arrival.old) }
{
    line.clear();
    match first_line(held.as_slice()) {
        Some(count) => take_first(held, count, line),
        None => read_next(held, source, arrival, line),
    }
}

/// The next line of what is held, which has no line feed, and of what the source has left.
fn read_next<R: Read, A: Arrival>(
    held: &mut Held,
    source: &mut Source<R>,
    arrival: &mut A,
    line: &mut Vec<u8>,
) -> Result<Next, FeedFault>
    requires no_end { HasNoEnd held.old }
    requires empty { line.old.items ≡ [] }
    ensures next { IfOk result (IsNext (prepend_known held.old source.old.left) (prepend_known held.new source.new.left)
        line.new.items) }
    ensures fault { IfErr result (IsUntaken (prepend_known held.old source.old.left)
        (prepend_known held.new source.new.left)) }
    ensures emptied { IfErr result (λ _. line.new.items ≡ []) }
{
    for _turn in 0..u64::MAX {
        if held.room() == 0 {
            return pass_over(held, source, arrival);
        }
        if !source.wait_into(arrival, held)? {
            return take_last(held, line);
        }
        if let Some(count) = first_line(held.as_slice()) {
            return take_first(held, count, line);
        }
    }
    Err(FeedFault::Reading)
}

/// Takes so many bytes, which are a line; nothing where there is no memory for them.
fn take_first(held: &mut Held, count: usize, line: &mut Vec<u8>) -> Result<Next, FeedFault>
    requires within { count ≤ length held.old }
    requires empty { line.old.items ≡ [] }
    ensures taken { IfOk result (λ next. (held.new ≡ drop count held.old)
        × IsPut (take count held.old) line.new.items next) }
    ensures fault { IfErr result (λ fault. (held.new ≡ held.old) × (line.new.items ≡ [])) }
{
    if count > LINE_MAX {
        held.take(count);
        return Ok(Next::TooLong);
    }
    line.extend_from_slice(&held.as_slice()[..count])?;
    held.take(count);
    Ok(Next::Line)
}

/// Takes what is left at the end of the input: a line, or nothing.
fn take_last(held: &mut Held, line: &mut Vec<u8>) -> Result<Next, FeedFault>
    requires empty { line.old.items ≡ [] }
    ensures none { length held.old ≡ 0 → (result ≡ Ok End) × (held.new ≡ []) × (line.new.items ≡ []) }
    ensures taken { 0 < length held.old → IfOk result (λ next. (held.new ≡ []) × IsPut held.old line.new.items next) }
    ensures fault { IfErr result (λ fault. (held.new ≡ held.old) × (line.new.items ≡ [])) }
{
    let count = held.as_slice().len();
    if count == 0 {
        return Ok(Next::End);
    }
    take_first(held, count, line)
}

/// Passes over the first line, of which more than [`LINE_MAX`] bytes are held and no line feed.
fn pass_over<R: Read, A: Arrival>(
    held: &mut Held,
    source: &mut Source<R>,
    arrival: &mut A,
) -> Result<Next, FeedFault>
    requires no_end { HasNoEnd held.old }
    requires long { 65536 < length held.old }
    ensures next { IfOk result (IsNext (prepend_known held.old source.old.left) (prepend_known held.new source.new.left)
        []) }
    ensures fault { IfErr result (IsUntaken (prepend_known held.old source.old.left)
        (prepend_known held.new source.new.left)) }
{
    for _turn in 0..u64::MAX {
        held.clear();
        if !source.wait_into(arrival, held)? {
            return Ok(Next::TooLong);
        }
        if let Some(count) = first_line(held.as_slice()) {
            held.take(count);
            return Ok(Next::TooLong);
        }
    }
    Err(FeedFault::Reading)
}

/// Makes one read where that does not wait and there is room, so that a line that has come is found.
pub(crate) fn read_on<R: Read>(held: &mut Held, source: &mut Source<R>)
    ensures keeps { Keeps (prepend_known held.old source.old.left) (prepend_known held.new source.new.left) }
    ensures read { (bytes : List ℕ) × Consumes source.old.left source.new.left bytes
        × (held.new ≡ held.old ++ bytes) }
{
    if held.room() == 0 {
        return;
    }
    if source.read_into(held).is_err() {
        source.fail();
    }
}
