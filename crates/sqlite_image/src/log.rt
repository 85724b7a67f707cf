//! Whether a log is as a process that was killed may have left it, or was changed or cut since.
ghost use Rattle.std.specs.Prelude.{◌≡◌, ◌≢◌, ◌+◌, ◌<◌, ◌≤◌, ◌↔◌, ℕ, length, IsTrue, MatchOption, slice_index};
ghost use Rattle.sqlite.specs.Recovery.{Image, Passes, frame, frame_at, file_page};
ghost use Rattle.sqlite_wal.specs.Format.{be32, stored_sum, IsSigned, IsFrame, page_number, commit_size, content};
ghost use Rattle.sqlite_image.specs.Log.{HasHeader, HasFrames, IsThere, IsFirst, IsUnset, IsEnd, Bears, GoesOn, IsLeft};
ghost use Rattle.sqlite_image.specs.Log.{IsNewest, IsCopied, IsBegun, IsUnharmed};
ghost use Rattle.sqlite_image.specs.Place.{IsPlace};

use sqlite_wal::checksum_of;

/// A checksum, as frames bear it.
type Sum = (u32, u32);

/// The bytes before a frame's page.
const FRAME_HEADER: usize = 24;

/// The bytes of a log's header.
const HEADER: usize = 32;

/// Where the salt is in a log's header, and where in a frame's.
const SALT: usize = 16;

const FRAME_SALT: usize = 8;

/// How long a page may be.
const MAX_PAGE: u32 = 65536;

/// The first byte of the magic number, which is written last.
const FIRST: u8 = 0x37;

/// A place in a log, before a frame.
#[derive(Clone, Copy)]
pub(crate) struct Place {
    /// How many frames are before it.
    number: usize,
    /// Where the frame begins.
    at: usize,
    /// The checksum that the frame goes on from.
    sum: Sum,
}

/// Four bytes as a number, the highest first.
fn number_at(bytes: &[u8], at: usize) -> u32
    requires { at + 4 ≤ length bytes.now }
    ensures { result ≡ be32 bytes.now at }
{
    bytes[at] as u32 * 0x100_0000
        + bytes[at + 1] as u32 * 0x1_0000
        + bytes[at + 2] as u32 * 0x100
        + bytes[at + 3] as u32
}

fn sum_at(bytes: &[u8], at: usize) -> Sum
    requires { at + 8 ≤ length bytes.now }
    ensures { result ≡ stored_sum bytes.now at }
{
    (number_at(bytes, at), number_at(bytes, at + 4))
}

/// Whether the header has the magic number and its checksum.
fn is_signed(head: &[u8]) -> bool
    requires { length head.now ≡ 32 }
    ensures { IsTrue result ↔ IsSigned head.now }
{
    if head[0] != 0x37 || head[1] != 0x7f || head[2] != 0x06 {
        return false;
    }
    if head[3] != 0x82 && head[3] != 0x83 {
        return false;
    }
    checksum_of(head[3] == 0x83, (0, 0), &head[..24]) == sum_at(head, 24)
}

/// Whether SQLite would take the frame, under this header and behind this checksum.
fn is_frame(head: &[u8], before: Sum, frame: &[u8]) -> bool
    requires head { length head.now ≡ 32 }
    requires frame { 24 ≤ length frame.now }
    ensures { IsTrue result ↔ IsFrame head.now before frame.now }
{
    if frame[8..16] != head[16..24] || number_at(frame, 0) == 0 {
        return false;
    }
    let big = head[3] == 0x83;
    let front = checksum_of(big, before, &frame[..8]);
    checksum_of(big, front, &frame[24..]) == sum_at(frame, 16)
}

/// The place before the first frame.
fn start(log: &[u8]) -> Place
    requires { 32 ≤ length log.now }
    ensures place { (size : ℕ) → IsPlace size log.now result }
    ensures first { result.number ≡ 0 }
{
    Place {
        number: 0,
        at: HEADER,
        sum: sum_at(log, 24),
    }
}

/// Whether the frame at the place is there.
fn is_there(log: &[u8], size: usize, place: Place) -> bool
    requires small { size ≤ 65536 }
    requires place { IsPlace size log.now place }
    ensures { IsTrue result ↔ IsThere size log.now place.number }
{
    log.len() - place.at >= FRAME_HEADER + size
}

/// The place behind the frame.
fn behind(log: &[u8], size: usize, place: Place) -> Place
    requires small { size ≤ 65536 }
    requires place { IsPlace size log.now place }
    requires there { IsThere size log.now place.number }
    ensures place { IsPlace size log.now result }
    ensures next { result.number ≡ place.number + 1 }
    ensures later { place.at < result.at }
{
    Place {
        number: place.number + 1,
        at: place.at + (FRAME_HEADER + size),
        sum: sum_at(log, place.at + 16),
    }
}

/// The bytes of the frame at the place.
fn frame_of<'a>(log: &'a [u8], size: usize, place: Place) -> &'a [u8]
    requires small { size ≤ 65536 }
    requires place { IsPlace size log.now place }
    requires there { IsThere size log.now place.number }
    ensures value { result.now ≡ frame size log.now place.number }
    ensures len { length result.now ≡ 24 + size }
{
    &log[place.at..place.at + (FRAME_HEADER + size)]
}

/// Whether the frame at the place is there and SQLite would take it.
fn passes(log: &[u8], size: usize, place: Place) -> bool
    requires small { size ≤ 65536 }
    requires place { IsPlace size log.now place }
    ensures { IsTrue result ↔ Passes size log.now place.number }
{
    if !is_there(log, size, place) {
        return false;
    }
    is_frame(&log[..HEADER], place.sum, frame_of(log, size, place))
}

/// Whether the frame at the place commits.
fn commits(log: &[u8], size: usize, place: Place) -> bool
    requires small { size ≤ 65536 }
    requires place { IsPlace size log.now place }
    requires there { IsThere size log.now place.number }
    ensures { IsTrue result ↔ (commit_size (frame size log.now place.number) ≢ 0) }
{
    number_at(frame_of(log, size, place), 4) != 0
}

/// The place behind the frames that SQLite would take one behind the other, and whether a save may begin there.
fn frames_end(log: &[u8], size: usize) -> (Place, bool)
    requires small { size ≤ 65536 }
    requires long { 32 ≤ length log.now }
    ensures place { IsPlace size log.now result.0 }
    ensures frames { HasFrames size log.now result.0.number }
    ensures first { IsTrue result.1 ↔ IsFirst size log.now result.0.number }
{
    let mut place = start(log);
    let mut is_first = true;
    while passes(log, size, place) {
        is_first = commits(log, size, place);
        place = behind(log, size, place);
    }
    (place, is_first)
}

/// Whether the mark at the place is there and isn't set.
fn is_unset(log: &[u8], size: usize, place: Place) -> bool
    requires long { 32 ≤ length log.now }
    requires place { IsPlace size log.now place }
    ensures { IsTrue result ↔ IsUnset size log.now place.number }
{
    log.len() - place.at > FRAME_SALT && log[place.at + FRAME_SALT] != log[SALT]
}

/// Whether the frame at the place bears the salt of the log.
fn bears(log: &[u8], size: usize, place: Place) -> bool
    requires small { size ≤ 65536 }
    requires place { IsPlace size log.now place }
    ensures { IsTrue result ↔ Bears size log.now place.number }
{
    is_there(log, size, place)
        && log[place.at + FRAME_SALT..place.at + SALT] == log[SALT..FRAME_HEADER]
}

/// Whether a frame from the place on bears the salt of the log.
fn is_borne(log: &[u8], size: usize, place: Place) -> bool
    requires small { size ≤ 65536 }
    requires place { IsPlace size log.now place }
    ensures { IsTrue result ↔ ((i : ℕ) × (place.number ≤ i) × Bears size log.now i) }
{
    let mut next = place;
    while is_there(log, size, next) {
        if bears(log, size, next) {
            return true;
        }
        next = behind(log, size, next);
    }
    false
}

/// Whether a save that begins at `first` ends with the frame at the place.
fn is_end(log: &[u8], size: usize, first: Place, place: Place) -> bool
    requires small { size ≤ 65536 }
    requires place { IsPlace size log.now place }
    requires from { first.number ≤ place.number }
    requires there { IsThere size log.now place.number }
    ensures { IsTrue result ↔ IsEnd size log.now first.number place.number }
{
    commits(log, size, place) && (place.number == first.number || passes(log, size, place))
}

/// Behind the first frame with which a save that begins at the place may end.
fn save_end(log: &[u8], size: usize, first: Place) -> Option<Place>
    requires small { size ≤ 65536 }
    requires place { IsPlace size log.now first }
    ensures { MatchOption result ((i : ℕ) → ¬ IsEnd size log.now first.number i)
        (λ p. IsPlace size log.now p × ((i : ℕ) × (i + 1 ≡ p.number) × IsEnd size log.now first.number i)
        × ((i : ℕ) → i + 1 < p.number → ¬ IsEnd size log.now first.number i)) }
{
    let mut place = first;
    while is_there(log, size, place) {
        let next = behind(log, size, place);
        if is_end(log, size, first, place) {
            return Some(next);
        }
        place = next;
    }
    None
}

/// Whether behind a save that begins at the place another one was written.
fn goes_on(log: &[u8], size: usize, first: Place) -> bool
    requires small { size ≤ 65536 }
    requires place { IsPlace size log.now first }
    ensures { IsTrue result ↔ GoesOn size log.now first.number }
{
    match save_end(log, size, first) {
        Some(next) => is_borne(log, size, next),
        None => false,
    }
}

/// Whether no later frame before `end` is for the page of the frame at the place.
fn is_newest(log: &[u8], size: usize, end: Place, place: Place) -> bool
    requires small { size ≤ 65536 }
    requires end { IsPlace size log.now end }
    requires place { IsPlace size log.now place }
    requires before { place.number < end.number }
    ensures { IsTrue result ↔ IsNewest size log.now end.number place.number }
{
    let page = number_at(log, place.at);
    let mut next = behind(log, size, place);
    while next.number < end.number {
        if number_at(log, next.at) == page {
            return false;
        }
        next = behind(log, size, next);
    }
    true
}

/// Whether the file has what the frame says.
fn is_in_file(log: &[u8], size: usize, place: Place, db: &[u8]) -> bool
    requires small { size ≤ 65536 }
    requires place { IsPlace size log.now place }
    requires there { IsThere size log.now place.number }
    ensures { IsTrue result ↔ (content (frame size log.now place.number)
        ≡ file_page size db.now (page_number (frame size log.now place.number))) }
{
    let page = number_at(log, place.at);
    let from = (page as usize).saturating_sub(1) * size;
    if from > db.len() {
        return false;
    }
    if db.len() - from < size {
        return false;
    }
    let begin = place.at + FRAME_HEADER;
    db[from..from + size] == log[begin..begin + size]
}

/// Whether the file has what the frames say.
fn is_copied(log: &[u8], size: usize, db: &[u8]) -> bool
    requires small { size ≤ 65536 }
    requires long { 32 ≤ length log.now }
    ensures { IsTrue result ↔ IsCopied size log.now db.now }
{
    let (end, _) = frames_end(log, size);
    let mut place = start(log);
    while place.number < end.number {
        if is_newest(log, size, end, place) && !is_in_file(log, size, place, db) {
            return false;
        }
        place = behind(log, size, place);
    }
    true
}

/// Whether the log has a header that SQLite would take.
fn has_header(log: &[u8]) -> bool
    ensures { IsTrue result ↔ HasHeader log.now }
{
    if log.len() < HEADER {
        return false;
    }
    if !is_signed(&log[..HEADER]) {
        return false;
    }
    if number_at(log, 8) > MAX_PAGE {
        return false;
    }
    true
}

/// Whether the frames of a log that has its first byte end as they may.
fn is_begun(log: &[u8], db: &[u8]) -> bool
    ensures { IsTrue result ↔ IsBegun (record { log = log.now; db = db.now }) }
{
    if !has_header(log) {
        return false;
    }
    let size = number_at(log, 8) as usize;
    let (end, is_first) = frames_end(log, size);
    if !is_first {
        return false;
    }
    if !is_unset(log, size, end) {
        return false;
    }
    if goes_on(log, size, end) {
        return false;
    }
    end.number == 0 || db.len() > 1
}

/// Whether the log, beside the file, is as a process that was killed may have left it.
pub(crate) fn is_unharmed(log: &mut [u8], db: &[u8]) -> bool
    ensures { IsTrue result ↔ IsUnharmed (record { log = log.old; db = db.now }) }
{
    if log.is_empty() {
        return true;
    }
    if log[0] == FIRST {
        return is_begun(log, db);
    }
    log[0] = FIRST;
    !has_header(log) || is_copied(log, number_at(log, 8) as usize, db)
}
