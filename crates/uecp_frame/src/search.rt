//! Searching bytes for those that mean something to a reader of frames. Source: RDS Forum SPB 490, frame format.
ghost use Rattle.std.specs.Prelude.{◌≡◌, ◌≢◌, ◌<◌, ◌≤◌, ℕ, IsTrue, length, slice_index};

use crate::frame::START;
use memchr::memchr;

/// How many bytes of a run are looked at in one step.
const EIGHT: usize = 8;

/// How many bytes stand before the first FE, or how many there are.
pub(crate) fn first_start(bytes: &[u8]) -> usize
    ensures fits { result ≤ length bytes.now }
    ensures before { (k : ℕ) → k < result → slice_index bytes.now k ≢ 254 }
    ensures some { 0 < length bytes.now → slice_index bytes.now 0 ≢ 254 → 0 < result }
{
    memchr(START, bytes).unwrap_or(bytes.len())
}

/// How many bytes stand before the first that is not below the limit, or how many there are.
pub(crate) fn run_below(limit: u8, bytes: &[u8]) -> usize
    ensures fits { result ≤ length bytes.now }
    ensures below { (k : ℕ) → k < result → slice_index bytes.now k < limit }
    ensures some { 0 < length bytes.now → slice_index bytes.now 0 < limit → 0 < result }
{
    let mut used = 0;
    while bytes.len() - used >= EIGHT && are_below(limit, &bytes[used..used + EIGHT]) {
        used += EIGHT;
    }
    used + run_byte_by_byte(limit, &bytes[used..])
}

/// The same byte by byte.
fn run_byte_by_byte(limit: u8, bytes: &[u8]) -> usize
    ensures fits { result ≤ length bytes.now }
    ensures below { (k : ℕ) → k < result → slice_index bytes.now k < limit }
    ensures some { 0 < length bytes.now → slice_index bytes.now 0 < limit → 0 < result }
{
    bytes
        .iter()
        .position(|byte| *byte >= limit)
        .unwrap_or(bytes.len())
}

/// Whether eight bytes are below the limit. All are compared, also behind one that is not, so that a processor can do
/// it in one step.
#[inline(always)]
fn are_below(limit: u8, eight: &[u8]) -> bool
    requires { length eight.now ≡ 8 }
    ensures yes { IsTrue result → (k : ℕ) → k < 8 → slice_index eight.now k < limit }
    ensures no { ((k : ℕ) → k < 8 → slice_index eight.now k < limit) → IsTrue result }
{
    (eight[0] < limit)
        & (eight[1] < limit)
        & (eight[2] < limit)
        & (eight[3] < limit)
        & (eight[4] < limit)
        & (eight[5] < limit)
        & (eight[6] < limit)
        & (eight[7] < limit)
}
