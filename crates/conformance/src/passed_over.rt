//! What came that is no part of a segment (profile).
ghost use Rattle.std.specs.Prelude.{◌≡◌};
ghost use Rattle.conformance.specs.Noise.{noise};

/// Begins a segment.
const START: u8 = 0xFE;

/// Ends a segment.
const END: u8 = 0xFF;

/// How many of the bytes that came are no part of a segment: those before an FE and behind an FF, and those of a
/// segment at the end that has not ended. By the protocol they say nothing.
pub fn noise(came: &[u8]) -> usize
    ensures { result ≡ noise came.now }
{
    let mut outside = 0;
    let mut unended = 0;
    for byte in came {
        if *byte == START {
            unended = 1;
        } else if unended == 0 {
            outside += 1;
        } else if *byte == END {
            unended = 0;
        } else {
            unended += 1;
        }
    }
    outside + unended
}
