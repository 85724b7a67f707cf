//! Laws of the definitions, each the contract of a function that does nothing. Source: profile.
ghost use Rattle.std.specs.Prelude.{ℕ, List, length, ◌≤◌};
ghost use Rattle.uecp_frame.specs.declared.frame.Frame.{Frame as FrameValue};
ghost use Rattle.uecp_frame.specs.Places.{AreFoundByPlaces};
ghost use Rattle.uecp_frame.specs.Stuffing.{OneReading};
ghost use Rattle.uecp_frame.specs.Frame.{spelling, IsPrefixFree};
ghost use Rattle.uecp_frame.specs.Segment.{IsSegment};
ghost use Rattle.uecp_frame.specs.Findings.{OpenPart, OneFuture, OneOpenPart};
ghost use Rattle.uecp_frame.specs.Beyond.{ComesAfter, ComesInPieces, IsNewStart, IsHeard, BreaksOff, IsPassedOver};

/// No spelling of a frame begins another's.
#[tactic(auto, using(crate::proofs::Spelling::prefix_free_lem))]
pub fn prefix_free()
    ensures { IsPrefixFree }
{}

/// The spelling of a frame is one segment.
pub fn one_segment()
    ensures { (f : FrameValue) → IsSegment (spelling f) }
{}

/// Bytes between an FE and an FF read in exactly one way.
pub fn one_reading()
    ensures { OneReading }
{}

/// The findings of a byte list are those of its segments by places: one for each pair of places, none left out, in
/// order.
pub fn found_by_places()
    ensures { (s : List ℕ) → AreFoundByPlaces s }
{}

/// Two byte lists with one open part have one future: more bytes find the same after both, and leave the same part
/// open.
#[tactic(auto, using(crate::proofs::Future::one_future_lem, crate::proofs::Future::one_open_part_lem))]
pub fn one_future()
    ensures findings { OneFuture }
    ensures open_parts { OneOpenPart }
{}

/// What bytes find after others is what they find beyond the open part of those.
pub fn comes_after()
    ensures { (s x : List ℕ) → ComesAfter s x }
{}

/// Bytes find the same in any pieces, whatever part is open.
pub fn in_pieces()
    ensures { (o : OpenPart) (x y : List ℕ) → ComesInPieces o x y }
{}

/// No bytes find nothing, and where nothing is open bytes find what they find from the start.
pub fn new_start()
    ensures { (o : OpenPart) (x : List ℕ) → IsNewStart o x }
{}

/// Whatever part is open, the spelling of a frame is heard as that frame, after at most one `Unended`, and leaves
/// nothing open.
pub fn always_heard()
    ensures { (o : OpenPart) (f : FrameValue) → length f.message ≤ 255 → IsHeard o f }
{}

/// Whatever part is open, the spelling of a frame that breaks off holds no frame; where the spelling of a frame follows
/// it, the one is dropped as `Unended` and the other is heard.
pub fn passed_over()
    ensures { (o : OpenPart) (x : List ℕ) (next : FrameValue) → BreaksOff x → length next.message ≤ 255
        → IsPassedOver o x next }
{}
