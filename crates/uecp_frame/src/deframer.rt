//! Frames out of a stream. Source: RDS Forum SPB 490, frame format, for segments; profile for the order of faults.
use crate::fault::FrameFault;
use crate::fed::Fed;
use crate::fed_ref::{FedRef, FoundRef};
use crate::lent_segment::{address_in, found_of, lent};
use crate::open_segment::OpenSegment;
use std::marker::Model;

/// Finds the frames of a stream that comes in any pieces. It keeps the segment that has not ended, and the frame that
/// ended last; contracts see what matters of that segment, the open part.
#[derive(Debug, Drop)]
pub struct Deframer {
    /// The segment that has not ended, or the frame that ended last.
    segment: OpenSegment,
}

impl Model for Deframer {
    ghost use Rattle.uecp_frame.specs.Findings.{OpenPart};

    ghost Value = { OpenPart };

    ghost use Rattle.uecp_frame.specs.OpenSegment.{part_of, IsOpenSegment};

    ghost view = { λ d. part_of d.segment };

    ghost invariant = { λ d. IsOpenSegment d.segment };
}

impl Deframer {
    ghost use Rattle.std.specs.Prelude.{◌≡◌, ◌≤◌, ◌<◌, ℕ, List, [], ◌∷◌, ◌++◌, length, take};
    ghost use Rattle.std.specs.Borrow.{sem};
    ghost use Rattle.std.specs.Io.BufRead.{Rests};
    ghost use Rattle.uecp_frame.specs.Findings.{Closed, open_part};
    ghost use Rattle.uecp_frame.specs.Beyond.{open_beyond};
    ghost use Rattle.uecp_frame.specs.Feeding.{Feeds, FeedsAfter};
    ghost use Rattle.uecp_frame.specs.Lent.{fed_lent, LendsAtMost};
    ghost use Rattle.uecp_frame.specs.contracts.deframer.Deframer.{the_row};

    /// A deframer at the start of a stream: no segment is open.
    pub fn new() -> Deframer
        ensures { result ≡ Closed }
    {
        Deframer {
            segment: OpenSegment::new(),
        }
    }

    /// Forgets a segment that has not ended, as where the line was lost. What comes next is read as from the start.
    pub fn line_lost(&mut self)
        ensures { self.new ≡ Closed }
    {
        self.segment.close();
    }

    /// Another deframer that will find the same.
    pub fn copy(&self) -> Deframer
        ensures { result ≡ self.now }
    {
        Deframer {
            segment: self.segment.copy(),
        }
    }

    /// Uses the bytes of the piece up to and with the one that ends a segment, or all where none does. An FE in an open
    /// segment ends that segment as `Unended` and opens the next one. Feed what is left of the piece until all is used.
    pub fn feed(&mut self, piece: &[u8]) -> Fed
        ensures fits { result.used ≤ length piece.now }
        ensures moves { 0 < length piece.now → 0 < result.used }
        // By the open part alone,
        ensures feeds { Feeds self.old piece.now result self.new }
        // and so after whatever bytes have left it.
        ensures after { (s : List ℕ) → open_part s ≡ self.old → FeedsAfter s piece.now result self.new }
    {
        let advanced = self.segment.advance(piece);
        Fed {
            used: advanced.used,
            found: found_of(advanced.ended, self.segment.plain.as_slice()),
        }
    }

    /// As `feed`, but the message of a frame is lent. Once the loan ends, the deframer is as `feed` leaves it.
    #[inline(always)]
    pub fn feed_ref(&mut self, piece: &[u8]) -> FedRef<'_>
        ensures fits { result.used ≤ length piece.now }
        ensures moves { 0 < length piece.now → 0 < result.used }
        // By the open part alone,
        ensures feeds { Feeds self.old piece.now (fed_lent result) (open_beyond self.old (take result.used piece.now)) }
        // and so after whatever bytes have left it.
        ensures after { (s : List ℕ) → open_part s ≡ self.old
            → FeedsAfter s piece.now (fed_lent result) (open_beyond self.old (take result.used piece.now)) }
        ensures lends { LendsAtMost 255 result.found }
        ensures* rests { sem 𝓛 (Rests the_row self.entry (λ d. d ≡ open_beyond self.old (take result.used piece.now))) }
    {
        if self.segment.end_at_once(piece) {
            return FedRef {
                used: 1,
                found: FoundRef::Refused(FrameFault::Unended),
            };
        }
        if self.segment.add_at_once(piece) {
            return FedRef {
                used: 1,
                found: FoundRef::Nothing,
            };
        }
        let advanced = self.segment.advance(piece);
        self.segment.address = address_in(advanced.ended, self.segment.plain.as_slice());
        FedRef {
            used: advanced.used,
            found: lent(advanced.ended, &self.segment),
        }
    }
}
