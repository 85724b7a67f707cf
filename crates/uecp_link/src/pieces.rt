//! The ends are given the stream in pieces.
ghost use Rattle.std.specs.Prelude.{◌≡◌, ◌≤◌, ◌<◌, ℕ, IsNone, ◌↔◌, IfSome, None, Some, List, [], length, take, drop};
ghost use Rattle.std.specs.Prelude.{true, option_to_list};
ghost use Rattle.std.specs.List.{last_or};
ghost use Rattle.uecp_frame.specs.Findings.{has_frame};
ghost use Rattle.uecp_frame.specs.Beyond.{found_beyond};
ghost use Rattle.uecp_encoder.specs.State.{fed};
ghost use Rattle.uecp_encoder.specs.ReplyCodes.{replies};
ghost use Rattle.uecp_link.specs.Server.{heard};
ghost use Rattle.uecp_link.specs.Replying.{acknowledgements, IsInPieces};

use crate::heard::HeardWhat;
use crate::server::Server;
use uecp_elements::Code;
use uecp_encoder::{Encoder, Outcome, Target};
use uecp_frame::{Deframer, Found};

/// What is left of a piece once this many bytes of it were used.
pub(crate) fn rest_of(piece: &[u8], used: usize) -> &[u8]
    requires { used ≤ length piece.now }
    ensures { result.now ≡ drop used piece.now }
{
    &piece[used..]
}

/// An end of the line, which is given the stream in pieces and says something of some segments.
pub(crate) trait End {
    /// What it says of a segment.
    type Said: Copy;

    // The end after some bytes.
    ghost after: { Self → List ℕ → Self };

    // What it says of them, in order.
    ghost says: { Self → List ℕ → List Self.Said };

    /// Gives the end a piece up to the end of its first segment, and answers how many bytes that used and what the end
    /// said.
    fn give_first(&mut self, piece: &[u8]) -> (usize, Option<Self::Said>)
        ensures fits { result.0 ≤ length piece.now }
        ensures moves { 0 < length piece.now → 0 < result.0 }
        ensures state { self.new ≡ after self.old (take result.0 piece.now) }
        ensures said { says self.old (take result.0 piece.now) ≡ option_to_list result.1 };

    /// The law of an end, as the contract of a function that does nothing: no bytes leave it as it is and have it say
    /// nothing, and two pieces are as good as one.
    fn in_pieces()
        ensures nothing { (e : Self) → (after e [] ≡ e) × (says e [] ≡ []) }
        ensures pieces { (e : Self) (x y : List ℕ) → IsInPieces after says e x y };
}

impl<T: Target> End for Encoder<T> {
    type Said = (bool, Code);

    ghost after = { fed T.step };

    ghost says = { replies T.step };

    fn give_first(&mut self, piece: &[u8]) -> (usize, Option<(bool, Code)>) {
        let heard = self.hear(piece);
        match heard.outcome {
            Outcome::Reply {
                code,
                counter: _,
                fresh,
            } => (heard.used, Some((fresh, code))),
            Outcome::Nothing
            | Outcome::Dropped(_)
            | Outcome::NotForMe
            | Outcome::Unnumbered
            | Outcome::NotNext => (heard.used, None),
        }
    }

    fn in_pieces() {}
}

impl End for Server {
    type Said = Code;

    ghost after = { heard };

    ghost says = { acknowledgements };

    fn give_first(&mut self, piece: &[u8]) -> (usize, Option<Code>) {
        let heard = self.hear(piece);
        match heard.what {
            HeardWhat::Acknowledged { counter: _, code } => (heard.used, Some(code)),
            HeardWhat::Nothing | HeardWhat::Stray | HeardWhat::Dropped(_) => (heard.used, None),
        }
    }

    fn in_pieces() {}
}

/// Gives the end a piece, and answers the last that it says of it, or what it said before.
pub(crate) fn give_piece<E: End>(
    end: &mut E,
    piece: &[u8],
    before: Option<E::Said>,
) -> Option<E::Said>
    ensures state { end.new ≡ E.after end.old piece.now }
    ensures said { result ≡ last_or before (E.says end.old piece.now) }
{
    E::in_pieces();
    let mut last = before;
    let mut rest = piece;
    while !rest.is_empty() {
        let (used, said) = end.give_first(rest);
        rest = rest_of(rest, used);
        last = said.or(last);
    }
    last
}

/// Gives the end these bytes, cut into pieces of these lengths and what is left, and answers the last that it says.
pub(crate) fn give_cut<E: End>(end: &mut E, bytes: &[u8], cut: &[u16]) -> Option<E::Said>
    ensures state { end.new ≡ E.after end.old bytes.now }
    ensures said { result ≡ last_or None (E.says end.old bytes.now) }
{
    E::in_pieces();
    let mut last = None;
    let mut rest = bytes;
    for length in cut {
        let (piece, later) = rest.split_at(usize::from(*length).min(rest.len()));
        last = give_piece(end, piece, last);
        rest = later;
    }
    give_piece(end, rest, last)
}

/// How many segments the noise would end after what a deframer has heard, or None where a frame would be among them.
pub(crate) fn dropped_by(deframer: &Deframer, noise: &[u8]) -> Option<usize>
    ensures holds { IsNone result ↔ (has_frame (found_beyond deframer.now noise.now) ≡ true) }
    ensures count { IfSome result (λ dropped. dropped ≡ length (found_beyond deframer.now noise.now)) }
{
    let mut copy = deframer.copy();
    let mut dropped = 0;
    let mut rest = noise;
    while !rest.is_empty() {
        let fed = copy.feed(rest);
        rest = rest_of(rest, fed.used);
        match fed.found {
            Found::Nothing => {}
            Found::Refused(_) => dropped += 1,
            Found::Frame(_) => return None,
        }
    }
    Some(dropped)
}
