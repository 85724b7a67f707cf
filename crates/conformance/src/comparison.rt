//! What came of a case is held against the replies that it wants (profile).
ghost use Rattle.std.specs.Prelude.{◌≡◌, ◌≢◌, ◌≤◌, ◌↔◌, ℕ, length, drop, Ok, IfSome, IfNone, IsTrue, List, [], ◌∷◌};
ghost use Rattle.uecp_frame.specs.Findings.{found, Finding};
ghost use Rattle.conformance.specs.declared.verdict.Reply.{Reply as ReplyValue};
ghost use Rattle.conformance.specs.declared.verdict.Expected.{Expected as ExpectedValue};
ghost use Rattle.conformance.specs.declared.verdict.Verdict.TheVariants.{Kept};
ghost use Rattle.conformance.specs.Judging.{reply_frame, Serves, Stands, IsJudged, AreWanted};

use crate::verdict::{Expected, Reply, Verdict};
use uecp_frame::{Address, Deframer, Found, Frame};

/// The element of an acknowledgement, which a reply carries.
const ACKNOWLEDGEMENT: u8 = 0x18;

/// The verdict on the bytes that came from the encoder at this address, where these replies are wanted.
pub fn judge(own: Address, wanted: &[Expected], came: &[u8]) -> Verdict
    ensures judged { IsJudged own wanted.now (found came.now) result }
    ensures kept { (result ≡ Kept) ↔ AreWanted own wanted.now (found came.now) }
{
    first_difference(own, wanted, came)
}

/// The verdict by the first place where what came is not what is wanted.
fn first_difference(own: Address, wanted: &[Expected], came: &[u8]) -> Verdict
    ensures { IsJudged own wanted.now (found came.now) result }
{
    let mut deframer = Deframer::new();
    let mut rest = came;
    let mut agreed = 0;
    while !rest.is_empty() {
        let fed = deframer.feed(rest);
        rest = rest_of(rest, fed.used);
        match fed.found {
            Found::Nothing => {}
            Found::Refused(fault) => return Verdict::Dropped(fault),
            Found::Frame(frame) => match disagreement(own, next_of(wanted, agreed), frame) {
                Some(verdict) => return verdict,
                None => agreed += 1,
            },
        }
    }
    at_end(next_of(wanted, agreed))
}

/// What is left of a piece once this many bytes of it were used.
fn rest_of(piece: &[u8], used: usize) -> &[u8]
    requires { used ≤ length piece.now }
    ensures { result.now ≡ drop used piece.now }
{
    &piece[used..]
}

/// The replies that are wanted behind so many.
fn next_of(wanted: &[Expected], agreed: usize) -> &[Expected]
    requires { agreed ≤ length wanted.now }
    ensures { result.now ≡ drop agreed wanted.now }
{
    &wanted[agreed..]
}

/// How it stands where nothing more came.
fn at_end(wanted: &[Expected]) -> Verdict
    ensures { (own : ℕ) → Stands own wanted.now [] result }
{
    match wanted.first() {
        Some(reply) => Verdict::Missing(*reply),
        None => Verdict::Kept,
    }
}

/// How it stands where this frame came next; None where it is a reply that is wanted next.
fn disagreement(own: Address, wanted: &[Expected], frame: Frame) -> Option<Verdict>
    ensures stands { IfSome result (λ verdict. (after : List Finding)
        → Stands own wanted.now (Ok frame ∷ after) verdict) }
    ensures agrees { IfNone result ((first : ExpectedValue) × (later : List ExpectedValue) × (came : ReplyValue)
        × (wanted.now ≡ first ∷ later) × Serves first came × (frame ≡ reply_frame own came)) }
{
    let Some(came) = reply_in(own, &frame) else {
        return Some(Verdict::NoReply);
    };
    match wanted.first() {
        None => Some(Verdict::TooMany(came)),
        Some(reply) => {
            if serves(*reply, came) {
                None
            } else {
                Some(Verdict::Another(*reply, came))
            }
        }
    }
}

/// Whether a reply that came is one that is wanted.
fn serves(wanted: Expected, came: Reply) -> bool
    ensures { IsTrue result ↔ Serves wanted came }
{
    match wanted {
        Expected::This(reply) => came == reply,
        Expected::Refusal(counter) => came.counter == counter && came.code != 0,
    }
}

/// The reply that a frame is, where it is one of the encoder at this address.
fn reply_in(own: Address, frame: &Frame) -> Option<Reply>
    ensures reply { IfSome result (λ reply. frame.now ≡ reply_frame own reply) }
    ensures other { IfNone result ((reply : ReplyValue) → frame.now ≢ reply_frame own reply) }
{
    if frame.address != own || frame.counter != 0 {
        return None;
    }
    match frame.message.bytes() {
        [ACKNOWLEDGEMENT, code, counter] => Some(Reply {
            counter: *counter,
            code: *code,
        }),
        _ => None,
    }
}
