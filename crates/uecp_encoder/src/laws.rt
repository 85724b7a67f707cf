//! Laws of the definitions, each the contract of a function that does nothing.
ghost use Rattle.std.specs.Prelude.{ℕ, List};
ghost use Rattle.uecp_encoder.specs.State.{EncoderState};
ghost use Rattle.uecp_encoder.specs.Surviving.{GoesOnAsItWas, LosesNothing, DoublesNothing};
ghost use Rattle.uecp_encoder.specs.Laws.{RetryActsOnce, AppliedOnce, AppliesInOrder, AppliesFrom01, IsInPieces};
ghost use Rattle.uecp_encoder.specs.Laws.{IsHeardAfterNoise, DamageChangesNothing};
ghost use Rattle.uecp_encoder.specs.Joining.{Joins, WholePassIsReplied};

use crate::target::Target;

/// A frame that was applied and comes again within the next 126 applied messages gets the reply that it got, byte for
/// byte, and changes neither the target nor the kept replies. Between them anything may be found in what comes
/// (messages, faults, frames for others, unnumbered frames, repeats), and anything else may happen that leaves the
/// encoder's address and its kept replies: noise that ends no segment, a lost line, a group taken from the target.
pub fn a_retry_acts_once<T: Target>()
    ensures { RetryActsOnce T.step }
{}

/// A frame that was applied and comes again within the next 253 applied messages is not applied again. Within 126 it
/// gets its reply ([`a_retry_acts_once`]); after that its counter is neither kept nor the next, until 254 further
/// messages have brought the counters round.
pub fn applied_once<T: Target>()
    ensures { AppliedOnce T.step }
{}

/// Messages are applied in the order of their counters: each has the counter after that of the one before, FF being
/// followed by 01, and the first of a new encoder has 01. What comes may hold anything, in any order, and anything else
/// may happen that leaves the encoder's address and its kept replies.
pub fn applied_in_order<T: Target>()
    ensures each { AppliesInOrder T.step }
    ensures from_01 { AppliesFrom01 T.step }
{}

/// An encoder does the same with a stream however it is cut into pieces.
pub fn in_pieces<T: Target>()
    ensures { (e : EncoderState _) (x y : List ℕ) → IsInPieces T.step e x y }
{}

/// After noise in which no frame stands, in any pieces, the spelling of a frame ends with that frame, and no finding
/// before it is a frame.
pub fn heard_after_noise()
    ensures { IsHeardAfterNoise }
{}

/// Bytes in which no frame is found, whatever part is open before them, leave an encoder its target, its kept replies
/// and its counts but that of the dropped segments, which rises by one for each segment that they end; and no reply
/// goes back.
pub fn damage_changes_nothing<T: Target>()
    ensures { DamageChangesNothing T.step }
{}

/// A server that knows nothing of an encoder sends it empty messages under 01, 02 .. FF, in this order, and does so
/// until in one such pass both 81 and FF got a reply. Where an empty message changes nothing at the target, the encoder
/// then has its target as it was, keeps the replies to 81 .. FF and no other, and expects 01.
pub fn joined<T: Target>()
    ensures { Joins T.step }
{}

/// Where none of the messages of such a pass is lost, each from 81 on gets a reply: one pass is enough then, from
/// wherever the encoder was.
pub fn whole_pass_is_replied<T: Target>()
    ensures { WholePassIsReplied T.step }
{}

/// An encoder that goes on from what was kept is the one that was saved, but that nothing is counted and nothing open:
/// something of the kind that may happen to an encoder, in between of what it finds. So [`a_retry_acts_once`], and what
/// else holds of an encoder whatever happens to it, holds across any number of ends and starts.
pub fn goes_on_as_it_was<T: Target>()
    ensures { GoesOnAsItWas T.step }
{}

/// A crash loses nothing: where even one byte of the reply to a frame was sent, what the crash left has taken that
/// frame.
pub fn loses_nothing<T: Target>()
    ensures { LosesNothing T.step }
{}

/// A crash doubles nothing: an encoder that goes on from what the crash left answers a frame whose message was applied
/// in that with the reply that it got, byte for byte, and changes neither target nor kept replies, as long as at most
/// 126 further messages were applied, before the crash and after it; and up to 253 it is not applied again. Since the
/// crash anything may have happened: messages sent again, new ones, noise, lost lines.
pub fn doubles_nothing<T: Target>()
    ensures { DoublesNothing T.step }
{}
