//! What goes back for a piece: taken in, saved where that is due, written, and then told. Source: profile.
ghost use Rattle.std.specs.Prelude.{◌≡◌, ◌<◌, ◌≤◌, ◌+◌, ◌*◌, ◌^◌, ℕ, List, length, OnOk, IfOk, IfErr};
ghost use Rattle.std.specs.Io.KnownBytes.{Appends};
ghost use Rattle.uecp_encoder.specs.Answering.{bytes_sent};
ghost use Rattle.uecp_encoder.specs.Telling.{HearsFor, response_of};
ghost use Rattle.uecp_encoder.specs.Batches.{Takes, StopsAt, HearsUntil, HeardEach, IsKeptIf, IsNotKept, IsUnanswered};
ghost use Rattle.uecp_encoder.specs.Batches.{written_at, stopped_after, failures_at};

use crate::batch::{Batch, take_batch};
use crate::encoder::Encoder;
use crate::keep::{BatchLimits, Keep, SaveFailed, SavedEncoder};
use crate::listener::{Answered, Listener};
use crate::meter::Meter;
use crate::target::Target;
use std::io::Write;

/// What was written: how many replies, and how many bytes they are.
#[derive(Clone, Copy, Debug)]
pub(crate) struct Sent {
    pub(crate) replies: u64,
    pub(crate) bytes: u64,
}

/// Why no more of a piece was taken.
#[derive(Clone, Copy, Debug)]
pub(crate) enum Stop {
    /// A write failed after so many bytes.
    Write(u64),
    /// A save failed.
    State,
}

/// Takes one piece to its end, batch by batch: saves what is to be saved, writes the replies that are due, and tells of
/// each thing that is found.
pub(crate) fn take_piece<T: Target, K: Keep<SavedEncoder<T>> + BatchLimits, W: Write, L: Listener>(
    encoder: &mut Encoder<T>,
    keeper: &mut K,
    writer: &mut Meter<W>,
    listener: &mut L,
    batch: &mut Batch,
    piece: &[u8],
) -> Result<Sent, Stop>
    requires { length piece.now ≤ 4192 }
    ensures ok { IfOk result (λ sent. (written : List ℕ)
        × Appends (W.contents writer.old.device) (W.contents writer.new.device) written
        × Takes K.TOGETHER_MAX T.step K.leaves K.is_clean K.saves encoder.old encoder.new keeper.old keeper.new
        piece.now written 1 sent.replies sent.bytes
        × HearsFor L.hears T.step encoder.old piece.now listener.old listener.new) }
    ensures err { IfErr result (λ stop. (written : List ℕ) × (start place : ℕ)
        × Appends (W.contents writer.old.device) (W.contents writer.new.device) written
        × StopsAt K.TOGETHER_MAX T.step K.leaves K.is_clean K.saves K.fails encoder.old encoder.new keeper.old
        keeper.new piece.now written 1 start place stop
        × HearsUntil L.hears T.step encoder.old piece.now start place listener.old listener.new stop) }
    ensures few_written { IfErr result (λ stop. written_at stop ≤ 16 * length piece.now) }
    ensures failures { writer.new.failures ≡ failures_at result writer.old.failures }
{
    let mut at = 0;
    let mut sent = Sent {
        replies: 0,
        bytes: 0,
    };
    while at < piece.len() {
        let listens = listener.is_listening();
        let used = take_batch(encoder, &piece[at..], K::TOGETHER_MAX, listens, batch);
        match answer_batch(encoder, keeper, writer, listener, batch) {
            Err(stop) => return Err(after(sent.bytes, stop)),
            Ok(()) => {
                sent = both(
                    sent,
                    Sent {
                        replies: batch.count,
                        bytes: batch.replies.len() as u64,
                    },
                );
                at += used;
            }
        }
    }
    Ok(sent)
}

/// Both together.
pub(crate) fn both(a: Sent, b: Sent) -> Sent
    requires replies { a.replies + b.replies < 2 ^ 64 }
    requires bytes { a.bytes + b.bytes < 2 ^ 64 }
    ensures replies { result.replies ≡ a.replies + b.replies }
    ensures bytes { result.bytes ≡ a.bytes + b.bytes }
{
    Sent {
        replies: a.replies + b.replies,
        bytes: a.bytes + b.bytes,
    }
}

/// Why no more is taken, counted from so many bytes before.
fn after(bytes: u64, stop: Stop) -> Stop
    requires { bytes + written_at stop < 2 ^ 64 }
    ensures { result ≡ stopped_after bytes stop }
{
    match stop {
        Stop::Write(written) => Stop::Write(bytes + written),
        Stop::State => Stop::State,
    }
}

/// Answers what is in the batch: saves the encoder where a reply is fresh, writes the replies, and then tells of what
/// was found.
fn answer_batch<T: Target, K: Keep<SavedEncoder<T>>, W: Write, L: Listener>(
    encoder: &Encoder<T>,
    keeper: &mut K,
    writer: &mut Meter<W>,
    listener: &mut L,
    batch: &Batch,
) -> Result<(), Stop>
    ensures clean { K.is_clean keeper.new → K.is_clean keeper.old }
    ensures ok { OnOk result (Appends (W.contents writer.old.device) (W.contents writer.new.device)
        batch.now.replies.items
        × IsKeptIf K.leaves K.is_clean K.saves encoder.now batch.now.fresh keeper.old keeper.new) }
    ensures heard { OnOk result (HeardEach L.hears batch.now.events.items (length batch.now.replies.items) listener.old
        listener.new) }
    ensures err { IfErr result (λ stop. IsUnanswered K.leaves K.is_clean K.saves K.fails L.hears encoder.now batch.now
        (W.contents writer.old.device) (W.contents writer.new.device) keeper.old keeper.new listener.old listener.new
        stop) }
    ensures failures { writer.new.failures ≡ failures_at result writer.old.failures }
{
    if save_if(batch.fresh, encoder, keeper).is_err() {
        return Err(Stop::State);
    }
    match writer.write_whole(batch.replies.as_slice()) {
        Err(written) => {
            tell(listener, batch, written);
            Err(Stop::Write(written as u64))
        }
        Ok(()) => {
            tell(listener, batch, batch.replies.len());
            Ok(())
        }
    }
}

/// Saves the encoder where that is due.
fn save_if<T: Target, K: Keep<SavedEncoder<T>>>(
    due: bool,
    encoder: &Encoder<T>,
    keeper: &mut K,
) -> Result<(), SaveFailed>
    ensures clean { K.is_clean keeper.new → K.is_clean keeper.old }
    ensures ok { OnOk result (IsKeptIf K.leaves K.is_clean K.saves encoder.now due keeper.old keeper.new) }
    ensures err { IfErr result (λ _. IsNotKept K.leaves K.is_clean K.fails encoder.now due keeper.old keeper.new) }
{
    if due {
        keeper.save(encoder, ())
    } else {
        Ok(())
    }
}

/// Tells of what is in the batch, where this many bytes of its replies were written.
fn tell<L: Listener>(listener: &mut L, batch: &Batch, written: usize)
    ensures { HeardEach L.hears batch.now.events.items written listener.old listener.new }
{
    let mut left = written;
    for event in batch.events.as_slice() {
        if let Some(event) = event {
            let reply = reply_length(&event.answer);
            listener.hear(event, reply <= left);
            left = left.saturating_sub(reply);
        }
    }
}

/// How many bytes the reply has, where there is one.
fn reply_length(answer: &Answered) -> usize
    ensures { result ≡ length (bytes_sent (response_of answer.now)) }
{
    match answer {
        Answered::New { code: _, reply } | Answered::Repeat { code: _, reply } => reply.len(),
        Answered::NotNext | Answered::Unnumbered | Answered::NotForMe | Answered::Dropped(_) => 0,
    }
}
