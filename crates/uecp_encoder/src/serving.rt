//! The encoder over a reader and a writer. Source: profile.
ghost use Rattle.std.specs.Prelude.{◌≡◌, ◌<◌, ◌≤◌, ◌+◌, ◌*◌, ◌^◌, ℕ, List, length, IfOk};
ghost use Rattle.std.specs.Io.KnownBytes.{Appends, Consumes, ReadConsumes};
ghost use Rattle.uecp_encoder.specs.Metered.{counted, failures_after, empty_after};
ghost use Rattle.uecp_encoder.specs.Serving.{Serves, ReadsMade, read_failures, empty_reads, write_failures};
ghost use Rattle.uecp_encoder.specs.Keeping.{Settled};
ghost use Rattle.uecp_encoder.specs.ServingWith.{ServesKept, KeptReadsMade, kept_read_failures, kept_empty_reads};
ghost use Rattle.uecp_encoder.specs.ServingWith.{kept_write_failures, StaysSettled, IsSaveFailed};
ghost use Rattle.uecp_encoder.specs.Telling.{HasHeard};
ghost use Rattle.uecp_encoder.specs.Batches.{written_at, fault_after};

use crate::answering::{Sent, Stop, both, take_piece};
use crate::batch::Batch;
use crate::encoder::Encoder;
use crate::keep::{BatchLimits, Keep, NotSaved, SavedEncoder};
use crate::listener::{Listener, Unheard};
use crate::meter::{Failed, Meter};
use crate::target::Target;
use std::io::{Read, Write};
use thiserror::Error;

/// Room for what one read takes.
const ROOM: usize = 4192;

/// What a call did by the end of its input.
#[derive(Clone, Copy, Debug, PartialEq, Eq)]
pub struct Served {
    /// Bytes read.
    pub read: u64,
    /// Replies written.
    pub replies: u64,
}

/// Why a call ended before its input did.
#[derive(Clone, Copy, Debug, PartialEq, Eq, Error)]
pub enum ServeFault {
    /// A read failed. All replies to what was read before are written.
    #[error("reading failed")]
    ReadFailed,
    /// A write failed, or took no byte.
    #[error("writing failed after {written} bytes")]
    WriteFailed {
        /// Bytes written in this call.
        written: u64,
    },
    /// As many reads were made as the caller allowed. All replies are written.
    #[error("all reads that were allowed are made")]
    TurnsSpent,
}

/// Why a call ended before its input did.
#[derive(Clone, Copy, Debug, PartialEq, Eq)]
pub enum KeptFault {
    /// As [`serve`] says. What is kept is what the encoder is.
    Serve(ServeFault),
    /// The encoder could not be saved. It has applied messages that may not be kept, and has not answered them: save it
    /// before it serves again, or let it go and go on from what is kept.
    StateFailed,
}

/// Makes at most `turns` reads of at most 512 bytes, and writes each reply before the next byte is fed.
///
/// ```
/// let served = serve(&mut encoder, &mut Meter::new(input), &mut Meter::new(output), 16)?;
/// ```
pub fn serve<T: Target, R: Read, W: Write>(
    encoder: &mut Encoder<T>,
    reader: &mut Meter<R>,
    writer: &mut Meter<W>,
    turns: u32,
) -> Result<Served, ServeFault>
    ensures bytes { (s : List ℕ) × (written : List ℕ)
        × Consumes (R.remaining reader.old.device) (R.remaining reader.new.device) s
        × Appends (W.contents writer.old.device) (W.contents writer.new.device) written
        × Serves T.step encoder.old encoder.new s written (R.remaining reader.new.device) turns result
        × (length s ≤ 512 * turns) }
    ensures reads { (n : ℕ) × ReadsMade result turns n
        × (reader.old.calls + n < 2 ^ 128 → reader.new.calls ≡ reader.old.calls + n) }
    ensures read_failures { reader.new.failures ≡ read_failures result reader.old.failures }
    ensures empty_reads { reader.new.empty ≡ empty_reads result reader.old.empty }
    ensures write_failures { writer.new.failures ≡ write_failures result writer.old.failures }
{
    match serve_with(encoder, &mut NotSaved, reader, writer, &mut Unheard, turns) {
        Ok(served) => Ok(served),
        Err(KeptFault::Serve(fault)) => Err(fault),
        Err(KeptFault::StateFailed) => unreachable!(),
    }
}

/// Makes at most `turns` reads, of at most as many bytes as the keeper says, and takes the bytes of each in batches, of
/// as many things found at most as the keeper says. What a batch found is applied; then the encoder is saved, where one
/// of the replies is fresh; then the replies are written; and then the listener is told what was found and what was
/// answered. A batch with no fresh reply saves nothing.
///
/// Where the save fails none of the batch is replied to or told. Where a write fails the listener is told which replies
/// were written whole, and which were not.
///
/// What is kept at the start is to be this encoder: a new one is saved first.
///
/// ```
/// let served = serve_with(
///     &mut encoder, &mut keeper, &mut Meter::new(input), &mut Meter::new(output), &mut listener, 16,
/// )?;
/// ```
pub fn serve_with<
    T: Target,
    K: Keep<SavedEncoder<T>> + BatchLimits,
    R: Read,
    W: Write,
    L: Listener,
>(
    encoder: &mut Encoder<T>,
    keeper: &mut K,
    reader: &mut Meter<R>,
    writer: &mut Meter<W>,
    listener: &mut L,
    turns: u32,
) -> Result<Served, KeptFault>
    // What was read, by how many reads, what was written, what a crash may leave, and what the listener heard.
    ensures bytes { (s : List ℕ) × (written : List ℕ) × (n : ℕ)
        × Consumes (R.remaining reader.old.device) (R.remaining reader.new.device) s
        × Appends (W.contents writer.old.device) (W.contents writer.new.device) written
        × ServesKept K.TOGETHER_MAX K.READ_MAX T.step K.leaves K.is_clean K.saves K.fails encoder.old encoder.new
        keeper.old keeper.new s written (R.remaining reader.new.device) turns n result
        × HasHeard K.TOGETHER_MAX L.hears T.step encoder.old encoder.new listener.old listener.new s written result
        × KeptReadsMade result turns n
        × (reader.old.calls + n < 2 ^ 128 → reader.new.calls ≡ reader.old.calls + n)
        × (length s ≤ K.READ_MAX * turns) }
    // From here the next call goes on.
    ensures settled { Settled (K.leaves keeper.old) encoder.old → K.is_clean keeper.new
        → StaysSettled (K.leaves keeper.new) encoder.new result }
    ensures clean { K.is_clean keeper.new → K.is_clean keeper.old }
    ensures save_failed { IsSaveFailed K.fails encoder.new keeper.new result }
    ensures read_failures { reader.new.failures ≡ kept_read_failures result reader.old.failures }
    ensures empty_reads { reader.new.empty ≡ kept_empty_reads result reader.old.empty }
    ensures write_failures { writer.new.failures ≡ kept_write_failures result writer.old.failures }
{
    let mut buffer = [0u8; ROOM];
    let mut batch = Batch::new();
    let mut read = 0u64;
    let mut sent = Sent {
        replies: 0,
        bytes: 0,
    };
    for _turn in 0..turns {
        match read_front(reader, K::READ_MAX, &mut buffer) {
            Err(Failed) => return Err(KeptFault::Serve(ServeFault::ReadFailed)),
            Ok(0) => {
                return Ok(Served {
                    read,
                    replies: sent.replies,
                });
            }
            Ok(count) => {
                let piece = &buffer[..count];
                match take_piece(encoder, keeper, writer, listener, &mut batch, piece) {
                    Err(stop) => return Err(fault(sent.bytes, stop)),
                    Ok(more) => {
                        read += count as u64;
                        sent = both(sent, more);
                    }
                }
            }
        }
    }
    Err(KeptFault::Serve(ServeFault::TurnsSpent))
}

/// Makes one read, of at most so many bytes, into the front of the buffer.
fn read_front<R: Read>(
    reader: &mut Meter<R>,
    most: usize,
    buffer: &mut [u8; ROOM],
) -> Result<usize, Failed>
    requires some { 0 < most }
    requires room { most ≤ 4192 }
    ensures within { IfOk result (λ n. n ≤ most) }
    ensures bytes { ReadConsumes (R.remaining reader.old.device) (R.remaining reader.new.device) result buffer.new }
    ensures calls { reader.new.calls ≡ counted reader.old.calls }
    ensures failures { reader.new.failures ≡ failures_after result reader.old.failures }
    ensures empty { reader.new.empty ≡ empty_after result reader.old.empty }
{
    reader.read(&mut buffer[..most])
}

/// The fault of a call that wrote so many bytes before it stopped.
fn fault(bytes: u64, stop: Stop) -> KeptFault
    requires { bytes + written_at stop < 2 ^ 64 }
    ensures { result ≡ fault_after bytes stop }
{
    match stop {
        Stop::Write(written) => KeptFault::Serve(ServeFault::WriteFailed {
            written: bytes + written,
        }),
        Stop::State => KeptFault::StateFailed,
    }
}
