//! A server over a reader and a writer: a message is sent again until its reply comes. Source: profile.
ghost use Rattle.std.specs.Prelude.{◌≡◌, ◌<◌, ◌≤◌, [], length, take, IfOk, IfErr};
ghost use Rattle.std.specs.Io.KnownBytes.{Appends};
ghost use Rattle.uecp_encoder.specs.Metered.{failures_after};
ghost use Rattle.uecp_link.specs.Server.{submitted, waiting};
ghost use Rattle.uecp_link.specs.Driving.{Drives, IsFreed, StillWaits, frame_sent};
ghost use Rattle.uecp_link.specs.Listening.{Listens};

use crate::pieces::give_piece;
use crate::server::Server;
use std::io::{Read, Write};
use thiserror::Error;
use uecp_elements::Code;
use uecp_encoder::{Failed, Meter};
use uecp_frame::Message;

/// How many bytes one read takes at most: a reply has few, and what comes later is read by the next.
pub(crate) const READ_MAX: usize = 64;

/// The message was acknowledged.
#[derive(Clone, Copy, Debug, PartialEq, Eq)]
pub struct Driven {
    /// The code of the reply. Any code acknowledges, a refusal too.
    pub code: Code,
    /// How often the frame was sent in this call, from 1.
    pub tries: u32,
}

/// Why a message is still outstanding after a call.
#[derive(Clone, Copy, Debug, PartialEq, Eq, Error)]
pub enum DriveFault {
    /// A write failed, or took no byte.
    #[error("writing failed after {written} bytes")]
    WriteFailed {
        /// Bytes written in this call, whole copies of the frame and a part of one.
        written: u64,
    },
    /// The reader came to the end of its input.
    #[error("the input ended")]
    Closed,
    /// Every try that the caller allowed ended without the reply.
    #[error("all tries ended without an acknowledgement")]
    TriesSpent,
}

/// What one try heard.
#[derive(Clone, Copy, Debug)]
enum Listened {
    /// The reply.
    Acknowledged(Code),
    /// No reply: a read failed, or all turns were made.
    Nothing,
    /// The end of input.
    Ended,
}

/// Submits a message and sends it until it is acknowledged, as [`resend`] does. The server is idle; see
/// [`Server::is_idle`].
///
/// ```
/// let driven = drive(&mut server, &mut Meter::new(input), &mut Meter::new(output), &message, 3, 16)?;
/// ```
pub fn drive<R: Read, W: Write>(
    server: &mut Server,
    reader: &mut Meter<R>,
    writer: &mut Meter<W>,
    message: &Message,
    tries: u32,
    turns: u32,
) -> Result<Driven, DriveFault>
    requires { server.old.held ≡ [] }
    ensures drives { Drives R.remaining W.contents (submitted server.old message.now) server.new reader.old reader.new
        writer.old writer.new tries turns result }
    ensures idle { IfOk result (λ _. IsFreed (submitted server.old message.now) server.new) }
    ensures outstanding { IfErr result (λ _. StillWaits (submitted server.old message.now) server.new) }
{
    server.submit(message);
    resend(server, reader, writer, tries, turns)
}

/// Sends the outstanding message again until it is acknowledged. Each of at most `tries` tries writes its frame whole
/// and makes at most `turns` reads of at most 64 bytes; a failed read ends the try. After the acknowledgement the rest
/// of what was read with it is still heard. After each fault the message is outstanding. One message waits; see
/// [`Server::waiting`].
///
/// ```
/// server.line_lost();
/// let driven = resend(&mut server, &mut Meter::new(input), &mut Meter::new(output), 3, 16)?;
/// ```
pub fn resend<R: Read, W: Write>(
    server: &mut Server,
    reader: &mut Meter<R>,
    writer: &mut Meter<W>,
    tries: u32,
    turns: u32,
) -> Result<Driven, DriveFault>
    requires { length (waiting server.old) ≡ 1 }
    ensures drives { Drives R.remaining W.contents server.old server.new reader.old reader.new writer.old writer.new
        tries turns result }
    ensures idle { IfOk result (λ _. IsFreed server.old server.new) }
    ensures outstanding { IfErr result (λ _. StillWaits server.old server.new) }
{
    let mut written = 0u64;
    for before in 0..tries {
        match send_frame(server, writer) {
            Err(part) => {
                return Err(DriveFault::WriteFailed {
                    written: written + part as u64,
                });
            }
            Ok(whole) => written += whole as u64,
        }
        match listen(server, reader, turns) {
            Listened::Acknowledged(code) => {
                return Ok(Driven {
                    code,
                    tries: before + 1,
                });
            }
            Listened::Ended => return Err(DriveFault::Closed),
            Listened::Nothing => {}
        }
    }
    Err(DriveFault::TriesSpent)
}

/// Writes the frame of the outstanding message and answers its length, or says how many of its bytes were written.
fn send_frame<W: Write>(server: &Server, writer: &mut Meter<W>) -> Result<usize, usize>
    ensures ok { IfOk result (λ n. (n ≡ length (frame_sent server.now))
        × Appends (W.contents writer.old.device) (W.contents writer.new.device) (frame_sent server.now)) }
    ensures err { IfErr result (λ w. (w < length (frame_sent server.now))
        × Appends (W.contents writer.old.device) (W.contents writer.new.device) (take w (frame_sent server.now))) }
    ensures few { length (frame_sent server.now) ≤ 524 }
    ensures failures { writer.new.failures ≡ failures_after result writer.old.failures }
{
    let Some(frame) = server.outgoing() else {
        return Ok(0);
    };
    writer.write_whole(frame)?;
    Ok(frame.len())
}

/// Makes at most `turns` reads, until the reply comes.
fn listen<R: Read>(server: &mut Server, reader: &mut Meter<R>, turns: u32) -> Listened
    requires { length (waiting server.old) ≤ 1 }
    ensures { Listens R.remaining server.old server.new reader.old reader.new turns result }
{
    let mut buffer = [0u8; READ_MAX];
    for _turn in 0..turns {
        match reader.read(&mut buffer) {
            Err(Failed) => return Listened::Nothing,
            Ok(0) => return Listened::Ended,
            Ok(count) => {
                if let Some(code) = give_piece(server, &buffer[..count], None) {
                    return Listened::Acknowledged(code);
                }
            }
        }
    }
    Listened::Nothing
}
