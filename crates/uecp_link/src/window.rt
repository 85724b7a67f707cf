//! A server over a reader and a writer with several messages outstanding: one try for all that wait. Source: profile.
ghost use Rattle.std.specs.Prelude.{◌≡◌, ◌≢◌, ◌+◌, ◌<◌, ◌≤◌, ◌++◌, [], length, take, OnOk, IfErr};
ghost use Rattle.std.specs.Io.KnownBytes.{Appends};
ghost use Rattle.uecp_encoder.specs.Metered.{failures_after};
ghost use Rattle.uecp_link.specs.Server.{waiting, heard};
ghost use Rattle.uecp_link.specs.Window.{Windows, Gathers, marks_in, window_sent};

use crate::driving::{DriveFault, READ_MAX};
use crate::heard::HeardWhat;
use crate::held_message::WINDOW_MAX;
use crate::pieces::rest_of;
use crate::server::Server;
use arrayvec::ArrayVec;
use std::io::{Read, Write};
use uecp_elements::Code;
use uecp_encoder::{Failed, Meter};

/// The most bytes that the frames of all messages which wait have together: each has at most 524.
const FRAMES_MAX: usize = 524 * WINDOW_MAX;

/// How a try for all messages that wait ended, where no fault ended it.
#[derive(Clone, Copy, Debug, PartialEq, Eq)]
pub enum Windowed {
    /// No message waits any more.
    Idle,
    /// A read failed or all turns were made, and messages wait.
    Spent,
}

/// One try for all messages that wait: writes their frames, the oldest first, and makes at most `turns` reads of at
/// most 64 bytes, until no message waits; a failed read ends the try. What was read with the last reply is heard to its
/// end. Each acknowledgement adds its counter and its code to `marks`, whichever way the try ends: each is of one
/// message that waits no more. Some message waits, see [`Server::is_idle`], and as many as wait find room in `marks`.
///
/// It never answers `TriesSpent`. Where it answers `Spent`, call it again, with the same `marks`.
///
/// ```
/// let windowed = send_window(&mut server, &mut Meter::new(input), &mut Meter::new(output), 16, &mut marks)?;
/// ```
pub fn send_window<R: Read, W: Write>(
    server: &mut Server,
    reader: &mut Meter<R>,
    writer: &mut Meter<W>,
    turns: u32,
    marks: &mut ArrayVec<(u8, Code), WINDOW_MAX>,
) -> Result<Windowed, DriveFault>
    requires busy { server.old.held ≢ [] }
    requires room { length marks.old.items + length (waiting server.old) ≤ 8 }
    ensures windows { Windows R.remaining W.contents server.old server.new reader.old reader.new writer.old writer.new
        marks.old.items marks.new.items turns result }
    ensures room { length marks.new.items + length (waiting server.new) ≡ length marks.old.items
        + length (waiting server.old) }
{
    if let Err(written) = write_window(server, writer) {
        return Err(DriveFault::WriteFailed { written });
    }
    gather(server, reader, turns, marks)
}

/// Writes the frames of all messages that wait, the oldest first, or says how many of their bytes were written.
fn write_window<W: Write>(server: &Server, writer: &mut Meter<W>) -> Result<(), u64>
    ensures ok { OnOk result (Appends (W.contents writer.old.device) (W.contents writer.new.device)
        (window_sent server.now)) }
    ensures err { IfErr result (λ w. (w < length (window_sent server.now))
        × Appends (W.contents writer.old.device) (W.contents writer.new.device) (take w (window_sent server.now))) }
    ensures failures { writer.new.failures ≡ failures_after result writer.old.failures }
{
    let frames = frames_of(server);
    match writer.write_whole(frames.as_slice()) {
        Ok(()) => Ok(()),
        Err(written) => Err(written as u64),
    }
}

/// The frames of all messages that wait, one after another, the oldest first.
fn frames_of(server: &Server) -> ArrayVec<u8, FRAMES_MAX>
    ensures { result.items ≡ window_sent server.now }
{
    let mut bytes = ArrayVec::new();
    for place in 0..server.waiting() {
        let Some(frame) = server.frame(place) else {
            unreachable!();
        };
        match bytes.try_extend_from_slice(frame) {
            Ok(()) => {}
            Err(_) => unreachable!(),
        }
    }
    bytes
}

/// Makes at most `turns` reads, until no message waits.
fn gather<R: Read>(
    server: &mut Server,
    reader: &mut Meter<R>,
    turns: u32,
    marks: &mut ArrayVec<(u8, Code), WINDOW_MAX>,
) -> Result<Windowed, DriveFault>
    requires busy { server.old.held ≢ [] }
    requires room { length marks.old.items + length (waiting server.old) ≤ 8 }
    ensures gathers { Gathers R.remaining server.old server.new reader.old reader.new marks.old.items marks.new.items
        turns result }
    ensures room { length marks.new.items + length (waiting server.new) ≡ length marks.old.items
        + length (waiting server.old) }
{
    let mut buffer = [0u8; READ_MAX];
    for _turn in 0..turns {
        match reader.read(&mut buffer) {
            Err(Failed) => return Ok(Windowed::Spent),
            Ok(0) => return Err(DriveFault::Closed),
            Ok(count) => {
                hear_marks(server, &buffer[..count], marks);
                if server.is_idle() {
                    return Ok(Windowed::Idle);
                }
            }
        }
    }
    Ok(Windowed::Spent)
}

/// Lets the server hear a piece, and adds the counter and the code of each message that it acknowledges.
fn hear_marks(server: &mut Server, piece: &[u8], marks: &mut ArrayVec<(u8, Code), WINDOW_MAX>)
    requires { length marks.old.items + length (waiting server.old) ≤ 8 }
    ensures state { server.new ≡ heard server.old piece.now }
    ensures marks { marks.new.items ≡ marks.old.items ++ marks_in server.old piece.now }
    ensures room { length marks.new.items + length (waiting server.new) ≡ length marks.old.items
        + length (waiting server.old) }
{
    let mut rest = piece;
    while !rest.is_empty() {
        let heard = server.hear(rest);
        rest = rest_of(rest, heard.used);
        if let HeardWhat::Acknowledged { counter, code } = heard.what {
            marks.push((counter, code));
        }
    }
}
