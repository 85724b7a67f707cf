//! A server that knows nothing of an encoder joins it, over a reader and a writer: by a pass of empty messages. Source:
//! profile.
ghost use Rattle.std.specs.Prelude.{◌≡◌, ◌<◌, ◌≤◌, [], length, slice_get, take, Some, OnOk, IfErr};
ghost use Rattle.std.specs.Io.KnownBytes.{Appends};
ghost use Rattle.uecp_frame.specs.Findings.{Closed};
ghost use Rattle.uecp_encoder.specs.Metered.{failures_after};
ghost use Rattle.uecp_link.specs.Server.{heard};
ghost use Rattle.uecp_link.specs.Joining.{counters_behind, sent_behind, reply_counters, goes_on_behind, IsStillNew};
ghost use Rattle.uecp_link.specs.Joining.{MakesPass, ReadsReplies, seen_with, replies_with, replies_after, no_replies};

use crate::counters::COUNTER_MAX;
use crate::driving::{DriveFault, READ_MAX};
use crate::pieces::rest_of;
use crate::server::Server;
use std::io::{Read, Write};
use uecp_encoder::{Failed, Meter};
use uecp_frame::{Address, Frame, FrameBytes, Message, encode};

/// The oldest counter whose reply an encoder still keeps after a pass: FF and the 126 before it are newer or this. SPB
/// 490's sequence counter, from memory; profile.
const OLDEST_KEPT: u8 = 0x81;

/// How a pass ended, where no fault ended it.
#[derive(Clone, Copy, Debug, PartialEq, Eq)]
pub enum Joining {
    /// The reply to 81 was read and, after it, the reply to FF. On a connection that began with this pass, whole or a
    /// part, FF is then the encoder's newest counter, the next is 01, and nothing of the pass or of its replies is
    /// still to come; see
    /// [`joined_over_a_line`](crate::laws::joined_over_a_line).
    Joined,
    /// A read failed or all turns were made, and these two replies were not read. The encoder may have any newest
    /// counter.
    Spent,
}

/// Which of the two replies were read.
#[derive(Clone, Copy, Debug, PartialEq, Eq)]
enum Seen {
    /// Not the one to 81.
    Neither,
    /// The one to 81, and after it none to FF.
    First,
    /// The one to 81, and after it one to FF.
    Both,
}

/// What was read of the replies to a pass.
#[derive(Clone, Copy, Debug, PartialEq, Eq)]
struct Replies {
    /// Which of the two replies were read.
    seen: Seen,
    /// The highest counter that was replied to, or 0 where none was.
    highest: u8,
}

/// Brings the encoder to the end of its counters, so that a server which knows nothing of the counters that the encoder
/// has kept may begin with 01. The server forgets its last counter and its open part, as a new connection begins; its
/// counts stay. It writes one pass, an empty message under each of 01, 02 .. FF, and makes at most `turns` reads of at
/// most 64 bytes, until the replies that were read hold one to 81 and, after it, one to FF, whatever their codes; a
/// failed read ends them. What was read with the last of these replies is heard to its end. The server is idle, see
/// [`Server::is_idle`], and stays so: each reply counts as stray, since no message waits for it.
///
/// A pass wants a connection of its own: by its bytes no reply tells which pass it belongs to. After `Spent` and after
/// each fault begin a new connection, and call it again over that. `behind`, 00 to FE, is the counter behind which the
/// pass goes on: 00 for a whole one, in which each frame comes once. It is left as that behind which the next may go
/// on, the highest that was replied to; 00 where no reply was read. A part sends the frames up to FE twice, as
/// something was lost before; behind 81 or a later counter it sends 81 once more before FF, so that what joins is
/// always read on one connection, and what came to the encoder between two parts does no harm. It takes no memory.
///
/// Errors: `WriteFailed` where a write failed or took no byte, with how many bytes of the pass were written; what the
/// reader brings is read then too, so that the next goes on behind it. `Closed` where the reader came to its end before
/// both replies. It never answers `TriesSpent`. Source: profile.
///
/// ```
/// let mut behind = 0;
/// let joining = join(&mut server, &mut Meter::new(input), &mut Meter::new(output), 4096, &mut behind)?;
/// ```
pub fn join<R: Read, W: Write>(
    server: &mut Server,
    reader: &mut Meter<R>,
    writer: &mut Meter<W>,
    turns: u32,
    behind: &mut u8,
) -> Result<Joining, DriveFault>
    requires idle { server.old.held ≡ [] }
    requires part { behind.old ≤ 0xFE }
    ensures passes { MakesPass R.remaining W.contents behind.old behind.new server.old server.new reader.old reader.new
        writer.old writer.new turns result }
    ensures part { behind.new ≤ 0xFE }
    ensures still_new { IsStillNew server.old server.new }
    ensures idle { server.new.held ≡ [] }
{
    server.begin_anew();
    let sent = write_pass(server.address(), *behind, writer);
    let mut replies = Replies {
        seen: Seen::Neither,
        highest: 0,
    };
    let ended = read_replies(server, reader, turns, &mut replies);
    *behind = goes_on_behind(*behind, replies.highest);
    match sent {
        Ok(()) => ended,
        Err(written) => Err(DriveFault::WriteFailed { written }),
    }
}

/// Behind which counter the next part of a pass goes on, where one behind this counter got replies, the highest of them
/// to this one.
fn goes_on_behind(behind: u8, highest: u8) -> u8
    requires { behind ≤ 0xFE }
    ensures value { result ≡ goes_on_behind behind highest }
    ensures part { result ≤ 0xFE }
{
    if highest == 0 || highest == COUNTER_MAX {
        return 0;
    }
    behind.max(highest)
}

/// How many frames a pass has that goes on behind this counter.
fn count_behind(behind: u8) -> u16
    requires { behind ≤ 0xFE }
    ensures { result ≡ length (counters_behind behind) }
{
    if behind == 0 {
        return u16::from(COUNTER_MAX);
    }
    let above = u16::from(COUNTER_MAX - 1 - behind);
    if behind < OLDEST_KEPT {
        2 * above + 1
    } else {
        2 * above + 2
    }
}

/// The counter of one of these frames.
fn counter_behind(behind: u8, place: u16) -> u8
    requires part { behind ≤ 0xFE }
    requires there { place < length (counters_behind behind) }
    ensures { slice_get (counters_behind behind) place ≡ Some result }
{
    if behind == 0 {
        return place as u8 + 1;
    }
    let above = u16::from(COUNTER_MAX - 1 - behind);
    if place < 2 * above {
        return behind + 1 + (place / 2) as u8;
    }
    if place + 1 == count_behind(behind) {
        COUNTER_MAX
    } else {
        OLDEST_KEPT
    }
}

/// Writes a pass that goes on behind this counter to the encoder at this address, or says how many of its bytes were
/// written.
fn write_pass<W: Write>(address: Address, behind: u8, writer: &mut Meter<W>) -> Result<(), u64>
    requires { behind ≤ 0xFE }
    ensures ok { OnOk result (Appends (W.contents writer.old.device) (W.contents writer.new.device)
        (sent_behind address behind)) }
    ensures err { IfErr result (λ w. (w < length (sent_behind address behind))
        × Appends (W.contents writer.old.device) (W.contents writer.new.device) (take w (sent_behind address behind))) }
    ensures failures { writer.new.failures ≡ failures_after result writer.old.failures }
{
    let mut written = 0u64;
    let mut bytes = FrameBytes::new();
    for place in 0..count_behind(behind) {
        let frame = Frame {
            address,
            counter: counter_behind(behind, place),
            message: Message::new(),
        };
        encode(&frame, &mut bytes);
        if let Err(part) = writer.write_whole(bytes.as_slice()) {
            return Err(written + part as u64);
        }
        written += bytes.len() as u64;
    }
    Ok(())
}

/// Makes at most `turns` reads, until both replies were read.
fn read_replies<R: Read>(
    server: &mut Server,
    reader: &mut Meter<R>,
    turns: u32,
    replies: &mut Replies,
) -> Result<Joining, DriveFault>
    requires idle { server.old.held ≡ [] }
    requires closed { server.old.part ≡ Closed }
    requires none { replies.old ≡ no_replies }
    ensures { ReadsReplies R.remaining server.old server.new reader.old reader.new turns replies.new result }
{
    let mut buffer = [0u8; READ_MAX];
    for _turn in 0..turns {
        match reader.read(&mut buffer) {
            Err(Failed) => return Ok(Joining::Spent),
            Ok(0) => return Err(DriveFault::Closed),
            Ok(count) => {
                *replies = hear_replies(server, &buffer[..count], *replies);
                if replies.seen == Seen::Both {
                    return Ok(Joining::Joined);
                }
            }
        }
    }
    Ok(Joining::Spent)
}

/// Lets the server hear a piece, and answers what was read of the replies with it.
fn hear_replies(server: &mut Server, piece: &[u8], before: Replies) -> Replies
    requires { server.old.held ≡ [] }
    ensures state { server.new ≡ heard server.old piece.now }
    ensures replies { result ≡ replies_after before (reply_counters server.old.address server.old.part piece.now) }
{
    let mut replies = before;
    let mut rest = piece;
    while !rest.is_empty() {
        let (used, counter) = server.hear_reply(rest);
        rest = rest_of(rest, used);
        if let Some(counter) = counter {
            replies = replies_with(replies, counter);
        }
    }
    replies
}

/// What was read of the replies, with one to this counter.
fn replies_with(replies: Replies, counter: u8) -> Replies
    ensures { result ≡ replies_with replies counter }
{
    Replies {
        seen: seen_with(replies.seen, counter),
        highest: replies.highest.max(counter),
    }
}

/// Which of the two replies were read, with one to this counter.
fn seen_with(seen: Seen, counter: u8) -> Seen
    ensures { result ≡ seen_with seen counter }
{
    match (seen, counter) {
        (Seen::Neither, OLDEST_KEPT) => Seen::First,
        (Seen::First, COUNTER_MAX) => Seen::Both,
        (seen, _) => seen,
    }
}
