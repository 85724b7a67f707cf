//! The image of a server, read. Source: profile.
ghost use Rattle.std.specs.Prelude.{◌≡◌, ◌↔◌, Some, IsTrue, IfOk, IfErr, IfSome};
ghost use Rattle.std.specs.Option.{option_map};
ghost use Rattle.end_images.specs.Images.{server_content, server_image};
ghost use Rattle.end_images.specs.Reading.{IsKeptServer, ServerRead, GivesBack, restarted_kept};
ghost use Rattle.end_images.specs.declared.server_parts.KeptServer.{KeptServer};
ghost use Rattle.end_images.specs.Parsing.{server_says, server_parts, kept_first_of, kept_first, kept_each};
ghost use Rattle.end_images.specs.Parsing.{kept_few, IsServerAsStarted, IsUnread};

use crate::fault::ImageFault;
use crate::parts::{ENCODER, SERVER, content_of, exact_of, split_off};
use crate::server_image::image_of_server;
use arrayvec::ArrayVec;
use std::alloc::Global;
use uecp_frame::Message;
use uecp_link::{KeptMessage, Server, WINDOW_MAX};

/// A server with what its caller keeps beside it.
#[derive(Drop)]
pub struct KeptServer {
    /// Whether it has joined.
    pub joined: bool,
    /// How many messages of its input were taken.
    pub taken: u64,
    /// The server.
    pub server: Server,
}

/// The parts of what a server's image says.
#[derive(Clone, Copy)]
pub(crate) struct ServerParts<'a> {
    /// The address.
    pub(crate) address: u16,
    /// 01 where it has joined, 00 where not.
    pub(crate) joined: u8,
    /// How many messages of its input were taken.
    pub(crate) taken: u64,
    /// The counter of the last message.
    pub(crate) last: u8,
    /// How many messages are held.
    pub(crate) count: u8,
    /// These messages, the oldest first.
    pub(crate) messages: &'a [u8],
}

/// Reads the image of a server, which is then as a start leaves it: nothing is counted or open.
///
/// Bytes that are the image of no such server are refused: `Newer` with their version where that is above 01, whatever
/// else they are; `OtherEnd` where they begin as an encoder's image and end with their check; else `Damaged`.
/// `OutOfMemory` where there was no memory.
///
/// ```
/// let kept = read_server(alloc, image.as_slice())?;
/// let server = kept.server;
/// ```
#[tactic(auto, unfolding(crate::specs::Images::sealed))]
pub fn read_server(alloc: Global, bytes: &[u8]) -> Result<KeptServer, ImageFault>
    ensures read { ServerRead bytes.now result }
    ensures complete { (k : KeptServer) → IsKeptServer k → bytes.now ≡ server_image k.joined k.taken k.server
        → GivesBack result (restarted_kept k) }
{
    let content = content_of(bytes, SERVER, ENCODER)?;
    match server_in(content) {
        None => Err(ImageFault::Damaged),
        Some(kept) => checked(alloc, kept, bytes),
    }
}

/// The server, where these bytes are its image.
fn checked(alloc: Global, kept: KeptServer, bytes: &[u8]) -> Result<KeptServer, ImageFault>
    ensures same { IfOk result (λ k. k ≡ kept) }
    ensures image { IfOk result (λ k. bytes.now ≡ server_image kept.joined kept.taken kept.server) }
    ensures fault { IfErr result IsUnread }
    ensures complete { bytes.now ≡ server_image kept.joined kept.taken kept.server → GivesBack result kept }
{
    let image = image_of_server(alloc, kept.joined, kept.taken, &kept.server);
    if image.whole()? == bytes {
        Ok(kept)
    } else {
        Err(ImageFault::Damaged)
    }
}

/// The server that this content says.
fn server_in(content: &[u8]) -> Option<KeptServer>
    ensures started { IfSome result IsServerAsStarted }
    ensures complete { (k : KeptServer) → IsKeptServer k → content.now ≡ server_content k.joined k.taken k.server
        → result ≡ Some (restarted_kept k) }
{
    let parts = server_parts(content)?;
    let address = exact_of(parts.address)?;
    if parts.joined > 1 {
        return None;
    }
    let held = kept_few(parts.count, parts.messages)?;
    let server = Server::resumed(address, parts.last, held.as_slice())?;
    prove!(server.last() == parts.last);
    Some(KeptServer {
        joined: parts.joined == 1,
        taken: parts.taken,
        server,
    })
}

/// The parts of a server's content. None where they are not all there.
fn server_parts(content: &[u8]) -> Option<ServerParts<'_>>
    ensures { option_map server_says result ≡ server_parts content.now }
{
    let [
        high,
        low,
        joined,
        a,
        b,
        c,
        d,
        e,
        f,
        g,
        h,
        last,
        count,
        messages @ ..,
    ] = content
    else {
        return None;
    };
    Some(ServerParts {
        address: u16::from_be_bytes([*high, *low]),
        joined: *joined,
        taken: u64::from_be_bytes([*a, *b, *c, *d, *e, *f, *g, *h]),
        last: *last,
        count: *count,
        messages,
    })
}

/// So many messages, at most eight. None where they are more, or not all there.
fn kept_few(count: u8, messages: &[u8]) -> Option<ArrayVec<KeptMessage, WINDOW_MAX>>
    ensures { option_map (λ held. held.items) result ≡ kept_few count messages.now }
{
    if usize::from(count) > WINDOW_MAX {
        return None;
    }
    let mut held = ArrayVec::new();
    let mut rest = messages;
    for place in 0..count {
        let (message, more) = kept_first(rest)?;
        held.push(message);
        rest = more;
    }
    Some(held)
}

/// The first message, and the bytes behind it. None where it is not all there, or its mark is neither 00 nor 01.
#[tactic(auto, unfolding(crate::specs::Parsing::kept_first))]
fn kept_first(bytes: &[u8]) -> Option<(KeptMessage, &[u8])>
    ensures { option_map kept_first_of result ≡ kept_first bytes.now }
{
    let [mark, count, rest @ ..] = bytes else {
        return None;
    };
    if *mark > 1 {
        return None;
    }
    let (bytes, rest) = split_off(rest, usize::from(*count))?;
    let Some(message) = Message::from_bytes(bytes) else {
        unreachable!();
    };
    let marked = *mark == 1;
    Some((KeptMessage { message, marked }, rest))
}
