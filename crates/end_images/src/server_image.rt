//! The image of a server, written. Source: profile.
ghost use Rattle.std.specs.Prelude.{◌≡◌, ◌++◌, ◌∷◌, IsTrue, OnOk, OnErr, flat_map};
ghost use Rattle.uecp_text.specs.Written.{Adds};
ghost use Rattle.uecp_link.specs.Resuming.{held_of};
ghost use Rattle.end_images.specs.Images.{version, server_kind, server_content, server_image, held_bytes, flag};

use crate::image::{Image, append};
use crate::parts::{SERVER, VERSION};
use std::alloc::{AllocError, Global};
use uecp_link::{LentMessage, Server};

/// Adds the image of a server behind the bytes that are there: whether it has joined, how many messages of its input
/// were taken, its address, its last counter and the messages that it holds, and neither its counts nor what is open;
/// and their check. Where memory is refused, the bytes are as before.
///
/// ```
/// let mut image = Vec::new(alloc);
/// put_server(true, taken, &server, &mut image)?; // 01 53 ..
/// ```
pub fn put_server(
    joined: bool,
    taken: u64,
    server: &Server,
    bytes: &mut Vec<u8>,
) -> Result<(), AllocError>
    ensures added { OnOk result (bytes.new.items ≡ bytes.old.items ++ server_image joined taken server.now) }
    ensures unchanged { OnErr result (bytes.new.items ≡ bytes.old.items) }
{
    let image = image_of_server(*bytes.allocator(), joined, taken, server);
    append(&image, bytes)
}

/// The image of a server.
pub(crate) fn image_of_server(alloc: Global, joined: bool, taken: u64, server: &Server) -> Image
    ensures { IsTrue result.is_whole → result.bytes ≡ server_image joined taken server.now }
{
    let mut image = Image::new(alloc);
    add_server(joined, taken, server, &mut image);
    image.seal();
    image
}

/// Adds the image of a server up to its check.
fn add_server(joined: bool, taken: u64, server: &Server, image: &mut Image)
    ensures { Adds image.old image.new (version ∷ server_kind ∷ server_content joined taken server.now) }
{
    image.add(&[VERSION, SERVER]);
    image.add_address(server.address());
    image.add(&[flag(joined)]);
    image.add(&taken.to_be_bytes());
    image.add(&[server.last(), server.held_count() as u8]);
    add_held(server, image);
}

/// 01 for yes, 00 for no.
fn flag(is_set: bool) -> u8
    ensures { result ≡ flag is_set }
{
    u8::from(is_set)
}

/// Adds the messages that a server holds, the oldest first.
fn add_held(server: &Server, image: &mut Image)
    ensures { Adds image.old image.new (flat_map held_bytes server.now.held) }
{
    let mut place = 0;
    while let Some(held) = server.held(place) {
        add_one(&held, image);
        place += 1;
    }
}

/// Adds a message that is held: its mark, and its bytes behind their number.
fn add_one(held: &LentMessage<'_>, image: &mut Image)
    ensures { Adds image.old image.new (held_bytes (held_of held.now)) }
{
    image.add(&[flag(held.marked)]);
    image.add_counted(held.message.bytes());
}
