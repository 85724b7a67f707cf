//! The image of a server, and what its program keeps beside it. Source: profile.
ghost use Rattle.std.specs.Prelude.{◌≡◌, Some, None};
ghost use Rattle.end_images.specs.declared.server_parts.KeptServer.{KeptServer};
ghost use Rattle.end_images.specs.Images.{server_image};
ghost use Rattle.end_images.specs.Reading.{IsKeptServer};
ghost use Rattle.uecp_link.specs.Server.{restarted_server};
ghost use Rattle.c_values.specs.declared.object.Object.TheVariants as object;
ghost use Rattle.c_values.specs.Kinds.{server_of};
ghost use Rattle.c_values.specs.Calls.{Calls};
ghost use Rattle.uecp_objects_c.specs.Images.{Writes, ReadsServer, IsBack};

use crate::images::faults::status_of;
use crate::images::image_buffer::tell;
use c_values::status::{DONE, EMPTY, NO_MEMORY, OCCUPIED, OTHER_KIND};
use c_values::{Handle, Object, put, take};
use end_images::{KeptServer, put_server, read_server};
use std::alloc::Global;
use uecp_link::Server;

/// Tells the image of a server.
fn write(
    alloc: Global,
    has_joined: bool,
    taken: u64,
    server: &Server,
    out: &mut [u8],
    length: &mut usize,
) -> u8
    ensures { Writes (server_image has_joined taken server.now) result length.old length.new out.old out.new }
{
    let mut image = Vec::new(alloc);
    match put_server(has_joined, taken, server, &mut image) {
        Ok(()) => tell(image.as_slice(), out, length),
        Err(_) => NO_MEMORY,
    }
}

/// Tells in `length` how many bytes the image of a handle's server has, with whether it has joined and how many
/// messages of its input were taken, and puts it at the start of `out`. Where `out` is shorter than that, nothing is
/// written there. The server stays as it was.
#[unsafe(no_mangle)]
pub extern "C" fn uecp_server_image(
    alloc: Global,
    handle: &mut Handle,
    has_joined: bool,
    taken: u64,
    out: &mut [u8],
    length: &mut usize,
) -> u8
    ensures told { Calls (server_of handle.old.object.value) result
        ((length.new ≡ length.old) × (out.new ≡ out.old))
        (λ s. Writes (server_image has_joined taken s) result length.old length.new out.old out.new) }
    ensures stays { handle.new.object.value ≡ handle.old.object.value }
{
    let Some(object) = take(alloc, handle) else {
        return EMPTY;
    };
    let status = match &*object {
        Object::Server(server) => write(alloc, has_joined, taken, server, out, length),
        _ => OTHER_KIND,
    };
    put(handle, object);
    status
}

/// Puts the server that these bytes are the image of into a handle that has nothing, as a start leaves it: nothing is
/// counted or open; and tells what was kept beside it.
#[unsafe(no_mangle)]
pub extern "C" fn uecp_server_of_image(
    alloc: Global,
    handle: &mut Handle,
    bytes: &[u8],
    has_joined: &mut bool,
    taken: &mut u64,
) -> u8
    ensures read { ReadsServer handle.old.object.value handle.new.object.value bytes.now has_joined.old has_joined.new
        taken.old taken.new result }
    ensures complete { handle.old.object.value ≡ None → (k : KeptServer) → IsKeptServer k
        → bytes.now ≡ server_image k.joined k.taken k.server
        → IsBack handle.new.object.value result (object.Server (restarted_server k.server)) }
{
    if let Some(object) = take(alloc, handle) {
        put(handle, object);
        return OCCUPIED;
    }
    let KeptServer {
        joined,
        taken: count,
        server,
    } = match read_server(alloc, bytes) {
        Ok(kept) => kept,
        Err(fault) => return status_of(fault),
    };
    match Box::new(alloc, Object::Server(server)) {
        Ok(object) => {
            put(handle, object);
            *has_joined = joined;
            *taken = count;
            DONE
        }
        Err(_) => NO_MEMORY,
    }
}
