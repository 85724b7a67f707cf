//! A server's state in a file. Source: profile.
ghost use Rattle.std.specs.Prelude.{◌<◌, ◌^◌};
ghost use Rattle.uecp_link.specs.Resuming.{IsServer};
ghost use Rattle.state_files.specs.Servers.{IsServerSoFar};

use crate::image::Image;
use crate::saved::Saved;
use end_images::laws::server_again;
use end_images::put_server;
use std::alloc::AllocError;
use uecp_link::Server;
use uecp_net::{Progress, SavedServer};

/// A server's state in a file.
pub type ServerFile<S> = Saved<S, SavedServer>;

impl Image for SavedServer {
    ghost use Rattle.state_files.specs.Servers.{image_of, IsServerSoFar};

    ghost image = { image_of };

    ghost is_end = { IsServerSoFar };

    fn put(server: &Server, progress: Progress, bytes: &mut Vec<u8>) -> Result<(), AllocError> {
        put_server(progress.joined, progress.taken, server, bytes)
    }

    fn tells(server: &Server, progress: Progress) {
        server_again();
        let _last = is_server(server);
    }
}

/// The last counter; that each server is one.
fn is_server(server: &Server) -> u8
    ensures { IsServer server.now }
{
    server.last()
}
