//! What a state file has, for looking at it. Source: profile.
ghost use Rattle.std.specs.Prelude.{IfOk};
ghost use Rattle.state_files.specs.Reading.{IsFoundIn};
ghost use Rattle.state_files.specs.Opening.{Finds, IsFoundOf};
ghost use Rattle.sqlite_image.specs.Kept.{bytes_of};

use crate::encoder_opening::VERSION;
use crate::fault::{StateFault, image_fault, keep_fault};
use crate::saved::let_go;
use end_images::{ImageFault, KeptServer, read_encoder, read_server};
use rds_store::RdsStore;
use sqlite_disk::Disk;
use sqlite_image::{OpenFiles, Opened, PathFault};
use std::alloc::Global;
use uecp_encoder::Encoder;
use uecp_link::Server;
use uecp_net::Progress;

/// What a state file has.
#[derive(Drop)]
pub enum Found {
    /// An encoder, as a start leaves it.
    Encoder(Encoder<RdsStore>),
    /// A server, as a start leaves it, and how far it has come.
    Server(Server, Progress),
    /// Neither yet.
    Empty,
}

/// Reads the end that a state file has. `Unreachable` for `NoFile` where there is no file. A database with nothing in
/// it gets our table, with no image.
///
/// ```
/// if let Found::Encoder(encoder) = read_state(&files, "encoder.db")? {
///     let store = encoder.target();
/// }
/// ```
pub fn read_state<D: Disk + Drop, F: OpenFiles<D>>(
    files: &F,
    path: &str,
) -> Result<Found, StateFault>
    ensures found { IfOk result (λ found. Finds F.OpenFiles.holds files.now path.now D D.Disk found) }
{
    if !files.is_there(path) {
        return Err(StateFault::Unreachable(PathFault::NoFile));
    }
    let Opened { kept, image } = match files.open_file(path, VERSION) {
        Ok(opened) => opened,
        Err(fault) => return Err(keep_fault(fault)),
    };
    let_go(kept);
    match found_of(files.alloc(), &image) {
        Ok(found) => Ok(found),
        Err(fault) => Err(fault),
    }
}

/// The end of an image, if there is one.
fn found_of(alloc: Global, image: &Option<Vec<u8>>) -> Result<Found, StateFault>
    ensures { IfOk result (IsFoundOf (bytes_of image.now)) }
{
    match image {
        None => Ok(Found::Empty),
        Some(image) => found_in(alloc, image.as_slice()),
    }
}

/// The end of an image.
pub(crate) fn found_in(alloc: Global, image: &[u8]) -> Result<Found, StateFault>
    ensures { IfOk result (IsFoundIn image.now) }
{
    match read_encoder(alloc, image) {
        Ok(encoder) => Ok(Found::Encoder(encoder)),
        Err(ImageFault::OtherEnd) => match read_server(alloc, image) {
            Ok(kept) => {
                let KeptServer {
                    joined,
                    taken,
                    server,
                } = kept;
                Ok(Found::Server(server, Progress { taken, joined }))
            }
            Err(fault) => Err(image_fault(fault)),
        },
        Err(fault) => Err(image_fault(fault)),
    }
}
