//! A server that goes on from its file, or a new one in a new file. Source: profile.
ghost use Rattle.std.specs.Prelude.{◌≡◌, ◌⊎◌, ℕ, List, Option, Some, None, IsTrue, IfOk, IfErr};
ghost use Rattle.sqlite.specs.Files.{over_files};
ghost use Rattle.uecp_frame.specs.Address.{is_exact};
ghost use Rattle.uecp_link.specs.Server.{idle_at};
ghost use Rattle.sqlite.specs.Tree.{Trees};
ghost use Rattle.sqlite_image.specs.Kept.{Holds, bytes_of};
ghost use Rattle.sqlite_image.specs.Keeper.{IsClean, MayLeave, Keeps};
ghost use Rattle.end_images.specs.Images.{server_image};
ghost use Rattle.end_images.specs.Reading.{IsKeptServer, restarted_kept};
ghost use Rattle.uecp_net.specs.Keeping.{IsKept};
ghost use Rattle.state_files.specs.Faults.{IsOfFile};
ghost use Rattle.state_files.specs.Servers.{LeavesServer, IsOther, IsRefused, image_of, begins};
ghost use Rattle.state_files.specs.Opening.{GivesServer};

use crate::encoder_opening::VERSION;
use crate::fault::{StateFault, image_fault, keep_fault};
use crate::saved::{Saved, let_go, settled};
use crate::server_file::ServerFile;
use end_images::{KeptServer, read_server};
use sqlite::{Alter, FileStore};
use sqlite_disk::Disk;
use sqlite_image::{Kept, OpenFiles, Opened};
use std::alloc::Global;
use uecp_frame::Address;
use uecp_link::Server;
use uecp_net::Progress;

/// Opens the file of a server, or makes it. A file with an image gives the server that goes on from it, with how far it
/// has come; a new file a new server, which has taken nothing and not joined, and whose image is saved at once.
///
/// Refused is a file that is not ours, is of another version or in use, and the image of another end or of another
/// address, in this order. What is refused is not overwritten. Each server that is given was saved, also one that goes
/// on, so a disk with no room for it is found here.
///
/// The caller knows that the address is one encoder's own, as for [`Server::new`].
///
/// ```
/// let (mut server, mut progress, mut file) = open_server(&files, "server.db", address)?;
/// ```
pub fn open_server<D: Disk + Drop, F: OpenFiles<D>>(
    files: &F,
    path: &str,
    address: Address,
) -> Result<(Server, Progress, ServerFile<FileStore<D>>), StateFault>
    requires { IsTrue (is_exact address) }
    ensures given { IfOk result (λ r. GivesServer F.OpenFiles.holds files.now path.now r.0 r.1 r.2) }
    ensures settled { IfOk result (λ r. IsClean over_files r.2 → IsKept (LeavesServer over_files r.2) r.1 r.0) }
    ensures described { IfOk result (λ r. r.0.address ≡ address) }
{
    match opened_server(files, path, address) {
        Err(fault) => Err(fault),
        Ok((server, progress, mut saved)) => match saved.put(&server, progress) {
            Ok(()) => {
                settled(&server, progress, &saved);
                Ok((server, progress, saved))
            }
            Err(fault) => {
                let_go(saved.into_kept());
                Err(keep_fault(fault))
            }
        },
    }
}

/// The same, with no further save of a server that was there.
fn opened_server<D: Disk + Drop, F: OpenFiles<D>>(
    files: &F,
    path: &str,
    address: Address,
) -> Result<(Server, Progress, ServerFile<FileStore<D>>), StateFault>
    requires { IsTrue (is_exact address) }
    ensures given { IfOk result (λ r. GivesServer F.OpenFiles.holds files.now path.now r.0 r.1 r.2) }
    ensures described { IfOk result (λ r. r.0.address ≡ address) }
{
    match files.open_file(path, VERSION) {
        Err(fault) => Err(keep_fault(fault)),
        Ok(opened) => match server_over(opened, files.alloc(), address) {
            Ok(opened) => Ok(opened),
            Err((fault, kept)) => {
                let_go(kept);
                Err(fault)
            }
        },
    }
}

/// As [`open_server`], over what was opened already, in whatever store. What is refused comes back with the fault:
/// where it has an image, as it was; where a new server could not be saved, a crash leaves none, or that server.
///
/// ```
/// match server_over(opened, alloc, address) {
///     Ok((server, progress, file)) => goes_on(server, progress, file),
///     Err((fault, kept)) => says(fault, kept),
/// }
/// ```
pub fn server_over<S: Alter + Drop>(
    opened: Opened<S>,
    alloc: Global,
    address: Address,
) -> Result<(Server, Progress, ServerFile<S>), (StateFault, Kept<S>)>
    requires exact { IsTrue (is_exact address) }
    requires kept { IsClean S.Store opened.kept → Keeps S.Store opened.kept (bytes_of opened.image) }
    ensures kept { IfOk result (λ r. IsClean S.Store r.2 → Keeps S.Store r.2 (Some (image_of r.1 r.0))) }
    ensures settled { IfOk result (λ r. IsClean S.Store r.2 → IsKept (LeavesServer S.Store r.2) r.1 r.0) }
    ensures described { IfOk result (λ r. r.0.address ≡ address) }
    ensures found { (k : KeptServer) → IsKeptServer k
        → bytes_of opened.image ≡ Some (server_image k.joined k.taken k.server)
        → IfOk result (λ r. record { joined = r.1.joined; taken = r.1.taken; server = r.0 } ≡ restarted_kept k) }
    ensures new { bytes_of opened.image ≡ None → IfOk result (λ r. (r.0 ≡ idle_at address) × (r.1 ≡ begins)) }
    ensures same { (bytes : List ℕ) → bytes_of opened.image ≡ Some bytes → IfOk result (λ r. r.2 ≡ opened.kept) }
    ensures clean { IfOk result (λ r. IsClean S.Store r.2 → IsClean S.Store opened.kept) }
    ensures refused { IfErr result (λ e. IsRefused (bytes_of opened.image) address e.0) }
    ensures spared { (bytes : List ℕ) → bytes_of opened.image ≡ Some bytes → IfErr result (λ e. e.1 ≡ opened.kept) }
    ensures either { IfErr result (λ e. IsClean S.Store e.1 → (rows : Trees) → MayLeave S.Store e.1 rows
        → MayLeave S.Store opened.kept rows
        ⊎ Holds opened.kept.version (Some (image_of begins (idle_at address))) rows) }
{
    match server_of(opened, alloc, address) {
        Err(refused) => Err(refused),
        Ok((server, progress, file)) => {
            settled(&server, progress, &file);
            Ok((server, progress, file))
        }
    }
}

/// The server that goes on from what an open found, or a new one, with its file.
fn server_of<S: Alter + Drop>(
    opened: Opened<S>,
    alloc: Global,
    address: Address,
) -> Result<(Server, Progress, ServerFile<S>), (StateFault, Kept<S>)>
    requires exact { IsTrue (is_exact address) }
    requires kept { IsClean S.Store opened.kept → Keeps S.Store opened.kept (bytes_of opened.image) }
    ensures kept { IfOk result (λ r. IsClean S.Store r.2 → Keeps S.Store r.2 (Some (image_of r.1 r.0))) }
    ensures described { IfOk result (λ r. r.0.address ≡ address) }
    ensures found { (k : KeptServer) → IsKeptServer k
        → bytes_of opened.image ≡ Some (server_image k.joined k.taken k.server)
        → IfOk result (λ r. record { joined = r.1.joined; taken = r.1.taken; server = r.0 } ≡ restarted_kept k) }
    ensures new { bytes_of opened.image ≡ None → IfOk result (λ r. (r.0 ≡ idle_at address) × (r.1 ≡ begins)) }
    ensures same { (bytes : List ℕ) → bytes_of opened.image ≡ Some bytes → IfOk result (λ r. r.2 ≡ opened.kept) }
    ensures clean { IfOk result (λ r. IsClean S.Store r.2 → IsClean S.Store opened.kept) }
    ensures refused { IfErr result (λ e. IsRefused (bytes_of opened.image) address e.0) }
    ensures spared { (bytes : List ℕ) → bytes_of opened.image ≡ Some bytes → IfErr result (λ e. e.1 ≡ opened.kept) }
    ensures either { IfErr result (λ e. IsClean S.Store e.1 → (rows : Trees) → MayLeave S.Store e.1 rows
        → MayLeave S.Store opened.kept rows
        ⊎ Holds opened.kept.version (Some (image_of begins (idle_at address))) rows) }
{
    let Opened { kept, image } = opened;
    match image {
        Some(image) => match found_server(image.as_slice(), alloc, address) {
            Ok((server, progress)) => Ok((server, progress, Saved::new(kept, image))),
            Err(fault) => Err((fault, kept)),
        },
        None => {
            let file = Saved::new(kept, Vec::new(alloc));
            begun(file, address)
        }
    }
}

/// A new server, saved in a file that has no image yet.
fn begun<S: Alter + Drop>(
    mut file: ServerFile<S>,
    address: Address,
) -> Result<(Server, Progress, ServerFile<S>), (StateFault, Kept<S>)>
    requires { IsTrue (is_exact address) }
    ensures kept { IfOk result (λ r. IsClean S.Store r.2 → Keeps S.Store r.2 (Some (image_of r.1 r.0))) }
    ensures server { IfOk result (λ r. (r.0 ≡ idle_at address) × (r.1 ≡ begins)) }
    ensures clean { IfOk result (λ r. IsClean S.Store r.2 → IsClean S.Store file) }
    ensures refused { IfErr result (λ e. IsOfFile e.0) }
    ensures either { IfErr result (λ e. IsClean S.Store e.1 → (rows : Trees) → MayLeave S.Store e.1 rows
        → MayLeave S.Store file rows ⊎ Holds file.version (Some (image_of begins (idle_at address))) rows) }
{
    let server = Server::new(address);
    let progress = Progress {
        taken: 0,
        joined: false,
    };
    match file.put(&server, progress) {
        Ok(()) => Ok((server, progress, file)),
        Err(fault) => Err((keep_fault(fault), file.into_kept())),
    }
}

/// The server of an image, where it is the one that is asked for, and how far it has come.
fn found_server(
    image: &[u8],
    alloc: Global,
    address: Address,
) -> Result<(Server, Progress), StateFault>
    ensures image { IfOk result (λ r. image.now ≡ image_of r.1 r.0) }
    ensures described { IfOk result (λ r. r.0.address ≡ address) }
    ensures found { (k : KeptServer) → IsKeptServer k → image.now ≡ server_image k.joined k.taken k.server
        → IfOk result (λ r. record { joined = r.1.joined; taken = r.1.taken; server = r.0 } ≡ restarted_kept k) }
    ensures refused { IfErr result (IsOther address image.now) }
{
    match read_server(alloc, image) {
        Err(fault) => Err(image_fault(fault)),
        Ok(kept) => {
            if kept.server.address().value() != address.value() {
                return Err(StateFault::OtherAddress);
            }
            let KeptServer {
                joined,
                taken,
                server,
            } = kept;
            Ok((server, Progress { taken, joined }))
        }
    }
}
