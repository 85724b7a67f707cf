//! An encoder that goes on from its file, or a new one in a new file. Source: profile.
ghost use Rattle.std.specs.Prelude.{◌≡◌, ◌⊎◌, ℕ, List, Option, Some, None, IsTrue, IfOk, IfErr, MatchOption};
ghost use Rattle.sqlite.specs.Files.{over_files};
ghost use Rattle.uecp_frame.specs.Address.{is_exact};
ghost use Rattle.rds_store.specs.Value.{Store};
ghost use Rattle.rds_store.specs.Opening as stores;
ghost use Rattle.uecp_encoder.specs.State.{EncoderState, opening, restarted};
ghost use Rattle.sqlite.specs.Tree.{Trees};
ghost use Rattle.sqlite_image.specs.Kept.{Holds, bytes_of};
ghost use Rattle.sqlite_image.specs.Keeper.{IsClean, MayLeave, Keeps};
ghost use Rattle.end_images.specs.Images.{encoder_image};
ghost use Rattle.end_images.specs.Reading.{IsEncoder};
ghost use Rattle.uecp_encoder.specs.Keeping.{Settled};
ghost use Rattle.state_files.specs.Encoders.{LeavesEncoder, IsOther, IsOtherEncoder, IsDescribed};
ghost use Rattle.state_files.specs.Encoders.{IsUnbegun, IsRefused};
ghost use Rattle.state_files.specs.Opening.{GivesEncoder};

use crate::encoder_file::EncoderFile;
use crate::fault::{StateFault, image_fault, keep_fault};
use crate::saved::{Saved, let_go, settled};
use arrayvec::ArrayVec;
use end_images::read_encoder;
use rds_store::{RdsStore, StoreFault};
use sqlite::{Alter, FileStore};
use sqlite_disk::Disk;
use sqlite_image::{Kept, OpenFiles, Opened};
use std::alloc::Global;
use uecp_encoder::Encoder;
use uecp_frame::Address;

/// The version of the format of a state file.
pub(crate) const VERSION: u32 = 1;

/// How many services a store has at most.
const SERVICES_MAX: usize = 8;

/// Opens the file of an encoder, or makes it. A file with an image gives the encoder that goes on from it; a new file a
/// new encoder over the opening store, whose image is saved at once.
///
/// Refused is a file that is not ours, is of another version or in use, and the image of another end, of another
/// address, of another number of sets or of other services, in this order. What is refused is not overwritten. Each
/// encoder that is given was saved, also one that goes on, so a disk with no room for it is found here.
///
/// The caller knows that the address is one encoder's own, as for [`Encoder::new`].
///
/// ```
/// let (mut encoder, mut file) = open_encoder(&files, "encoder.db", address, 1, &[0x01])?;
/// ```
pub fn open_encoder<D: Disk + Drop, F: OpenFiles<D>>(
    files: &F,
    path: &str,
    address: Address,
    sets: u8,
    services: &[u8],
) -> Result<(Encoder<RdsStore>, EncoderFile<FileStore<D>>), StateFault>
    requires { IsTrue (is_exact address) }
    ensures given { IfOk result (λ r. GivesEncoder F.OpenFiles.holds files.now path.now r.0 r.1) }
    ensures settled { IfOk result (λ r. IsClean over_files r.1 → Settled (LeavesEncoder over_files r.1) r.0) }
    ensures described { IfOk result (λ r. IsDescribed address sets services.now r.0) }
{
    match opened_encoder(files, path, address, sets, services) {
        Err(fault) => Err(fault),
        Ok((encoder, mut saved)) => match saved.put(&encoder, ()) {
            Ok(()) => {
                settled(&encoder, (), &saved);
                Ok((encoder, saved))
            }
            Err(fault) => {
                let_go(saved.into_kept());
                Err(keep_fault(fault))
            }
        },
    }
}

/// The same, with no further save of an encoder that was there.
fn opened_encoder<D: Disk + Drop, F: OpenFiles<D>>(
    files: &F,
    path: &str,
    address: Address,
    sets: u8,
    services: &[u8],
) -> Result<(Encoder<RdsStore>, EncoderFile<FileStore<D>>), StateFault>
    requires { IsTrue (is_exact address) }
    ensures given { IfOk result (λ r. GivesEncoder F.OpenFiles.holds files.now path.now r.0 r.1) }
    ensures described { IfOk result (λ r. IsDescribed address sets services.now r.0) }
{
    match files.open_file(path, VERSION) {
        Err(fault) => Err(keep_fault(fault)),
        Ok(opened) => match encoder_over(opened, files.alloc(), address, sets, services) {
            Ok(opened) => Ok(opened),
            Err((fault, kept)) => {
                let_go(kept);
                Err(fault)
            }
        },
    }
}

/// As [`open_encoder`], over what was opened already, in whatever store. What is refused comes back with the fault:
/// where it has an image, as it was; where a new encoder could not be saved, a crash leaves none, or that encoder.
///
/// ```
/// match encoder_over(opened, alloc, address, 1, &[0x01]) {
///     Ok((encoder, file)) => goes_on(encoder, file),
///     Err((fault, kept)) => says(fault, kept),
/// }
/// ```
pub fn encoder_over<S: Alter + Drop>(
    opened: Opened<S>,
    alloc: Global,
    address: Address,
    sets: u8,
    services: &[u8],
) -> Result<(Encoder<RdsStore>, EncoderFile<S>), (StateFault, Kept<S>)>
    requires exact { IsTrue (is_exact address) }
    requires kept { IsClean S.Store opened.kept → Keeps S.Store opened.kept (bytes_of opened.image) }
    ensures kept { IfOk result (λ r. IsClean S.Store r.1 → Keeps S.Store r.1 (Some (encoder_image r.0))) }
    ensures settled { IfOk result (λ r. IsClean S.Store r.1 → Settled (LeavesEncoder S.Store r.1) r.0) }
    ensures described { IfOk result (λ r. IsDescribed address sets services.now r.0) }
    ensures found { (e : EncoderState Store) → IsEncoder e → bytes_of opened.image ≡ Some (encoder_image e)
        → IfOk result (λ r. r.0 ≡ restarted e) }
    ensures new { bytes_of opened.image ≡ None → IfOk result
        (λ r. r.0 ≡ opening address (stores.opening sets services.now)) }
    ensures same { (bytes : List ℕ) → bytes_of opened.image ≡ Some bytes → IfOk result (λ r. r.1 ≡ opened.kept) }
    ensures clean { IfOk result (λ r. IsClean S.Store r.1 → IsClean S.Store opened.kept) }
    ensures refused { IfErr result (λ e. IsRefused (bytes_of opened.image) address sets services.now e.0) }
    ensures spared { (bytes : List ℕ) → bytes_of opened.image ≡ Some bytes → IfErr result (λ e. e.1 ≡ opened.kept) }
    ensures either { IfErr result (λ e. IsClean S.Store e.1 → (rows : Trees) → MayLeave S.Store e.1 rows
        → MayLeave S.Store opened.kept rows ⊎ Holds opened.kept.version
        (Some (encoder_image (opening address (stores.opening sets services.now)))) rows) }
{
    match encoder_of(opened, alloc, address, sets, services) {
        Err(refused) => Err(refused),
        Ok((encoder, file)) => {
            settled(&encoder, (), &file);
            Ok((encoder, file))
        }
    }
}

/// The encoder that goes on from what an open found, or a new one, with its file.
fn encoder_of<S: Alter + Drop>(
    opened: Opened<S>,
    alloc: Global,
    address: Address,
    sets: u8,
    services: &[u8],
) -> Result<(Encoder<RdsStore>, EncoderFile<S>), (StateFault, Kept<S>)>
    requires exact { IsTrue (is_exact address) }
    requires kept { IsClean S.Store opened.kept → Keeps S.Store opened.kept (bytes_of opened.image) }
    ensures kept { IfOk result (λ r. IsClean S.Store r.1 → Keeps S.Store r.1 (Some (encoder_image r.0))) }
    ensures described { IfOk result (λ r. IsDescribed address sets services.now r.0) }
    ensures found { (e : EncoderState Store) → IsEncoder e → bytes_of opened.image ≡ Some (encoder_image e)
        → IfOk result (λ r. r.0 ≡ restarted e) }
    ensures new { bytes_of opened.image ≡ None → IfOk result
        (λ r. r.0 ≡ opening address (stores.opening sets services.now)) }
    ensures same { (bytes : List ℕ) → bytes_of opened.image ≡ Some bytes → IfOk result (λ r. r.1 ≡ opened.kept) }
    ensures clean { IfOk result (λ r. IsClean S.Store r.1 → IsClean S.Store opened.kept) }
    ensures refused { IfErr result (λ e. IsRefused (bytes_of opened.image) address sets services.now e.0) }
    ensures spared { (bytes : List ℕ) → bytes_of opened.image ≡ Some bytes → IfErr result (λ e. e.1 ≡ opened.kept) }
    ensures either { IfErr result (λ e. IsClean S.Store e.1 → (rows : Trees) → MayLeave S.Store e.1 rows
        → MayLeave S.Store opened.kept rows ⊎ Holds opened.kept.version
        (Some (encoder_image (opening address (stores.opening sets services.now)))) rows) }
{
    let Opened { kept, image } = opened;
    match image {
        Some(image) => match found_encoder(image.as_slice(), alloc, address, sets, services) {
            Ok(encoder) => Ok((encoder, Saved::new(kept, image))),
            Err(fault) => Err((fault, kept)),
        },
        None => begun(kept, alloc, address, sets, services),
    }
}

/// A new encoder, saved in a file that has no image yet.
fn begun<S: Alter + Drop>(
    kept: Kept<S>,
    alloc: Global,
    address: Address,
    sets: u8,
    services: &[u8],
) -> Result<(Encoder<RdsStore>, EncoderFile<S>), (StateFault, Kept<S>)>
    requires { IsTrue (is_exact address) }
    ensures kept { IfOk result (λ r. IsClean S.Store r.1 → Keeps S.Store r.1 (Some (encoder_image r.0))) }
    ensures encoder { IfOk result (λ r. r.0 ≡ opening address (stores.opening sets services.now)) }
    ensures clean { IfOk result (λ r. IsClean S.Store r.1 → IsClean S.Store kept) }
    ensures refused { IfErr result (λ e. IsUnbegun sets services.now e.0) }
    ensures either { IfErr result (λ e. IsClean S.Store e.1 → (rows : Trees) → MayLeave S.Store e.1 rows
        → MayLeave S.Store kept rows ⊎ Holds kept.version
        (Some (encoder_image (opening address (stores.opening sets services.now)))) rows) }
{
    match new_encoder(alloc, address, sets, services) {
        Err(fault) => Err((fault, kept)),
        Ok(encoder) => {
            let image = Vec::new(alloc);
            first_saved(encoder, Saved::new(kept, image))
        }
    }
}

/// The encoder, saved in a file that has no image yet.
fn first_saved<S: Alter + Drop>(
    encoder: Encoder<RdsStore>,
    mut file: EncoderFile<S>,
) -> Result<(Encoder<RdsStore>, EncoderFile<S>), (StateFault, Kept<S>)>
    ensures kept { IfOk result (λ r. IsClean S.Store r.1 → Keeps S.Store r.1 (Some (encoder_image r.0))) }
    ensures encoder { IfOk result (λ r. r.0 ≡ encoder) }
    ensures clean { IfOk result (λ r. IsClean S.Store r.1 → IsClean S.Store file) }
    ensures refused { (sets : ℕ) (services : List ℕ) → IfErr result (λ e. IsUnbegun sets services e.0) }
    ensures either { IfErr result (λ e. IsClean S.Store e.1 → (rows : Trees) → MayLeave S.Store e.1 rows
        → MayLeave S.Store file rows ⊎ Holds file.version (Some (encoder_image encoder)) rows) }
{
    match file.put(&encoder, ()) {
        Ok(()) => Ok((encoder, file)),
        Err(fault) => Err((keep_fault(fault), file.into_kept())),
    }
}

/// A new encoder over the opening store.
fn new_encoder(
    alloc: Global,
    address: Address,
    sets: u8,
    services: &[u8],
) -> Result<Encoder<RdsStore>, StateFault>
    requires { IsTrue (is_exact address) }
    ensures encoder { IfOk result (λ e. e ≡ opening address (stores.opening sets services.now)) }
    ensures refused { IfErr result (IsUnbegun sets services.now) }
{
    match RdsStore::new(alloc, sets, services) {
        Err(StoreFault::OutOfMemory) => Err(StateFault::OutOfMemory),
        Err(fault) => Err(StateFault::Store(fault)),
        Ok(store) => match Encoder::new(alloc, address, store) {
            Ok(encoder) => Ok(encoder),
            Err(_) => Err(StateFault::OutOfMemory),
        },
    }
}

/// The encoder of an image, where it is the one that is asked for.
fn found_encoder(
    image: &[u8],
    alloc: Global,
    address: Address,
    sets: u8,
    services: &[u8],
) -> Result<Encoder<RdsStore>, StateFault>
    ensures image { IfOk result (λ e. image.now ≡ encoder_image e) }
    ensures described { IfOk result (λ e. IsDescribed address sets services.now e) }
    ensures found { (e : EncoderState Store) → IsEncoder e → image.now ≡ encoder_image e
        → IfOk result (λ r. r ≡ restarted e) }
    ensures refused { IfErr result (IsOther address sets services.now image.now) }
{
    match read_encoder(alloc, image) {
        Err(fault) => Err(image_fault(fault)),
        Ok(encoder) => match other_in(&encoder, address, sets, services) {
            None => Ok(encoder),
            Some(fault) => Err(fault),
        },
    }
}

/// In what an encoder is another than the one that is asked for.
fn other_in(
    encoder: &Encoder<RdsStore>,
    address: Address,
    sets: u8,
    services: &[u8],
) -> Option<StateFault>
    ensures { MatchOption result (IsDescribed address sets services.now encoder.now)
        (IsOtherEncoder address sets services.now encoder.now) }
{
    if encoder.address().value() != address.value() {
        return Some(StateFault::OtherAddress);
    }
    if encoder.target().set_count() != sets {
        return Some(StateFault::OtherSets);
    }
    if services_of(encoder.target()).as_slice() != services {
        return Some(StateFault::OtherServices);
    }
    None
}

/// The services of a store, in configured order.
fn services_of(store: &RdsStore) -> ArrayVec<u8, SERVICES_MAX>
    ensures { result.items ≡ store.now.services }
{
    let mut services = ArrayVec::new();
    let mut place = 0;
    while let Some(number) = store.service_number(place) {
        services.push(number);
        place += 1;
    }
    services
}
