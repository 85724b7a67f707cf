//! The state of an end in a file, and how it is closed: cleanly, after which the database file alone is the state, or
//! with no write. Source: profile.
ghost use Rattle.std.specs.Prelude.{◌≡◌, ◌⊎◌, ℕ, List, Option, Some, Err, OnOk, OnErr, IfOk, IfSome};
ghost use Rattle.sqlite.specs.Files.{over_files};
ghost use Rattle.sqlite.specs.Tree.{Trees};
ghost use Rattle.sqlite_image.specs.Kept.{Holds};
ghost use Rattle.sqlite_image.specs.Keeper.{IsClean, MayLeave, Keeps, HasEnded};
ghost use Rattle.sqlite_image.specs.Files.{AreClosed};
ghost use Rattle.state_files.specs.Faults.{keep_fault, noted};
ghost use Rattle.state_files.specs.Saving.{Leaves};

use crate::fault::{StateFault, keep_fault};
use crate::image::Image;
use sqlite::{Alter, FileStore, Files};
use sqlite_disk::Disk;
use sqlite_image::{KeepFault, Kept};
use std::marker::{Model, PhantomData};
use uecp_encoder::{Keep, SaveFailed};

/// The state of an end in a file: that of an [`Encoder`](uecp_encoder::Encoder), or of a
/// [`Server`](uecp_link::Server) and its progress. Clauses see what its `Kept` shows.
#[derive(Drop)]
pub struct Saved<S: Alter, V> {
    /// The file.
    pub(crate) kept: Kept<S>,
    /// Room for the image.
    pub(crate) image: Vec<u8>,
    /// Why a save failed, if one did: the first.
    pub(crate) fault: Option<KeepFault>,
    of: PhantomData<V>,
}

impl<S: Alter, V> Model for Saved<S, V> {
    ghost use Rattle.sqlite_image.specs.Keeper.{Keeper, keeper_code};

    ghost Value = { Keeper S };

    ghost coded = { keeper_code S.code };

    ghost view = { λ f. f.kept };
}

impl<S: Alter, V> Saved<S, V> {
    /// Over what keeps the image, with room for it.
    pub(crate) fn new(kept: Kept<S>, image: Vec<u8>) -> Saved<S, V>
        ensures { result ≡ kept }
    {
        Saved {
            kept,
            image,
            fault: None,
            of: PhantomData,
        }
    }

    /// What keeps the image, as it is.
    pub fn into_kept(self) -> Kept<S>
        ensures { result ≡ self }
    {
        let Saved {
            kept,
            image: _,
            fault: _,
            of: _,
        } = self;
        kept
    }
}

impl<S: Alter, V: Image> Saved<S, V> {
    /// Saves the end's image in place of the one that was kept. From `Ok` on, whatever a crash leaves holds it. At any
    /// outcome a crash leaves what it could leave before, or the new image. Where there was no memory for the image
    /// nothing has happened; after any other fault each later save answers `Failed` or `OutOfMemory`.
    pub fn put(&mut self, end: &V::End, progress: V::Progress) -> Result<(), KeepFault>
        ensures saved { IsClean S.Store self.new → OnOk result
            (Keeps S.Store self.new (Some (V.image progress end.now))) }
        ensures either { IsClean S.Store self.new → (rows : Trees) → MayLeave S.Store self.new rows
            → MayLeave S.Store self.old rows ⊎ Holds self.old.version (Some (V.image progress end.now)) rows }
        ensures clean { IsClean S.Store self.new → IsClean S.Store self.old }
        ensures version { self.new.version ≡ self.old.version }
        ensures failed { OnErr result (HasEnded S.Store self.new ⊎ (self.new ≡ self.old)) }
        ensures ended { HasEnded S.Store self.old → (result ≡ Err KeepFault.Failed)
            ⊎ (result ≡ Err KeepFault.OutOfMemory) }
    {
        self.image.clear();
        let saved = match V::put(end, progress, &mut self.image) {
            Ok(()) => self.kept.save(self.image.as_slice()),
            Err(_) => Err(KeepFault::OutOfMemory),
        };
        note(saved, &mut self.fault);
        saved
    }
}

impl<S: Alter, V: Image> Keep<V> for Saved<S, V> {
    ghost use Rattle.sqlite_image.specs.Keeper.{IsClean};
    ghost use Rattle.state_files.specs.Saving.{Leaves, Saves, FailsTo};

    ghost leaves = { Leaves S.Store V.image V.is_end V.kept_of };

    ghost is_clean = { IsClean S.Store };

    ghost saves = { Saves S.Store V.image V.is_end V.kept_of };

    ghost fails = { FailsTo S.Store };

    fn save(&mut self, end: &V::End, progress: V::Progress) -> Result<(), SaveFailed> {
        V::tells(end, progress);
        match self.put(end, progress) {
            Ok(()) => Ok(()),
            Err(_) => Err(SaveFailed),
        }
    }
}

/// Whatever a crash leaves of a file that keeps an end is what is to be kept of it.
pub(crate) fn settled<S: Alter, V: Image>(end: &V::End, progress: V::Progress, file: &Saved<S, V>)
    ensures { Keeps S.Store file.now (Some (V.image progress end.now)) → (left : V)
        → Leaves S.Store V.image V.is_end V.kept_of file.now left → left ≡ V.kept_of progress end.now }
{
    let _ = file;
    V::tells(end, progress);
}

impl<D: Disk + Drop, V> Saved<FileStore<D>, V> {
    /// A clean end: the log is copied in, so that the database file alone holds the image, also after a crash. Where a
    /// save had failed the fault is why it did, the first that failed, and nothing more is written.
    pub fn close(self) -> Result<Files<D>, StateFault>
        ensures { (image : List ℕ) → Keeps over_files self (Some image)
            → IfOk result (λ files. AreClosed D.Disk files self.version (Some image)) }
    {
        let fault = self.fault;
        closed(self.into_kept(), fault)
    }
}

/// A clean end of what keeps the image; or none, where a save had failed.
fn closed<D: Disk + Drop>(
    kept: Kept<FileStore<D>>,
    fault: Option<KeepFault>,
) -> Result<Files<D>, StateFault>
    ensures left { (image : Option (List ℕ)) → Keeps over_files kept image
        → IfOk result (λ files. AreClosed D.Disk files kept.version image) }
    ensures why { IfSome fault (λ fault. result ≡ Err (keep_fault fault)) }
{
    if let Some(fault) = fault {
        let_go(kept);
        return Err(keep_fault(fault));
    }
    match kept.close() {
        Ok(files) => Ok(files),
        Err(fault) => Err(keep_fault(fault)),
    }
}

/// Lets the file go as it is, with no further write.
pub(crate) fn let_go<S: Alter + Drop>(kept: Kept<S>) {
    drop(kept);
}

/// Notes why a save failed, where none had failed before.
fn note(saved: Result<(), KeepFault>, fault: &mut Option<KeepFault>)
    ensures { fault.new ≡ noted saved fault.old }
{
    match (&*fault, saved) {
        (None, Err(failed)) => *fault = Some(failed),
        _ => {}
    }
}
