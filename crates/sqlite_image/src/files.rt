//! Where files of images are, each at its path: those of the machine, or others. Source: profile.
ghost use Rattle.std.specs.Prelude.{ℕ, List, Option, IfOk, ◌≡◌};
ghost use Rattle.sqlite.specs.Files.{over_files};
ghost use Rattle.sqlite_image.specs.Kept.{bytes_of};
ghost use Rattle.sqlite_image.specs.Keeper.{IsClean, Keeps};

use crate::fault::KeepFault;
use crate::file::open_from;
use crate::kept::Opened;
use crate::names::{MachineNames, Names};
use sqlite::{FileFrom, FileStore, Start};
use sqlite_disk::Disk;
use std::alloc::Global;
use std::fs;
use std::rt::HostRuntime;

/// Opens files of one image each by their paths. A path stands for one file as it is when it is opened: of a second
/// open of the same path nothing is said by what was there at the first.
pub trait OpenFiles<D: Disk + Drop> {
    /// The names of a file that was opened, and of its log.
    type FileNames: Names + Drop;

    // Whether the file at a path, with its log, holds this image of this version, or none yet, as it is opened.
    ghost holds: { Self → List ℕ → ℕ → Option (List ℕ) → Type 0 };

    // Whether the log of the file at a path is, as it is opened, as a process that was killed may have left it.
    ghost unharmed: { Self → List ℕ → Type 0 };

    /// Room for what is read of a file.
    fn alloc(&self) -> Global;

    /// Whether there is a file at the path.
    fn is_there(&self, path: &str) -> bool;

    /// Opens the file at the path, or makes it. `version` is the number of the caller's format. A log that was changed
    /// or cut is refused. What is refused is not overwritten.
    fn open_file(&self, path: &str, version: u32) -> Result<Opened<FileStore<D>>, KeepFault>
        ensures kept { IfOk result (λ r. IsClean over_files r.kept → Keeps over_files r.kept (bytes_of r.image)) }
        ensures found { (image : Option (List ℕ)) → holds self.now path.now version image
            → IfOk result (λ r. IsClean over_files r.kept → bytes_of r.image ≡ image) }
        ensures version { IfOk result (λ r. r.kept.version ≡ version) }
        ensures unharmed { IfOk result (λ r. IsClean over_files r.kept → unharmed self.now path.now) };

    /// The names of the file at the path, which was just opened; none where one of them leads nowhere any more.
    fn names_of(&self, path: &str) -> Option<Self::FileNames>;
}

/// The files of the machine. `S` stands for what the file at the path and its log hold as they are opened; that the
/// path names them is not said by the kit, so the body of [`open_file`](OpenFiles::open_file) is to be read.
#[derive(Drop)]
pub struct MachineFiles<'a, S> {
    rt: &'a HostRuntime,
    start: S,
}

impl<'a, S> MachineFiles<'a, S> {
    /// The files of this machine.
    pub fn new(rt: &'a HostRuntime, start: S) -> MachineFiles<'a, S> {
        MachineFiles { rt, start }
    }
}

impl<'a, S: Start + Copy> OpenFiles<FileFrom<S>> for MachineFiles<'a, S> {
    ghost use Rattle.sqlite.specs.WalFiles.{image_at};
    ghost use Rattle.sqlite_image.specs.Files.{FilesHold};
    ghost use Rattle.sqlite_image.specs.Log.{IsUnharmed};

    type FileNames = MachineNames<'a>;

    ghost holds = { λ files path version image. FilesHold version image (image_at S.Start) };

    ghost unharmed = { λ files path. IsUnharmed (image_at S.Start) };

    fn alloc(&self) -> Global {
        self.rt.alloc()
    }

    fn is_there(&self, path: &str) -> bool {
        fs::metadata(self.rt, path).is_ok()
    }

    fn open_file(
        &self,
        path: &str,
        version: u32,
    ) -> Result<Opened<FileStore<FileFrom<S>>>, KeepFault> {
        open_from(self.rt, path, version, self.start)
    }

    fn names_of(&self, path: &str) -> Option<MachineNames<'a>> {
        MachineNames::new(self.rt, path)
    }
}

/// For `main` to name: it supposes nothing of what the files hold, nor of a write that a crash tears. It is the kit's
/// `Wary`, for more than one open.
#[derive(Clone, Copy, Debug)]
pub struct Wary;

impl Start for Wary {
    ghost use Rattle.std.specs.Prelude.{[], false};

    ghost log = { [] };

    ghost db = { [] };

    ghost is_mixing = { false };

    fn mixes() -> bool {
        false
    }
}
