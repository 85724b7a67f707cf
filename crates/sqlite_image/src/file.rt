//! A keeper over the database file at a path and its log. The concrete store is named here alone.
ghost use Rattle.std.specs.Prelude.{◌≡◌, true, false, [], ℕ, List, Option, Some, IfOk, OnOk, IsTrue};
ghost use Rattle.sqlite.specs.Recovery.{Image as Held};
ghost use Rattle.sqlite.specs.WalFiles.{image_at, outcomes};
ghost use Rattle.sqlite.specs.WalReads.{IsClean as IsCleanDisk, AreClean, OnlyReads, OnlyReadsBoth};
ghost use Rattle.sqlite.specs.State.{HasCleanDisk, Opens};
ghost use Rattle.sqlite.specs.Held.{state};
ghost use Rattle.sqlite.specs.Files.{over_files, image_of, file_state, IsOpened, Finds};
ghost use Rattle.sqlite_std_file.specs.File.{file_is_usable, IsFresh};
ghost use Rattle.sqlite_image.specs.Kept.{Holds, bytes_of};
ghost use Rattle.sqlite_image.specs.Keeper.{IsClean, Keeps};
ghost use Rattle.sqlite_image.specs.Files.{FilesHold, FileHolds, HoldLeft};
ghost use Rattle.sqlite_image.specs.Log.{IsUnharmed};

use crate::fault::{KeepFault, opening_fault};
use crate::kept::{Kept, Opened};
use crate::log::is_unharmed;
use crate::path_fault::{PathFault, path_fault};
use sqlite::{Alter, Connection, FileFrom, FileStore, Files, Options, Start};
use sqlite_disk::{Disk, is_no_room};
use sqlite_std_file::OpenError;
use std::alloc::Global;
use std::hash::{BuildHasher, RandomState};
use std::io::ErrorKind;
use std::rt::HostRuntime;

/// How long a log is that has no frame: its header, and the mark before the first.
const EMPTY_LOG: usize = 41;

/// Opens the two files of the path, or makes them.
fn open_pair<S: Start>(
    rt: &HostRuntime,
    path: &str,
    start: S,
) -> Result<Files<FileFrom<S>>, KeepFault>
    ensures usable { IfOk result (λ files. IsTrue (file_is_usable S.Start files.log)
        × IsTrue (file_is_usable S.Start files.db)) }
    ensures fresh { IfOk result (λ files. IsFresh true files.log × IsFresh false files.db) }
{
    if path == ":memory:" || path.starts_with("file:") {
        return Err(KeepFault::Unreachable(PathFault::NoName));
    }
    match sqlite_std_file::open(rt, path, start) {
        Ok(files) => Ok(files),
        Err(OpenError::OutOfMemory) => Err(KeepFault::OutOfMemory),
        Err(OpenError::Busy) => Err(KeepFault::InUse),
        Err(OpenError::Io(error)) if error.kind() == ErrorKind::OutOfMemory => {
            Err(KeepFault::OutOfMemory)
        }
        Err(OpenError::Io(error)) if is_no_room(&error) => Err(KeepFault::Full),
        Err(OpenError::HotJournal) => Err(KeepFault::Unreachable(PathFault::Journal)),
        Err(OpenError::Io(error)) => {
            Err(KeepFault::Unreachable(path_fault(rt, path, error.kind())))
        }
    }
}

/// How the database is to be kept, with salts of its own.
fn options(rt: &HostRuntime) -> Result<Options, KeepFault> {
    match RandomState::new(rt) {
        Ok(state) => Ok(Options::new(state.hash_one(&0u8))),
        Err(_) => Err(KeepFault::Unreachable(PathFault::Other)),
    }
}

/// All bytes of a file.
fn bytes_in<D: Disk>(alloc: Global, file: &mut D) -> Result<Vec<u8>, KeepFault>
    requires { IsTrue (D.Disk.is_usable file.old) }
    ensures read { IsCleanDisk D.Disk file.new → IfOk result (λ bytes. bytes.items ≡ D.Disk.seen file.old) }
    ensures same { OnlyReads D.Disk file.old file.new }
{
    let Ok(len) = file.len() else {
        return Err(KeepFault::Failed);
    };
    let Ok(mut bytes) = vec![in alloc; 0; len] else {
        return Err(KeepFault::OutOfMemory);
    };
    if len > 0 && file.read_at(0, &mut bytes).is_err() {
        return Err(KeepFault::Failed);
    }
    Ok(bytes)
}

/// Whether the log has frames, where it is as a process that was killed may have left it; any other is refused.
fn test_log<D: Disk>(alloc: Global, files: &mut Files<D>) -> Result<bool, KeepFault>
    requires log { IsTrue (D.Disk.is_usable files.old.log) }
    requires db { IsTrue (D.Disk.is_usable files.old.db) }
    ensures unharmed { AreClean D.Disk files.new.log files.new.db
        → OnOk result (IsUnharmed (image_of D.Disk files.old)) }
    ensures same { OnlyReadsBoth D.Disk (files.old.log, files.old.db) (files.new.log, files.new.db) }
{
    let mut log = match bytes_in(alloc, &mut files.log) {
        Ok(log) => log,
        Err(fault) => return Err(fault),
    };
    let db = match bytes_in(alloc, &mut files.db) {
        Ok(db) => db,
        Err(fault) => return Err(fault),
    };
    let has_frames = log.len() > EMPTY_LOG;
    if is_unharmed(&mut log, &db) {
        Ok(has_frames)
    } else {
        Err(KeepFault::Damaged)
    }
}

/// What the files keep.
fn opened_once<D: Disk + Drop>(
    alloc: Global,
    files: Files<D>,
    options: Options,
    version: u32,
) -> Result<Opened<FileStore<D>>, KeepFault>
    requires log { IsTrue (D.Disk.is_usable files.log) }
    requires db { IsTrue (D.Disk.is_usable files.db) }
    ensures kept { IfOk result (λ r. IsClean over_files r.kept → Keeps over_files r.kept (bytes_of r.image)) }
    ensures found { (image : Option (List ℕ)) → FilesHold version image (image_of D.Disk files)
        → IfOk result (λ r. IsClean over_files r.kept → bytes_of r.image ≡ image) }
    ensures version { IfOk result (λ r. r.kept.version ≡ version) }
    ensures clean { IfOk result (λ r. IsClean over_files r.kept → AreClean D.Disk files.log files.db) }
{
    match Connection::open_files(alloc, files, options) {
        Err((error, _)) => Err(opening_fault(error)),
        Ok(conn) => opened_over(conn, version),
    }
}

/// The same, once the log was brought into the database file and begun anew, under a salt of its own: so behind the
/// last save no frame bears the salt of the log.
fn opened_anew<D: Disk + Drop>(
    alloc: Global,
    files: Files<D>,
    first: Options,
    again: Options,
    version: u32,
) -> Result<Opened<FileStore<D>>, KeepFault>
    requires log { IsTrue (D.Disk.is_usable files.log) }
    requires db { IsTrue (D.Disk.is_usable files.db) }
    ensures kept { IfOk result (λ r. IsClean over_files r.kept → Keeps over_files r.kept (bytes_of r.image)) }
    ensures found { (image : Option (List ℕ)) → FilesHold version image (image_of D.Disk files)
        → IfOk result (λ r. IsClean over_files r.kept → bytes_of r.image ≡ image) }
    ensures version { IfOk result (λ r. r.kept.version ≡ version) }
    ensures clean { IfOk result (λ r. IsClean over_files r.kept → AreClean D.Disk files.log files.db) }
{
    let kept = match opened_once(alloc, files, first, version) {
        Ok(opened) => opened.kept,
        Err(fault) => return Err(fault),
    };
    match kept.close() {
        Ok(files) => opened_once(alloc, files, again, version),
        Err(fault) => Err(fault),
    }
}

/// The same of files of which the log is as a process that was killed may have left it; any other is refused.
fn opened_whole<D: Disk + Drop>(
    alloc: Global,
    mut files: Files<D>,
    first: Options,
    again: Options,
    version: u32,
) -> Result<Opened<FileStore<D>>, KeepFault>
    requires log { IsTrue (D.Disk.is_usable files.log) }
    requires db { IsTrue (D.Disk.is_usable files.db) }
    ensures kept { IfOk result (λ r. IsClean over_files r.kept → Keeps over_files r.kept (bytes_of r.image)) }
    ensures found { (image : Option (List ℕ)) → FilesHold version image (image_of D.Disk files)
        → IfOk result (λ r. IsClean over_files r.kept → bytes_of r.image ≡ image) }
    ensures version { IfOk result (λ r. r.kept.version ≡ version) }
    ensures unharmed { IfOk result (λ r. IsClean over_files r.kept → IsUnharmed (image_of D.Disk files)) }
{
    match test_log(alloc, &mut files) {
        Ok(true) => opened_anew(alloc, files, first, again, version),
        Ok(false) => opened_once(alloc, files, first, version),
        Err(fault) => Err(fault),
    }
}

/// Opens the file, or makes it, where `S` stands for what the two files held before. `version` is the number of the
/// caller's format.
pub(crate) fn open_from<S: Start>(
    rt: &HostRuntime,
    path: &str,
    version: u32,
    start: S,
) -> Result<Opened<FileStore<FileFrom<S>>>, KeepFault>
    ensures kept { IfOk result (λ r. IsClean over_files r.kept → Keeps over_files r.kept (bytes_of r.image)) }
    ensures found { (image : Option (List ℕ)) → FilesHold version image (image_at S.Start)
        → IfOk result (λ r. IsClean over_files r.kept → bytes_of r.image ≡ image) }
    ensures version { IfOk result (λ r. r.kept.version ≡ version) }
    ensures unharmed { IfOk result (λ r. IsClean over_files r.kept → IsUnharmed (image_at S.Start)) }
{
    let files = match open_pair(rt, path, start) {
        Ok(files) => files,
        Err(fault) => return Err(fault),
    };
    let first = match options(rt) {
        Ok(first) => first,
        Err(fault) => return Err(fault),
    };
    let again = match options(rt) {
        Ok(again) => again,
        Err(fault) => return Err(fault),
    };
    opened_whole(rt.alloc(), files, first, again, version)
}

/// As `Kept::over`; a connection that is refused is let go as it is, with no further write.
fn opened_over<S: Alter + Drop>(conn: Connection<S>, version: u32) -> Result<Opened<S>, KeepFault>
    requires { HasCleanDisk (state S.Store conn) → Opens (state S.Store conn) }
    ensures kept { IfOk result (λ r. IsClean S.Store r.kept → Keeps S.Store r.kept (bytes_of r.image)) }
    ensures found { (image : Option (List ℕ)) → Holds version image (state S.Store conn).now.trees
        → IfOk result (λ r. IsClean S.Store r.kept → bytes_of r.image ≡ image) }
    ensures version { IfOk result (λ r. r.kept.version ≡ version) }
    ensures clean { IfOk result (λ r. IsClean S.Store r.kept → HasCleanDisk (state S.Store conn)) }
{
    match Kept::over(conn, version) {
        Ok(opened) => Ok(opened),
        Err((fault, _)) => Err(fault),
    }
}

impl<D: Disk + Drop> Kept<FileStore<D>> {
    /// A clean end: copies the log into the database file and gives the two files back, so that the database file alone
    /// holds what was kept, also after a crash.
    pub fn close(self) -> Result<Files<D>, KeepFault>
        ensures alone { (image : Option (List ℕ)) → Keeps over_files self image
            → IfOk result (λ files. AreClean D.Disk files.log files.db
            → FileHolds self.version image (image_of D.Disk files)) }
        ensures rows { IfOk result (λ files. AreClean D.Disk files.log files.db → (left : Held)
            → outcomes D.Disk files.log files.db left → HoldLeft over_files self (record left { log = [] })) }
        ensures left { (image : Option (List ℕ)) → Keeps over_files self image
            → IfOk result (λ files. AreClean D.Disk files.log files.db → (left : Held)
            → outcomes D.Disk files.log files.db left → FileHolds self.version image left) }
        ensures both { (image : Option (List ℕ)) → Keeps over_files self image
            → IfOk result (λ files. AreClean D.Disk files.log files.db
            → FilesHold self.version image (image_of D.Disk files)) }
        ensures clean { IfOk result (λ files. AreClean D.Disk files.log files.db → IsClean over_files self) }
        ensures usable { IfOk result (λ files. IsTrue (D.Disk.is_usable files.log)
            × IsTrue (D.Disk.is_usable files.db)) }
    {
        let Kept {
            conn,
            version: _,
            rows: _,
        } = self;
        match conn.close_files() {
            Ok(files) => Ok(files),
            Err((error, store)) => {
                drop(store.close());
                Err(opening_fault(error))
            }
        }
    }

    /// An end that is not clean, as a crash between two calls: the two files are given back as they are, with no
    /// further write. Whatever such a crash leaves holds what was kept.
    pub fn stop(self) -> Files<D>
        ensures rows { AreClean D.Disk result.log result.db → (left : Held) → outcomes D.Disk result.log result.db left
            → HoldLeft over_files self left }
        ensures left { (image : Option (List ℕ)) → Keeps over_files self image → AreClean D.Disk result.log result.db
            → (left : Held) → outcomes D.Disk result.log result.db left → FilesHold self.version image left }
    {
        let Kept {
            conn,
            version: _,
            rows: _,
        } = self;
        conn.into_store().close()
    }
}
