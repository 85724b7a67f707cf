//! Where the lines that are passed over are kept. Source: profile.
ghost use Rattle.std.specs.Prelude.{◌≡◌, ℕ, List, Option, IfOk};
ghost use Rattle.std.specs.Io.KnownBytes.{Appends, Keeps};
ghost use Rattle.send_commands.specs.Passing.{ledger_text};

use std::fs::{Files, OpenFile, OpenOptions};
use std::io;
use std::io::{ErrorKind, Read, Seek, SeekFrom, Write};
use std::marker::Model;

/// Why a line that is passed over could not be kept.
#[derive(Clone, Copy, Debug, PartialEq, Eq)]
pub enum LedgerFault {
    /// A folder of the path isn't there, or is none.
    NoFolder,
    /// The file may not be written or made.
    NotPermitted,
    /// The file system is mounted to be read alone.
    ReadOnly,
    /// It is a folder.
    Folder,
    /// There is no room for it.
    Full,
    /// There was no memory.
    OutOfMemory,
    /// For another reason of the system's.
    Other,
}

impl LedgerFault {
    /// The reason as it is said, behind the file.
    pub fn text(self) -> &'static str
        ensures { result.now ≡ ledger_text self }
    {
        match self {
            LedgerFault::NoFolder => "no such folder",
            LedgerFault::NotPermitted => "not permitted",
            LedgerFault::ReadOnly => "read-only",
            LedgerFault::Folder => "it is a folder",
            LedgerFault::Full => "no room",
            LedgerFault::OutOfMemory => "out of memory",
            LedgerFault::Other => "it can't be written",
        }
    }
}

impl From<io::Error> for LedgerFault {
    fn from(error: io::Error) -> LedgerFault {
        match error.kind() {
            ErrorKind::NotFound | ErrorKind::NotADirectory => LedgerFault::NoFolder,
            ErrorKind::PermissionDenied => LedgerFault::NotPermitted,
            ErrorKind::ReadOnlyFilesystem => LedgerFault::ReadOnly,
            ErrorKind::IsADirectory => LedgerFault::Folder,
            ErrorKind::StorageFull | ErrorKind::QuotaExceeded => LedgerFault::Full,
            ErrorKind::OutOfMemory => LedgerFault::OutOfMemory,
            _ => LedgerFault::Other,
        }
    }
}

/// What is only ever written to at its end, and can be brought to the disk.
pub trait Ledger {
    // These bytes were written at its end.
    ghost writes: { Self → List ℕ → Self → Type 0 };

    // What was written is on the disk.
    ghost syncs: { Self → Self → Type 0 };

    /// Writes these bytes at its end.
    fn write_record(&mut self, bytes: &[u8]) -> Result<(), LedgerFault>
        ensures { IfOk result (λ _. writes self.old bytes.now self.new) };

    /// Brings what was written to the disk.
    fn sync(&mut self) -> Result<(), LedgerFault>
        ensures { IfOk result (λ _. syncs self.old self.new) };
}

/// A file of the machine that is appended to. What was written of a record that could not be written whole is cut off
/// again, as far as that can be. Contracts see what it holds, as far as that is known.
#[derive(Drop)]
pub struct LedgerFile<F: Write> {
    file: F,
}

impl<F: Write> Model for LedgerFile<F> {
    ghost Value = { Option (List ℕ) };

    ghost view = { λ l. F.contents l.file };
}

impl<F: Write + OpenFile> Ledger for LedgerFile<F> {
    ghost writes = { λ l bytes l'. Appends l l' bytes };

    // of a sync the kit says nothing
    ghost syncs = { λ l l'. Keeps l l' };

    fn write_record(&mut self, bytes: &[u8]) -> Result<(), LedgerFault> {
        let before = self.file.metadata();
        match self.file.write_all(bytes) {
            Ok(()) => Ok(()),
            Err(error) => {
                if let Ok(found) = before {
                    let _ = self.file.set_len(found.len());
                }
                Err(error.into())
            }
        }
    }

    fn sync(&mut self) -> Result<(), LedgerFault> {
        Ok(self.file.sync_all()?)
    }
}

/// Opens the file at this path to append to it, or makes it. A last line that was cut is ended.
pub(crate) fn open_ledger<N: Files>(
    files: &N,
    path: &str,
) -> Result<LedgerFile<N::File>, LedgerFault> {
    let mut options = OpenOptions::new();
    let mut file = options
        .read(true)
        .append(true)
        .create(true)
        .open(files, path)?;
    end_last_line(&mut file)?;
    Ok(LedgerFile { file })
}

/// Ends the last line of the file, where it has no line feed.
fn end_last_line<F: Read + Write + Seek>(file: &mut F) -> io::Result<()> {
    let mut last = [b'\n'];
    if file.seek(SeekFrom::End(-1)).is_ok() {
        file.read(&mut last)?;
    }
    if last[0] != b'\n' {
        file.write_all(b"\n")?;
    }
    Ok(())
}
