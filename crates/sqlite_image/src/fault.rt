//! Why a state can't be kept.
ghost use Rattle.std.specs.Prelude.{◌≡◌, ℕ};
ghost use Rattle.sqlite.specs.Effect.{Database};
ghost use Rattle.sqlite_image.specs.Fault.{opening_fault, calling_fault, IsRefused};

use crate::path_fault::PathFault;
use sqlite::ErrorCode;
use thiserror::Error;

/// Why an image can't be opened or saved. Each refusal leaves the file as it was. Source: profile.
#[derive(Clone, Copy, Debug, PartialEq, Eq, Error)]
pub enum KeepFault {
    /// Another process has the file open.
    #[error("state in use")]
    InUse,
    /// The file is another database, or no database, or its rows don't obey its schema.
    #[error("state is not ours")]
    NotOurs,
    /// The image is of a later version of the format, which is given.
    #[error("state is of a later version")]
    Newer(u32),
    /// The image is of an earlier version of the format, which is given.
    #[error("state is of an earlier version")]
    Older(u32),
    /// The table has more than one row, or a row of another key or with a version that is none, or the disk gave back
    /// what was never written.
    #[error("state damaged")]
    Damaged,
    /// The path can't be opened, for this.
    #[error("state out of reach")]
    Unreachable(PathFault),
    /// The disk is full.
    #[error("no room for the state")]
    Full,
    /// There was no memory.
    #[error("out of memory")]
    OutOfMemory,
    /// Any other failure of the disk, and each save after one that failed: what is kept is known again once the file is
    /// opened anew.
    #[error("state failed")]
    Failed,
}

/// The fault that an error of an open is told as.
pub(crate) fn opening_fault(error: sqlite::Error) -> KeepFault
    ensures { result ≡ opening_fault error }
{
    match error {
        sqlite::Error::SqliteFailure(ErrorCode::DatabaseBusy) => KeepFault::InUse,
        sqlite::Error::SqliteFailure(ErrorCode::NotADatabase) => KeepFault::NotOurs,
        sqlite::Error::SqliteFailure(ErrorCode::DatabaseCorrupt) => KeepFault::Damaged,
        sqlite::Error::SqliteFailure(ErrorCode::CannotOpen) => KeepFault::Unreachable(
            PathFault::Other,
        ),
        sqlite::Error::SqliteFailure(ErrorCode::DiskFull) => KeepFault::Full,
        sqlite::Error::SqliteFailure(ErrorCode::OutOfMemory) => KeepFault::OutOfMemory,
        _ => KeepFault::Failed,
    }
}

/// The fault that an error of a statement is told as.
pub(crate) fn calling_fault(error: sqlite::Error) -> KeepFault
    ensures value { result ≡ calling_fault error }
    ensures plain { (version : ℕ) (db : Database) → IsRefused version db result }
{
    match error {
        sqlite::Error::SqliteFailure(ErrorCode::DatabaseCorrupt) => KeepFault::Damaged,
        sqlite::Error::SqliteFailure(ErrorCode::DiskFull) => KeepFault::Full,
        sqlite::Error::SqliteFailure(ErrorCode::OutOfMemory) => KeepFault::OutOfMemory,
        _ => KeepFault::Failed,
    }
}
