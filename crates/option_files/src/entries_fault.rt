//! Why a text gives no entries (profile).
ghost use Rattle.std.specs.Prelude.{◌≡◌};
ghost use Rattle.option_files.specs.declared.entries_fault.EntriesFault.TheVariants.{OutOfMemory};

use std::alloc::{AllocError, AllocFailed};
use thiserror::Error;
use toml::de;

/// Why a text gives no entries. Its text is what the program says of it behind the place in the file.
#[derive(Debug, Drop, Error)]
pub enum EntriesFault {
    /// It is no TOML: the error says why, and where.
    #[error("{}", .0.message())]
    NotToml(de::Error),
    /// The key is no name of an option that a file may give.
    #[error("{0:?} is no option that a file may give")]
    NotAName(String),
    /// The key has a value that no option has: a float, a date or a time, an array or a table.
    #[error("{0} takes a string, an integer, true or false")]
    NotAValue(String),
    /// There was no memory.
    #[error("out of memory")]
    OutOfMemory,
}

impl From<AllocError> for EntriesFault {
    ghost from_gives = { λ _ fault. fault ≡ OutOfMemory };

    fn from(_error: AllocError) -> EntriesFault {
        EntriesFault::OutOfMemory
    }
}

impl<T: Drop> From<AllocFailed<T>> for EntriesFault {
    ghost from_gives = { λ _ fault. fault ≡ OutOfMemory };

    fn from(_error: AllocFailed<T>) -> EntriesFault {
        EntriesFault::OutOfMemory
    }
}
