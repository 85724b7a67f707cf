//! Why a command line was refused (profile).
ghost use Rattle.std.specs.Prelude.{◌≡◌};
ghost use Rattle.command_line.specs.Usages.{SaysError};
ghost use Rattle.command_line.specs.declared.usage.Usage.TheVariants.{OutOfMemory};

use clap::error::ErrorKind;
use std::alloc::{AllocError, AllocFailed};
use thiserror::Error;
use uecp_text::RunFault;

/// Why a command line asks for no job. Its text is what the program says of it, behind `uecp: ` where it is not clap's.
#[derive(Debug, Drop, Error)]
pub enum Usage {
    /// The words are none of the program's, or ask for help or the version: the text is in the error.
    #[error(transparent)]
    Refused(clap::Error),
    /// The services are not two-digit hexadecimal numbers between single commas.
    #[error("{}", RunFault::NotAList)]
    NotAList,
    /// There was no memory to read the words.
    #[error("{}", RunFault::OutOfMemory)]
    OutOfMemory,
}

impl From<clap::Error> for Usage {
    ghost from_gives = { SaysError };

    fn from(error: clap::Error) -> Usage {
        if error.kind() == ErrorKind::OutOfMemory {
            Usage::OutOfMemory
        } else {
            Usage::Refused(error)
        }
    }
}

impl From<AllocError> for Usage {
    ghost from_gives = { λ _ usage. usage ≡ OutOfMemory };

    fn from(_error: AllocError) -> Usage {
        Usage::OutOfMemory
    }
}

impl<T: Drop> From<AllocFailed<T>> for Usage {
    ghost from_gives = { λ _ usage. usage ≡ OutOfMemory };

    fn from(_error: AllocFailed<T>) -> Usage {
        Usage::OutOfMemory
    }
}
