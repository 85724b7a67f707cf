//! Why a run stopped (profile).
ghost use Rattle.std.specs.Prelude.{◌≡◌};
ghost use Rattle.uecp_text.specs.Faults.{status_of};
ghost use Rattle.uecp_text.specs.declared.run_fault.RunFault.TheVariants.{OutOfMemory};

use crate::text_fault::{BehindNumber, TextFault};
use rds_store::StoreFault;
use std::alloc::{AllocError, AllocFailed};
use thiserror::Error;

/// Why a run stopped before its end. Its text is what `report` says of it behind `uecp: `.
#[derive(Debug, Drop, Error)]
pub enum RunFault {
    /// The text of the line of this number, counted from 1, was refused.
    #[error("line {0}{refusal}", refusal = BehindNumber(.1))]
    Text(usize, TextFault),
    /// The services or the number of data sets were refused by the store.
    #[error("services: {0}")]
    Services(StoreFault),
    /// The services are no list of hexadecimal numbers.
    #[error("services: NotAList")]
    NotAList,
    /// The address is not that of one encoder. The command line gives no such address.
    #[error("address: NotExact")]
    Address,
    /// The input has more than 1,048,576 bytes.
    #[error("input too long")]
    TooLong,
    /// The input could not be read.
    #[error("reading failed")]
    Reading,
    /// The output could not be written.
    #[error("writing failed")]
    Writing,
    /// There was no memory.
    #[error("out of memory")]
    OutOfMemory,
    /// A connection could not be accepted, or the port not be listened on.
    #[error("listening failed")]
    Listening,
    /// A connection broke or was refused, and what was sent on it is outstanding.
    #[error("connection failed")]
    Connection,
    /// A text ended the run, since what it asks for is outstanding. Nothing is said of that on standard error.
    #[error("messages are outstanding")]
    Outstanding,
}

impl RunFault {
    /// The exit status of a run that this stopped: 1 for a line, 2 for what the command line gave, else 3.
    pub fn status(&self) -> u8
        ensures { result ≡ status_of self.now }
    {
        match self {
            RunFault::Text(_, _) => 1,
            RunFault::Services(_) | RunFault::NotAList | RunFault::Address => 2,
            _ => 3,
        }
    }
}

impl From<AllocError> for RunFault {
    ghost from_gives = { λ _ e. e ≡ OutOfMemory };

    fn from(_error: AllocError) -> RunFault {
        RunFault::OutOfMemory
    }
}

impl<T: Drop> From<AllocFailed<T>> for RunFault {
    ghost from_gives = { λ _ e. e ≡ OutOfMemory };

    fn from(_error: AllocFailed<T>) -> RunFault {
        RunFault::OutOfMemory
    }
}
