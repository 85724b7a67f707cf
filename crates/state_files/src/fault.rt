//! Why a state file is refused. Source: profile.
ghost use Rattle.std.specs.Prelude.{◌≡◌};
ghost use Rattle.state_files.specs.Faults.{keep_fault, image_fault};

use end_images::ImageFault;
use rds_store::StoreFault;
use sqlite_image::{KeepFault, PathFault};
use thiserror::Error;

/// Why there is no end with this state file, or why a state was not saved. No refusal overwrites what the file has. Its
/// text is what the program says of it behind `uecp: `.
#[derive(Clone, Copy, Debug, PartialEq, Eq, Error)]
pub enum StateFault {
    /// Another process has the file open.
    #[error("state in use")]
    InUse,
    /// The file is another database, or no database.
    #[error("state is not ours")]
    NotOurs,
    /// It was written by a newer program: the version of its format.
    #[error("state is of a later version")]
    Newer(u32),
    /// It was written by an older program: the version of its format.
    #[error("state is of an earlier version")]
    Older(u32),
    /// It has the image of the other end.
    #[error("state is of the other end")]
    OtherEnd,
    /// It has the image of no end: it was damaged.
    #[error("state damaged")]
    Damaged,
    /// The end in it has another address.
    #[error("state is of another address")]
    OtherAddress,
    /// The encoder in it has another number of data sets.
    #[error("state is of another number of data sets")]
    OtherSets,
    /// The encoder in it has other services, or has them in another order.
    #[error("state is of other services")]
    OtherServices,
    /// No store has these data sets and services.
    #[error("{0}")]
    Store(StoreFault),
    /// The path can't be opened, for this.
    #[error("state out of reach")]
    Unreachable(PathFault),
    /// The disk is full.
    #[error("no room for the state")]
    Full,
    /// There was no memory.
    #[error("out of memory")]
    OutOfMemory,
    /// A save was made, and the file's name or that of its log led elsewhere then, or nowhere.
    #[error("state failed")]
    Replaced,
    /// Any other failure of the disk, and each save after one that failed.
    #[error("state failed")]
    Failed,
}

/// The fault that one of the file is told as.
pub(crate) fn keep_fault(fault: KeepFault) -> StateFault
    ensures { result ≡ keep_fault fault }
{
    match fault {
        KeepFault::InUse => StateFault::InUse,
        KeepFault::NotOurs => StateFault::NotOurs,
        KeepFault::Newer(version) => StateFault::Newer(version),
        KeepFault::Older(version) => StateFault::Older(version),
        KeepFault::Damaged => StateFault::Damaged,
        KeepFault::Unreachable(why) => StateFault::Unreachable(why),
        KeepFault::Full => StateFault::Full,
        KeepFault::OutOfMemory => StateFault::OutOfMemory,
        KeepFault::Failed => StateFault::Failed,
    }
}

/// The fault that one of the image is told as.
pub(crate) fn image_fault(fault: ImageFault) -> StateFault
    ensures { result ≡ image_fault fault }
{
    match fault {
        ImageFault::Newer(version) => StateFault::Newer(u32::from(version)),
        ImageFault::OtherEnd => StateFault::OtherEnd,
        ImageFault::Damaged => StateFault::Damaged,
        ImageFault::OutOfMemory => StateFault::OutOfMemory,
    }
}
