//! What no clause says: that calls succeed with ample memory, and the texts of the faults.

use crate::tests::asserting::same;
use sqlite::{Connection, MemStore};
use sqlite_image::{KeepFault, Kept, Opened, PathFault};
use std::alloc::Global;
use std::test::Fail;

/// A database in memory that has nothing yet, opened for images of version 1.
fn opened(alloc: Global) -> Result<Opened<MemStore>, KeepFault> {
    let conn = match Connection::open_in_memory(alloc) {
        Ok(conn) => conn,
        Err(_) => return Err(KeepFault::OutOfMemory),
    };
    match Kept::over(conn, 1) {
        Ok(opened) => Ok(opened),
        Err((fault, _)) => Err(fault),
    }
}

/// Saves twice: the first image makes the row and the second is written over it.
fn kept_twice(alloc: Global) -> Result<(), KeepFault> {
    let Opened { mut kept, image: _ } = opened(alloc)?;
    kept.save(b"one")?;
    kept.save(b"")
}

#[test]
fn images_are_saved(rt: HostRuntime) {
    same!(rt; kept_twice(rt.alloc()), Ok(()));
}

#[test]
fn faults_are_told(rt: HostRuntime) -> Result<(), Fail> {
    for (fault, want) in [
        (KeepFault::InUse, "state in use"),
        (KeepFault::NotOurs, "state is not ours"),
        (KeepFault::Newer(2), "state is of a later version"),
        (KeepFault::Older(0), "state is of an earlier version"),
        (KeepFault::Damaged, "state damaged"),
        (
            KeepFault::Unreachable(PathFault::Folder),
            "state out of reach",
        ),
        (KeepFault::Full, "no room for the state"),
        (KeepFault::OutOfMemory, "out of memory"),
        (KeepFault::Failed, "state failed"),
    ] {
        same!(rt; format!(in rt.alloc(); "{fault}")?.as_str(), want);
    }
    Ok(())
}
