//! Why a path can't be opened.
ghost use Rattle.std.specs.Prelude.{◌≡◌};
ghost use Rattle.sqlite_image.specs.Paths.{path_text};

use std::fs;
use std::fs::Metadata;
use std::io::ErrorKind;
use std::os::unix::fs::MetadataExt;
use std::rt::HostRuntime;

/// Why a path can't be opened as a file of ours. Source: profile.
#[derive(Clone, Copy, Debug, PartialEq, Eq)]
pub enum PathFault {
    /// A folder of the path isn't there, or is none.
    NoFolder,
    /// There is no file, where one is to be there.
    NoFile,
    /// The file, its log or its folder may not be read, written or made.
    NotPermitted,
    /// The file system is mounted to be read alone.
    ReadOnly,
    /// It is a folder.
    Folder,
    /// It is a pipe, a socket or a device.
    NoPlainFile,
    /// The file has a second name, by which another process may have it.
    SecondName,
    /// Its log is no plain file of one name.
    Log,
    /// SQLite left a rollback journal beside it, which only that can play back.
    Journal,
    /// The path is no name of a file: it is too long or leads round in links, or SQLite means by it something else.
    NoName,
    /// For another reason of the system's, as that too many files are open.
    Other,
}

impl PathFault {
    /// The reason as it is said, behind the file.
    pub fn text(self) -> &'static str
        ensures { result.now ≡ path_text self }
    {
        match self {
            PathFault::NoFolder => "no such folder",
            PathFault::NoFile => "no such file",
            PathFault::NotPermitted => "not permitted",
            PathFault::ReadOnly => "read-only",
            PathFault::Folder => "it is a folder",
            PathFault::NoPlainFile => "it is no file",
            PathFault::SecondName => "it has a second name",
            PathFault::Log => "its log is no file, or has a second name",
            PathFault::Journal => "it has a rollback journal",
            PathFault::NoName => "it is no name of a file",
            PathFault::Other => "it can't be opened",
        }
    }
}

/// Why the path could not be opened, where the system answered so. What the kit itself refuses is looked for at the
/// path.
pub(crate) fn path_fault(rt: &HostRuntime, path: &str, kind: ErrorKind) -> PathFault {
    match kind {
        ErrorKind::NotFound | ErrorKind::NotADirectory => PathFault::NoFolder,
        ErrorKind::PermissionDenied => PathFault::NotPermitted,
        ErrorKind::ReadOnlyFilesystem => PathFault::ReadOnly,
        ErrorKind::IsADirectory => PathFault::Folder,
        ErrorKind::InvalidFilename | ErrorKind::InvalidInput | ErrorKind::FilesystemLoop => {
            PathFault::NoName
        }
        ErrorKind::Unsupported => match fs::metadata(rt, path) {
            Ok(found) => fault_of(&found),
            Err(_) => PathFault::NoFile,
        },
        _ => PathFault::Other,
    }
}

/// Why what is there is no file of ours; where it could be one its log is not.
fn fault_of(found: &Metadata) -> PathFault {
    if found.is_dir() {
        PathFault::Folder
    } else if !found.is_file() {
        PathFault::NoPlainFile
    } else if found.nlink() != 1 {
        PathFault::SecondName
    } else {
        PathFault::Log
    }
}
