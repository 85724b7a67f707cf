//! Whether the names of a file and of its log still lead to what was opened there. Source: profile.
ghost use Rattle.std.specs.Prelude.{◌↔◌, IsTrue};
ghost use Rattle.sqlite_image.specs.Names.{GoesOn};

use std::fs;
use std::os::unix::fs::MetadataExt;
use std::rt::HostRuntime;

/// The names of a file that was opened, and of its log.
pub trait Names {
    // From the one state to the other it was asked once, and the names led to the files that were opened, of which none
    // had become shorter.
    ghost lead: { Self → Self → Type 0 };

    /// Whether the names lead to the files that were opened, now, and none of these has become shorter since it was
    /// asked last.
    fn lead(&mut self) -> bool
        ensures { IsTrue result → lead self.old self.new };

    /// Whether `lead` would say so now; what it sees is not kept for the next time.
    fn would_lead(&self) -> bool
        ensures { IsTrue result → ((after : Self) × lead self.now after) };
}

/// What a name shows of the file to which it leads.
#[derive(Clone, Copy, Debug)]
pub struct Sight {
    /// On which device it is.
    pub device: u64,
    /// Its number there.
    pub number: u64,
    /// How many names it has.
    pub names: u64,
    /// How many bytes it has.
    pub len: u64,
}

/// Whether what is seen now is the file that was seen before, under its one name, and no shorter.
fn goes_on(before: Sight, now: Sight) -> bool
    ensures { IsTrue result ↔ GoesOn before now }
{
    now.device == before.device
        && now.number == before.number
        && now.names == 1
        && now.len >= before.len
}

/// The names of a file of the machine and of its log.
#[derive(Drop)]
pub struct MachineNames<'a> {
    rt: &'a HostRuntime,
    file_path: String,
    log_path: String,
    file: Sight,
    log: Sight,
}

impl<'a> MachineNames<'a> {
    /// The names of the file at the path, and of its log, as they are now; none where one of them leads nowhere, or
    /// there was no memory.
    pub(crate) fn new(rt: &'a HostRuntime, path: &str) -> Option<MachineNames<'a>> {
        let file_path = String::from_str(rt.alloc(), path).ok()?;
        let log_path = log_of(rt, path)?;
        let file = seen_at(rt, path)?;
        let log = seen_at(rt, log_path.as_str())?;
        Some(MachineNames {
            rt,
            file_path,
            log_path,
            file,
            log,
        })
    }

    /// What the names show now, of the file and of the log, if each leads to a file.
    fn seen(&self) -> Option<(Sight, Sight)> {
        let file = seen_at(self.rt, self.file_path.as_str())?;
        let log = seen_at(self.rt, self.log_path.as_str())?;
        Some((file, log))
    }
}

/// The path of the log: it lies beside the file to which a link leads.
fn log_of(rt: &HostRuntime, path: &str) -> Option<String> {
    let real = fs::canonicalize(rt, path).ok()?;
    format!(in rt.alloc(); "{}-wal", real.as_str()).ok()
}

/// What the path shows now, if it leads to a file.
fn seen_at(rt: &HostRuntime, path: &str) -> Option<Sight> {
    let found = fs::metadata(rt, path).ok()?;
    Some(Sight {
        device: found.dev(),
        number: found.ino(),
        names: found.nlink(),
        len: found.len(),
    })
}

impl<'a> Names for MachineNames<'a> {
    ghost use Rattle.sqlite_image.specs.Names.{GoesOn};

    ghost lead = { λ before after. GoesOn before.file after.file × GoesOn before.log after.log };

    fn lead(&mut self) -> bool {
        let Some((file, log)) = self.seen() else {
            return false;
        };
        let lead = goes_on(self.file, file) && goes_on(self.log, log);
        self.file = file;
        self.log = log;
        lead
    }

    fn would_lead(&self) -> bool {
        match self.seen() {
            Some((file, log)) => goes_on(self.file, file) && goes_on(self.log, log),
            None => false,
        }
    }
}
