//! Writers that hand whole lines to one outlet (profile).
ghost use Rattle.std.specs.Prelude.{OnOk};
ghost use Rattle.std.specs.Io.KnownBytes.{Keeps, append_known};

use crate::naming::put_named;
use crate::outlet::{Outlet, Taker, Wording};
use std::alloc::{AllocError, Global};
use std::cell::{Cell, RefCell};
use std::io;
use std::io::{ErrorKind, Write};

/// How a gap is told in a log of lines.
const IN_LINES: Wording<'static> = Wording {
    before: "",
    behind: " lines were not told\n",
};

/// What stands before a gap's number in a log of objects.
const GAP_OBJECT: &str = "{\"format\":1,\"kind\":\"not_told\",\"lines\":";

/// How it is told beside the output.
const BESIDE: Wording<'static> = Wording {
    before: "uecp: ",
    behind: " lines were not told\n",
};

/// For how long those are waited for who read what a program says: for as long as it takes, until a limit is set.
#[derive(Drop)]
pub struct Patience {
    milliseconds: Cell<Option<u64>>,
    objects: Cell<bool>,
}

impl Patience {
    /// For as long as it takes.
    pub fn endless() -> Patience {
        Patience {
            milliseconds: Cell::new(None),
            objects: Cell::new(false),
        }
    }

    /// For so many seconds from now on, in which the log is of objects or of lines.
    pub fn limit(&self, seconds: u32, objects: bool) {
        self.milliseconds
            .set(Some(u64::from(seconds).saturating_mul(1000)));
        self.objects.set(objects);
    }
}

/// What a writer's lines are, and so for how long they wait.
#[derive(Clone, Copy, Debug, PartialEq, Eq)]
pub enum Voice {
    /// Output: for as long as the limit says.
    Log,
    /// Why a run stops: so too.
    Reasons,
    /// What whoever connects can cause to be said: once there is a limit, not at all.
    Notices,
}

/// The name of a line, as it stands in each object that is told of it.
#[derive(Debug, Drop)]
pub struct LineName {
    name: String,
    // the end of an object with it
    end: String,
}

impl LineName {
    /// This name: 1 to 64 printable characters of ASCII, no quote and no backslash among them.
    pub fn new(alloc: Global, name: String) -> Result<LineName, AllocError> {
        let mut end = Vec::new(alloc);
        put_named(name.as_str(), b"}\n", &mut end)?;
        match String::from_utf8(end) {
            Ok(end) => Ok(LineName { name, end }),
            Err(_) => Err(AllocError),
        }
    }
}

/// One of the writers to an outlet. What it is given is held to the end of a line, and handed on as that; where a name
/// is given each object gets it as its last member.
#[derive(Drop)]
pub struct LinesOut<'a, W: Write, T: Taker> {
    alloc: Global,
    outlet: &'a RefCell<Outlet<W, T>>,
    patience: &'a Patience,
    voice: Voice,
    name: Option<&'a LineName>,
    begun: Vec<u8>,
    has_failed: bool,
}

impl<'a, W: Write, T: Taker> LinesOut<'a, W, T> {
    /// A writer to this outlet, of lines with this name, if they have one.
    pub fn new(
        alloc: Global,
        outlet: &'a RefCell<Outlet<W, T>>,
        patience: &'a Patience,
        voice: Voice,
        name: Option<&'a LineName>,
    ) -> LinesOut<'a, W, T> {
        LinesOut {
            alloc,
            outlet,
            patience,
            voice,
            name,
            begun: Vec::new(alloc),
            has_failed: false,
        }
    }

    /// Nothing more will come. How many lines of the outlet were not told in the end, where no write failed.
    pub fn close(&mut self) -> u64 {
        if self.has_failed {
            return 0;
        }
        let wording = self.wording();
        match self.outlet.try_borrow_mut() {
            Ok(mut outlet) => outlet.close(&wording),
            Err(_) => 0,
        }
    }

    /// How a gap is told.
    fn wording(&self) -> Wording<'a> {
        match self.voice {
            Voice::Log if self.patience.objects.get() => Wording {
                before: GAP_OBJECT,
                behind: self.name.map_or("}\n", |name| name.end.as_str()),
            },
            Voice::Log => IN_LINES,
            Voice::Reasons | Voice::Notices => BESIDE,
        }
    }

    /// Hands on what was begun, where it is at the end of a line: for so many milliseconds, or for as long as it takes.
    fn hand_on(&mut self, limit: Option<u64>) -> io::Result<()> {
        if self.begun.last() != Some(&b'\n') {
            return Ok(());
        }
        let handed = match self.named() {
            Ok(()) => self.hand(limit),
            Err(_) => Err(ErrorKind::OutOfMemory.into()),
        };
        self.begun.clear();
        self.has_failed = handed.is_err();
        handed
    }

    /// Puts the name into what was begun, if there is one.
    fn named(&mut self) -> Result<(), AllocError> {
        if let Some(name) = self.name {
            let mut lines = Vec::new(self.alloc);
            put_named(name.name.as_str(), self.begun.as_slice(), &mut lines)?;
            self.begun = lines;
        }
        Ok(())
    }

    /// Hands on what was begun.
    fn hand(&mut self, limit: Option<u64>) -> io::Result<()> {
        let wording = self.wording();
        let Ok(mut outlet) = self.outlet.try_borrow_mut() else {
            return Err(ErrorKind::Other.into());
        };
        match limit {
            None => pass_all(&mut *outlet, self.begun.as_slice()),
            Some(limit) => {
                let milliseconds = match self.voice {
                    Voice::Log | Voice::Reasons => limit,
                    Voice::Notices => 0,
                };
                let _fate = outlet.tell(self.begun.as_slice(), &wording, milliseconds)?;
                Ok(())
            }
        }
    }
}

/// Hands these bytes on as they are, all of them, and waits for as long as it takes.
fn pass_all<W: Write, T: Taker>(outlet: &mut Outlet<W, T>, bytes: &[u8]) -> io::Result<()>
    ensures { OnOk result (Keeps (append_known outlet.old.held bytes.now) outlet.new.held) }
{
    let mut rest = bytes;
    for _write in 0..u64::MAX {
        if rest.is_empty() {
            return Ok(());
        }
        match outlet.pass(rest) {
            Ok(0) => return Err(ErrorKind::WriteZero.into()),
            Ok(count) => rest = &rest[count..],
            Err(error) if error.kind() == ErrorKind::Interrupted => {}
            Err(error) => return Err(error),
        }
    }
    Err(ErrorKind::TimedOut.into())
}

impl<'a, W: Write, T: Taker> Write for LinesOut<'a, W, T> {
    fn write(&mut self, buf: &[u8]) -> io::Result<usize> {
        let limit = self.patience.milliseconds.get();
        if limit.is_none() && self.name.is_none() {
            return match self.outlet.try_borrow_mut() {
                Ok(mut outlet) => outlet.pass(buf),
                Err(_) => Err(ErrorKind::Other.into()),
            };
        }
        if self.begun.extend_from_slice(buf).is_err() {
            return Err(ErrorKind::OutOfMemory.into());
        }
        self.hand_on(limit)?;
        Ok(buf.len())
    }

    fn flush(&mut self) -> io::Result<()> {
        match self.outlet.try_borrow_mut() {
            Ok(mut outlet) => outlet.flush(),
            Err(_) => Err(ErrorKind::Other.into()),
        }
    }
}
