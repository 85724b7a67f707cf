//! Where connections are accepted, and wait for the seat that one of them has. Nothing is claimed of what a socket
//! gives or takes, nor of the clock (profile).
ghost use Rattle.std.specs.Prelude.{◌≡◌, ◌||◌, Some, unwrap_or, false};
ghost use Rattle.device_edges.specs.Allowed.{IsTaken};

use crate::allowed::Allowed;
use crate::clock::now;
use crate::door::Door;
use crate::frames::brings_frame;
use crate::lobby::{GUESTS_MAX, Look};
use crate::screen::begins_foreign;
use libc::net::{POLLIN, poll};
use libc::types::pollfd;
use std::alloc::{AllocError, Global};
use std::io::{Error, ErrorKind};
use std::net::{IpAddr, TcpListener, TcpStream};
use std::os::fd::{AsRawFd, RawFd};
use uecp_frame::{Address, Deframer};

/// How many bytes of one who waits are looked at.
const LOOK_MAX: usize = 1024;

/// After how many milliseconds those who have brought no frame are looked at again.
const LOOK_EVERY: u64 = 100;

/// How many milliseconds no connection is asked for, where the system gave none.
const REST: u64 = 1000;

/// How many connections are accepted at a time.
const ACCEPTS_MAX: u32 = 64;

/// How many addresses are told from which no connection is taken.
const STRANGERS_MAX: usize = 8;

/// The system's codes of no room for one more connection: no memory, too many open files of all or of this process, no
/// buffer (Linux: ENOMEM, ENFILE, EMFILE, ENOBUFS).
const OUT_OF_ROOM: [i32; 4] = [12, 23, 24, 105];

/// The longest wait of one poll, in milliseconds.
const POLL_MAX: u64 = 1_000_000_000;

/// When a connection gives way, and to whose encoder a frame has to be.
#[derive(Clone, Copy, Debug)]
pub struct Yielding {
    /// After how many seconds, not 0.
    pub seconds: u32,
    /// The encoder's address.
    pub address: Address,
}

/// What came of a wait.
#[derive(Clone, Copy, Debug)]
pub struct Ready {
    /// The connection that has the seat may be read.
    pub line: bool,
    /// So may the descriptor beside it.
    pub beside: bool,
    /// One may be accepted.
    pub listener: bool,
}

impl Ready {
    /// Nothing came.
    pub(crate) fn nothing() -> Ready {
        Ready {
            line: false,
            beside: false,
            listener: false,
        }
    }
}

/// What the one that has the seat is told.
#[derive(Clone, Copy, Debug)]
pub(crate) enum Attention {
    /// Something came on it.
    Comes,
    /// Nothing came for its limit of time.
    Silent,
    /// It gives way.
    GivesWay,
}

/// A listener, those who wait, and how the one that has the seat stands.
#[derive(Drop)]
pub(crate) struct Room {
    listener: TcpListener,
    door: Door<TcpStream>,
    yielding: Option<Yielding>,
    /// When the one that has the seat brought a good frame last, or got it.
    good: u64,
    /// Whether that one gave way.
    is_given: bool,
    /// Until when no connection is asked for.
    rest: u64,
    /// Whether the system lacked room for one more since that was taken last; None where it was not asked since.
    lacked: Option<bool>,
    /// The first addresses from which no connection was taken, and how many of these were told.
    strangers: Vec<IpAddr>,
    told: usize,
}

impl Room {
    /// A room of this listener, whose calls don't wait, in which nobody waits.
    pub(crate) fn new(
        alloc: Global,
        listener: TcpListener,
        yielding: Option<Yielding>,
        allowed: Option<Allowed>,
    ) -> Result<Room, AllocError> {
        Ok(Room {
            listener,
            door: Door::new(alloc, allowed)?,
            yielding,
            good: 0,
            is_given: false,
            rest: 0,
            lacked: None,
            strangers: Vec::new(alloc),
            told: 0,
        })
    }

    /// The one that has the seat brought a good frame.
    pub(crate) fn heard_frame(&mut self) {
        self.good = now();
    }

    /// Whether no connection is asked for now, since the system gave none.
    pub(crate) fn is_resting(&self) -> bool {
        now() < self.rest
    }

    /// Whether the system lacked a descriptor or memory for one more connection since this was asked last; None where
    /// it was not asked for one since.
    pub(crate) fn take_lacked(&mut self) -> Option<bool> {
        let lacked = self.lacked;
        self.lacked = None;
        lacked
    }

    /// The system was asked for one, and lacked a descriptor or memory for it.
    pub(crate) fn note_lack(&mut self) {
        self.lacked = Some(true);
    }

    /// Whether somebody waits.
    pub(crate) fn is_waited_for(&self) -> bool {
        self.door.lobby().len() > 0
    }

    /// The connection that has the seat next, if there is one now.
    pub(crate) fn next(&mut self) -> Option<TcpStream> {
        let time = now();
        self.accept(time);
        self.look(time, false);
        let stream = self.door.take_next()?;
        stream.set_nonblocking(false).ok()?;
        self.good = time;
        self.is_given = false;
        Some(stream)
    }

    /// Whether the one that has the seat gave way.
    pub(crate) fn is_given(&self) -> bool {
        self.is_given
    }

    /// Whether the one that has the seat gives way now: it has brought no good frame for its time, and one who waits
    /// has.
    pub(crate) fn gives_way(&mut self) -> bool {
        if self.yielding.is_none() {
            return false;
        }
        let time = now();
        self.accept(time);
        self.look(time, true);
        self.is_given = self.is_quiet(time) && self.door.lobby().ready_place().is_some();
        self.is_given
    }

    /// Waits until something comes on the connection that has the seat, or it gives way, or nothing came for so many
    /// milliseconds.
    pub(crate) fn attend(&mut self, line: RawFd, idle: Option<u64>) -> Attention {
        let begun = now();
        for _turn in 0..u64::MAX {
            let left = idle.map(|most| most.saturating_sub(now().saturating_sub(begun)));
            let ready = self.wait(Some(line), None, left);
            if (ready.listener || self.is_waited_for()) && self.gives_way() {
                return Attention::GivesWay;
            }
            if ready.line {
                return Attention::Comes;
            }
            if left == Some(0) {
                return Attention::Silent;
            }
        }
        Attention::Comes
    }

    /// Waits until one of these may be read, or a connection accepted, or those who wait are to be looked at, or so
    /// many milliseconds have gone by. Where the connection that has the seat gives way to nobody, none is accepted
    /// meanwhile.
    pub(crate) fn wait(
        &mut self,
        line: Option<RawFd>,
        beside: Option<RawFd>,
        milliseconds: Option<u64>,
    ) -> Ready {
        let time = now();
        let mut listener = None;
        if (line.is_none() || self.yielding.is_some())
            && self.door.lobby().has_place()
            && time >= self.rest
        {
            listener = Some(self.listener.as_raw_fd());
        }
        let limit = self.limit(time, line.is_some(), milliseconds);
        poll_three(line, beside, listener, limit)
    }

    /// For how many milliseconds is waited at most.
    fn limit(&self, time: u64, is_taken: bool, milliseconds: Option<u64>) -> Option<u64> {
        let mut limit = milliseconds;
        if time < self.rest {
            limit = least(limit, self.rest - time);
        }
        if is_taken && self.yielding.is_some() {
            if self.door.lobby().silent_place().is_some() {
                limit = least(limit, LOOK_EVERY);
            }
            if self.door.lobby().ready_place().is_some() {
                limit = least(limit, self.quiet_at().saturating_sub(time));
            }
        }
        limit
    }

    /// When the one that has the seat has brought no good frame for its time.
    fn quiet_at(&self) -> u64 {
        match self.yielding {
            Some(yielding) => self
                .good
                .saturating_add(u64::from(yielding.seconds).saturating_mul(1000)),
            None => u64::MAX,
        }
    }

    /// Whether it has brought none for its time.
    fn is_quiet(&self, time: u64) -> bool {
        self.quiet_at() <= time
    }

    /// Accepts those who came.
    fn accept(&mut self, time: u64) {
        for _one in 0..ACCEPTS_MAX {
            if self.door.lobby().len() >= GUESTS_MAX {
                self.look(time, false);
            }
            if time < self.rest || !self.door.lobby().has_place() {
                return;
            }
            if self.yielding.is_none() && self.door.lobby().len() > 0 {
                return;
            }
            match self.listener.accept() {
                Ok((stream, from)) => self.meet(stream, from.ip(), time),
                Err(error) => {
                    if error.kind() != ErrorKind::WouldBlock {
                        self.rest = time.saturating_add(REST);
                    }
                    self.lacked = known(self.lacked, lacks_room(&error));
                    return;
                }
            }
        }
    }

    /// A connection from this address: it waits, or is closed. Where the system would give no second end of it, it is
    /// let go.
    fn meet(&mut self, stream: TcpStream, from: IpAddr, time: u64)
        ensures { ¬ (IsTaken self.old.door.allowed from) → self.new.door ≡ self.old.door }
    {
        let lacks = stream.try_clone().is_err();
        self.lacked = known(self.lacked, lacks);
        if lacks {
            self.rest = time.saturating_add(REST);
            return;
        }
        if stream.set_nonblocking(true).is_err() {
            return;
        }
        if !self.door.meet(stream, from, time) {
            self.note(from);
        }
    }

    /// No connection is taken from this address.
    fn note(&mut self, from: IpAddr)
        ensures { self.new.door ≡ self.old.door }
    {
        if self.strangers.len() < STRANGERS_MAX && !self.strangers.contains(&from) {
            let _ = self.strangers.push(from);
        }
    }

    /// One more address from which no connection was taken, each once, the first eight at most.
    pub(crate) fn take_stranger(&mut self) -> Option<IpAddr> {
        let address = *self.strangers.get(self.told)?;
        self.told = self.told.saturating_add(1);
        Some(address)
    }

    /// Looks at those who wait. Where `lets_go` holds those that are gone, or have brought no frame for too long, wait
    /// no longer.
    fn look(&mut self, time: u64, lets_go: bool) {
        let mut place = 0;
        for _guest in 0..GUESTS_MAX {
            let Some(stream) = self.door.lobby().line_at(place) else {
                return;
            };
            let look = look_at(stream, self.yielding);
            let look = match look {
                Look::Ready => Look::Ready,
                look if lets_go => look,
                _ => Look::Kept,
            };
            if !self.door.settle(place, look, time) {
                place = place.saturating_add(1);
            }
        }
    }
}

/// Whether the system lacked room since that was taken last, where it did now, or not.
fn known(lacked: Option<bool>, lacks: bool) -> Option<bool>
    ensures { result ≡ Some (lacks || unwrap_or lacked false) }
{
    Some(lacks || lacked.unwrap_or(false))
}

/// Whether a call that failed so failed for want of a descriptor or of memory.
pub fn lacks_room(error: &Error) -> bool {
    match error.raw_os_error() {
        Some(code) => OUT_OF_ROOM.contains(&code),
        None => false,
    }
}

/// What a connection has brought, of which nothing is taken.
fn look_at(stream: &TcpStream, yielding: Option<Yielding>) -> Look {
    let Some(yielding) = yielding else {
        return Look::Kept;
    };
    let mut bytes = [0u8; LOOK_MAX];
    match stream.peek(&mut bytes) {
        Ok(0) => Look::Gone,
        Ok(count) => {
            let first = &bytes[..count];
            let mut deframer = Deframer::new();
            if !begins_foreign(first) && brings_frame(&mut deframer, first, yielding.address) {
                Look::Ready
            } else {
                Look::Silent
            }
        }
        Err(error) => match error.kind() {
            ErrorKind::WouldBlock | ErrorKind::Interrupted => Look::Silent,
            _ => Look::Gone,
        },
    }
}

/// The lesser of a limit, if there is one, and this.
fn least(limit: Option<u64>, other: u64) -> Option<u64> {
    match limit {
        Some(limit) => Some(limit.min(other)),
        None => Some(other),
    }
}

/// Waits until one of three descriptors may be read, or so many milliseconds have gone by.
fn poll_three(
    line: Option<RawFd>,
    beside: Option<RawFd>,
    listener: Option<RawFd>,
    limit: Option<u64>,
) -> Ready {
    let mut asked = [asked(line), asked(beside), asked(listener)];
    let timeout = match limit {
        Some(limit) => i32::try_from(limit.min(POLL_MAX)).unwrap_or(i32::MAX),
        None => -1,
    };
    if poll(&mut asked, timeout) <= 0 {
        return Ready::nothing();
    }
    Ready {
        line: asked[0].revents != 0,
        beside: asked[1].revents != 0,
        listener: asked[2].revents != 0,
    }
}

/// What is asked of a descriptor; nothing where there is none.
fn asked(fd: Option<RawFd>) -> pollfd {
    pollfd {
        fd: fd.unwrap_or(-1),
        events: POLLIN,
        revents: 0,
    }
}
