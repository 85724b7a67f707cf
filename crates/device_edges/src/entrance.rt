//! Where connections come in, one has the seat, and others wait for it. Nothing is claimed of what a socket gives or
//! takes (profile).

use crate::accepting::{BindFault, bind};
use crate::allowed::Allowed;
use crate::idle::Idle;
use crate::room::{Ready, Room, Yielding, lacks_room};
use crate::seat::Seat;
use libc::net as c;
use live_edges::keep_alive;
use std::alloc::Global;
use std::cell::RefCell;
use std::io;
use std::net::{Net, SocketAddr, TcpListener, TcpStream};
use std::os::fd::{AsRawFd, RawFd};
use std::rc::Rc;
use std::time::Duration;

/// How many bytes the system holds at most for one that does not take them, before a write waits.
const HELD_MAX: u32 = 16_384;

/// A listener, with those who wait for the one seat, and what the one that has it is told. With a [`Yielding`] a
/// connection gives way to one that waits; without it nobody is accepted while one is served.
#[derive(Drop)]
pub struct Entrance {
    room: Rc<RefCell<Room>>,
    yielding: Option<Yielding>,
}

impl Entrance {
    /// Listens at an address and a port from now on. Connections are taken from where it is allowed; with None from
    /// anywhere.
    ///
    /// Errors: as [`BindFault`] has them.
    pub fn new<N: Net<Listener = TcpListener, Stream = TcpStream>>(
        alloc: Global,
        net: &N,
        place: SocketAddr,
        yielding: Option<Yielding>,
        allowed: Option<Allowed>,
    ) -> Result<Entrance, BindFault> {
        let listener = bind(net, place)?;
        if listener.set_nonblocking(true).is_err() {
            return Err(BindFault::Failed);
        }
        let kept = copy_of(&yielding);
        let Ok(room) = Room::new(alloc, listener, yielding, allowed) else {
            return Err(BindFault::Failed);
        };
        match Rc::new(alloc, RefCell::new(room)) {
            Ok(room) => Ok(Entrance {
                room,
                yielding: kept,
            }),
            Err(_) => Err(BindFault::Failed),
        }
    }

    /// When a connection gives way, if it does.
    pub fn yielding(&self) -> Option<Yielding> {
        self.yielding
    }

    /// Waits until the connection that has the seat may be read, if there is one, or the descriptor beside it; or one
    /// may be accepted, or those who wait are to be looked at; or so many milliseconds have gone by.
    pub fn wait(
        &self,
        line: Option<RawFd>,
        beside: Option<RawFd>,
        milliseconds: Option<u64>,
    ) -> Ready {
        match self.room.try_borrow_mut() {
            Ok(mut room) => room.wait(line, beside, milliseconds),
            Err(_) => Ready::nothing(),
        }
    }

    /// Whether the connection that has the seat gives way now to one that waits.
    pub fn gives_way(&self) -> bool {
        match self.room.try_borrow_mut() {
            Ok(mut room) => room.gives_way(),
            Err(_) => false,
        }
    }

    /// Whether somebody waits.
    pub fn is_waited_for(&self) -> bool {
        match self.room.try_borrow() {
            Ok(room) => room.is_waited_for(),
            Err(_) => false,
        }
    }

    /// Whether no connection is asked for now, since the system gave none.
    pub fn is_resting(&self) -> bool {
        match self.room.try_borrow() {
            Ok(room) => room.is_resting(),
            Err(_) => false,
        }
    }

    /// Whether the system lacked a descriptor or memory for one more connection since this was asked last; None where
    /// it was not asked for one since.
    pub fn take_lacked(&self) -> Option<bool> {
        match self.room.try_borrow_mut() {
            Ok(mut room) => room.take_lacked(),
            Err(_) => None,
        }
    }

    /// What came of a call for a connection, noted where it failed for want of a descriptor or of memory.
    fn noted<T>(&self, came: io::Result<T>) -> io::Result<T> {
        if let Err(error) = &came {
            if lacks_room(error) {
                if let Ok(mut room) = self.room.try_borrow_mut() {
                    room.note_lack();
                }
            }
        }
        came
    }

    /// The connection that has the seat next, if there is one now.
    pub fn next(&self) -> Option<TcpStream> {
        match self.room.try_borrow_mut() {
            Ok(mut room) => room.next(),
            Err(_) => None,
        }
    }

    /// The two ends of the connection that has the seat. A read waits for something to come, for its limit of time at
    /// most, and gives way meanwhile.
    pub(crate) fn waiting_ends(
        &self,
        stream: TcpStream,
        idle: Option<u32>,
    ) -> io::Result<(Idle<TcpStream>, TcpStream)> {
        let Some(yielding) = self.yielding else {
            let limit = idle.map(seconds);
            return self.noted(two_ends(stream, limit, limit));
        };
        let write = match idle {
            Some(idle) => idle.min(yielding.seconds),
            None => yielding.seconds,
        };
        let copy = self.noted(prepared(&stream, None, Some(seconds(write))))?;
        hold_few(&stream);
        let line = Some(stream.as_raw_fd());
        let idle = idle.map(|idle| u64::from(idle) * 1000);
        let seat = Seat::new(self.room.clone()?, yielding.address, line, idle);
        Ok((Idle::seated(stream, seat), copy))
    }

    /// The two ends of the connection that has the seat, with a limit of time for a read and one for a write. A read
    /// does not wait for others: where the connection gave way it fails.
    pub fn ends(
        &self,
        stream: TcpStream,
        read: Duration,
        write: Duration,
    ) -> io::Result<(Idle<TcpStream>, TcpStream)> {
        let Some(yielding) = self.yielding else {
            return self.noted(two_ends(stream, Some(read), Some(write)));
        };
        let copy = self.noted(prepared(&stream, Some(read), Some(write)))?;
        let seat = Seat::new(self.room.clone()?, yielding.address, None, None);
        Ok((Idle::seated(stream, seat), copy))
    }
}

/// The same once more.
fn copy_of(yielding: &Option<Yielding>) -> Option<Yielding> {
    match yielding {
        Some(yielding) => Some(Yielding {
            seconds: yielding.seconds,
            address: yielding.address,
        }),
        None => None,
    }
}

/// The two ends of a connection that was accepted, with a limit of time for a read and one for a write. The system is
/// asked to send each reply as soon as it is written; where that is refused the connection is slower, and no more than
/// that. Whether the other end is there is asked where nothing came for a minute, and a read fails where it is not.
fn two_ends(
    stream: TcpStream,
    read: Option<Duration>,
    write: Option<Duration>,
) -> io::Result<(Idle<TcpStream>, TcpStream)> {
    let copy = prepared(&stream, read, write)?;
    Ok((Idle::new(stream), copy))
}

/// Has the system hold few bytes that the other end does not take, so that a write soon waits where it takes none.
pub fn hold_few(stream: &TcpStream) {
    let mut value = [0u8; 16];
    value[..4].copy_from_slice(&HELD_MAX.to_ne_bytes());
    unsafe {
        c::setsockopt(stream.as_raw_fd(), c::SOL_SOCKET, c::SO_SNDBUF, &value, 4);
    }
}

/// Sets the limits of a connection, and copies it.
fn prepared(
    stream: &TcpStream,
    read: Option<Duration>,
    write: Option<Duration>,
) -> io::Result<TcpStream> {
    stream.set_read_timeout(read)?;
    stream.set_write_timeout(write)?;
    let _ = stream.set_nodelay(true);
    keep_alive(stream);
    stream.try_clone()
}

/// So many seconds.
fn seconds(count: u32) -> Duration {
    Duration::from_secs(u64::from(count))
}
