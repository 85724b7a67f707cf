//! Whether a read was given up since nothing came (profile).
ghost use Rattle.std.specs.Prelude.{◌≡◌, Bool, false};

use crate::room::Attention;
use crate::seat::Seat;
use std::io;
use std::io::{ErrorKind, Read};
use std::marker::Model;
use std::net::IpAddr;

/// A reader, and whether the last read of it was given up at its limit of time. One whose other end is gone without a
/// word fails in another way. Where it has a seat that others wait for, it may give way to one of them: from then on
/// each read fails, and nothing is read. Contracts see the reader, and then whether.
#[derive(Drop)]
pub struct Idle<R> {
    reader: R,
    is_idle: bool,
    seat: Option<Seat>,
}

impl<R> Model for Idle<R> {
    ghost Value = { R × Bool };

    ghost view = { λ idle. (idle.reader, idle.is_idle) };
}

impl<R> Idle<R> {
    /// This reader, of which nothing was read yet.
    pub fn new(reader: R) -> Idle<R>
        ensures { result ≡ (reader, false) }
    {
        Idle {
            reader,
            is_idle: false,
            seat: None,
        }
    }

    /// The same in a seat that others wait for.
    pub(crate) fn seated(reader: R, seat: Seat) -> Idle<R>
        ensures { result ≡ (reader, false) }
    {
        Idle {
            reader,
            is_idle: false,
            seat: Some(seat),
        }
    }

    /// Whether the last read was given up at its limit of time.
    pub fn is_idle(&self) -> bool
        ensures { result ≡ self.now.1 }
    {
        self.is_idle
    }

    /// One more address from which no connection was taken while this one had the seat.
    pub fn take_stranger(&self) -> Option<IpAddr> {
        match &self.seat {
            Some(seat) => seat.take_stranger(),
            None => None,
        }
    }

    /// Whether it gave way to one that waited.
    pub fn gave_way(&self) -> bool {
        match &self.seat {
            Some(seat) => seat.gave_way(),
            None => false,
        }
    }
}

impl<R: Read> Read for Idle<R> {
    ghost remaining = { λ idle. R.remaining idle.0 };

    fn read(&mut self, buf: &mut [u8]) -> io::Result<usize> {
        match attention_of(&mut self.seat) {
            Attention::Comes => {}
            Attention::Silent => {
                self.is_idle = true;
                return Err(ErrorKind::WouldBlock.into());
            }
            Attention::GivesWay => {
                self.is_idle = false;
                return Err(ErrorKind::TimedOut.into());
            }
        }
        let read = self.reader.read(buf);
        self.is_idle = matches!(&read, Err(error) if error.kind() == ErrorKind::WouldBlock);
        if let Ok(count) = &read {
            heard(&mut self.seat, &buf[..*count]);
        }
        read
    }
}

/// What a reader in this seat is told before a read.
fn attention_of(seat: &mut Option<Seat>) -> Attention {
    match seat {
        Some(seat) => seat.wait(),
        None => Attention::Comes,
    }
}

/// Tells the seat what was read.
fn heard(seat: &mut Option<Seat>, bytes: &[u8]) {
    match seat {
        Some(seat) => seat.heard(bytes),
        None => {}
    }
}
