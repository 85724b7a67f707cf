//! The seat of the one connection that is served, for which others wait (profile).

use crate::frames::brings_frame;
use crate::room::{Attention, Room};
use std::cell::RefCell;
use std::net::IpAddr;
use std::os::fd::RawFd;
use std::rc::Rc;
use uecp_frame::{Address, Deframer};

/// A seat: the room in which the others wait, and what the connection has brought.
#[derive(Drop)]
pub(crate) struct Seat {
    room: Rc<RefCell<Room>>,
    address: Address,
    deframer: Deframer,
    /// The connection, where the seat is to wait for it.
    line: Option<RawFd>,
    /// After how many milliseconds with nothing read a wait ends.
    idle: Option<u64>,
    gave_way: bool,
}

impl Seat {
    /// A seat in this room, of a connection to the encoder of this address.
    pub(crate) fn new(
        room: Rc<RefCell<Room>>,
        address: Address,
        line: Option<RawFd>,
        idle: Option<u64>,
    ) -> Seat {
        Seat {
            room,
            address,
            deframer: Deframer::new(),
            line,
            idle,
            gave_way: false,
        }
    }

    /// One more address from which no connection was taken.
    pub(crate) fn take_stranger(&self) -> Option<IpAddr> {
        match self.room.try_borrow_mut() {
            Ok(mut room) => room.take_stranger(),
            Err(_) => None,
        }
    }

    /// Whether it was given to another.
    pub(crate) fn gave_way(&self) -> bool {
        self.gave_way
    }

    /// Waits until something comes on the connection, or it gives way, or nothing came for too long. Where the seat is
    /// not to wait, it says whether the connection gave way.
    pub(crate) fn wait(&mut self) -> Attention {
        if self.gave_way {
            return Attention::GivesWay;
        }
        let (line, idle) = (self.line, self.idle);
        let attention = match self.room.try_borrow_mut() {
            Ok(mut room) => match line {
                Some(line) => room.attend(line, idle),
                None => given(room.is_given()),
            },
            Err(_) => Attention::Comes,
        };
        if let Attention::GivesWay = attention {
            self.gave_way = true;
        }
        attention
    }

    /// These bytes were read.
    pub(crate) fn heard(&mut self, bytes: &[u8]) {
        if brings_frame(&mut self.deframer, bytes, self.address) {
            if let Ok(mut room) = self.room.try_borrow_mut() {
                room.heard_frame();
            }
        }
    }
}

/// What one is told that is not to wait.
fn given(is_given: bool) -> Attention {
    if is_given {
        Attention::GivesWay
    } else {
        Attention::Comes
    }
}
