//! One wait for all that may come (profile).

use mio::unix::SourceFd;
use mio::{Events, Interest, Poll, Token};
use std::alloc::Global;
use std::io;
use std::io::ErrorKind;
use std::net::Net;
use std::os::fd::RawFd;
use std::time::Duration;

/// The token of the listener.
pub(crate) const LISTENER: Token = Token(usize::MAX);

/// The token of standard input.
pub(crate) const INPUT: Token = Token(usize::MAX - 1);

/// How many events are told at once.
const EVENTS_MAX: usize = 64;

/// A poll with places for its events.
#[derive(Drop)]
pub(crate) struct Door {
    poll: Poll,
    events: Events<Global>,
}

impl Door {
    /// A poll that waits for nothing yet.
    pub(crate) fn new<N: Net>(alloc: Global, net: &N) -> io::Result<Door> {
        Ok(Door {
            poll: Poll::new(net)?,
            events: Events::with_capacity(alloc, EVENTS_MAX)?,
        })
    }

    /// Has the poll tell of a descriptor that may be read.
    pub(crate) fn watch(&self, fd: RawFd, token: Token) -> bool {
        self.poll
            .registry()
            .register(&mut SourceFd(&fd), token, Interest::READABLE)
            .is_ok()
    }

    /// The same of one that it tells of already: what is there now is told again. Where `writes` holds it tells too
    /// where one may be written, which is asked for only while something waits to be, since it mostly may.
    pub(crate) fn watch_on(&self, fd: RawFd, token: Token, writes: bool) -> bool {
        self.poll
            .registry()
            .reregister(&mut SourceFd(&fd), token, interest(writes))
            .is_ok()
    }

    /// Waits at most so many milliseconds. The numbers are those of the tokens of what may be read or written, but for
    /// the listener and the input. Whether the listener may be read.
    pub(crate) fn wait(&mut self, milliseconds: u64, numbers: &mut Vec<usize>) -> io::Result<bool> {
        numbers.clear();
        self.poll.poll(&mut self.events, Some(Duration::from_millis(milliseconds)))?;
        let mut asks = false;
        for event in &self.events {
            let token = event.token();
            if token == LISTENER {
                asks = true;
            } else if token != INPUT && numbers.push(token.0).is_err() {
                return Err(io::Error::from(ErrorKind::OutOfMemory));
            }
        }
        Ok(asks)
    }
}

/// What is asked for of a descriptor.
fn interest(writes: bool) -> Interest {
    if writes {
        Interest::READABLE | Interest::WRITABLE
    } else {
        Interest::READABLE
    }
}
