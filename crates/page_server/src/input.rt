//! Whether a read of standard input would wait (profile).

use line_feed::Arrival;
use mio::unix::SourceFd;
use mio::{Events, Interest, Poll, Token};
use std::alloc::Global;
use std::net::Net;
use std::os::fd::RawFd;
use std::time::{Clock, Duration};
use std::{io, thread};

/// The token of the descriptor.
const SOURCE: Token = Token(0);

/// Tells whether a read of a descriptor would wait, by a poll of its own. A file is always there, as the system refuses
/// to poll it.
#[derive(Drop)]
pub(crate) struct Input<'a, N: Net + Clock> {
    net: &'a N,
    fd: RawFd,
    waiting: Option<Waiting>,
}

/// A poll with a place for its event.
#[derive(Drop)]
struct Waiting {
    poll: Poll,
    events: Events<Global>,
}

impl<'a, N: Net + Clock> Input<'a, N> {
    /// Asks for this descriptor.
    pub(crate) fn new(alloc: Global, net: &'a N, fd: RawFd) -> Input<'a, N> {
        Input {
            net,
            fd,
            waiting: Waiting::new(alloc, net, fd).ok(),
        }
    }

    /// Whether the system tells when something is there.
    pub(crate) fn is_polled(&self) -> bool {
        self.waiting.is_some()
    }
}

impl<'a, N: Net + Clock> Arrival for Input<'a, N> {
    fn wait(&mut self, milliseconds: Option<u64>) -> bool {
        match &mut self.waiting {
            Some(waiting) => waiting.is_ready(self.fd, milliseconds).unwrap_or(true),
            None => true,
        }
    }

    fn pause(&mut self, milliseconds: u64) {
        thread::sleep(self.net, Duration::from_millis(milliseconds));
    }
}

impl Waiting {
    /// A poll that tells when the descriptor may be read.
    fn new<N: Net>(alloc: Global, net: &N, fd: RawFd) -> io::Result<Waiting> {
        let poll = Poll::new(net)?;
        poll.registry()
            .register(&mut SourceFd(&fd), SOURCE, Interest::READABLE)?;
        let events = Events::with_capacity(alloc, 1)?;
        Ok(Waiting { poll, events })
    }

    /// Whether the descriptor may be read, now or after so many milliseconds at most; what was there before counts.
    fn is_ready(&mut self, fd: RawFd, milliseconds: Option<u64>) -> io::Result<bool> {
        self.poll
            .registry()
            .reregister(&mut SourceFd(&fd), SOURCE, Interest::READABLE)?;
        let limit = milliseconds.map(Duration::from_millis);
        self.poll.poll(&mut self.events, limit)?;
        Ok(!self.events.is_empty())
    }
}
