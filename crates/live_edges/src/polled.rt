//! Whether bytes of a descriptor are there, by a poll (profile).

use crate::notices::say_lost;
use crate::watch::Watch;
use line_feed::Arrival;
use mio::unix::SourceFd;
use mio::{Events, Interest, Poll, Token};
use std::alloc::Global;
use std::io::Write;
use std::marker::Model;
use std::net::{Net, TcpStream};
use std::os::fd::{AsRawFd, RawFd};
use std::time::{Clock, Duration};
use std::{io, thread};

/// The token of the descriptor.
const SOURCE: Token = Token(0);

/// The token of the connection that is looked after.
const LINE: Token = Token(1);

/// Tells whether a read of a descriptor would wait. A file is always there, as the system refuses to poll it; and so is
/// a descriptor that can't be polled for want of anything, so that a read tells what is wrong. While it waits without a
/// limit it looks after the connection of its watch: where the other end closes it, or it breaks, that is said at once.
/// Bytes that come unasked are left where they are.
#[derive(Drop)]
pub struct Polled<'a, N: Net + Clock, W: Write> {
    net: &'a N,
    fd: RawFd,
    watch: &'a Watch,
    notices: &'a mut W,
    waiting: Option<Waiting>,
}

impl<'a, N: Net + Clock, W: Write> Model for Polled<'a, N, W> {
    // Nothing is known of what a poll will tell.
    ghost Value = { Unit {0} };

    ghost view = { λ _. tt };
}

/// A poll with places for the events of the descriptor and of the connection.
#[derive(Drop)]
struct Waiting {
    poll: Poll,
    events: Events<Global>,
}

impl<'a, N: Net + Clock, W: Write> Polled<'a, N, W> {
    /// Asks for this descriptor, looks after the connection of this watch, and says on `notices` that it is lost.
    pub fn new(
        alloc: Global,
        net: &'a N,
        fd: RawFd,
        watch: &'a Watch,
        notices: &'a mut W,
    ) -> Polled<'a, N, W> {
        Polled {
            net,
            fd,
            watch,
            notices,
            waiting: Waiting::new(alloc, net, fd).ok(),
        }
    }
}

impl<'a, N: Net + Clock, W: Write> Arrival for Polled<'a, N, W> {
    fn wait(&mut self, milliseconds: Option<u64>) -> bool {
        let Some(waiting) = &mut self.waiting else {
            return true;
        };
        if milliseconds.is_none() && waiting.loses(self.fd, self.watch) {
            say_lost(self.watch.form(), self.net, self.notices);
        }
        waiting.is_ready(self.fd, milliseconds).unwrap_or(true)
    }

    fn pause(&mut self, milliseconds: u64) {
        thread::sleep(self.net, Duration::from_millis(milliseconds));
    }
}

impl Waiting {
    /// A poll that tells when the descriptor may be read.
    fn new<N: Net>(alloc: Global, net: &N, fd: RawFd) -> io::Result<Waiting> {
        let poll = Poll::new(net)?;
        poll.registry()
            .register(&mut SourceFd(&fd), SOURCE, Interest::READABLE)?;
        let events = Events::with_capacity(alloc, 2)?;
        Ok(Waiting { poll, events })
    }

    /// Whether the descriptor may be read, now or after so many milliseconds at most.
    fn is_ready(&mut self, fd: RawFd, milliseconds: Option<u64>) -> io::Result<bool> {
        self.ask_anew(fd)?;
        let limit = milliseconds.map(Duration::from_millis);
        self.poll.poll(&mut self.events, limit)?;
        Ok(!self.events.is_empty())
    }

    /// Registers the descriptor again, so that the system tells what was there before too.
    fn ask_anew(&self, fd: RawFd) -> io::Result<()> {
        self.poll
            .registry()
            .reregister(&mut SourceFd(&fd), SOURCE, Interest::READABLE)
    }

    /// Waits until the descriptor may be read, or the connection of the watch is lost, if it has one. Whether it is
    /// lost, which the watch is told.
    fn loses(&mut self, fd: RawFd, watch: &Watch) -> bool {
        let Some(stream) = watch.take() else {
            return false;
        };
        let is_lost = self.is_lost(fd, &stream).unwrap_or(false);
        if is_lost {
            watch.lose();
        } else {
            watch.give_back(stream);
        }
        is_lost
    }

    /// Waits until the descriptor may be read, or this connection is lost, and tells whether it is lost.
    fn is_lost(&mut self, fd: RawFd, stream: &TcpStream) -> io::Result<bool> {
        let line = stream.as_raw_fd();
        self.poll
            .registry()
            .register(&mut SourceFd(&line), LINE, Interest::READABLE)?;
        let is_lost = self.is_lost_first(fd);
        self.poll.registry().deregister(&mut SourceFd(&line))?;
        is_lost
    }

    /// Whether the connection that is registered is lost before the descriptor may be read. The system tells of a
    /// change, so bytes that come unasked wake it up once.
    fn is_lost_first(&mut self, fd: RawFd) -> io::Result<bool> {
        self.ask_anew(fd)?;
        for _event in 0..u64::MAX {
            self.poll.poll(&mut self.events, None)?;
            for event in &self.events {
                if event.token() == SOURCE {
                    return Ok(false);
                }
                if event.is_read_closed() || event.is_error() {
                    return Ok(true);
                }
            }
        }
        Ok(false)
    }
}
