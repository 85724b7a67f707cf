//! The sockets of a page over TCP: one wait for what comes, and the clock. Nothing is claimed of what a socket gives or
//! takes, nor of the clock (profile).
ghost use Rattle.page_server.specs.Guesting.{PassesNone};

use crate::door::{Door, INPUT, LISTENER};
use crate::input::Input;
use device_edges::lacks_room;
use line_feed::Arrival;
use mio::Token;
use notices::{Notices, NoticesTo};
use page::{Accepted, Connection, Passed, Sockets};
use seats::origin_of;
use std::alloc::Global;
use std::io::{Error, ErrorKind, Read, Write};
use std::net::{Net, Shutdown, SocketAddr, TcpListener, TcpStream};
use std::os::fd::{AsRawFd, RawFd};
use std::time::{Clock, Instant};

/// The most milliseconds that are counted: some eight million years.
const TIME_MAX: u64 = (1 << 58) - 1;

/// For how many milliseconds nobody is accepted where the system has nothing for one more.
const PAUSE: u64 = 1000;

/// The connection of a browser, whose calls don't wait. Its number is that of its descriptor, its origin that of the
/// address that was told as it was accepted.
#[derive(Drop)]
pub(crate) struct Browser {
    stream: TcpStream,
    number: usize,
    origin: u128,
}

/// Who listens, what is waited for, and the clock of the machine.
#[derive(Drop)]
pub(crate) struct TcpSockets<'a, N: Net<Listener = TcpListener, Stream = TcpStream> + Clock> {
    net: &'a N,
    door: Door,
    listener: TcpListener,
    was_asked: bool,
    paused: Option<u64>,
    input: Input<'a, N>,
    fd: RawFd,
    begun: Instant,
}

impl<'a, N: Net<Listener = TcpListener, Stream = TcpStream> + Clock> TcpSockets<'a, N> {
    /// Waits at this listener from now on, and for the input of this descriptor; and counts the time from now on. A
    /// regular file is never waited for. None where the machine gives no wait or no clock.
    pub(crate) fn new(
        alloc: Global,
        net: &'a N,
        fd: RawFd,
        listener: TcpListener,
    ) -> Option<TcpSockets<'a, N>> {
        let input = Input::new(alloc, net, fd);
        let (Ok(door), Ok(begun)) = (Door::new(alloc, net), Instant::now(net)) else {
            return None;
        };
        if !door.watch(listener.as_raw_fd(), LISTENER) {
            return None;
        }
        if input.is_polled() {
            let _ = door.watch(fd, INPUT);
        }
        Some(TcpSockets {
            net,
            door,
            listener,
            was_asked: false,
            paused: None,
            input,
            fd,
            begun,
        })
    }

    /// Says where the page is found.
    pub(crate) fn say_place<E: Write>(&self, alloc: Global, errors: &mut NoticesTo<E>) {
        if let Ok(place) = self.listener.local_addr() {
            if let Ok(text) = format!(in alloc; "uecp: page at http://{place}/\n") {
                errors.say(&[text.as_bytes()]);
            }
        }
    }

    /// Whether an accept that failed so failed for want of a descriptor or of memory. Where the system refuses one
    /// more, who asks is still there, and the next accept would fail at once: so nothing is told of who asks until a
    /// second has gone by, or a connection was closed.
    fn is_out(&mut self, error: &Error) -> bool {
        if is_passing(error) {
            return false;
        }
        self.paused = Some(self.now().saturating_add(PAUSE));
        lacks_room(error)
    }

    /// Whether nothing is to be told now of who asks.
    fn is_paused(&mut self) -> bool {
        match self.paused {
            Some(until) => self.now() < until,
            None => false,
        }
    }

    /// The connection over this stream, from this address, of which is told from now on. None where it can't be.
    fn browser(&self, stream: TcpStream, peer: &SocketAddr) -> Option<Browser> {
        let _ = stream.set_nodelay(true);
        stream.set_nonblocking(true).ok()?;
        let number = usize::try_from(stream.as_raw_fd()).ok()?;
        if self.door.watch(stream.as_raw_fd(), Token(number)) {
            Some(Browser {
                stream,
                number,
                origin: origin_of(peer.ip()),
            })
        } else {
            None
        }
    }
}

impl<'a, N: Net<Listener = TcpListener, Stream = TcpStream> + Clock> Sockets for TcpSockets<'a, N> {
    type Connection = Browser;

    ghost reads = { λ _ _ _. Unit {0} };

    fn now(&mut self) -> u64 {
        match self.begun.elapsed(self.net) {
            Ok(elapsed) => u64::try_from(elapsed.as_millis())
                .unwrap_or(TIME_MAX)
                .min(TIME_MAX),
            Err(_) => 0,
        }
    }

    fn wait(&mut self, milliseconds: u64, numbers: &mut Vec<usize>) -> Option<bool> {
        if self.was_asked && !self.is_paused() {
            self.was_asked = false;
            let _ = self
                .door
                .watch_on(self.listener.as_raw_fd(), LISTENER, false);
        }
        self.door.wait(milliseconds, numbers).ok()
    }

    fn has_input(&mut self) -> bool {
        if self.input.wait(Some(0)) {
            return true;
        }
        let _ = self.door.watch_on(self.fd, INPUT, false);
        false
    }

    fn accept(&mut self) -> Accepted<Browser> {
        self.was_asked = true;
        match self.listener.accept() {
            Ok((stream, peer)) => match self.browser(stream, &peer) {
                Some(browser) => Accepted::One(browser),
                None => Accepted::Nobody,
            },
            Err(error) => {
                if self.is_out(&error) {
                    Accepted::NoRoom
                } else {
                    Accepted::Nobody
                }
            }
        }
    }

    fn watch(&mut self, connection: &Browser, writes: bool) -> bool {
        self.door.watch_on(
            connection.stream.as_raw_fd(),
            Token(connection.number),
            writes,
        )
    }

    fn close(&mut self, _connection: Browser) {
        self.paused = None;
    }
}

impl Connection for Browser {
    ghost use Rattle.std.specs.Prelude.{None, true, false};

    ghost talk = { λ _. record { given = None; written = None; takes_now = false; is_shut = true } };

    ghost reads = { λ _ _ _ _. Unit {0} };

    ghost numbered = { λ b. b.number };

    ghost origin = { λ b. b.origin };

    fn number(&self) -> usize {
        self.number
    }

    fn origin(&self) -> u128 {
        self.origin
    }

    fn read(&mut self, buffer: &mut [u8]) -> Passed {
        match self.stream.read(buffer) {
            Ok(count) => Passed::Bytes(count),
            Err(error) => passed_none(&error),
        }
    }

    fn write(&mut self, bytes: &[u8]) -> Passed {
        match self.stream.write(bytes) {
            Ok(count) => Passed::Bytes(count),
            Err(error) => passed_none(&error),
        }
    }

    fn shut(&mut self) -> bool {
        match self.stream.shutdown(Shutdown::Write) {
            Ok(()) => true,
            Err(_) => false,
        }
    }
}

/// Whether an accept that failed so is to be made again at once where somebody asks: nobody did, or who did is gone.
fn is_passing(error: &Error) -> bool {
    matches!(
        error.kind(),
        ErrorKind::WouldBlock | ErrorKind::Interrupted | ErrorKind::ConnectionAborted
    )
}

/// What a call came to that failed so.
fn passed_none(error: &Error) -> Passed
    ensures { PassesNone result }
{
    match error.kind() {
        ErrorKind::WouldBlock | ErrorKind::Interrupted => Passed::NotNow,
        _ => Passed::Gone,
    }
}
