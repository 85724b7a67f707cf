//! The sockets of an encoder on the air over TCP. Nothing is claimed of what a socket gives or takes, nor of the clock
//! (profile).
ghost use Rattle.std.specs.Prelude.{◌≡◌, ◌≤◌, ◌<◌, ◌^◌, IfOk, false};
ghost use Rattle.air_edges.specs.Hearers.{IsWithin, Gets};

use crate::hears::{Hears, Taken};
use crate::sockets::{Came, Sockets};
use device_edges::{Allowed, BindFault, Entrance, Idle, Yielding, bind, hold_few, lacks_room};
use seats::origin_of;
use std::alloc::Global;
use std::io::{Error, ErrorKind, Write};
use std::marker::Model;
use std::net::{Net, SocketAddr, TcpListener, TcpStream};
use std::os::fd::{AsRawFd, RawFd};
use std::thread;
use std::time::{Clock, Duration, Instant};

/// How long a read of a studio's connection waits at most, in milliseconds, where a poll said that something is there,
/// or nothing came for too long.
const READ_MAX: u64 = 20;

/// How long a write to it waits at most, in milliseconds.
const WRITE_MAX: u64 = 1000;

/// The most milliseconds that are counted: some eight million years.
const TIME_MAX: u64 = (1 << 58) - 1;

/// Where an encoder on the air is found.
#[derive(Clone, Copy, Debug)]
pub struct Addresses {
    /// Where the studio connects.
    pub studio: SocketAddr,
    /// Where those connect who listen to the air.
    pub air: SocketAddr,
}

/// Listens at two places, and has the clock of the machine.
#[derive(Drop)]
pub struct TcpSockets<'a, N: Net<Listener = TcpListener, Stream = TcpStream> + Clock> {
    net: &'a N,
    places: Addresses,
    entrance: Entrance,
    air: TcpListener,
    begun: Instant,
    line: Option<RawFd>,
    /// Whether the system had no descriptor or no memory for one more connection as it was asked last.
    is_out: bool,
}

impl<'a, N: Net<Listener = TcpListener, Stream = TcpStream> + Clock> Model for TcpSockets<'a, N> {
    ghost use Rattle.std.specs.Prelude.{is_some};
    ghost use Rattle.air_edges.specs.Places.{Listening};

    ghost Value = { Listening };

    ghost view = { λ s. record { places = s.places; is_open = is_some s.line } };
}

impl<'a, N: Net<Listener = TcpListener, Stream = TcpStream> + Clock> TcpSockets<'a, N> {
    /// Listens at these places from now on, and counts the time from now on. With `yielding` a connection of the studio
    /// gives way to one that waits; with `allowed` others are closed as they are accepted.
    ///
    /// Errors: as [`BindFault`] has them.
    pub fn new(
        alloc: Global,
        net: &'a N,
        places: Addresses,
        yielding: Option<Yielding>,
        allowed: Option<Allowed>,
    ) -> Result<TcpSockets<'a, N>, BindFault>
        ensures { IfOk result (λ sockets. sockets ≡ record { places = places; is_open = false }) }
    {
        let entrance = Entrance::new(alloc, net, places.studio, yielding, allowed)?;
        let air = listener_at(net, places.air)?;
        match Instant::now(net) {
            Ok(begun) => Ok(TcpSockets {
                net,
                places,
                entrance,
                air,
                begun,
                line: None,
                is_out: false,
            }),
            Err(_) => Err(BindFault::Failed),
        }
    }

    /// Whether there are descriptors left for a connection of the studio: it takes two, and looks for a third.
    fn leaves_room(&self) -> bool {
        let first = self.air.try_clone();
        let second = self.air.try_clone();
        let third = self.air.try_clone();
        first.is_ok() && second.is_ok() && third.is_ok()
    }

    /// Rests a moment where the system has no connection to give though it said so, as where no descriptor is left.
    fn rest(&mut self, error: &Error)
        ensures { self.new ≡ self.old }
    {
        self.is_out = lacks_room(error);
        if error.kind() != ErrorKind::WouldBlock {
            thread::sleep(self.net, Duration::from_millis(10));
        }
    }

    /// Whether there is no room for one more connection, as the system said of the studio's last, where it was asked
    /// for one since, or of those who listen.
    fn is_out_now(&mut self) -> bool
        ensures { self.new ≡ self.old }
    {
        match self.entrance.take_lacked() {
            Some(lacks) => self.is_out = lacks,
            None => {}
        }
        self.is_out
    }
}

/// A listener whose calls don't wait.
fn listener_at<N: Net<Listener = TcpListener, Stream = TcpStream>>(
    net: &N,
    place: SocketAddr,
) -> Result<TcpListener, BindFault> {
    let listener = bind(net, place)?;
    match listener.set_nonblocking(true) {
        Ok(()) => Ok(listener),
        Err(_) => Err(BindFault::Failed),
    }
}

impl<'a, N: Net<Listener = TcpListener, Stream = TcpStream> + Clock> Sockets for TcpSockets<'a, N> {
    type Input = Idle<TcpStream>;

    type Output = TcpStream;

    type Hearer = TcpStream;

    ghost use Rattle.std.specs.Prelude.{◌≡◌, false};
    ghost use Rattle.air_edges.specs.Places.{OpensOne};

    ghost reads = { λ s _ s'. s' ≡ s };

    ghost waits = { λ s _ _ _ s'. s' ≡ s };

    ghost opens = { λ s ends s'. OpensOne s ends s' };

    ghost closes = { λ s _ _ s'. s' ≡ record s { is_open = false } };

    ghost joins = { λ s _ s'. s' ≡ s };

    fn now(&mut self) -> u64 {
        match self.begun.elapsed(self.net) {
            Ok(elapsed) => u64::try_from(elapsed.as_millis())
                .unwrap_or(TIME_MAX)
                .min(TIME_MAX),
            Err(_) => 0,
        }
    }

    fn wait(&mut self, is_open: bool, milliseconds: u64) -> Option<Came> {
        let line = if is_open { self.line } else { None };
        let air = Some(self.air.as_raw_fd());
        let ready = self.entrance.wait(line, air, Some(milliseconds));
        let asks = ready.listener || self.entrance.is_waited_for();
        let studio = if line.is_some() {
            let gives_way = asks && self.entrance.gives_way();
            gives_way || ready.line
        } else {
            asks
        };
        Some(Came {
            studio,
            air: ready.beside,
            is_out: self.is_out_now(),
        })
    }

    fn open(&mut self) -> Option<(Idle<TcpStream>, TcpStream)> {
        let stream = self.entrance.next()?;
        let line = stream.as_raw_fd();
        let read = Duration::from_millis(READ_MAX);
        let write = Duration::from_millis(WRITE_MAX);
        let ends = self.entrance.ends(stream, read, write).ok()?;
        self.line = Some(line);
        Some(ends)
    }

    fn close(&mut self, _input: Idle<TcpStream>, _output: TcpStream) {
        self.line = None;
    }

    fn join(&mut self) -> Option<(TcpStream, u128)> {
        match self.air.accept() {
            Ok((stream, from)) => {
                self.is_out = !self.leaves_room();
                if self.is_out {
                    return None;
                }
                let _ = stream.set_nodelay(true);
                hold_few(&stream);
                stream.set_nonblocking(true).ok()?;
                Some((stream, origin_of(from.ip())))
            }
            Err(error) => {
                self.rest(&error);
                None
            }
        }
    }
}

impl Hears for TcpStream {
    ghost takes = { λ _ _ _ _. Unit {0} };

    fn take(&mut self, bytes: &[u8]) -> Taken {
        match self.write(bytes) {
            Ok(0) => Taken::Gone,
            Ok(count) => Taken::First(count),
            Err(error) => match error.kind() {
                ErrorKind::WouldBlock | ErrorKind::Interrupted => Taken::NotNow,
                _ => Taken::Gone,
            },
        }
    }
}
