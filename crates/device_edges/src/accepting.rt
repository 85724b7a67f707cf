//! Connections that are accepted where a device listens. Nothing is claimed of what a socket gives or takes (profile).
ghost use Rattle.std.specs.Prelude.{◌≡◌, IfOk};
ghost use Rattle.device_edges.specs.Place.{Listens, Asks};
ghost use Rattle.device_edges.specs.Screen.{unsaid};

use crate::allowed::Allowed;
use crate::entrance::Entrance;
use crate::idle::Idle;
use crate::notice::OnceNotice;
use crate::room::Yielding;
use std::alloc::Global;
use std::io::{Error, ErrorKind, Write};
use std::marker::Model;
use std::net::{Net, SocketAddr, TcpListener, TcpStream};
use std::time::{Clock, Duration};
use std::{io, thread};
use uecp_net::Connections;

/// How often a connection is asked for, a second apart, where the system gives none.
const TRIES_MAX: u64 = 600;

/// Why nobody can listen at an address and a port.
#[derive(Clone, Copy, Debug, PartialEq, Eq)]
pub enum BindFault {
    /// Somebody listens there already.
    InUse,
    /// The machine has no such address.
    NoSuchAddress,
    /// It is not allowed, as at a port below 1024.
    NotAllowed,
    /// The system told another fault.
    Failed,
}

impl BindFault {
    /// What is said of it on standard error, behind `uecp: `; None where the system told nothing that helps.
    pub fn text(&self) -> Option<&'static str> {
        match self {
            BindFault::InUse => Some("somebody listens there already"),
            BindFault::NoSuchAddress => Some("the machine has no such address"),
            BindFault::NotAllowed => Some("not allowed"),
            BindFault::Failed => None,
        }
    }
}

/// Listens at an address and a port, and accepts one connection after another. That there is no descriptor or no memory
/// for one more is said once until there is.
#[derive(Drop)]
pub struct Accepting<'a, N: Net<Listener = TcpListener, Stream = TcpStream> + Clock, W: Write> {
    net: &'a N,
    place: SocketAddr,
    idle: Option<u32>,
    entrance: Entrance,
    notice: OnceNotice<W>,
}

impl<'a, N: Net<Listener = TcpListener, Stream = TcpStream> + Clock, W: Write> Model
    for Accepting<'a, N, W> {
    ghost Value = { Listens };

    ghost view = { λ a. record { place = a.place; idle = a.idle; notice = a.notice } };
}

impl<'a, N: Net<Listener = TcpListener, Stream = TcpStream> + Clock, W: Write + Drop> Accepting<
    'a,
    N,
    W,
> {
    /// Listens there from now on. A read of a connection that brings nothing for `idle` seconds, which is not 0, is
    /// given up, and a write that takes nothing fails; with None there is no limit. Whether the other end is there is
    /// asked where nothing came for a minute, and a read fails where it is not. With `yielding` a connection gives way
    /// to one that waits; with `allowed` others are closed as they are accepted. That there is no room for one more is
    /// said on `notices`.
    ///
    /// Errors: as [`BindFault`] has them.
    pub fn new(
        alloc: Global,
        net: &'a N,
        place: SocketAddr,
        idle: Option<u32>,
        yielding: Option<Yielding>,
        allowed: Option<Allowed>,
        notices: W,
    ) -> Result<Accepting<'a, N, W>, BindFault>
        ensures { IfOk result (λ accepting. accepting ≡ record {
          place = place;
          idle = idle;
          notice = unsaid (W.contents notices);
        }) }
    {
        match Entrance::new(alloc, net, place, yielding, allowed) {
            Ok(entrance) => Ok(Accepting {
                net,
                place,
                idle,
                entrance,
                notice: OnceNotice::new(notices),
            }),
            Err(fault) => Err(fault),
        }
    }
}

impl<'a, N: Net<Listener = TcpListener, Stream = TcpStream> + Clock, W: Write> Accepting<'a, N, W> {
    /// Says that there was no room for one more, where there was none and that was not said.
    fn tell(&mut self)
        ensures { Asks self.old self.new }
    {
        match self.entrance.take_lacked() {
            Some(lacks) => self.notice.asked(lacks),
            None => {}
        }
    }

    /// The two ends of the next connection, if one comes now, and what is to be said of that.
    fn turn(&mut self) -> io::Result<Option<(Idle<TcpStream>, TcpStream)>>
        ensures { Asks self.old self.new }
    {
        let accepted = self.accept();
        self.tell();
        accepted
    }

    /// Waits a second.
    fn rest(&self) {
        thread::sleep(self.net, Duration::from_secs(1));
    }

    /// The two ends of the next connection, if one comes before those who wait are to be looked at.
    fn accept(&self) -> io::Result<Option<(Idle<TcpStream>, TcpStream)>> {
        if let Some(stream) = self.entrance.next() {
            return Ok(Some(self.entrance.waiting_ends(stream, self.idle)?));
        }
        if self.entrance.is_resting() {
            return Err(ErrorKind::OutOfMemory.into());
        }
        let _ready = self.entrance.wait(None, None, None);
        Ok(None)
    }
}

impl<'a, N: Net<Listener = TcpListener, Stream = TcpStream> + Clock, W: Write> Connections
    for Accepting<'a, N, W> {
    type Input = Idle<TcpStream>;

    type Output = TcpStream;

    ghost use Rattle.device_edges.specs.Place.{ComesTo, GoesFrom};

    ghost opens = { λ listens ends listens'. ComesTo listens ends listens' };

    ghost closes = { λ listens input output listens'. GoesFrom listens input output listens' };

    fn open(&mut self) -> Option<(Idle<TcpStream>, TcpStream)> {
        let mut tries = 0u64;
        for _wait in 0..u64::MAX {
            match self.turn() {
                Ok(Some(ends)) => return Some(ends),
                Ok(None) => {}
                // one that was taken back, or a machine with no descriptor left for now
                Err(_) => {
                    tries = tries.saturating_add(1);
                    if tries >= TRIES_MAX {
                        return None;
                    }
                    self.rest();
                }
            }
        }
        None
    }

    fn close(&mut self, _input: Idle<TcpStream>, _output: TcpStream) {
        self.tell();
    }
}

/// Listens at an address and a port from now on.
///
/// Errors: as [`BindFault`] has them.
pub fn bind<N: Net<Listener = TcpListener, Stream = TcpStream>>(
    net: &N,
    place: SocketAddr,
) -> Result<TcpListener, BindFault> {
    match TcpListener::bind(net, place) {
        Ok(listener) => Ok(listener),
        Err(error) => Err(fault_of(&error)),
    }
}

/// What the system's fault comes to.
fn fault_of(error: &Error) -> BindFault {
    match error.kind() {
        ErrorKind::AddrInUse => BindFault::InUse,
        ErrorKind::AddrNotAvailable => BindFault::NoSuchAddress,
        ErrorKind::PermissionDenied => BindFault::NotAllowed,
        _ => BindFault::Failed,
    }
}
