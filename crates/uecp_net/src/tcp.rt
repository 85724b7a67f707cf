//! Connections over TCP. Nothing is claimed of what a socket gives or takes. Source: profile.
ghost use Rattle.std.specs.Prelude.{◌≡◌, ◌≢◌, None, IfOk};
ghost use Rattle.uecp_net.specs.Tcp.{Dials, DialsAgain};

use crate::connect::Connections;
use std::io::{Error, ErrorKind};
use std::marker::Model;
use std::net::{Net, TcpListener, TcpStream, ToSocketAddrs};
use std::time::Duration;

/// Accepts the connections that come to a listener.
#[derive(Drop)]
pub struct Listening {
    listener: TcpListener,
}

impl Listening {
    /// Accepts from this listener.
    pub fn new(listener: TcpListener) -> Listening {
        Listening { listener }
    }
}

impl Connections for Listening {
    type Input = TcpStream;

    type Output = TcpStream;

    ghost opens = { λ _ _ _. Unit {0} };

    ghost closes = { λ _ _ _ _. Unit {0} };

    fn open(&mut self) -> Option<(TcpStream, TcpStream)> {
        let (stream, _) = self.listener.accept().ok()?;
        two_ends(stream).ok()
    }

    fn close(&mut self, _input: TcpStream, _output: TcpStream) {}
}

/// Listens on 127.0.0.1 from its first connection on, and accepts one connection after another.
#[derive(Drop)]
pub struct Local<'a, N: Net<Listener = TcpListener, Stream = TcpStream>> {
    net: &'a N,
    port: u16,
    listening: Option<Listening>,
}

impl<'a, N: Net<Listener = TcpListener, Stream = TcpStream>> Model for Local<'a, N> {
    ghost use Rattle.std.specs.Prelude.{ℕ};

    // the port
    ghost Value = { ℕ };

    ghost view = { λ local. local.port };
}

impl<'a, N: Net<Listener = TcpListener, Stream = TcpStream>> Local<'a, N> {
    /// Will listen on this port, 1 to 65535.
    pub fn new(net: &'a N, port: u16) -> Local<'a, N>
        ensures { result ≡ port }
    {
        Local {
            net,
            port,
            listening: None,
        }
    }
}

impl<'a, N: Net<Listener = TcpListener, Stream = TcpStream>> Connections for Local<'a, N> {
    type Input = TcpStream;

    type Output = TcpStream;

    ghost opens = { λ port _ port'. port' ≡ port };

    ghost closes = { λ port _ _ port'. port' ≡ port };

    fn open(&mut self) -> Option<(TcpStream, TcpStream)> {
        let mut listening = match self.listening.take() {
            Some(listening) => listening,
            None => Listening::new(TcpListener::bind(self.net, ("127.0.0.1", self.port)).ok()?),
        };
        let opened = listening.open();
        self.listening = Some(listening);
        opened
    }

    fn close(&mut self, _input: TcpStream, _output: TcpStream) {}
}

/// Why a connection could not be made. Its text is what the program says of it behind the host and the port.
#[derive(Clone, Copy, Debug, PartialEq, Eq, thiserror::Error)]
pub enum DialFault {
    /// The host has no address, or its name could not be looked up.
    #[error("no such host")]
    NoSuchHost,
    /// Nobody listens on the port.
    #[error("refused")]
    Refused,
    /// No answer came within the limit of time.
    #[error("timed out")]
    TimedOut,
    /// No way leads to the host.
    #[error("unreachable")]
    Unreachable,
    /// The system told another fault.
    #[error("failed")]
    Failed,
}

/// Dials a listener, again for each connection.
#[derive(Drop)]
pub struct Dialing<'a, R: Net<Stream = TcpStream>> {
    net: &'a R,
    host: &'a str,
    port: u16,
    timeout: u64,
    failed: Option<DialFault>,
}

impl<'a, R: Net<Stream = TcpStream>> Model for Dialing<'a, R> {
    ghost Value = { Dials };

    ghost view = { λ d. record { host = d.host.now; port = d.port; timeout = d.timeout; failed = d.failed } };
}

impl<'a, R: Net<Stream = TcpStream>> Dialing<'a, R> {
    /// Dials this host, by name or address, and this port, 1 to 65535. A connection that is not made after `timeout`
    /// milliseconds, which is not 0, is given up, and a read that brings nothing for so long fails, and so does a write
    /// that takes nothing. A host with several addresses is dialled at each in turn.
    pub fn new(net: &'a R, host: &'a str, port: u16, timeout: u64) -> Dialing<'a, R>
        ensures { result ≡ record { host = host.now; port = port; timeout = timeout; failed = None } }
    {
        Dialing {
            net,
            host,
            port,
            timeout,
            failed: None,
        }
    }

    /// Why the last connection that was asked for could not be made; None where it was made, or none was asked for.
    pub fn failed(&self) -> Option<DialFault>
        ensures { result ≡ self.now.failed }
    {
        self.failed
    }

    /// Makes a connection.
    fn connect(&self) -> Result<(TcpStream, TcpStream), DialFault> {
        let timeout = Duration::from_millis(self.timeout);
        let stream = self.dial(timeout)?;
        let ends = limited(&stream, timeout).and_then(|_| two_ends(stream));
        ends.map_err(|error| fault_of(&error))
    }

    /// Dials the addresses of the host, one after another, up to the first that answers.
    fn dial(&self, timeout: Duration) -> Result<TcpStream, DialFault> {
        let Ok(addresses) = (self.host, self.port).to_socket_addrs(self.net) else {
            return Err(DialFault::NoSuchHost);
        };
        let mut fault = DialFault::NoSuchHost;
        for address in addresses {
            match TcpStream::connect_timeout(self.net, &address, timeout) {
                Ok(stream) => return Ok(stream),
                Err(error) => fault = fault_of(&error),
            }
        }
        Err(fault)
    }
}

impl<'a, R: Net<Stream = TcpStream>> Connections for Dialing<'a, R> {
    type Input = TcpStream;

    type Output = TcpStream;

    ghost opens = { DialsAgain };

    ghost closes = { λ d _ _ d'. d' ≡ d };

    fn open(&mut self) -> Option<(TcpStream, TcpStream)> {
        match self.connect() {
            Ok(ends) => {
                self.failed = None;
                Some(ends)
            }
            Err(fault) => {
                self.failed = Some(fault);
                None
            }
        }
    }

    fn close(&mut self, _input: TcpStream, _output: TcpStream) {}
}

/// What the system's fault comes to.
fn fault_of(error: &Error) -> DialFault {
    match error.kind() {
        ErrorKind::ConnectionRefused => DialFault::Refused,
        ErrorKind::TimedOut => DialFault::TimedOut,
        ErrorKind::HostUnreachable | ErrorKind::NetworkUnreachable => DialFault::Unreachable,
        _ => DialFault::Failed,
    }
}

/// Limits how long a read and a write of a stream may take.
fn limited(stream: &TcpStream, timeout: Duration) -> Result<(), Error> {
    stream.set_read_timeout(Some(timeout))?;
    stream.set_write_timeout(Some(timeout))
}

/// The two ends of a stream. The system is asked to send each frame and each reply as soon as it is written, where it
/// would else hold a small one back until those before it have come; where that is refused the connection is slower,
/// and no more than that.
fn two_ends(stream: TcpStream) -> Result<(TcpStream, TcpStream), Error> {
    let _ = stream.set_nodelay(true);
    let copy = stream.try_clone()?;
    Ok((stream, copy))
}
