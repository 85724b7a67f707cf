//! Connections over TCP whose reads fail sooner than their writes (profile).
ghost use Rattle.std.specs.Prelude.{◌≡◌, None};
ghost use Rattle.conformance_command.specs.Dialling.{DialsQuietly, DialsQuietlyAgain};

use std::marker::Model;
use std::net::{Net, TcpStream};
use std::time::Duration;
use uecp_net::{Connections, DialFault, Dialing};

/// Dials an encoder, again for each connection: as [`Dialing`] does, but a read that brings nothing fails sooner.
#[derive(Drop)]
pub struct Dialled<'a, R: Net<Stream = TcpStream>> {
    dialing: Dialing<'a, R>,
    quiet: u64,
}

impl<'a, R: Net<Stream = TcpStream>> Model for Dialled<'a, R> {
    ghost Value = { DialsQuietly };

    ghost view = { λ d. record { dials = d.dialing; quiet = d.quiet } };
}

impl<'a, R: Net<Stream = TcpStream>> Dialled<'a, R> {
    /// Dials this host, by name or address, and this port, 1 to 65535. A connection that is not made after `timeout`
    /// milliseconds, which is not 0, is given up, and so is a write that takes nothing for so long; a read fails that
    /// brings nothing for `quiet` milliseconds, which is not 0.
    pub fn new(net: &'a R, host: &'a str, port: u16, timeout: u64, quiet: u64) -> Dialled<'a, R>
        ensures { result ≡ record {
          dials = record { host = host.now; port = port; timeout = timeout; failed = None };
          quiet = quiet;
        } }
    {
        Dialled {
            dialing: Dialing::new(net, host, port, timeout),
            quiet,
        }
    }

    /// Why the last connection that was asked for could not be made; None where it was made, or none was asked for.
    pub fn failed(&self) -> Option<DialFault>
        ensures { result ≡ self.now.dials.failed }
    {
        self.dialing.failed()
    }
}

impl<'a, R: Net<Stream = TcpStream>> Connections for Dialled<'a, R> {
    type Input = TcpStream;

    type Output = TcpStream;

    ghost opens = { DialsQuietlyAgain };

    ghost closes = { λ d _ _ d'. d' ≡ d };

    fn open(&mut self) -> Option<(TcpStream, TcpStream)> {
        let (input, output) = self.dialing.open()?;
        // Where the system refuses this limit, a read takes the timeout, and no more than that.
        let _ = input.set_read_timeout(Some(Duration::from_millis(self.quiet)));
        Some((input, output))
    }

    fn close(&mut self, _input: TcpStream, _output: TcpStream) {}
}
