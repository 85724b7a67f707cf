//! Sockets of which the studio's connections are screened (profile).
ghost use Rattle.std.specs.Prelude.{◌≡◌};
ghost use Rattle.device_edges.specs.Screen.{unsaid};

use crate::sockets::{Came, Sockets};
use device_edges::{OnceNotice, Screened};
use std::io::Write;
use std::marker::Model;

/// Sockets over others, of which a connection of the studio that begins as HTTP or TLS does brings nothing, as with
/// [`Screening`](device_edges::Screening).
#[derive(Drop)]
pub struct ScreenedSockets<S, W: Write> {
    sockets: S,
    notice: OnceNotice<W>,
}

impl<S, W: Write> Model for ScreenedSockets<S, W> {
    ghost use Rattle.device_edges.specs.Screen.{Screening};

    ghost Value = { Screening S };

    ghost view = { λ s. record { connect = s.sockets; notice = s.notice } };
}

impl<S, W: Write> ScreenedSockets<S, W> {
    /// The studio's connections of these sockets are screened from now on, and what there is to say goes to `notices`.
    pub fn new(sockets: S, notices: W) -> ScreenedSockets<S, W>
        ensures { result ≡ record { connect = sockets; notice = unsaid (W.contents notices) } }
    {
        ScreenedSockets {
            sockets,
            notice: OnceNotice::new(notices),
        }
    }
}

impl<S: Sockets, W: Write> Sockets for ScreenedSockets<S, W> {
    type Input = Screened<S::Input>;

    type Output = S::Output;

    type Hearer = S::Hearer;

    ghost use Rattle.std.specs.Prelude.{◌≡◌};
    ghost use Rattle.device_edges.specs.Screen.{OpensScreened, ClosesScreened};

    ghost reads = { λ s now s'. S.reads s.connect now s'.connect × (s'.notice ≡ s.notice) };

    ghost waits = { λ s is_open limit came s'. S.waits s.connect is_open limit came s'.connect
        × (s'.notice ≡ s.notice) };

    ghost opens = { λ s ends s'. OpensScreened S.opens s ends s' };

    ghost closes = { λ s input output s'. ClosesScreened S.closes s input output s' };

    ghost joins = { λ s hearer s'. S.joins s.connect hearer s'.connect × (s'.notice ≡ s.notice) };

    fn now(&mut self) -> u64 {
        self.sockets.now()
    }

    fn wait(&mut self, is_open: bool, milliseconds: u64) -> Option<Came> {
        self.sockets.wait(is_open, milliseconds)
    }

    fn open(&mut self) -> Option<(Self::Input, Self::Output)> {
        match self.sockets.open() {
            Some((input, output)) => Some((Screened::new(input), output)),
            None => None,
        }
    }

    fn close(&mut self, input: Self::Input, output: Self::Output) {
        let is_foreign = input.is_foreign();
        self.sockets.close(input.into_inner(), output);
        self.notice.done(is_foreign);
    }

    fn join(&mut self) -> Option<(S::Hearer, u128)> {
        self.sockets.join()
    }
}
