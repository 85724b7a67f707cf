//! Connections of which those of another protocol are closed (profile).
ghost use Rattle.std.specs.Prelude.{◌≡◌};
ghost use Rattle.device_edges.specs.Screen.{unsaid};

use crate::notice::OnceNotice;
use crate::screen::Screened;
use std::io::Write;
use std::marker::Model;
use uecp_net::Connections;

/// Connections over others, of which nothing is handed on where they begin as HTTP or TLS does: each is read through
/// [`Screened`], which is at its end then. That one was such is said once.
#[derive(Drop)]
pub struct Screening<C, W: Write> {
    connect: C,
    notice: OnceNotice<W>,
}

impl<C, W: Write> Model for Screening<C, W> {
    ghost use Rattle.device_edges.specs.Screen.{Screening};

    ghost Value = { Screening C };

    ghost view = { λ s. record { connect = s.connect; notice = s.notice } };
}

impl<C, W: Write> Screening<C, W> {
    /// These connections are screened from now on, and what there is to say goes to `notices`.
    pub fn new(connect: C, notices: W) -> Screening<C, W>
        ensures { result ≡ record { connect = connect; notice = unsaid (W.contents notices) } }
    {
        Screening {
            connect,
            notice: OnceNotice::new(notices),
        }
    }
}

impl<C: Connections, W: Write> Connections for Screening<C, W> {
    type Input = Screened<C::Input>;

    type Output = C::Output;

    ghost use Rattle.device_edges.specs.Screen.{OpensScreened, ClosesScreened};

    ghost opens = { λ s ends s'. OpensScreened C.opens s ends s' };

    ghost closes = { λ s input output s'. ClosesScreened C.closes s input output s' };

    fn open(&mut self) -> Option<(Self::Input, Self::Output)> {
        match self.connect.open() {
            Some((input, output)) => Some((Screened::new(input), output)),
            None => None,
        }
    }

    fn close(&mut self, input: Self::Input, output: Self::Output) {
        let is_foreign = input.is_foreign();
        self.connect.close(input.into_inner(), output);
        self.notice.done(is_foreign);
    }
}
