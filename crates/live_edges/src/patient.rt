//! Connections that are tried again for as long as it takes (profile).
ghost use Rattle.std.specs.Prelude.{◌≡◌, ◌≢◌, ◌⊎◌, None, IfNone, true};
ghost use Rattle.live_edges.specs.Patience.{Dialled, SaysOn, Tries};

use crate::dialler::Dialler;
use crate::heard::{Edge, ReadMeter, WriteMeter};
use crate::line::now;
use crate::notices::{say_away, say_given_up, say_lost, say_silent, say_there};
use crate::patience::Patience;
use crate::said::{Notice, Said};
use crate::watch::Watch;
use std::io::Write;
use std::marker::Model;
use std::net::{Net, TcpStream};
use std::thread;
use std::time::{Clock, Duration};
use uecp_frame::Address;
use uecp_net::{Connections, Dialing};

/// How many tries are made at most for one connection.
const TRIES_MAX: u64 = 1 << 59;

/// Asks a [`Dialler`] for a connection until there is one: at once, and then after pauses of 1, 2, 4 .. seconds, and
/// begins with no pause again once a reply came on a connection that was waited for. It says when a connection is lost,
/// when there is none to be had and why, and when there is one again, each once until such a reply comes; and when none
/// comes for long. Each connection is looked after as the dialler does.
#[derive(Drop)]
pub struct Patient<'a, 'n, C, T, W: Write> {
    connect: C,
    clock: &'a T,
    host: &'a str,
    port: u16,
    address: Option<Address>,
    patience: Patience,
    watch: &'a Watch,
    notices: &'n mut W,
    said: Said,
    is_gone: bool,
}

impl<'a, 'n, C, T, W: Write> Model for Patient<'a, 'n, C, T, W> {
    ghost Value = { Dialled C };

    ghost view = { λ p. record {
      connect = p.connect;
      patience = p.patience;
      told = W.contents p.notices.now;
    } };
}

impl<'a, 'n, N: Net<Stream = TcpStream> + Clock, W: Write> Patient<'a, 'n, Dialing<'a, N>, N, W> {
    /// Dials this host and port, as [`Dialing::new`] has them, with a limit of so many milliseconds for each call, as
    /// long as its patience lasts, and says what comes of it on `notices`. The encoder at the address is the one whose
    /// replies count; with no address none does. The watch has the connection that is there.
    pub fn new(
        net: &'a N,
        host: &'a str,
        port: u16,
        timeout: u64,
        address: Option<Address>,
        patience: Patience,
        watch: &'a Watch,
        notices: &'n mut W,
    ) -> Patient<'a, 'n, Dialing<'a, N>, N, W>
        ensures { result ≡ record {
          connect = record { host = host.now; port = port; timeout = timeout; failed = None };
          patience = patience;
          told = W.contents notices.old;
        } }
    {
        Patient {
            connect: Dialing::new(net, host, port, timeout),
            clock: net,
            host,
            port,
            address,
            patience,
            watch,
            notices,
            said: Said::new(),
            is_gone: false,
        }
    }
}

impl<'a, 'n, C, T: Clock, W: Write> Patient<'a, 'n, C, T, W> {
    /// Says that the connection is lost that was there last, if that is news.
    fn tell_lost(&mut self)
        ensures connect { self.new.connect ≡ self.old.connect }
        ensures says { SaysOn self.old self.new }
    {
        if self.watch.was_lost() {
            let _ = self.said.takes(Notice::Lost);
        } else if self.is_gone && self.said.takes(Notice::Lost) {
            say_lost(self.watch.form(), self.clock, self.notices);
        }
        self.is_gone = false;
    }

    /// The pause before the next try where a connection is wanted now, in seconds. None where the line is given up, or
    /// the encoder is silent and the caller is to know; that is said.
    fn next(&mut self) -> Option<u64>
        ensures connect { self.new.connect ≡ self.old.connect }
        ensures says { SaysOn self.old self.new }
        ensures over { IfNone result
            ((self.old.patience.give_up ≢ None) ⊎ (self.old.patience.stop_when_silent ≡ true)) }
    {
        let now = now(self.clock);
        let mut wait = self.watch.line().wait();
        let is_due = wait.is_due(&self.patience, now);
        let is_news = is_due && !wait.is_told();
        if is_due {
            wait.told_silent(&self.patience);
        }
        let pause = wait.next(&self.patience, now);
        self.watch.line().stands(wait);
        self.tell_silent(is_news);
        if pause.is_none() {
            self.tell_given_up();
            return None;
        }
        if is_due && self.patience.stop_when_silent && !wait.is_late(&self.patience, now) {
            return None;
        }
        pause
    }

    /// Says that the encoder is silent, if that is news.
    fn tell_silent(&mut self, is_news: bool)
        ensures connect { self.new.connect ≡ self.old.connect }
        ensures says { SaysOn self.old self.new }
    {
        if is_news {
            say_silent(self.watch.form(), self.clock, self.notices);
        }
    }

    /// Says that the line is given up.
    fn tell_given_up(&mut self)
        ensures connect { self.new.connect ≡ self.old.connect }
        ensures says { SaysOn self.old self.new }
    {
        say_given_up(self.watch.form(), self.clock, self.notices);
    }

    /// There is a connection.
    fn found(&mut self)
        ensures connect { self.new.connect ≡ self.old.connect }
        ensures says { SaysOn self.old self.new }
    {
        if self.said.takes(Notice::There) {
            say_there(
                self.watch.form(),
                self.clock,
                self.host,
                self.port,
                self.notices,
            );
        }
        self.watch.line().made(self.address, now(self.clock));
    }

    /// What an end of a connection is metered by.
    fn edge(&self) -> Edge<'a, T> {
        Edge {
            clock: self.clock,
            watch: self.watch,
            patience: self.patience,
        }
    }
}

impl<'a, 'n, C: Dialler, T: Clock, W: Write> Patient<'a, 'n, C, T, W> {
    /// Makes one try after a pause, and says what came of it where that is new.
    fn try_once(
        &mut self,
        pause: u64,
    ) -> Option<(ReadMeter<'a, C::Input, T>, WriteMeter<'a, C::Output, T>)>
        ensures tries { Tries C.opens self.old.connect result self.new.connect }
        ensures says { SaysOn self.old self.new }
    {
        thread::sleep(self.clock, Duration::from_secs(pause));
        match self.connect.open() {
            Some((input, output)) => {
                self.connect.look_after(&output, self.watch);
                self.found();
                let input = ReadMeter::new(input, self.edge());
                Some((input, WriteMeter::new(output, self.edge())))
            }
            None => {
                self.missed();
                None
            }
        }
    }

    /// There is none.
    fn missed(&mut self)
        ensures connect { self.new.connect ≡ self.old.connect }
        ensures says { SaysOn self.old self.new }
    {
        let fault = self.connect.failed();
        if self.said.takes(Notice::Away(fault)) {
            say_away(
                self.watch.form(),
                self.clock,
                self.host,
                self.port,
                fault,
                self.notices,
            );
        }
        let mut wait = self.watch.line().wait();
        wait.refused(self.patience.retry_every);
        self.watch.line().stands(wait);
    }
}

impl<'a, 'n, C: Dialler, T: Clock, W: Write> Connections for Patient<'a, 'n, C, T, W> {
    type Input = ReadMeter<'a, C::Input, T>;

    type Output = WriteMeter<'a, C::Output, T>;

    ghost use Rattle.live_edges.specs.Patience.{OpensAtLast, GivesBack};

    ghost opens = { λ d ends d'. OpensAtLast C.opens d ends d' };

    ghost closes = { λ d input output d'. GivesBack C.closes d input output d' };

    fn open(&mut self) -> Option<(Self::Input, Self::Output)> {
        self.tell_lost();
        for _try in 0..TRIES_MAX {
            let Some(pause) = self.next() else {
                return None;
            };
            if let Some((input, output)) = self.try_once(pause) {
                return Some((input, output));
            }
        }
        None
    }

    fn close(&mut self, input: Self::Input, output: Self::Output) {
        let is_heard = input.is_heard();
        let is_broken = input.is_broken() || output.is_broken();
        if is_heard {
            self.said = Said::new();
        }
        self.is_gone = is_heard || is_broken;
        self.watch.closed();
        let mut wait = self.watch.line().wait();
        wait.closed(is_heard, is_broken, self.patience.retry_every);
        self.watch.line().stands(wait);
        self.connect.close(input.into_inner(), output.into_inner());
    }
}
