//! A server over connections that may break, with several messages on their way at a time. Source: profile.
ghost use Rattle.std.specs.Prelude.{◌≡◌, ◌≢◌, ℕ, ◌<◌, ◌≤◌, ◌↔◌, [], length, Some, None, Ok, Err, IfOk, IfErr, IsTrue};
ghost use Rattle.uecp_link.specs.Server.{waiting};
ghost use Rattle.uecp_net.specs.declared.sender.Outstanding.TheVariants.{ConnectionFailed};
ghost use Rattle.uecp_net.specs.Sending.{SenderOver, Marks, Follows, Delivers, HangsUp, reason_of, submitted_to};
ghost use Rattle.uecp_net.specs.Sending.{AreTold, AreFreed, StillWait, opens_another};

mod connections;
mod joining;
mod lending;
mod telling;

use crate::connect::Connections;
use crate::sender::telling::{codes_of, counters_of};
use arrayvec::ArrayVec;
use std::marker::Model;
use uecp_elements::Code;
use uecp_encoder::Meter;
use uecp_frame::Message;
use uecp_link::{DriveFault, Server, WINDOW_MAX};

/// Why messages are still outstanding.
#[derive(Clone, Copy, Debug, PartialEq, Eq)]
pub enum Outstanding {
    /// Every try on the last connection ended without all replies; and where that leads to another one, no reconnect
    /// was left or none to be had.
    TriesSpent,
    /// The last connection broke with no reconnect left or no other one to be had; or there was none to be had from the
    /// start.
    ConnectionFailed,
}

/// How a batch went whose messages are all acknowledged.
#[derive(Drop)]
pub struct Settled {
    /// The codes of the replies, one for each message, in the order of the messages.
    pub codes: ArrayVec<Code, WINDOW_MAX>,
    /// How many tries the last connection took, from 1.
    pub tries: u32,
}

/// What a sender may spend before it gives a batch up.
#[derive(Clone, Copy, Debug, PartialEq, Eq)]
pub struct Limits {
    /// How often what is not acknowledged is sent over one connection.
    pub tries: u32,
    /// How many reads one try makes at most.
    pub turns: u32,
    /// How many connections may be opened in all after the first.
    pub reconnects: u32,
    /// Whether another connection is opened also where every try on one was spent, as on a silent line. Else one is
    /// only where a connection broke.
    pub reconnect_silent: bool,
}

/// The two ends of a connection, each in a meter of its own.
#[derive(Drop)]
struct TwoEnds<I, O> {
    input: Meter<I>,
    output: Meter<O>,
}

/// A server, and the connection that it has, if it has one. What is submitted to it is a batch, which it sends when it
/// is told to [`settle`](Sender::settle); where a batch ends is its caller's matter. Contracts see it as one value,
/// `SenderOver`.
#[derive(Drop)]
pub struct Sender<'a, C: Connections> {
    connect: &'a mut C,
    server: Server,
    ends: Option<TwoEnds<C::Input, C::Output>>,
    limits: Limits,
}

impl<'a, C: Connections> Model for Sender<'a, C> {
    ghost use Rattle.uecp_net.specs.Sending.{SenderOver};

    ghost Value = { SenderOver C C.Input C.Output };

    ghost view = { λ s. record {
      sender = record {
        server = s.server;
        tries = s.limits.tries;
        turns = s.limits.turns;
        left = s.limits.reconnects;
        reconnect_silent = s.limits.reconnect_silent;
      };
      connect = s.connect.now;
      loan = s.connect.ghost_name;
      ends = s.ends;
    } };
}

impl<'a, C: Connections> Sender<'a, C> {
    /// This server, with no connection yet.
    pub fn new(connect: &'a mut C, server: Server, limits: Limits) -> Sender<'a, C>
        ensures { result ≡ record {
          sender = record {
            server = server;
            tries = limits.tries;
            turns = limits.turns;
            left = limits.reconnects;
            reconnect_silent = limits.reconnect_silent;
          };
          connect = connect.old;
          loan = connect.entry.ghost_name;
          ends = None;
        } }
    {
        Sender {
            connect,
            server,
            ends: None,
            limits,
        }
    }

    /// Lets the connection go, and gives back where connections come from.
    pub fn finish(mut self) -> &'a mut C
        ensures same { result.ghost_name ≡ self.entry.loan }
        ensures value { (end : SenderOver C C.Input C.Output) × HangsUp C.closes self.entry end
            × (result.now ≡ end.connect) }
    {
        self.hang_up();
        let Sender {
            connect,
            server: _,
            ends: _,
            limits: _,
        } = self;
        connect
    }

    /// Whether one more message may be submitted: at most eight are held.
    pub fn has_room(&self) -> bool
        ensures { IsTrue result ↔ (length self.now.sender.server.held < 8) }
    {
        self.server.has_room()
    }

    /// Submits a message, the last of its batch so far. See [`has_room`](Sender::has_room).
    pub fn submit(&mut self, message: &Message)
        requires { length self.old.sender.server.held < 8 }
        ensures submits { self.new ≡ submitted_to self.old message.now }
    {
        self.server.submit(message);
    }

    /// Sends the messages that wait until all are acknowledged: on the connection that there is, or on a new one; where
    /// that breaks, on a new one as long as reconnects are left. Where one brings not all replies in as many tries as
    /// it has, that is the end; or with [`reconnect_silent`](Limits::reconnect_silent) it is as if it broke. Some
    /// message waits.
    ///
    /// Where all are acknowledged the server is idle again; else messages are outstanding, and the connection is let
    /// go. Those may be settled again, with what reconnects are left.
    pub fn settle(&mut self) -> Result<Settled, Outstanding>
        requires { self.old.sender.server.held ≢ [] }
        ensures freed { IfOk result (λ _. AreFreed self.old.sender.server self.new.sender.server) }
        ensures all { IfOk result (λ settled. length settled.codes.items ≡ length (waiting self.old.sender.server)) }
        ensures tries { IfOk result (λ settled. (1 ≤ settled.tries) × (settled.tries ≤ self.old.sender.tries)) }
        ensures outstanding { IfErr result (λ _. StillWait self.old.sender.server self.new.sender.server) }
        ensures stays { record self.new.sender { server = self.old.sender.server; left = self.old.sender.left }
            ≡ self.old.sender }
        ensures loan { self.new.loan ≡ self.old.loan }
        // What each connection did, and nothing else: no batch is given up before its tries on a connection are spent,
        // or its connections; and with `reconnect_silent` both. Each message is told the code of its own reply.
        ensures delivers { IfOk result (λ settled. (ended : ℕ) × (marks : Marks)
            × Delivers C.opens C.closes C.Input.remaining C.Output.contents ended ConnectionFailed self.old self.new []
            marks (Ok settled.tries)
            × AreTold self.old.sender.server marks settled.codes.items) }
        ensures gives_up { IfErr result (λ reason. (ended : ℕ) × (marks : Marks)
            × Delivers C.opens C.closes C.Input.remaining C.Output.contents ended ConnectionFailed self.old self.new []
            marks (Err reason)) }
    {
        let counters = counters_of(&self.server);
        let mut marks = ArrayVec::new();
        let tries = self.send_on_any(&mut marks)?;
        Ok(Settled {
            codes: codes_of(&counters, &marks),
            tries,
        })
    }

    /// Sends the messages that wait on the connection that there is, and on new ones as long as one ended so that
    /// another is opened, and answers how many tries the last one took.
    fn send_on_any(
        &mut self,
        marks: &mut ArrayVec<(u8, Code), WINDOW_MAX>,
    ) -> Result<u32, Outstanding>
        requires busy { self.old.sender.server.held ≢ [] }
        requires few { length (waiting self.old.sender.server) ≤ 8 }
        requires none { marks.old.items ≡ [] }
        ensures idle { IfOk result (λ _. self.new.sender.server.held ≡ []) }
        ensures tries { IfOk result (λ tries. (1 ≤ tries) × (tries ≤ self.old.sender.tries)) }
        ensures outstanding { IfErr result (λ _. self.new.sender.server.held ≢ []) }
        ensures follows { Follows self.old.sender.server self.new.sender.server [] marks.new.items }
        ensures stays { record self.new.sender { server = self.old.sender.server; left = self.old.sender.left }
            ≡ self.old.sender }
        ensures delivers { (ended : ℕ) × Delivers C.opens C.closes C.Input.remaining C.Output.contents ended
            ConnectionFailed self.old self.new [] marks.new.items result }
    {
        let mut reason = Outstanding::ConnectionFailed;
        'connections: loop {
            match self.send_on_one(marks) {
                None => return Err(reason),
                Some(Ok(tries)) => return Ok(tries),
                Some(Err(fault)) => reason = reason_of(fault),
            }
            self.hang_up();
            if !self.opens_another(reason) {
                return Err(reason);
            }
            self.limits.reconnects -= 1;
        }
    }

    /// Whether another connection is opened where one ended for this reason.
    fn opens_another(&self, reason: Outstanding) -> bool
        ensures value { result ≡ opens_another self.now.sender reason }
        ensures left { IsTrue result → 0 < self.now.sender.left }
    {
        match reason {
            Outstanding::ConnectionFailed => self.limits.reconnects > 0,
            Outstanding::TriesSpent => self.limits.reconnect_silent && self.limits.reconnects > 0,
        }
    }
}

/// Why messages are outstanding where a connection ended so and there is no other.
fn reason_of(fault: DriveFault) -> Outstanding
    ensures { result ≡ reason_of fault }
{
    match fault {
        DriveFault::WriteFailed { .. } | DriveFault::Closed => Outstanding::ConnectionFailed,
        DriveFault::TriesSpent => Outstanding::TriesSpent,
    }
}
