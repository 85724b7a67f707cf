//! A sender's connections: the one that it has, a new one, and the batch over one of them. Source: profile.
ghost use Rattle.std.specs.Prelude.{◌≡◌, ◌≢◌, ◌+◌, ◌≤◌, [], length, Some, None, IfOk, IfErr, IfSome, IfNone};
ghost use Rattle.uecp_link.specs.Server.{waiting};
ghost use Rattle.uecp_net.specs.Sending.{SenderOver, Goes, GoesOn, Opens, OpensNone, Tried, Follows, HangsUp};
ghost use Rattle.uecp_net.specs.Sending.{without_ends};

use super::{Limits, Sender, TwoEnds};
use crate::connect::Connections;
use arrayvec::ArrayVec;
use std::io::{Read, Write};
use uecp_elements::Code;
use uecp_encoder::Meter;
use uecp_link::{DriveFault, Server, WINDOW_MAX, Windowed, send_window};

impl<'a, C: Connections> Sender<'a, C> {
    /// Sends the messages that wait on the connection that there is, or on a new one, and says how that went; or None
    /// where there is none to be had.
    pub(super) fn send_on_one(
        &mut self,
        marks: &mut ArrayVec<(u8, Code), WINDOW_MAX>,
    ) -> Option<Result<u32, DriveFault>>
        requires busy { self.old.sender.server.held ≢ [] }
        requires room { length marks.old.items + length (waiting self.old.sender.server) ≤ 8 }
        ensures goes { Goes C.opens C.Input.remaining C.Output.contents self.old self.new marks.old.items
            marks.new.items result }
        ensures idle { IfSome result (λ went. IfOk went (λ tries. (self.new.sender.server.held ≡ []) × (1 ≤ tries)
            × (tries ≤ self.old.sender.tries))) }
        ensures outstanding { IfSome result (λ went. IfErr went (λ _. self.new.sender.server.held ≢ [])) }
        ensures follows { Follows self.old.sender.server self.new.sender.server marks.old.items marks.new.items }
        ensures stays { record self.new.sender { server = self.old.sender.server } ≡ self.old.sender }
    {
        let mut ends = self.ready()?;
        let went = send_waiting(
            &mut self.server,
            &mut ends.input,
            &mut ends.output,
            self.limits,
            marks,
        );
        self.ends = Some(ends);
        Some(went)
    }

    /// Lets the connection go, if there is one.
    pub(super) fn hang_up(&mut self)
        ensures { HangsUp C.closes self.old self.new }
    {
        if let Some(ends) = self.ends.take() {
            self.connect
                .close(ends.input.into_inner(), ends.output.into_inner());
        }
    }

    /// The connection that there is, or a new one, or None where there is none to be had.
    pub(super) fn ready(&mut self) -> Option<TwoEnds<C::Input, C::Output>>
        ensures goes_on { IfSome result (λ ends. (start : SenderOver C C.Input C.Output) × GoesOn C.opens self.old start
            × (start.ends ≡ Some ends) × (self.new ≡ without_ends start)) }
        ensures none { IfNone result (OpensNone C.opens self.old self.new) }
    {
        match self.ends.take() {
            Some(ends) => Some(ends),
            None => self.connected(),
        }
    }

    /// A new connection, or None where there is none to be had. What the one before left open is forgotten.
    pub(super) fn connected(&mut self) -> Option<TwoEnds<C::Input, C::Output>>
        requires { self.old.ends ≡ None }
        ensures opens { IfSome result (λ ends. (start : SenderOver C C.Input C.Output) × Opens C.opens self.old start
            × (start.ends ≡ Some ends) × (self.new ≡ without_ends start)) }
        ensures none { IfNone result (OpensNone C.opens self.old self.new) }
    {
        let (input, output) = self.connect.open()?;
        self.server.line_lost();
        Some(TwoEnds {
            input: Meter::new(input),
            output: Meter::new(output),
        })
    }
}

/// Sends the messages that wait on one connection, as often as the limits allow, and answers how often it did.
fn send_waiting<R: Read, W: Write>(
    server: &mut Server,
    reader: &mut Meter<R>,
    writer: &mut Meter<W>,
    limits: Limits,
    marks: &mut ArrayVec<(u8, Code), WINDOW_MAX>,
) -> Result<u32, DriveFault>
    requires busy { server.old.held ≢ [] }
    requires room { length marks.old.items + length (waiting server.old) ≤ 8 }
    ensures tried { Tried R.remaining W.contents limits.tries limits.turns
        (record { server = server.old; input = reader.old; output = writer.old; marks = marks.old.items })
        (record { server = server.new; input = reader.new; output = writer.new; marks = marks.new.items }) result }
    ensures idle { IfOk result (λ n. (server.new.held ≡ []) × (1 ≤ n) × (n ≤ limits.tries)) }
    ensures outstanding { IfErr result (λ _. server.new.held ≢ []) }
    ensures follows { Follows server.old server.new marks.old.items marks.new.items }
{
    for before in 0..limits.tries {
        match send_window(server, reader, writer, limits.turns, marks) {
            Err(fault) => return Err(fault),
            Ok(Windowed::Idle) => return Ok(before + 1),
            Ok(Windowed::Spent) => {}
        }
    }
    Err(DriveFault::TriesSpent)
}
