//! A sender whose server joins its encoder. Source: profile.
ghost use Rattle.std.specs.Prelude.{◌≡◌, ◌≤◌, ℕ, [], None, IfSome, IfNone};
ghost use Rattle.uecp_net.specs.declared.sender.Outstanding.TheVariants.{ConnectionFailed};
ghost use Rattle.uecp_net.specs.Sending.{SenderOver, OpensNone, HangsUp};
ghost use Rattle.uecp_net.specs.Joining.{PassesTo, JoinsOver, end_of_pass};

use super::{Outstanding, Sender, reason_of};
use crate::connect::Connections;
use uecp_link::{DriveFault, Joining, join};

/// How many frames a pass has, one under each counter: it may make so many times the reads of a try.
const PASS_FRAMES: u32 = 255;

impl<'a, C: Connections> Sender<'a, C> {
    /// Joins the encoder, so that the server may begin with counter 01 whatever the encoder has kept: makes a pass of
    /// empty messages over a new connection, and where that is not complete another one over the next, which goes on
    /// behind what was answered ([`join`](uecp_link::join)), as long as reconnects are left. The connection that there
    /// was is let go first. A pass makes at most 255 times as many reads as a try. Where the encoder is joined the
    /// connection stays, for the batch that is settled next; else it is let go. No message is held, before or after.
    pub fn join(&mut self) -> Result<(), Outstanding>
        requires idle { self.old.sender.server.held ≡ [] }
        // What each connection did, and nothing else: a pass on each, and none where one was complete.
        ensures joins { (first : SenderOver C C.Input C.Output) × (ended : ℕ) × HangsUp C.closes self.old first
            × JoinsOver C.opens C.closes C.Input.remaining C.Output.contents ended ConnectionFailed 0 first self.new
            result }
        ensures idle { self.new.sender.server.held ≡ [] }
        ensures stays { record self.new.sender { server = self.old.sender.server; left = self.old.sender.left }
            ≡ self.old.sender }
        ensures loan { self.new.loan ≡ self.old.loan }
    {
        self.hang_up();
        let mut reason = Outstanding::ConnectionFailed;
        let mut behind = 0u8;
        'connections: loop {
            match self.pass(&mut behind) {
                None => return Err(reason),
                Some(Ok(())) => return Ok(()),
                Some(Err(why)) => reason = why,
            }
            self.hang_up();
            if self.limits.reconnects == 0 {
                return Err(reason);
            }
            self.limits.reconnects -= 1;
        }
    }

    /// Makes a pass over a new connection, which goes on behind a counter, and says what it came to; or None where
    /// there is no connection to be had.
    fn pass(&mut self, behind: &mut u8) -> Option<Result<(), Outstanding>>
        requires idle { self.old.sender.server.held ≡ [] }
        requires none { self.old.ends ≡ None }
        requires part { behind.old ≤ 0xFE }
        ensures passes { IfSome result (PassesTo C.opens C.Input.remaining C.Output.contents behind.old behind.new
            self.old self.new) }
        ensures part { behind.new ≤ 0xFE }
        ensures refused { IfNone result (OpensNone C.opens self.old self.new) }
        ensures idle { self.new.sender.server.held ≡ [] }
        ensures stays { record self.new.sender { server = self.old.sender.server } ≡ self.old.sender }
        ensures loan { self.new.loan ≡ self.old.loan }
    {
        let mut ends = self.connected()?;
        let turns = self.limits.turns.saturating_mul(PASS_FRAMES);
        let went = join(
            &mut self.server,
            &mut ends.input,
            &mut ends.output,
            turns,
            behind,
        );
        self.ends = Some(ends);
        Some(end_of_pass(went))
    }
}

/// What a pass that ended so comes to: the encoder is joined, or it is not, for this reason.
fn end_of_pass(went: Result<Joining, DriveFault>) -> Result<(), Outstanding>
    ensures { result ≡ end_of_pass went }
{
    match went {
        Ok(Joining::Joined) => Ok(()),
        Ok(Joining::Spent) => Err(Outstanding::TriesSpent),
        Err(fault) => Err(reason_of(fault)),
    }
}
