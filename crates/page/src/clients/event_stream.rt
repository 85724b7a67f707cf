//! Events as they go out on a connection (profile).
ghost use Rattle.std.specs.Prelude.{◌≡◌, ◌≤◌, ◌<◌, ◌⊎◌, ℕ, List, [], ◌∷◌, ◌+◌, ◌++◌, Err, OnOk, OnErr, length};
ghost use Rattle.http1.specs.Conn.{data_text};
ghost use Rattle.http1.specs.Server.{writing};
ghost use Rattle.page.specs.Events.{Event};
ghost use Rattle.page.specs.Stream.{part_text, carries};
ghost use Rattle.page.specs.declared.clients.event_stream.EndOfEvents.TheVariants.{Lost};
ghost use Rattle.page.specs.Sending.{Delivers, FewWait, IsLive, SaysAlive, Ends, owed};
ghost use Rattle.page.specs.Talk.{Gets};
ghost use Rattle.page.specs.Delivering.{IsSent, IsCaughtUp, IsServed};
ghost use Rattle.page.specs.ClientView.{standing_of, came_of};

use crate::clients::client::{Client, Phase};
use crate::events::{ALIVE, History, put_event};
use crate::guests::{Connection, Passed};
use std::alloc::Global;

/// From how many bytes on no more events are put behind what waits.
pub const WAITING_MAX: usize = 64 * 1024;

/// How often is written at most in one turn, so that no connection holds the others.
const WRITES_MAX: u32 = 16;

/// Why a connection is to be closed.
#[derive(Clone, Copy, Debug, PartialEq, Eq)]
pub enum EndOfEvents {
    /// The next event that it is owed is kept no longer: it did not keep up.
    Lost,
    /// The other end is gone, or writing failed.
    Gone,
    /// Memory was refused.
    OutOfMemory,
}

impl Client {
    /// Puts the events that it is owed behind what waits, until none is left or 64 KiB waits. Where it gets no events
    /// nothing changes.
    ///
    /// Errors: `Lost`, and `OutOfMemory`; the events so far stand there whole.
    pub fn catch_up(&mut self, alloc: Global, history: &History) -> Result<(), EndOfEvents>
        ensures sends { IsLive (standing_of self.old)
            → (events : List Event) × Delivers history.now events [] (standing_of self.old) (standing_of self.new) }
        ensures phase { (standing_of self.new).phase ≡ (standing_of self.old).phase }
        ensures lost { result ≡ Err Lost → (standing_of self.new).due < history.now.first }
        ensures all { OnOk result (IsCaughtUp history.now (standing_of self.new)) }
        ensures few { ((standing_of self.new).output ≡ (standing_of self.old).output) ⊎ FewWait (standing_of self.new) }
        ensures idle { (IsLive (standing_of self.old) → ⊥) → standing_of self.new ≡ standing_of self.old }
        ensures came { came_of self.new ≡ came_of self.old }
    {
        if self.phase != Phase::Live {
            return Ok(());
        }
        for _event in 0..u64::MAX {
            if self.due < history.first() {
                return Err(EndOfEvents::Lost);
            }
            if self.output.len() >= WAITING_MAX {
                return Ok(());
            }
            let Some(line) = history.line(self.due) else {
                return Ok(());
            };
            self.send(alloc, line)?;
        }
        Err(EndOfEvents::OutOfMemory)
    }

    /// Puts the next event that it is owed behind what waits; it carries this line.
    ///
    /// Errors: `OutOfMemory`; nothing changes then.
    fn send(&mut self, alloc: Global, line: &[u8]) -> Result<(), EndOfEvents>
        requires { self.old.phase ≡ Phase.Live }
        ensures output { OnOk result (self.new.output.items
            ≡ self.old.output.items ++ data_text (writing self.old.server)
            (part_text (carries self.old.due line.now))) }
        ensures due { OnOk result (self.new.due ≡ self.old.due + 1) }
        ensures writing { writing self.new.server ≡ writing self.old.server }
        ensures phase { self.new.phase ≡ self.old.phase }
        ensures came { came_of self.new ≡ came_of self.old }
        ensures err { OnErr result (standing_of self.new ≡ standing_of self.old) }
        ensures memory { result ≡ Err Lost → ⊥ }
    {
        let Some(next) = self.due.checked_add(1) else {
            return Err(EndOfEvents::OutOfMemory);
        };
        let mut text = Vec::new(alloc);
        if put_event(self.due, line, &mut text).is_err() {
            return Err(EndOfEvents::OutOfMemory);
        }
        if self
            .server
            .write_data(&mut self.output, text.as_slice())
            .is_err()
        {
            return Err(EndOfEvents::OutOfMemory);
        }
        self.due = next;
        Ok(())
    }

    /// Puts the events that it is owed behind what waits, and writes what waits, until nothing does or the connection
    /// takes no more for now; 16 times at most. Whatever it is owed then still waits. Where it gets no events it only
    /// writes.
    ///
    /// Errors: as [`EndOfEvents`] has them; then it is to be closed.
    pub fn deliver<C: Connection>(
        &mut self,
        alloc: Global,
        history: &History,
        connection: &mut C,
    ) -> Result<(), EndOfEvents>
        ensures sends { (events : List Event) × (written : List ℕ)
            × Gets written (C.talk connection.old) (C.talk connection.new)
            × IsSent history.now events written (standing_of self.old) (standing_of self.new)
            × OnOk result (IsServed history.now written (C.talk connection.new) (standing_of self.new)) }
        ensures came { came_of self.new ≡ came_of self.old }
    {
        self.catch_up(alloc, history)?;
        for _write in 0..WRITES_MAX {
            if self.waiting() == 0 {
                return Ok(());
            }
            match self.write_to(connection) {
                Passed::Bytes(count) => {
                    if count == 0 {
                        return Err(EndOfEvents::Gone);
                    }
                }
                Passed::NotNow => return Ok(()),
                Passed::Gone => return Err(EndOfEvents::Gone),
            }
            self.catch_up(alloc, history)?;
        }
        Ok(())
    }

    /// Says that all is well, where nothing waits.
    pub fn say_alive(&mut self)
        ensures says { SaysAlive (standing_of self.old) (standing_of self.new) }
        ensures came { came_of self.new ≡ came_of self.old }
    {
        if self.phase == Phase::Live && self.output.is_empty() {
            let _ = self.server.write_data(&mut self.output, ALIVE.as_bytes());
        }
    }

    /// Ends the stream of events: what waits is sent, and then it is closed.
    pub fn end(&mut self)
        ensures ends { Ends (standing_of self.old) (standing_of self.new) }
        ensures came { came_of self.new ≡ came_of self.old }
    {
        let was_live = self.phase == Phase::Live;
        self.phase = Phase::Closing;
        if was_live {
            let _ = self.server.write_end(&mut self.output, &[]);
        }
    }
}
