//! One who asks: its connection, and what it is for (profile).
ghost use Rattle.std.specs.Prelude.{◌≡◌, ◌↔◌, IsTrue, [], length};
ghost use Rattle.page.specs.EventPlaces.{waits, seat_of};
ghost use Rattle.page.specs.ClientView.{standing_of, source_of, came_of};
ghost use Rattle.page.specs.Life.{IsNew};
ghost use Rattle.page.specs.Places.{RestsIn};
ghost use Rattle.page.specs.Visits.{HearsOnce, Does, SendsNow, Ticks, gets_events, stays_at};

use crate::clients::{Client, Phase, Site};
use crate::events::History;
use crate::guests::connection::{Connection, Passed};
use crate::guests::room::Kind;
use seats::Seat;
use std::alloc::Global;

/// How many bytes are read at once.
const READ_MAX: usize = 4096;

/// How many ticks go by, of a second each, until one is let go that has not asked.
const ASKING_TICKS: u32 = 6;

/// The same of one that was answered.
const CLOSING_TICKS: u32 = 20;

/// After how many ticks one that gets events is told that all is well.
const ALIVE_TICKS: u32 = 10;

/// One who asks.
pub struct Guest<C> {
    pub(crate) connection: C,
    pub(crate) client: Client,
    pub(crate) ticks: u32,
    pub(crate) is_shut: bool,
}

/// What all who ask are asked to do.
#[derive(Clone, Copy, Debug)]
pub enum Deed {
    /// One more event came: it is put behind what waits for each that gets events.
    CatchUp,
    /// What waits is sent, as far as each takes it.
    Deliver,
    /// A second has gone by.
    Tick,
    /// No more events come.
    End,
}

impl<C: Connection> Guest<C> {
    /// One whose connection was just accepted.
    pub(crate) fn new(alloc: Global, connection: C) -> Guest<C>
        ensures connection { result.connection ≡ connection }
        ensures is_new { IsNew (standing_of result.client) }
        ensures came { came_of result.client ≡ [] }
        ensures ticks { result.ticks ≡ 0 }
    {
        Guest {
            connection,
            client: Client::new(alloc),
            ticks: 0,
            is_shut: false,
        }
    }

    /// Lets it go: its connection, as it is.
    pub(crate) fn leave(self) -> C
        ensures { result ≡ self.connection }
    {
        let Guest {
            connection,
            client: _,
            ticks: _,
            is_shut: _,
        } = self;
        connection
    }

    /// Whether it gets events.
    pub(crate) fn is_live(&self) -> bool
        ensures { result ≡ gets_events (standing_of self.now.client).phase }
    {
        self.client.phase() == Phase::Live
    }

    /// Whether something waits to be sent.
    pub(crate) fn is_behind(&self) -> bool
        ensures some { IsTrue result ↔ ((standing_of self.now.client).output ≡ [] → ⊥) }
        ensures value { result ≡ waits (standing_of self.now.client) }
    {
        self.client.waiting() > 0
    }

    /// Its seat among those of whom a place of this kind is looked for.
    pub(crate) fn seat(&self, kind: Kind) -> Seat
        ensures { result ≡ seat_of C.origin kind self.now }
    {
        let origin = self.connection.origin();
        match kind {
            Kind::Events => Seat {
                origin,
                is_taken: self.is_live(),
                is_behind: self.is_behind(),
            },
            Kind::Connections => Seat {
                origin,
                is_taken: true,
                is_behind: false,
            },
        }
    }

    /// Reads once what came, and hears it. Whether it is to be kept.
    pub(crate) fn hear(&mut self, alloc: Global, site: &Site<'_>) -> bool
        ensures { HearsOnce C.talk C.reads (source_of site.now) site.now.own_only self.old result self.new }
    {
        let mut buffer = [0; READ_MAX];
        match self.connection.read(&mut buffer) {
            Passed::Bytes(count) => {
                if count == 0 {
                    return false;
                }
                self.client.receive(alloc, &buffer[..count], site);
                true
            }
            Passed::NotNow => true,
            Passed::Gone => false,
        }
    }

    /// Does what is asked of all. Whether it is to be kept.
    pub(crate) fn take_turn(&mut self, alloc: Global, history: &History, deed: Deed) -> bool
        ensures { Does C.talk deed history.now self.old result self.new }
    {
        match deed {
            Deed::CatchUp => self.client.catch_up(alloc, history).is_ok(),
            Deed::Deliver => !self.is_behind() || self.deliver(alloc, history),
            Deed::Tick => self.tick(),
            Deed::End => {
                self.client.end();
                true
            }
        }
    }

    /// Sends what the connection takes. Whether it is to be kept. Where it was answered the other end is told that no
    /// more is written, and closes the connection.
    pub(crate) fn deliver(&mut self, alloc: Global, history: &History) -> bool
        ensures { SendsNow C.talk history.now self.old result self.new }
    {
        if self
            .client
            .deliver(alloc, history, &mut self.connection)
            .is_err()
        {
            return false;
        }
        if !self.rests_in(Phase::Closing) {
            return true;
        }
        if self.is_shut {
            return true;
        }
        self.is_shut = true;
        self.connection.shut()
    }

    /// Whether it is in this phase, and nothing waits to be sent to it.
    pub(crate) fn rests_in(&self, phase: Phase) -> bool
        ensures { IsTrue result ↔ RestsIn phase self.now }
    {
        self.client.phase() == phase && self.client.waiting() == 0
    }

    /// A second has gone by. Whether it is to be kept: one that gets no events has so long to ask, and to take its
    /// answer.
    fn tick(&mut self) -> bool
        ensures { Ticks C.talk self.old result self.new }
    {
        self.ticks = self.ticks.saturating_add(1);
        if self.ticks % ALIVE_TICKS == 0 {
            self.client.say_alive();
        }
        self.has_time()
    }

    /// Whether it has time still, to ask or to take its answer.
    fn has_time(&self) -> bool
        ensures { result ≡ stays_at (standing_of self.now.client).phase self.now.ticks }
    {
        match self.client.phase() {
            Phase::Asking => self.ticks < ASKING_TICKS,
            Phase::Live => true,
            Phase::Closing => self.ticks < CLOSING_TICKS,
        }
    }
}
