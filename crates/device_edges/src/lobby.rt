//! Who waits for the place that one connection has, and who has it next (profile).
ghost use Rattle.std.specs.Prelude.{◌≡◌, ◌<◌, ◌≤◌, ◌++◌, ◌∷◌, [], length, IfOk, IfSome, true};
ghost use Rattle.device_edges.specs.Lobby.{arrived, has_place, with_place, ready_place, silent_place, next_place};
ghost use Rattle.device_edges.specs.Lobby.{without};
ghost use Rattle.device_edges.specs.Lobby.{TakesFrom, is_late};

use std::alloc::{AllocError, Global};
use std::marker::Model;

/// How many may wait at a time.
pub(crate) const GUESTS_MAX: usize = 8;

/// For how many milliseconds one may wait that has brought no frame.
const PATIENCE: u64 = 5000;

/// One who waits: its connection, since when, in milliseconds, and whether it has brought a whole good frame.
#[derive(Drop)]
pub(crate) struct Guest<G> {
    line: G,
    since: u64,
    is_ready: bool,
}

/// Those who wait, in the order in which they were accepted, eight at most. There is room for all of them.
#[derive(Drop)]
pub(crate) struct Lobby<G> {
    guests: Vec<Guest<G>>,
}

impl<G> Model for Lobby<G> {
    ghost use Rattle.std.specs.Prelude.{◌≤◌, List};
    ghost use Rattle.std.specs.Vec.{vec_len, vec_capacity};
    ghost use Rattle.device_edges.specs.declared.lobby.Guest.{Guest};

    ghost Value = { List (Guest G) };

    ghost view = { λ l. l.guests.items };

    ghost invariant = { λ l. (8 ≤ vec_capacity l.guests) × (vec_len l.guests ≤ 8) };
}

impl<G> Lobby<G> {
    /// Nobody waits.
    pub(crate) fn new(alloc: Global) -> Result<Lobby<G>, AllocError>
        ensures { IfOk result (λ lobby. lobby ≡ []) }
    {
        Ok(Lobby {
            guests: Vec::with_capacity(alloc, GUESTS_MAX)?,
        })
    }

    /// How many wait.
    pub(crate) fn len(&self) -> usize
        ensures { result ≡ length self.now }
    {
        self.guests.len()
    }

    /// The place of the first that has brought a frame.
    pub(crate) fn ready_place(&self) -> Option<usize>
        ensures { result ≡ ready_place self.now }
    {
        self.guests.iter().position(|guest| guest.is_ready)
    }

    /// The place of the first that has not.
    pub(crate) fn silent_place(&self) -> Option<usize>
        ensures { result ≡ silent_place self.now }
    {
        self.guests.iter().position(|guest| !guest.is_ready)
    }

    /// Whether one more may wait: fewer than eight do, or one of them goes for it.
    pub(crate) fn has_place(&self) -> bool
        ensures { result ≡ has_place self.now }
    {
        self.guests.len() < GUESTS_MAX || self.silent_place().is_some()
    }

    /// One more waits from now on, behind the others. Where eight do, the first of those that have brought no frame
    /// goes, whose connection is answered.
    pub(crate) fn join(&mut self, line: G, now: u64) -> Option<G>
        requires { has_place self.old ≡ true }
        ensures joins { self.new ≡ with_place self.old ++ arrived line now ∷ [] }
    {
        let gone = if self.guests.len() < GUESTS_MAX {
            None
        } else {
            let place = self.silent_place();
            self.take_at(place)
        };
        self.guests.push_reserved(Guest {
            line,
            since: now,
            is_ready: false,
        });
        gone
    }

    /// The one at this place no longer waits: its connection.
    pub(crate) fn take_at(&mut self, place: Option<usize>) -> Option<G>
        requires { IfSome place (λ i. i < length self.old) }
        ensures takes { TakesFrom place self.old result self.new }
        ensures rest { self.new ≡ without place self.old }
    {
        let Guest {
            line,
            since: _,
            is_ready: _,
        } = self.guests.remove(place?);
        Some(line)
    }

    /// Who has the place next no longer waits: the first that has brought a frame; where none has, the first of all.
    pub(crate) fn take_next(&mut self) -> Option<G>
        ensures { TakesFrom (next_place self.old) self.old result self.new }
    {
        let place = self.next_place();
        self.take_at(place)
    }

    /// The place of who has it next.
    fn next_place(&self) -> Option<usize>
        ensures { result ≡ next_place self.now }
    {
        if self.guests.is_empty() {
            return None;
        }
        Some(self.ready_place().unwrap_or(0))
    }

    /// The connection of the one at this place.
    pub(crate) fn line_at(&self, place: usize) -> Option<&G> {
        match self.guests.get(place) {
            Some(guest) => Some(&guest.line),
            None => None,
        }
    }
}

impl<G: Drop> Lobby<G> {
    /// What was found of the one at this place: that it has brought a frame, or that it is gone. Where neither is so
    /// and it has waited for five seconds it goes too. Whether it went.
    pub(crate) fn settle(&mut self, place: usize, look: Look, now: u64) -> bool {
        let Some(guest) = self.guests.get_mut(place) else {
            return false;
        };
        let goes = match look {
            Look::Ready => {
                guest.is_ready = true;
                false
            }
            Look::Gone => !guest.is_ready,
            Look::Silent => is_late(guest, now),
            Look::Kept => false,
        };
        if goes {
            self.guests.remove(place);
        }
        goes
    }
}

/// What is found of a connection that is looked at, of which nothing is taken.
#[derive(Clone, Copy, Debug)]
pub(crate) enum Look {
    /// It has brought a whole good frame.
    Ready,
    /// It has not.
    Silent,
    /// It has not, and was closed or broke.
    Gone,
    /// It may wait on, whatever it has brought.
    Kept,
}

/// Whether one has waited for so long without a frame that it goes.
fn is_late<G>(guest: &Guest<G>, now: u64) -> bool
    ensures { result ≡ is_late guest.now now }
{
    !guest.is_ready && now.saturating_sub(guest.since) >= PATIENCE
}
