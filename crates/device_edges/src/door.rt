//! Who comes to wait where connections are taken from some addresses alone (profile).
ghost use Rattle.std.specs.Prelude.{◌≡◌, ◌↔◌, [], IsTrue, IfOk};
ghost use Rattle.device_edges.specs.Allowed.{IsTaken};
ghost use Rattle.device_edges.specs.Door.{met};
ghost use Rattle.device_edges.specs.Lobby.{TakesFrom, next_place};

use crate::allowed::Allowed;
use crate::lobby::{Lobby, Look};
use std::alloc::{AllocError, Global};
use std::marker::Model;
use std::net::IpAddr;

/// Those who wait, and from where connections are taken; from everywhere with no list. Nobody comes to wait but by
/// [`Door::meet`].
#[derive(Drop)]
pub(crate) struct Door<G> {
    lobby: Lobby<G>,
    allowed: Option<Allowed>,
}

impl<G> Model for Door<G> {
    ghost use Rattle.device_edges.specs.Door.{Door as DoorValue};

    ghost Value = { DoorValue G };

    ghost view = { λ d. record { allowed = d.allowed; guests = d.lobby } };
}

impl<G> Door<G> {
    /// A door at which nobody waits.
    pub(crate) fn new(alloc: Global, allowed: Option<Allowed>) -> Result<Door<G>, AllocError>
        ensures { IfOk result (λ door. door ≡ record { allowed = allowed; guests = [] }) }
    {
        Ok(Door {
            lobby: Lobby::new(alloc)?,
            allowed,
        })
    }

    /// Those who wait.
    pub(crate) fn lobby(&self) -> &Lobby<G>
        ensures { result.now ≡ self.now.guests }
    {
        &self.lobby
    }

    /// Who has the place next no longer waits: its connection.
    pub(crate) fn take_next(&mut self) -> Option<G>
        ensures takes { TakesFrom (next_place self.old.guests) self.old.guests result self.new.guests }
        ensures allowed { self.new.allowed ≡ self.old.allowed }
    {
        self.lobby.take_next()
    }

    /// Whether connections from this address are taken.
    fn takes(&self, from: IpAddr) -> bool
        ensures { IsTrue result ↔ IsTaken self.now.allowed from }
    {
        match &self.allowed {
            Some(allowed) => allowed.has(from),
            None => true,
        }
    }
}

impl<G: Drop> Door<G> {
    /// One came from this address: where connections from there are taken it waits from now on, if there is a place,
    /// for which another may go; else its connection is closed. Whether connections from there are taken.
    pub(crate) fn meet(&mut self, line: G, from: IpAddr, now: u64) -> bool
        ensures taken { IsTrue result ↔ IsTaken self.old.allowed from }
        ensures comes { self.new ≡ record self.old { guests = met result line now self.old.guests } }
    {
        if !self.takes(from) {
            return false;
        }
        if self.lobby.has_place() {
            let _gone = self.lobby.join(line, now);
        }
        true
    }

    /// What was found of the one at this place, as [`Lobby::settle`] has it.
    pub(crate) fn settle(&mut self, place: usize, look: Look, now: u64) -> bool
        ensures { self.new.allowed ≡ self.old.allowed }
    {
        self.lobby.settle(place, look, now)
    }
}
