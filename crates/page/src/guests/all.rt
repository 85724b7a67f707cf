//! All who ask (profile).
ghost use Rattle.std.specs.Prelude.{◌≡◌, ◌⊎◌, ◌<◌, ◌≤◌, [], leb, length, slice_index_or, IfSome, IfNone, IsTrue};
ghost use Rattle.page.specs.declared.guests.guest.Guest.{Guest as GuestValue};
ghost use Rattle.page.specs.ClientView.{source_of};
ghost use Rattle.page.specs.Intake.{board_of};
ghost use Rattle.page.specs.Talk.{IsUnsaid};
ghost use Rattle.seats.specs.Seats.{OfNone, IsFirst, IsSeatGiven, NoSeatGiven};
ghost use Rattle.page.specs.EventPlaces.{seats_of, HasRoom, AreHeard, GivesEvents, HearsOne};
ghost use Rattle.page.specs.Places.{RestsIn, IsGiven, NoneGives, HasPlace, ComesIn, OwedStay};
ghost use Rattle.page.specs.Visits.{
  guests_of,
  AreCaughtUp,
  live_in,
  AllServed,
  HasNone,
  HearsThen,
  AllDo,
  TakesTurn,
};

use crate::clients::{Phase, Site};
use crate::events::History;
use crate::guests::connection::Connection;
use crate::guests::guest::{Deed, Guest};
use crate::guests::room::{Kind, Room};
use crate::guests::sockets::Sockets;
use crate::intake::Intake;
use crate::state::Moment;
use arrayvec::ArrayVec;
use seats::{Seat, place_given};
use std::alloc::Global;

/// How many ask at a time.
const GUESTS_MAX: usize = 128;

/// How many of them get events.
const LIVE_MAX: usize = 64;

/// All who ask, in the order in which they came; and whether only the machine's own names are served to them.
pub struct Guests<C> {
    guests: Vec<Guest<C>>,
    own_only: bool,
}

impl<C: Connection> Guests<C> {
    /// Nobody asks; with `own_only` only the machine's own names are served.
    pub fn new(alloc: Global, own_only: bool) -> Guests<C>
        ensures nobody { guests_of result ≡ [] }
        ensures own_only { result.own_only ≡ own_only }
    {
        Guests {
            guests: Vec::new(alloc),
            own_only,
        }
    }

    /// Whether all places of those who get events are taken.
    pub fn is_full(&self) -> bool
        ensures { result ≡ leb 64 (live_in (guests_of self.now)) }
    {
        self.live() >= LIVE_MAX
    }

    /// How many get events.
    fn live(&self) -> usize
        ensures { result ≡ live_in (guests_of self.now) }
    {
        self.guests.iter().filter(|guest| guest.is_live()).count()
    }

    /// Whether something waits to be sent to one of them.
    pub fn is_behind(&self) -> bool {
        self.guests.iter().any(|guest| guest.is_behind())
    }

    /// One more asks. Where all places are taken one gives its own, and is let go: who was answered and took all of
    /// that, or else who has waited longest of those who have not asked. Where all are owed something it is who has
    /// waited longest of those from whose origin most ask, if fewer do from the one more's. Where none gives it, or
    /// without memory, the connection of the one more is closed.
    pub fn add<S: Sockets<Connection = C>>(
        &mut self,
        alloc: Global,
        connection: C,
        history: &History,
        sockets: &mut S,
    )
        requires unsaid { IsUnsaid (C.talk connection) }
        requires served { AllServed C.talk history.now self.old }
        ensures comes { ComesIn C.origin connection (guests_of self.old) (guests_of self.new) }
        ensures stays { OwedStay C.origin (C.origin connection) (guests_of self.old) (guests_of self.new) }
        ensures served { AllServed C.talk history.now self.new }
        ensures caught_up { AreCaughtUp history.now (guests_of self.old)
            → AreCaughtUp history.now (guests_of self.new) }
        ensures own_only { self.new.own_only ≡ self.old.own_only }
    {
        let origin = connection.origin();
        let guest = Guest::new(alloc, connection);
        if !self.make_place(origin, history, sockets) {
            sockets.close(guest.leave());
            return;
        }
        match self.guests.push(guest) {
            Ok(()) => {}
            Err(failed) => sockets.close(failed.value.leave()),
        }
    }

    /// Whether there is a place for one more that comes from there: where all are taken one gives its own, and is let
    /// go.
    fn make_place<S: Sockets<Connection = C>>(
        &mut self,
        origin: u128,
        history: &History,
        sockets: &mut S,
    ) -> bool
        requires { AllServed C.talk history.now self.old }
        ensures place { HasPlace C.origin origin (guests_of self.old) result (guests_of self.new) }
        ensures free { IsTrue result → length (guests_of self.new) < 128 }
        ensures served { AllServed C.talk history.now self.new }
        ensures own_only { self.new.own_only ≡ self.old.own_only }
    {
        if self.guests.len() < GUESTS_MAX {
            return true;
        }
        let Some(place) = self.place_given(origin) else {
            return false;
        };
        let guest = self.guests.remove(place);
        sockets.close(guest.leave());
        true
    }

    /// Where the one stands who gives its place to one that comes from there.
    fn place_given(&self, origin: u128) -> Option<usize>
        requires { length (guests_of self.now) ≤ 128 }
        ensures some { IfSome result (λ place. IsGiven C.origin origin place (guests_of self.now)) }
        ensures none { IfNone result (NoneGives C.origin origin (guests_of self.now)) }
    {
        match self.first_resting(Phase::Closing) {
            Some(place) => Some(place),
            None => match self.first_resting(Phase::Asking) {
                Some(place) => Some(place),
                None => self.seat_given(Kind::Connections, origin),
            },
        }
    }

    /// Where the one stands who gives its place of this kind to one that comes from there, as `seats` has it.
    fn seat_given(&self, kind: Kind, origin: u128) -> Option<usize>
        requires { length (guests_of self.now) ≤ 128 }
        ensures some { IfSome result (λ place. IsSeatGiven origin place (seats_of C.origin kind (guests_of self.now))) }
        ensures none { IfNone result (NoSeatGiven origin (seats_of C.origin kind (guests_of self.now))) }
    {
        let mut all: ArrayVec<Seat, GUESTS_MAX> = ArrayVec::new();
        for guest in &self.guests {
            all.push(guest.seat(kind));
        }
        place_given(all.as_slice(), origin)
    }

    /// Where the first stands who is in this phase, and for whom nothing waits.
    fn first_resting(&self, phase: Phase) -> Option<usize>
        ensures some { IfSome result (λ place. IsFirst (RestsIn phase) place (guests_of self.now)) }
        ensures none { IfNone result (OfNone (RestsIn phase) (guests_of self.now)) }
    {
        for (place, guest) in self.guests.iter().enumerate() {
            if guest.rests_in(phase) {
                return Some(place);
            }
        }
        None
    }

    /// Something came on the connection of this number: it is heard at this moment, and answered from what came in.
    /// Where it gets events from then on, and all places of those were taken, one of them gives its own, and is let go.
    pub fn hear<S: Sockets<Connection = C>>(
        &mut self,
        alloc: Global,
        number: usize,
        intake: &Intake,
        moment: Moment,
        sockets: &mut S,
    )
        requires { AllServed C.talk (board_of intake.now).past self.old }
        ensures served { AllServed C.talk (board_of intake.now).past self.new }
        ensures caught_up { AreCaughtUp (board_of intake.now).past (guests_of self.old)
            → AreCaughtUp (board_of intake.now).past (guests_of self.new) }
        ensures own_only { self.new.own_only ≡ self.old.own_only }
        ensures hears { (HasNone C.numbered number (guests_of self.old) × (self.new ≡ self.old))
            ⊎ HearsOne C.talk C.origin C.numbered C.reads number (board_of intake.now).shown
            (board_of intake.now).past moment self.old.own_only (guests_of self.old) (guests_of self.new) }
    {
        let Some(place) = self.place_of(number) else {
            return;
        };
        let room = self.room_for(self.guests[place].connection.origin());
        let site = intake.site(moment, self.own_only, room.is_full());
        if hear(&mut self.guests[place], alloc, &site, sockets) {
            self.give_events(room, intake.history(), sockets);
        } else {
            let guest = self.guests.remove(place);
            sockets.close(guest.leave());
        }
    }

    /// Where a place of events is for one more that comes from there.
    fn room_for(&self, origin: u128) -> Room
        requires { length (guests_of self.now) ≤ 128 }
        ensures { HasRoom C.origin origin (guests_of self.now) result }
    {
        if !self.is_full() {
            return Room::Free;
        }
        match self.seat_given(Kind::Events, origin) {
            Some(place) => Room::Given(place),
            None => Room::Full,
        }
    }

    /// Where one more gets events than may the one that gives its place is let go.
    fn give_events<S: Sockets<Connection = C>>(
        &mut self,
        room: Room,
        history: &History,
        sockets: &mut S,
    )
        requires { AreHeard C.talk room self.old.own_only history.now (guests_of self.old) }
        ensures gives { GivesEvents room (guests_of self.old) (guests_of self.new) }
        ensures served { AllServed C.talk history.now self.new }
        ensures own_only { self.new.own_only ≡ self.old.own_only }
    {
        if self.live() <= LIVE_MAX {
            return;
        }
        if let Room::Given(place) = room {
            let guest = self.guests.remove(place);
            sockets.close(guest.leave());
        }
    }

    /// Where the one stands whose connection has this number.
    fn place_of(&self, number: usize) -> Option<usize>
        ensures some { IfSome result (λ place. (place < length (guests_of self.now))
            × ((d : GuestValue C) → C.numbered (slice_index_or (guests_of self.now) place d).connection ≡ number)) }
        ensures none { IfNone result (HasNone C.numbered number (guests_of self.now)) }
    {
        for (place, guest) in self.guests.iter().enumerate() {
            if guest.connection.number() == number {
                return Some(place);
            }
        }
        None
    }

    /// All who ask do this, one after another; who is not to be kept is let go, and its connection closed.
    pub fn all<S: Sockets<Connection = C>>(
        &mut self,
        alloc: Global,
        history: &History,
        deed: Deed,
        sockets: &mut S,
    )
        requires { AllServed C.talk history.now self.old }
        ensures served { AllServed C.talk history.now self.new }
        ensures caught_up { ((deed ≡ Deed.CatchUp) ⊎ AreCaughtUp history.now (guests_of self.old))
            → AreCaughtUp history.now (guests_of self.new) }
        ensures own_only { self.new.own_only ≡ self.old.own_only }
        ensures all { AllDo C.talk deed history.now (guests_of self.old) (guests_of self.new) }
    {
        let mut place = 0;
        while place < self.guests.len() {
            if take_turn(&mut self.guests[place], alloc, history, deed, sockets) {
                place += 1;
            } else {
                let guest = self.guests.remove(place);
                sockets.close(guest.leave());
            }
        }
    }

    /// Lets all go, and closes their connections.
    pub fn close<S: Sockets<Connection = C>>(self, history: &History, sockets: &mut S)
        requires { AllServed C.talk history.now self }
    {
        let Guests {
            mut guests,
            own_only: _,
        } = self;
        while let Some(guest) = guests.pop() {
            sockets.close(guest.leave());
        }
        guests.destroy_empty();
    }
}

/// One of them is heard, and answered as far as it takes it. Whether it is to be kept.
fn hear<C: Connection, S: Sockets<Connection = C>>(
    guest: &mut Guest<C>,
    alloc: Global,
    site: &Site<'_>,
    sockets: &mut S,
) -> bool
    ensures { HearsThen C.talk C.reads (source_of site.now) site.now.own_only guest.old result guest.new }
{
    if !guest.hear(alloc, site) {
        return false;
    }
    if !guest.deliver(alloc, site.history) {
        return false;
    }
    sockets.watch(&guest.connection, guest.is_behind())
}

/// One of them does this. Whether it is to be kept. Of one that something waited for it is told from now on whether
/// something does.
fn take_turn<C: Connection, S: Sockets<Connection = C>>(
    guest: &mut Guest<C>,
    alloc: Global,
    history: &History,
    deed: Deed,
    sockets: &mut S,
) -> bool
    ensures { TakesTurn C.talk deed history.now guest.old result guest.new }
{
    let was_behind = guest.is_behind();
    if !guest.take_turn(alloc, history, deed) {
        return false;
    }
    if let Deed::Deliver = deed {
        if was_behind {
            return sockets.watch(&guest.connection, guest.is_behind());
        }
    }
    true
}
