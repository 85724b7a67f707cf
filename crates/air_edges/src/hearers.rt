//! Who listens to the air (profile).
ghost use Rattle.std.specs.Prelude.{◌≡◌, ◌<◌, ◌≤◌, ◌++◌, ◌∷◌, ℕ, [], length, IsTrue, IfOk, IfSome, IfNone, ◌↔◌, ltb};
ghost use Rattle.std.specs.List.{list_any};
ghost use Rattle.seats.specs.Seats.{IsSeatGiven, NoSeatGiven};
ghost use Rattle.air_edges.specs.Hearers.{GoesOut, GetsGroup, IsGone, IsSlow, HasFate, joined};
ghost use Rattle.air_edges.specs.Hearers.{is_behind, seat_of, seats_of, replaced};

use crate::hears::{Hears, Taken};
use arrayvec::ArrayVec;
use seats::{Seat, place_given};
use std::alloc::{AllocError, Global};
use std::marker::Model;

/// How many may listen at a time.
const HEARERS_MAX: usize = 64;

/// How many bytes wait for one at most: 195 lines, which is 17 seconds, or 39 groups as bits, which is 3.4 seconds.
const WAITING_MAX: usize = 4096;

/// One who listens: its connection, from where that comes, and what it has not taken yet.
#[derive(Drop)]
pub(crate) struct Hearer<H> {
    output: H,
    origin: u128,
    waiting: ArrayVec<u8, WAITING_MAX>,
}

impl<H> Model for Hearer<H> {
    ghost use Rattle.air_edges.specs.Hearers.{Hearing};

    ghost Value = { Hearing H };

    ghost view = { λ h. record { output = h.output; origin = h.origin; waiting = h.waiting.items } };
}

/// All who listen, in the order in which they came. There is room for all who may.
#[derive(Drop)]
pub(crate) struct Hearers<H> {
    hearers: Vec<Hearer<H>>,
}

impl<H> Model for Hearers<H> {
    ghost use Rattle.std.specs.Prelude.{◌≤◌, List};
    ghost use Rattle.std.specs.Vec.{vec_len, vec_capacity};
    ghost use Rattle.air_edges.specs.Hearers.{Hearing};

    ghost Value = { List (Hearing H) };

    ghost view = { λ h. h.hearers.items };

    ghost invariant = { λ h. (64 ≤ vec_capacity h.hearers) × (vec_len h.hearers ≤ 64) };
}

/// What becomes of one who listens.
#[derive(Clone, Copy, Debug)]
enum Fate {
    Stays,
    Gone,
    Slow,
}

impl<H> Hearers<H> {
    /// Nobody listens.
    pub(crate) fn new(alloc: Global) -> Result<Hearers<H>, AllocError>
        ensures { IfOk result (λ hearers. hearers ≡ []) }
    {
        Ok(Hearers {
            hearers: Vec::with_capacity(alloc, HEARERS_MAX)?,
        })
    }

    /// Whether one more may listen.
    pub(crate) fn has_room(&self) -> bool
        ensures { result ≡ ltb (length self.now) 64 }
    {
        self.hearers.len() < HEARERS_MAX
    }

    /// One more listens, from the next group on, by this connection, which comes from there.
    pub(crate) fn add(&mut self, output: H, origin: u128)
        requires { length self.old < 64 }
        ensures { self.new ≡ self.old ++ joined output origin ∷ [] }
    {
        self.hearers.push_reserved(Hearer {
            output,
            origin,
            waiting: ArrayVec::new(),
        });
    }

    /// Whether one of them has not taken all that went out.
    pub(crate) fn is_behind(&self) -> bool
        ensures { result ≡ list_any is_behind self.now }
    {
        self.hearers.iter().any(|hearer| hearer.is_behind())
    }

    /// Where the one stands who gives its place to one more that comes from there, as `seats` has it.
    pub(crate) fn given_place(&self, origin: u128) -> Option<usize>
        ensures some { IfSome result (λ place. IsSeatGiven origin place (seats_of self.now)) }
        ensures none { IfNone result (NoSeatGiven origin (seats_of self.now)) }
    {
        let seats = seats_of(&self.hearers);
        place_given(seats.as_slice(), origin)
    }
}

/// The seats of these.
fn seats_of<H>(hearers: &[Hearer<H>]) -> ArrayVec<Seat, HEARERS_MAX>
    requires { length hearers.now ≤ 64 }
    ensures { result.items ≡ seats_of hearers.now }
{
    let mut seats = ArrayVec::new();
    for hearer in hearers {
        seats.push(hearer.seat());
    }
    seats
}

impl<H: Drop> Hearers<H> {
    /// One more listens, from the next group on, by this connection, which comes from there; the one at the place is
    /// let go.
    pub(crate) fn replace(&mut self, place: usize, output: H, origin: u128)
        requires { place < length self.old }
        ensures { self.new ≡ replaced place output origin self.old }
    {
        self.hearers.remove(place);
        self.add(output, origin);
    }
}

impl<H> Hearer<H> {
    /// Its seat, among those of whom one may give its place.
    fn seat(&self) -> Seat
        ensures { result ≡ seat_of self.now }
    {
        Seat {
            origin: self.origin,
            is_taken: true,
            is_behind: self.is_behind(),
        }
    }

    /// Whether something waits for it.
    fn is_behind(&self) -> bool
        ensures { result ≡ is_behind self.now }
    {
        !self.waiting.is_empty()
    }
}

impl<H: Hears> Hearers<H> {
    /// The bytes go to all who listen. Who is gone, or has not taken what waits, is let go: how many of these.
    pub(crate) fn send(&mut self, bytes: &[u8]) -> usize
        ensures sends { GoesOut H.takes H.contents bytes.now result self.old self.new }
        ensures few { result ≤ 64 }
    {
        let mut slow = 0;
        let mut place = 0;
        while place < self.hearers.len() {
            match self.hearers[place].send(bytes) {
                Fate::Stays => {
                    place += 1;
                    continue;
                }
                Fate::Gone => {}
                Fate::Slow => slow += 1,
            }
            self.hearers.remove(place);
        }
        slow
    }
}

impl<H: Hears> Hearer<H> {
    /// The bytes wait behind what waits, and as many are written as the connection takes.
    fn send(&mut self, bytes: &[u8]) -> Fate
        ensures { HasFate H.takes H.contents bytes.now self.old result self.new }
    {
        if self.waiting.try_extend_from_slice(bytes).is_err() {
            return Fate::Slow;
        }
        match self.output.take(self.waiting.as_slice()) {
            Taken::First(count) => {
                self.waiting.drain(..count);
                Fate::Stays
            }
            Taken::NotNow => Fate::Stays,
            Taken::Gone => Fate::Gone,
        }
    }
}
