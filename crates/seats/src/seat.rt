//! Who has a place, and who gives it to one more (profile).
ghost use Rattle.std.specs.Prelude.{◌≡◌, ◌==◌, ◌&&◌, ◌↔◌, IsTrue, IfSome, IfNone};
ghost use Rattle.seats.specs.Seats.{OfNone, IsFirst, share, IsMost, HasShare, IsBehind, IsOfMost, IsSeatGiven};
ghost use Rattle.seats.specs.Seats.{NoSeatGiven};

/// One of those among whom a place is looked for.
#[derive(Clone, Copy, Debug, Default, PartialEq, Eq)]
pub struct Seat {
    /// From where it comes.
    pub origin: u128,
    /// Whether it has a place of the kind that is looked for; one that has none gives none, and counts for nothing.
    pub is_taken: bool,
    /// Whether it is behind: it has not taken all that there is for it.
    pub is_behind: bool,
}

impl Seat {
    /// Whether it has a place, and is behind.
    fn lags(&self) -> bool
        ensures { IsTrue result ↔ IsBehind self.now }
    {
        self.is_taken && self.is_behind
    }

    /// Whether it has a place, and comes from there.
    fn is_from(&self, origin: u128) -> bool
        ensures { result ≡ (self.now.is_taken && self.now.origin == origin) }
    {
        self.is_taken && self.origin == origin
    }

    /// Whether it has a place, and its origin has so many among these.
    fn has_share(&self, most: usize, seats: &[Seat]) -> bool
        ensures { IsTrue result ↔ HasShare most seats.now self.now }
    {
        self.is_taken && share(self.origin, seats) == most
    }
}

/// Where the one stands among these who gives its place to one more that comes from there: the first that is behind;
/// where none is, the first of those whose origin has the most places, if the one more's has fewer. None where none
/// gives it.
pub fn place_given(seats: &[Seat], origin: u128) -> Option<usize>
    ensures some { IfSome result (λ place. IsSeatGiven origin place seats.now) }
    ensures none { IfNone result (NoSeatGiven origin seats.now) }
{
    match first_behind(seats) {
        Some(place) => Some(place),
        None => first_of_most(seats, origin),
    }
}

/// Where the first stands that is behind.
fn first_behind(seats: &[Seat]) -> Option<usize>
    ensures some { IfSome result (λ place. IsFirst IsBehind place seats.now) }
    ensures none { IfNone result (OfNone IsBehind seats.now) }
{
    for (place, seat) in seats.iter().enumerate() {
        if seat.lags() {
            return Some(place);
        }
    }
    None
}

/// Where the first stands of those whose origin has the most places, where this one has fewer.
fn first_of_most(seats: &[Seat], origin: u128) -> Option<usize>
    ensures some { IfSome result (λ place. IsFirst (IsOfMost origin seats.now) place seats.now) }
    ensures none { IfNone result (OfNone (IsOfMost origin seats.now) seats.now) }
{
    let most = most_places(seats);
    if share(origin, seats) < most {
        first_with_share(seats, most)
    } else {
        None
    }
}

/// Where the first stands whose origin has so many places.
fn first_with_share(seats: &[Seat], most: usize) -> Option<usize>
    ensures some { IfSome result (λ place. IsFirst (HasShare most seats.now) place seats.now) }
    ensures none { IfNone result (OfNone (HasShare most seats.now) seats.now) }
{
    for (place, seat) in seats.iter().enumerate() {
        if seat.has_share(most, seats) {
            return Some(place);
        }
    }
    None
}

/// The most places that an origin has among these.
fn most_places(seats: &[Seat]) -> usize
    ensures { IsMost result seats.now }
{
    let mut most = 0;
    for seat in seats {
        most = share(seat.origin, seats).max(most);
    }
    most
}

/// How many of these have a place, and come from there.
fn share(origin: u128, seats: &[Seat]) -> usize
    ensures { result ≡ share origin seats.now }
{
    seats.iter().filter(|seat| seat.is_from(origin)).count()
}
