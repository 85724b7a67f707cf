//! Where a place of events is for one more (profile).
ghost use Rattle.std.specs.Prelude.{◌≡◌};
ghost use Rattle.page.specs.EventPlaces.{is_full};

/// Which kind of place is looked for.
#[derive(Clone, Copy, Debug, PartialEq, Eq)]
pub enum Kind {
    /// One of those who get events.
    Events,
    /// Any, as each has who asks.
    Connections,
}

/// Where a place of events is for one more.
#[derive(Clone, Copy, Debug, PartialEq, Eq)]
pub enum Room {
    /// There are places that nobody has.
    Free,
    /// All are taken, and the one that stands there among those who ask would give its own.
    Given(usize),
    /// All are taken, and none would give its own.
    Full,
}

impl Room {
    /// Whether there is none.
    pub fn is_full(self) -> bool
        ensures { result ≡ is_full self }
    {
        match self {
            Room::Free | Room::Given(_) => false,
            Room::Full => true,
        }
    }
}
