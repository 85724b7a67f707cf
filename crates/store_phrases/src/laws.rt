//! The laws of a store that is said, each as the contract of a function that does nothing (profile).
ghost use Rattle.store_phrases.specs.Laws.{IsStoreSaid, IsMadeAgain, IsSaidByElements, AreElements, AreStations};

/// The lines of a store say one message each, and these messages, applied in order to any store with the same sets and
/// services, are each answered with 00 and leave the store that was said; where no group waits in it, those that waited
/// stay.
pub fn store_said()
    ensures { IsStoreSaid }
{}

/// Applied to the opening store with the same sets and services, they leave that very store.
pub fn made_again()
    ensures { IsMadeAgain }
{}

/// The elements of a store, put in order into any store with the same sets and services, are each answered with 00, and
/// leave the store that was said, with the same exception.
pub fn said_by_elements()
    ensures { IsSaidByElements }
{}

/// Each of these elements is one, of bytes.
#[tactic(auto, using(crate::proofs::Elements::are_elements))]
pub fn are_elements()
    ensures { AreElements }
{}

/// The opening store is a station, and elements of bytes, messages of bytes and takes leave one: so is each store that
/// can be.
pub fn are_stations()
    ensures { AreStations }
{}
