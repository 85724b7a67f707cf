//! Laws of the definitions, each the contract of a function that does nothing (profile).
ghost use Rattle.device_edges.specs.Naming.{NamesEach};
ghost use Rattle.device_edges.specs.Readings.{IsAllTold, IsCounted, IsRead};

/// Whatever texts are told one after another and whatever comes of each, what goes out is each one that is told, whole
/// and in order, and before the first behind a gap how many lines are missing there.
pub fn read_in_order()
    ensures { IsRead }
{}

/// Where each is told they go out as they are.
pub fn told_as_they_are()
    ensures { IsAllTold }
{}

/// The numbers that are told, and what is left to be told, are as many lines as were left out.
pub fn counted_whole()
    ensures { IsCounted }
{}

/// Each object that stands in a line of its own gets the name's member as its last, and nothing else becomes of it.
pub fn names_each()
    ensures { NamesEach }
{}
