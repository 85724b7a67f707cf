//! Laws of the lines of groups, each the contract of a function that does nothing.
ghost use Rattle.receive_command.specs.Laws.{IsOneThing};

/// A line is one thing.
pub fn one_thing()
    ensures { IsOneThing }
{}
