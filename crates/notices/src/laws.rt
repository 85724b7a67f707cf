//! Laws of the definitions, each the contract of a function that does nothing (profile).
ghost use Rattle.notices.specs.Told.{IsNeverSkipped, IsSaidInTurn};

/// What is said one after another, with no write that failed, is what the writer got, whole and in order.
pub fn said_in_turn()
    ensures { IsSaidInTurn }
{}

/// Whoever leaves a text unsaid has no write that failed to show for it.
pub fn never_skipped()
    ensures { IsNeverSkipped }
{}
