//! Laws of who gives its place, each the contract of a function that does nothing.
ghost use Rattle.seats.specs.Laws.{FewKeep, FewerGetIn};

/// One that is not behind gives its place only where no origin has more places than its own, and the one more's origin
/// has fewer: so nobody goes for a crowd.
pub fn few_keep()
    ensures { FewKeep }
{}

/// One more whose origin has fewer places than another gets one.
pub fn fewer_get_in()
    ensures { FewerGetIn }
{}
