//! Laws of the definitions, each the contract of a function that does nothing.
ghost use Rattle.line_feed.specs.Laws.{ComeByOne, GoOn, AreFirstLines, AreAllLines};

/// What [`next`](crate::Feed::next) answers are lines that were taken: the one that it puts out, one that it passed
/// over, or none at the end.
pub fn takes_one_by_one()
    ensures { ComeByOne }
{}

/// Lines that were taken, and then others of what was left, were taken one after another: so a loop may count on the
/// lines of its earlier turns.
pub fn takes_on()
    ensures { GoOn }
{}

/// The lines that [`next`](crate::Feed::next) took one after another, those that it passed over among them, and then
/// the lines of what is left, are the lines of the input, however it was cut into reads.
pub fn takes_the_first_lines()
    ensures { AreFirstLines }
{}

/// Once the end was told, the lines that [`next`](crate::Feed::next) took, and those that it passed over, are the lines
/// of the input: none is missing, doubled, cut or out of order.
pub fn takes_all_lines()
    ensures { AreAllLines }
{}
