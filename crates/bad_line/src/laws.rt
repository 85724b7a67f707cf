//! Laws of the definitions, each the contract of a function that does nothing. Source: profile.
ghost use Rattle.bad_line.specs.Laws.{CrossesInParts, CrossesWhole, CrossesUntouched, LosesOne};

/// How a stream comes, in which pieces, makes no difference to what comes out of it.
pub fn in_parts()
    ensures { CrossesInParts }
{}

/// Without rules all comes out as it came, in order, but for what is held of a segment whose end has not come.
pub fn whole_without_rules()
    ensures { CrossesWhole }
{}

/// Rules that begin later leave what comes before as it is: those of chance, up to the number that they name, and
/// delays and paces.
pub fn begins_later()
    ensures { CrossesUntouched }
{}

/// A rule that loses the segment of one number loses that one, and nothing else happens.
pub fn loses_exactly_one()
    ensures { LosesOne }
{}
