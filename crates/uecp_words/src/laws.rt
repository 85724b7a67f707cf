//! Laws of the definitions, each the contract of a function that does nothing (profile).
ghost use Rattle.uecp_words.specs.Laws.{IsNamedAsShown, IsBegunAsShown, IsOneMeaning, IsLineOfElement, IsLineOfFrame};

/// What `show` writes of an element names that element, so `make` gives it back.
#[tactic(auto, using(crate::proofs::Shown::named_as_shown))]
pub fn named_as_shown()
    ensures { IsNamedAsShown }
{}

/// What `show` writes of a frame's address and counter begins that frame.
#[tactic(auto, using(crate::proofs::Shown::begun_as_shown))]
pub fn begun_as_shown()
    ensures { IsBegunAsShown }
{}

/// A line of a frame script says one thing, or nothing.
#[tactic(auto, using(crate::proofs::OneMeaning::one_meaning))]
pub fn one_meaning()
    ensures { IsOneMeaning }
{}

/// Among lines, those that show a frame say what is shown, each on its own.
#[tactic(auto, using(crate::proofs::ShownLines::element_line, crate::proofs::ShownLines::frame_line))]
pub fn a_line_each()
    ensures element { IsLineOfElement }
    ensures frame { IsLineOfFrame }
{}
