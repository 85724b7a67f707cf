//! Laws of the definitions, each the contract of a function that does nothing (profile).
ghost use Rattle.uecp_text.specs.Written.{IsBeginning, IsAllWhereWhole};

/// What is added to an output by one call after another is added as one. So what it keeps is always a beginning of all
/// that was said.
#[tactic(auto, using(crate::proofs::Added::first_then))]
pub fn added_in_turn()
    ensures { IsBeginning }
{}

/// All that was said was added where the output is whole.
#[tactic(auto, using(crate::proofs::Added::first_all))]
pub fn all_where_whole()
    ensures { IsAllWhereWhole }
{}
