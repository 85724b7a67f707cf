//! Laws of the definitions, each the contract of a function that does nothing (profile).
ghost use Rattle.json_lines.specs.Laws.{IsALine, IsReadBack};

/// An object is one line: the line feed that ends it is the only control in it.
#[tactic(auto, using(crate::proofs::OneLine::one_line))]
pub fn one_line()
    ensures { IsALine }
{}

/// What is written of a value is read as that value, by the grammar of RFC 8259.
#[tactic(auto, using(crate::proofs::ReadBack::read_back))]
pub fn read_back()
    ensures { IsReadBack }
{}
