//! Laws of the definitions, each the contract of a function that does nothing. Source: RDS Forum SPB 490 and profile,
//! as the definitions.
ghost use Rattle.uecp_elements.specs.Codes.{IsReadBack, IsWrittenBack};
ghost use Rattle.uecp_elements.specs.Grammar.{IsPrefixFree};
ghost use Rattle.uecp_elements.specs.Reading.{HasReading, HasOneReading};

/// No spelling is a prefix of another element's, so that a message has one place where each element ends.
#[tactic(auto, using(crate::proofs::Items::prefix_free_lem))]
pub fn prefix_free()
    ensures { IsPrefixFree }
{}

/// Every message has one reading, and its items are those that the message is read as.
pub fn one_reading()
    ensures exists { HasReading }
    ensures only { HasOneReading }
{}

/// The codes and their bytes give one another back.
pub fn codes_and_bytes()
    ensures read_back { IsReadBack }
    ensures written_back { IsWrittenBack }
{}
