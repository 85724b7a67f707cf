//! The laws of characters and names, each as the contract of a function that does nothing. Source: IEC 62106.
ghost use Rattle.rds_text.specs.BasicSet.{IsOnce, IsBelowSurrogates};
ghost use Rattle.rds_text.specs.ProgrammeTypes.{IsNamedOnce};
ghost use Rattle.rds_text.specs.Quoted.{IsReadBack, IsOneByte};

/// No character stands in the set twice.
pub fn one_byte()
    ensures { IsOnce }
{}

/// Each character of the set is below Unicode's surrogates.
pub fn below_surrogates()
    ensures { IsBelowSurrogates }
{}

/// No name is that of two programme types of a region, whatever the case of its letters.
pub fn named_once()
    ensures { IsNamedOnce }
{}

/// What is written of a byte spells it.
pub fn read_back()
    ensures { IsReadBack }
{}

/// No spelling of a byte begins another, and each spells one byte.
pub fn one_spelling()
    ensures { IsOneByte }
{}
