//! The laws of tokens, each as the contract of a function that does nothing (profile).
ghost use Rattle.phrase_tokens.specs.Tokens.{IsOneReading, IsReadBack, IsThroughUtf8};

/// A text has one list of tokens at most.
pub fn one_reading()
    ensures { IsOneReading }
{}

/// What is written of tokens reads as these tokens.
pub fn read_back()
    ensures { IsReadBack }
{}

/// What is written of tokens are characters that UTF-8 gives back.
pub fn through_utf8()
    ensures { IsThroughUtf8 }
{}
