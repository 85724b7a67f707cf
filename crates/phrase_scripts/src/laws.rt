//! The laws of lines of phrases, each as the contract of a function that does nothing (profile).
ghost use Rattle.phrase_scripts.specs.Laws.{IsReadAsWritten};

/// The line that is written of a message says that message.
pub fn read_as_written()
    ensures { IsReadAsWritten }
{}
