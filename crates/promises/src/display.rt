//! From a line that is taken to what a receiver shows: a law over both ends with their files, the store, the carousel
//! and the receiver. No code.
ghost use Rattle.promises.specs.Display.{WhatIsTakenIsShown, ShownOverEpochs};

/// Over every list of events and crashes of either end the encoder's store is what the first of the messages that were
/// sent made of it, each once and in order, with the groups that were taken between: all of them, once each is
/// acknowledged. And a receiver shows its main service after 16 groups, and the text of that, where it has one or none,
/// after two for each of its segments, each group in whose turn another waits, and each empty text that a start has
/// left, whatever it heard before. Of groups that wait none is of type 0, 2 or 15B, which a receiver takes for the
/// station's own.
pub fn what_is_taken_is_shown()
    ensures { WhatIsTakenIsShown }
{}

/// So it is in each of any number of epochs, one behind another: at each beginning anew the encoder has the store that
/// was left, or, where it is a new one or lost its file, the opening one.
pub fn shown_over_epochs()
    ensures { ShownOverEpochs }
{}
