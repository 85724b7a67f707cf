//! What goes out, in the words of the store: each law the contract of a function that does nothing.
ghost use Rattle.carousel.specs.Laws.{EachQueuedGroupOnce, GoesOutInPasses, NextTextFollows};

/// The free-format groups that went out, and then those that still wait, are those that waited: each goes out once, in
/// order.
#[tactic(auto, using(crate::proofs::Queue::each_queued_group_once))]
pub fn each_queued_group_once()
    ensures { EachQueuedGroupOnce }
{}

/// A text that stays goes out in whole passes, segment by segment: without limit where its transmissions are 0, and
/// else as many passes as they say.
pub fn goes_out_in_passes()
    ensures { GoesOutInPasses }
{}

/// And once that many are over the next text begins, after the last one the first.
pub fn next_text_follows()
    ensures { NextTextFollows }
{}
