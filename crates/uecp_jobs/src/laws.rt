//! Laws of the definitions, each the contract of a function that does nothing.
ghost use Rattle.uecp_jobs.specs.Streams.{ShowsOneStream, AnswersOneStream};
ghost use Rattle.uecp_jobs.specs.Headlines.{ScriptsKeepHeadline};
ghost use Rattle.uecp_jobs.specs.Remade.{IsRemade};
ghost use Rattle.uecp_jobs.specs.RemadeInWords.{IsRemadeInWords};

/// Where no text is refused, what `show` writes depends on the bytes alone that its pieces spell, joined: it is what
/// stands in one stream.
pub fn shows_one_stream()
    ensures { ShowsOneStream }
{}

/// Where no text is refused, what `answer` writes depends on those bytes alone: it is what the encoder responds to one
/// stream.
pub fn answers_one_stream()
    ensures { AnswersOneStream }
{}

/// After any script of `line`, also one that stops at a refused line, the encoder's store is what a prefix of the sent
/// messages with the takes between makes, each applied once and in order; every message that is acknowledged is in it
/// with its one reply, and every message that is missing is still outstanding.
pub fn scripts_keep_the_headline()
    ensures { ScriptsKeepHeadline }
{}

/// What `show` writes of frames whose messages have no fault is a script: whatever `make` comes to on it, it refuses
/// nothing and writes those frames.
#[tactic(auto, using(crate::proofs::Remade::is_remade))]
pub fn shown_is_remade()
    ensures { IsRemade }
{}

/// What `show --words` writes of findings is a script: whatever `make --words` comes to on it, it refuses nothing and
/// writes exactly their frames, also those of messages with a fault.
pub fn worded_is_remade()
    ensures { IsRemadeInWords }
{}
