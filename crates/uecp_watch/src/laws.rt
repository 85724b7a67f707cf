//! Laws of the definitions, each the contract of a function that does nothing (profile).
ghost use Rattle.uecp_watch.specs.Watching.{IsOneStream};

/// Without a clock, what is written of reads is what all their bytes bring as one stream, however they were cut.
#[tactic(auto, using(crate::proofs::Streams::one_stream_lem))]
pub fn watched_as_one_stream()
    ensures { IsOneStream }
{}
