//! The laws of phrases, each as the contract of a function that does nothing (profile).
ghost use Rattle.uecp_phrases.specs.Laws.{IsSaidAsWritten, IsWritable, IsOneMeaning, IsRawSaid, IsMessageSaid};
ghost use Rattle.uecp_phrases.specs.Laws.{IsLineWritable, AreTrafficSwitches, IsAnyCase, TextsTurn, IsFirstStop};
ghost use Rattle.uecp_phrases.specs.Nearest.{OfferedMayStand};

/// What is written of an element is a phrase, and adds that element's spelling.
#[tactic(auto, using(crate::proofs::Said::said_as_written))]
pub fn said_as_written()
    ensures { IsSaidAsWritten }
{}

/// Its tokens are such as can be written.
#[tactic(auto, using(crate::proofs::SaidTokens::writable))]
pub fn writable()
    ensures { IsWritable }
{}

/// A phrase adds one row of bytes.
pub fn one_meaning()
    ensures { IsOneMeaning }
{}

/// Bytes that are written as they are, are said.
#[tactic(auto, using(crate::proofs::Said::raw_said))]
pub fn raw_said()
    ensures { IsRawSaid }
{}

/// The line of a message of bytes says that message.
pub fn message_said()
    ensures { IsMessageSaid }
{}

/// The tokens of that line are such as can be written, so that by the laws of `phrase_tokens` its text reads as them.
pub fn line_writable()
    ensures { IsLineWritable }
{}

/// `ta` and `tp` say what `traffic` does: a line says a message with the one exactly where it does with the other.
pub fn traffic_switches()
    ensures { AreTrafficSwitches }
{}

/// The first word of a phrase says the same in whatever case.
pub fn any_case()
    ensures { IsAnyCase }
{}

/// Of a line with none of the words `same`, `bits` and `raw` the A/B flag turns with each text.
pub fn texts_turn()
    ensures { TextsTurn }
{}

/// No line goes on to say a message behind a token of which it is told that something else may stand there.
pub fn first_stop()
    ensures { IsFirstStop }
{}

/// Each word that is offered in place of another may stand there.
pub fn offered_may_stand()
    ensures { OfferedMayStand }
{}
