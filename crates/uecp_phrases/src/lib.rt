//! Elements in words: what a station says, as phrases that a broadcast engineer reads and writes (profile).
//!
//! - [`message_in`], [`phrase_in`]: the message that a line says, and the bytes that one phrase adds, out of tokens.
//! - [`expected_in`]: what was expected, and at which token, where a line says nothing.
//! - [`put_message`], [`phrase_of`]: a message as a line, and an element as the tokens of a phrase.
//!
//! The crate knows no frame, keeps no state and gives no element a meaning. The law that its users rely on: a phrase
//! means one thing, and the line that is written of a message says that message.
#![tactic(auto)]

mod choices;
mod contents;
mod expectation;
mod expected;
mod front;
mod groups;
mod head;
pub mod laws;
mod line;
mod message_line;
mod nearest;
mod phrase;
mod phrase_text;
mod place;
mod stop;
mod told;
mod traffic_name;

pub use expectation::Expectation;
pub use expected::{Expected, expected_in};
pub use line::message_in;
pub use message_line::put_message;
pub use phrase::phrase_in;
pub use phrase_text::{WRITTEN_MAX, phrase_of};
