//! What the words of a script's line name: an element, a line of a frame script, or an event of a line.
//!
//! The crate reads words and does nothing with what they name: it keeps no frame and plays no event. That is the matter
//! of the program.
//!
//! - [`ScriptLine`], [`script_line`]: a line of a frame script, as `uecp make` reads it; an element comes as its
//!   spelling.
//! - [`EventLine`], [`event_of`]: a line of an event script, as `uecp line` reads it; [`is_replacement`]: whether it
//!   replaces the server by one that knows nothing.
//! - [`message_of`]: a message out of its bytes.
#![tactic(auto)]

mod element_name;
mod element_words;
mod event_words;
pub mod laws;
mod messages;
mod replace_words;
mod script_words;

pub use event_words::{EventLine, event_of};
pub use messages::message_of;
pub use replace_words::is_replacement;
pub use script_words::{ScriptLine, script_line};
