//! Scripts of phrases: what a line of text says, a message in words or the address and counter of the next one; and
//! what is found in a stream of bytes, as such lines (profile).
//!
//! - [`phrase_line`]: what a line says; where it says nothing, at which column that shows, what was expected there, and
//!   the nearest word.
//! - [`put_found`]: a frame as such lines, or the line of a segment that is none.
//! - [`no_text`], [`unsaid_at`]: the fault of a line that is no UTF-8, or whose character at a column is at fault.
//!
//! The crate reads no input and keeps nothing. The law that its users rely on: the line that is written of a message
//! says that message.
#![tactic(auto)]

mod finding_lines;
mod frame_line;
pub mod laws;
mod line_fault;
mod script_line;

pub use finding_lines::put_found;
pub use line_fault::{no_text, unsaid_at};
pub use script_line::{PhraseLine, phrase_line};
