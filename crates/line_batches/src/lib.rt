//! Batches of messages from lines as they come: what a line gives, and which lines make a batch.
//!
//! - [`take_batch`]: waits for a line that gives a message, and takes with it those that are there already.
//! - [`Input`]: what lines are, phrases, as they stand or made to fit, or titles; [`Given`]: what one gives, a message,
//!   nothing, or a refusal that was said.
//! - [`say_fitted`]: says what was sent in the place of a line.
#![tactic(auto)]

mod intake;
pub mod laws;
mod taking;

pub use intake::{Given, Input};
pub use taking::{After, Reading, Tally, say_fitted, take_batch};
