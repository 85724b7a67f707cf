//! The events of a live page: lines under numbers, how they are sent, and which of them a browser is owed. No IO.
//!
//! - [`History`]: the last 1,000 events, and what a browser is owed that names the last one it has.
//! - [`put_event`], [`GAP`], [`ALIVE`]: the parts of a stream of Server-Sent Events.

mod history;
mod number;
mod stream;

pub use history::{AddFault, History, KEPT_MAX};
pub use number::number_of;
pub use stream::{ALIVE, GAP, put_event};
