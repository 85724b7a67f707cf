//! The lines of an input as they come, for a program that takes lines for days: nothing is read ahead of what there is
//! room for, and no line that has come is held back.
//!
//! - [`Feed`]: where lines come from, one after another; [`Next`] says what came, and [`FeedFault`] why nothing did. It
//!   is told of each line that is refused, and answers [`NotKept`] where it can't keep that.
//! - [`Arrival`]: whether a read would wait.
//! - [`LineFeed`]: the lines of a reader, through a buffer of a fixed size.
#![tactic(auto)]

mod arrival;
mod feed;
mod feed_fault;
mod held;
pub mod laws;
mod reading;
mod source;
mod taking;

pub use arrival::Arrival;
pub use feed::{Feed, LINE_MAX, Next};
pub use feed_fault::{FeedFault, NotKept};
pub use reading::LineFeed;
