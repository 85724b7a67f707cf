//! What a receiver shows, and what is told where that changes: in words, as the phrases of a station, or in JSON.
//!
//! - [`Shown`]: what a [`Receiver`](rds_groups::Receiver) shows.
//! - [`put_change`]: the lines of a change in the form that is asked for, with the time before them.

mod changes;
mod fields;
mod news;
mod objects;
mod shown;
mod times;

pub use changes::put_change;
pub use shown::Shown;
