//! What a live page takes in: the bytes of its input as lines, and each line as what is shown and an event. No IO but
//! through a reader that the caller gives, and no clock.
//!
//! - [`Intake`]: what was read and is not yet taken, what is shown, the last events, and whether a line was none of
//!   ours; takes a line at a time, once. [`Taken`] is what a line came to.
//! - [`first_number`], [`own_only`], [`status_of`]: what a run begins and ends with.

mod lines;
mod open_line;
mod run;
mod taking;

pub use run::{first_number, own_only, status_of};
pub use taking::{Intake, Taken};
