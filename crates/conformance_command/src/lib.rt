//! The running of conformance cases against a device: each case over a connection of its own, told as it ends.
//!
//! - [`run_case`]: one case over a connection, in a [`Way`]; [`Outcome`] is how it [`Went`] and what came, and
//!   [`NotRun`] why it was not run.
//! - [`run_conformance`]: the cases that are asked for, one after another, told in lines of TAP or JSON; it answers an
//!   exit status.
//! - [`run_conformance_over_tcp`]: the built-in cases over TCP, with connections from [`Dialled`]; [`say_unreached`]
//!   says why one could not be made.
#![tactic(auto)]

mod address;
mod case_run;
mod choice;
mod clearing;
mod dialled;
mod fields;
mod job;
mod notes;
mod objects;
mod over_tcp;
mod patience;
mod reply_stream;
mod report;
mod run;
mod tally;
mod texts;
mod unreached;
mod way;
mod went;

pub use address::address_of;
pub use case_run::{NotRun, run_case};
pub use dialled::Dialled;
pub use over_tcp::run_conformance_over_tcp;
pub use run::run_conformance;
pub use unreached::say_unreached;
pub use way::Way;
pub use went::{Outcome, Went};
