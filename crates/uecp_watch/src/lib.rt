//! A control line as it is read: what its bytes hold is told at once, read by read, for as long as they come.
//!
//! - [`watch`]: reads until the end, and writes out after each read that ended a segment.
//! - [`Form`]: in which form it writes.
//! - [`laws`]: what is written without a clock depends on the bytes alone, and not on how they were read.
#![tactic(auto)]

pub mod laws;
mod telling;
mod times;
mod watching;

pub use output_forms::Form;
pub use watching::watch;
