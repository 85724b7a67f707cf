//! The command `receive`: what a receiver shows of groups that come as lines or in bits, told as it changes, for as
//! long as they come.
//!
//! - [`run_receive`]: does what its options ask for to the end of its input, line by line; [`run_receive_bits`]: on a
//!   stream of bits.
//! - [`read_group`]: what a line of the input is, a [`GroupLine`], four words with `----` for a block that was not
//!   heard; [`hear_line`]: a receiver hears it.
//! - [`Shown`]: what a [`Receiver`](rds_groups::Receiver) shows; [`put_change`]: the lines of a change in the
//!   form that is asked for, in words, as the phrases of a station, or in JSON, with the time before them.
//! - [`laws`]: a line is one thing.
#![tactic(auto)]

mod bit_input;
mod bits;
mod display;
mod group_lines;
pub mod laws;
mod line_input;
mod run;

pub use bits::run_receive_bits;
pub use display::{Shown, put_change};
pub use group_lines::{GroupLine, hear_line, read_group};
pub use run::run_receive;
