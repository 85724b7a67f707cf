//! A stream of bytes cut into segments as its bytes come, and what comes out of it on a bad line.
//!
//! - [`Cutter`]: the machine of one direction; [`Crossed`] is what a call brought.

mod cutter;
mod outcome;

pub use cutter::{Crossed, Cutter, OUT_MAX, Out};
