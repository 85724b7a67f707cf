//! An encoder as a device that runs for days, and tells line by line what arrives and what it does with it: for every
//! target, keeper, source of connections, clock and writer.
//!
//! - [`LogLines`]: where the lines go, and in which form; [`LogFault`] is why it ended.
//! - [`run_device`]: serves one connection after another; [`went_after`] and [`tell_store`] say how a run goes on after
//!   one, and at its end.
//! - [`laws::tells_in_order`]: what a log holds is what was told, once and in order.
#![tactic(auto)]

mod air;
mod connection_lines;
mod event_lines;
pub mod laws;
mod limits;
mod log_lines;
mod run;

pub use air::{Moment, Moments, run_on_air};
pub use limits::Limits;
pub use log_lines::{LogFault, LogLines};
pub use run::{run_device, tell_store, went_after};
