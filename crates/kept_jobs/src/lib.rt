//! What runs with kept state have in common: what they start from, what they write, why they stop, and what is said of
//! that. The crate opens no file: where state is kept is the matter of a [`Keep`](uecp_encoder::Keep).
//!
//! [`KeptStop`] is why a run stopped, and [`fail_state`] says why a state can't be kept.
#![tactic(auto)]

mod start;
mod stop;
mod telling;

pub use start::Start;
pub use stop::{KeptStop, fail_run, fail_state, stop_for};
pub use telling::write_told;
