//! The command `encoder`: as a device that runs for long, and as an encoder whose state is kept.
//!
//! - [`run_device_from`]: the device over connections that come from anywhere; [`run_device_over_tcp`] over TCP, where
//!   the job has it listen, and with what a bad line does to them where the job has rules for that; [`Beside`]: where
//!   it says what stands in no log.
//! - [`run_encoder_in`]: the encoder with its state in a file where nothing is asked for that only a device does.
//! - [`run_on_air_from`]: the device on the air, where what comes and when the next group is due is for its moments to
//!   say; [`run_on_air_over_tcp`] over TCP.
#![tactic(auto)]

mod air;
mod connections;
mod faults;
mod limits;
mod over_tcp;
mod plain;
mod serving;
mod telling;

pub use air::{run_on_air_from, run_on_air_over_tcp};
pub use over_tcp::{Beside, run_device_over_tcp};
pub use plain::run_encoder_in;
pub use serving::run_device_from;
