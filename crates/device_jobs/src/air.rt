//! The command `encoder` as a device that is on the air: where what comes and when the next group is due is for its
//! moments to say, and over TCP.

mod over_tcp;
mod serving;

pub use over_tcp::run_on_air_over_tcp;
pub use serving::run_on_air_from;
