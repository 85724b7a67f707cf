//! What an encoder answers, and then has on the air: the command `answer` with the first groups of its store behind.
//!
//! - [`run_answer_on_air`]: does an [`AirJob`] from its input to its exit status.
#![tactic(auto)]

mod air_job;
mod airing;
mod answering;

pub use air_job::{AirJob, run_answer_on_air};
pub use uecp_jobs::Form;
