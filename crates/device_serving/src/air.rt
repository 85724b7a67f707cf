//! A device that is on the air: it serves one studio connection after another, and sends the groups of its store at the
//! pace that its edge gives.

mod airing;
mod line;
mod moments;
mod run;
mod tally;

pub use moments::{Moment, Moments};
pub use run::run_on_air;
