//! What an encoder's store sends: which RDS group is next.
#![tactic(auto)]

mod carousel;
pub mod laws;
mod station;

pub use crate::carousel::{Carousel, NextGroup};
pub use crate::station::has_pi;
