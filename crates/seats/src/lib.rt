//! Who gives its place to one more where all places are taken: by whether it is behind, and by how many places its
//! origin has.
//!
//! - [`Seat`]: one of those among whom a place is looked for; [`place_given`]: who gives its own.
//! - [`origin_of`]: the origin of an address, one end of a network.
//! - [`laws`]: nobody goes for a crowd, and who comes from where fewer places are gets one.
#![tactic(auto)]

pub mod laws;
mod origin;
mod seat;

pub use origin::origin_of;
pub use seat::{Seat, place_given};
