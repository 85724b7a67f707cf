//! All who ask a page, over the connections that the machine gives.
//!
//! - [`Guests`]: all who ask, and what is done with them; [`Deed`] is what all are asked to do.
//! - [`Sockets`]: what the machine gives; [`Accepted`] is what an accept came to, [`Connection`] the connection of one
//!   who asks, and [`Passed`] what a call of it came to.

mod all;
mod connection;
mod guest;
mod room;
mod sockets;

pub use all::Guests;
pub use connection::{Connection, Passed};
pub use guest::Deed;
pub use sockets::{Accepted, Sockets};
