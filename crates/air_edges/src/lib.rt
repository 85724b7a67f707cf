//! The edge of an encoder on the air: one wait for the studio's connections and bytes, for those who listen to the air,
//! and for the time of the next group.
//!
//! - [`Pace`]: when the next group is due.
//! - [`OnAir`]: a [`Moments`](device_serving::Moments) over [`Sockets`]; [`AirForm`] says in which form the groups go
//!   out.
//! - [`Sockets`]: what the machine gives: a clock, one wait, and connections; [`Came`] is what came. [`Hears`] is the
//!   connection to one who listens, and [`Taken`] what it took.
//! - [`TcpSockets`]: the same over TCP, at its [`Addresses`]; [`ScreenedSockets`]: the same over others, with nothing
//!   taken of what is another protocol's.
#![tactic(auto)]

mod form;
mod hearers;
mod hears;
mod on_air;
mod pace;
mod screened;
mod silence;
mod sockets;
mod tcp;

pub use form::AirForm;
pub use hears::{Hears, Taken};
pub use on_air::OnAir;
pub use pace::Pace;
pub use screened::ScreenedSockets;
pub use sockets::{Came, Sockets};
pub use tcp::{Addresses, TcpSockets};
