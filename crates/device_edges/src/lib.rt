//! The edges of an encoder that is a device for days: where it listens, and connections that are given up where nothing
//! comes on them, or where nobody is at their other end.
//!
//! - [`listen_address`]: which address and port a text asks for; [`AddressFault`] says why none.
//! - [`Accepting`]: [`Connections`](uecp_net::Connections) that are accepted there one after another; [`BindFault`]
//!   says why nobody can listen there. They are read through [`Idle`], which notes whether a read was given up since
//!   nothing came.
//! - [`Allowed`]: the addresses and [`Network`]s from which connections are taken; [`AllowFault`] says why a text is no
//!   list of them.
//! - [`Screening`]: connections over others, of which nothing is taken where they are another protocol's: each is read
//!   through [`Screened`]. [`OnceNotice`] says that once, and that there was no room for one more ([`lacks_room`]).
//! - [`Entrance`]: the same for whoever waits for more than connections: those who wait for the one seat, and whom the
//!   connection that has it gives way to ([`Yielding`]); [`Ready`] is what came. [`bind`]: a listener alone;
//!   [`hold_few`]: what the system holds for one that takes nothing.
//! - [`Outlet`]: where whole lines go out to a reader that is waited for no longer than so long: each [`Fate`], and how
//!   a gap is told ([`Wording`]). [`Taker`] says whether the reader takes more, as a [`Descriptor`] does by a poll. To
//!   one outlet several [`LinesOut`] write, each with its [`Voice`], under one [`Patience`], and with the name of the
//!   line in each object that goes out.
#![tactic(auto)]

mod accepting;
mod address;
mod allowed;
mod clock;
mod descriptor;
mod door;
mod entrance;
mod frames;
mod idle;
pub mod laws;
mod lines_out;
mod lobby;
mod naming;
mod notice;
mod outlet;
mod room;
mod screen;
mod screening;
mod seat;

pub use accepting::{Accepting, BindFault, bind};
pub use address::{AddressFault, HERE, listen_address};
pub use allowed::{AllowFault, Allowed, Network};
pub use descriptor::Descriptor;
pub use entrance::{Entrance, hold_few};
pub use idle::Idle;
pub use lines_out::{LineName, LinesOut, Patience, Voice};
pub use notice::{NO_ROOM, OnceNotice};
pub use outlet::{Fate, Outlet, Taker, Wording};
pub use room::{Ready, Yielding, lacks_room};
pub use screen::Screened;
pub use screening::Screening;
