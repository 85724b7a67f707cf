//! The edges of a run that goes on for days: whether lines of standard input are there, and connections that are tried
//! again for as long as it takes.
//!
//! - [`Polled`]: an [`Arrival`](line_feed::Arrival) that asks the system by a poll, and looks meanwhile after the
//!   connection that a [`Watch`] has.
//! - [`Patient`]: [`Connections`](uecp_net::Connections) over others, a [`Dialler`], which it asks for one again and
//!   again, with longer and longer pauses; it says when the line is lost, there again, or silent, and [`Patience`] is
//!   for how long. Their ends are a [`ReadMeter`] and a [`WriteMeter`], which note what waits for a reply, and whether
//!   one came. [`NoticeForm`] is in which form it is said.
//! - [`keep_alive`]: has the system ask whether somebody is at the other end of a connection.
#![tactic(auto)]

mod alive;
mod awaited;
mod dialler;
mod heard;
pub mod laws;
mod line;
mod notices;
mod patience;
mod patient;
mod polled;
mod said;
mod watch;

pub use alive::keep_alive;
pub use dialler::Dialler;
pub use heard::{ReadMeter, WriteMeter};
pub use notices::NoticeForm;
pub use patience::Patience;
pub use patient::Patient;
pub use polled::Polled;
pub use watch::Watch;
