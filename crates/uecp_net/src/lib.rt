//! The two ends over connections: an encoder serves one connection after another, and a server sends its messages over
//! connections that may break and be opened again, with its state saved where it has a keeper. The crate hands out
//! values; it writes no line, opens no file, reads no command line and knows no exit status.
//!
//! - [`Connections`]: opened one after another, and taken back; with [`Listening`], [`Local`] and [`Dialing`], which
//!   are TCP; [`DialFault`] is why there was none to be had.
//! - [`Connect`]: what only opens connections, and [`Opening`], which makes [`Connections`] of it; it is [`Lent`] that,
//!   under a [`Loan`].
//! - [`serve_connection`]: an encoder over the next connection; [`serve_connection_with`] with its state kept and what
//!   it finds told.
//! - [`Sender`]: a server with the connection that it has, which sends its messages in batches, within its [`Limits`];
//!   [`Settled`] is how a batch went, and [`Outstanding`] why its messages are not acknowledged.
//! - [`SavedServer`]: what a keeper saves of a server, with its [`Progress`]. A crash at any moment loses no message
//!   and tells no acknowledgement that it forgets: the state is saved before a message's frame is written the first
//!   time, and after its acknowledgement before that is told; where a save fails, nothing is written or told from there
//!   on.
//! - [`send_kept`]: a batch of messages with the state saved; [`settle_kept`]: those that are outstanding, as after a
//!   start; [`join_kept`]: the encoder is joined; [`KeptOutstanding`] is why messages are not acknowledged, or may not
//!   be.
//! - [`laws`]: [`laws::goes_on_as_it_was`], a server that goes on from what was kept lends the very frames that the one
//!   before did, and hears replies as that; and [`laws::loses_no_message`], each message of which a byte was written
//!   waits at it, or was acknowledged.
#![tactic(auto)]

mod connect;
pub mod laws;
mod opener;
mod saved;
mod sender;
mod sessions;
mod tcp;

pub use connect::{Connect, Connections};
pub use opener::{Lent, Loan, Opening};
pub use saved::{KeptOutstanding, Progress, SavedServer, join_kept, send_kept, settle_kept};
pub use sender::{Limits, Outstanding, Sender, Settled};
pub use sessions::{serve_connection, serve_connection_with};
pub use tcp::{DialFault, Dialing, Listening, Local};
