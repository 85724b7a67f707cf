//! The server's end of an RDS encoder's control line (RDS Forum SPB 490, two-way mode), and the line between the two
//! ends: what is sent on it may be cut, lost, damaged, repeated and come late, and still each message acts once and in
//! order.
//!
//! No sockets, no clock, no threads: [`Server`] takes messages and the bytes that it hears, and lends the frame to
//! send. When to send it again is the caller's matter. [`Line`] joins a server and an encoder in one process and lets
//! events happen on the line between them; it is the place where what holds of both ends together is proved, and it is
//! for tests and for playing scripts, not for sending.
//!
//! - [`Server`]: numbers messages, up to eight outstanding at a time, and knows the replies to them; [`Heard`] is its
//!   answer, and [`ServerCounts`] what it has heard so far.
//! - [`drive`], [`resend`] and [`send_window`]: a server over a reader and a writer, with one message or with all that
//!   wait.
//! - [`join`]: a new server brings an encoder that has kept replies to where a first message may follow.
//! - [`Line`]: both ends, with [`LineEvent`], [`Stepped`] and [`LineRefusal`] as what happens, what comes of it, and
//!   why not.
//! - [`laws`]: what holds of the definitions over every list of events.
//!
//! The law that users rely on stands at [`Line::play`], clause `headline`: over every list of events the encoder's
//! store is what a prefix of the sent messages with the takes between makes, each applied once and in order; every
//! acknowledged message is in it with its one reply, and every message that is missing is still outstanding. It holds
//! as long as both ends are new or go on, an end that starts again goes on from what it kept
//! ([`LineEvent::EncoderRestart`], [`LineEvent::ServerRestart`]), damage leaves no frame behind, and nothing comes
//! after 127 newer messages were numbered; the line tests the last two and refuses by name. A server that is started
//! again and kept nothing joins first, as [`Line::replace_server`] does, and from there on it holds again.
#![tactic(auto)]

mod counters;
mod counts;
mod driving;
mod event;
mod heard;
mod held_message;
mod joining;
mod kept_message;
pub mod laws;
mod line;
mod line_steps;
mod pieces;
mod refusal;
mod replacement;
mod server;
mod stepped;
mod window;

pub use counts::ServerCounts;
pub use driving::{DriveFault, Driven, drive, resend};
pub use event::{LineEvent, Side};
pub use heard::{Heard, HeardWhat};
pub use held_message::WINDOW_MAX;
pub use joining::{Joining, join};
pub use kept_message::{KeptMessage, LentMessage};
pub use line::Line;
pub use refusal::LineRefusal;
pub use server::Server;
pub use stepped::Stepped;
pub use window::{Windowed, send_window};
