//! The encoder's end of an RDS encoder's control line (RDS Forum SPB 490, two-way mode): it applies each numbered
//! message once, in the order of their counters, and answers a repeat with the reply that it kept.
//!
//! No sockets, no clock, no threads: bytes go in by [`Encoder::feed`], and the reply to send is lent back. What a
//! message does is the matter of a [`Target`]; the store of RDS data is one. The modulator's side takes queued groups
//! one by one by [`Encoder::take_group`].
//!
//! - [`Encoder`]: the state machine over bytes, with [`Answer`] and [`What`] as its answers, or [`Heard`] and
//!   [`Outcome`] for who spells replies itself.
//! - [`Target`]: what messages are applied to, and what the modulator takes its groups from.
//! - [`Counts`]: what came, by kind.
//! - [`serve`]: the encoder over a reader and a writer, each in a [`Meter`]; [`serve_with`] does it with its state
//!   kept, so that a crash at any moment loses nothing and doubles nothing, and with each thing that is found told.
//! - [`Keep`]: saves the state of an end, as its [`SavedState`] says it, of an encoder a [`SavedEncoder`]; [`NotSaved`]
//!   keeps none. [`BatchLimits`]: how much is taken together, before it is saved. [`take_kept`]: the group that goes
//!   out next, once that is kept.
//! - [`Listener`]: is told of an [`Event`], with what was [`Answered`]; [`Unheard`] listens to nothing.
//!
//! The laws that users rely on: [`laws::applied_in_order`], messages are applied in the order of their counters, from
//! 01 on; and [`laws::a_retry_acts_once`], a frame that was answered and comes again within the next 126 messages gets
//! the same reply bytes, and changes neither target nor kept replies. With a state that is kept:
//! [`laws::loses_nothing`], what a crash leaves has taken each frame of whose reply a byte was sent; and
//! [`laws::doubles_nothing`], an encoder that goes on from it answers such a frame with the reply that it got, and does
//! not apply it again.
#![tactic(auto)]

mod answer;
mod answering;
mod batch;
mod counts;
mod encoder;
mod holdings;
mod keep;
pub mod laws;
mod listener;
mod meter;
mod outcome;
mod reply_frame;
mod serving;
mod taking;
mod target;

pub use answer::{Answer, ReplyBytes, What};
pub use counts::Counts;
pub use encoder::{Encoder, EncoderFault};
pub use keep::{BatchLimits, Keep, NotSaved, SaveFailed, SavedEncoder, SavedState};
pub use listener::{Answered, Event, Listener, Unheard};
pub use meter::{Failed, Meter};
pub use outcome::{Heard, Outcome};
pub use reply_frame::spell_reply;
pub use serving::{KeptFault, ServeFault, Served, serve, serve_with};
pub use taking::take_kept;
pub use target::Target;
