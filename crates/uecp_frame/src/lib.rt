//! Frames of the Universal Encoder Communication Protocol (RDS Forum SPB 490): how a message for an RDS encoder is
//! spelled on the control line, and how frames and faults are found in a stream of bytes that comes in any pieces.
//!
//! No sockets, no clock, no threads, and no memory is taken: everything is in buffers of fixed size. What a message
//! means is for the crates above.
//!
//! - [`Frame`]: an address, a sequence counter and a message. [`encode`] spells it, [`decode`] judges one whole
//!   segment.
//! - [`Deframer`]: finds frames in a stream, in whatever pieces it comes.
//! - [`FrameFault`]: why a segment is no frame.
//!
//! The law that users rely on: the findings of a byte list do not depend on where it was cut ([`laws::in_pieces`]), and
//! whatever was heard before it, a frame's spelling is heard as that frame ([`laws::always_heard`]).
#![tactic(auto)]

mod address;
mod check;
mod check_table;
mod deframer;
mod fault;
mod fed;
mod fed_ref;
mod frame;
mod frame_spelling;
pub mod laws;
mod lent_segment;
mod message;
mod open_segment;
mod plain_bytes;
mod search;
mod segment;
mod verdict;

pub use address::Address;
pub use check::check_of;
pub use deframer::Deframer;
pub use fault::FrameFault;
pub use fed::{Fed, Found};
pub use fed_ref::{FedRef, FoundRef, FrameRef};
pub use frame::{Frame, FrameBytes};
pub use frame_spelling::{encode, encode_ref};
pub use message::{Full, Message};
pub use segment::{decode, is_segment};
