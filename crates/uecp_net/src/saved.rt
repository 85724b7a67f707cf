//! A server whose state is kept: a crash at any moment loses no message and tells no acknowledgement that it forgets.
//! Its state is saved before a message's frame is written the first time, and after its acknowledgement before that is
//! told; where a save fails, nothing is written or told from there on.
//!
//! Where the state is kept is the matter of a [`Keep`](uecp_encoder::Keep), as a file. None is opened here.
//!
//! - [`SavedServer`]: what is saved of a server, with its [`Progress`].
//! - [`send_kept`]: a batch of messages; [`KeptOutstanding`] is why they are not acknowledged, or may not be.
//! - [`settle_kept`]: the messages that are outstanding, as after a start.
//! - [`join_kept`]: the encoder is joined.

mod batch;
mod join;
mod keep;

pub use batch::{KeptOutstanding, send_kept, settle_kept};
pub use join::join_kept;
pub use keep::{Progress, SavedServer};
