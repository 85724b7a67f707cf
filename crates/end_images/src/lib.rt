//! What is kept of each end of the line: its image, a list of bytes from which a start after a crash goes on (profile).
//!
//! No files, no clock: bytes are made and read, and where they lie is the caller's matter. Of an encoder is kept its
//! address, its store and its kept replies; of a server its address, its last counter and the messages that it holds,
//! each with its mark, and beside it whether it has joined and how many messages of its input were taken. The open part
//! of the line and the counts are not kept: a start has nothing open and nothing counted.
//!
//! - [`put_encoder`] and [`read_encoder`]: an encoder's image, written and read.
//! - [`put_server`] and [`read_server`]: a server's, as a [`KeptServer`].
//! - [`ImageFault`]: why bytes were not read.
//!
//! The law to rely on: what is read has these very bytes as its image, anything else is refused; and the image of each
//! end that a program makes is read as that end, as a start leaves it, or there was no memory for it.
#![tactic(auto)]

mod encoder_image;
mod encoder_parts;
mod fault;
mod image;
pub mod laws;
mod parts;
mod server_image;
mod server_parts;

pub use encoder_image::put_encoder;
pub use encoder_parts::read_encoder;
pub use fault::ImageFault;
pub use server_image::put_server;
pub use server_parts::{KeptServer, read_server};
