//! The state of each end of the line in a file: what `uecp encoder --state FILE` and `uecp server --state FILE` keep
//! (profile). A file keeps one image, and each save puts another in its place.
//!
//! - [`Saved`]: keeps an end in a file, over its [`Image`]: as [`EncoderFile`] an encoder, as [`ServerFile`] a server.
//! - [`open_encoder`], [`open_server`]: an end that goes on from its file, or a new one in a new file.
//! - [`read_state`]: what a file has, for looking at it.
//! - [`StateFault`]: why there is no such end; nothing is overwritten by a refusal.
#![tactic(auto)]

mod encoder_file;
mod encoder_opening;
mod fault;
mod image;
pub mod laws;
mod reading;
mod saved;
mod server_file;
mod server_opening;

pub use encoder_file::{EncoderFile, READ_MAX, TOGETHER_MAX};
pub use encoder_opening::{encoder_over, open_encoder};
pub use fault::StateFault;
pub use image::Image;
pub use reading::{Found, read_state};
pub use saved::Saved;
pub use server_file::ServerFile;
pub use server_opening::{open_server, server_over};
