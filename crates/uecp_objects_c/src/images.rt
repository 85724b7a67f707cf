//! Kept images of both ends for C, an encoder or a server behind a handle as bytes, from which a start goes on; and the
//! store of an encoder in words.

mod encoder_images;
mod faults;
mod image_buffer;
mod server_images;
mod words;
