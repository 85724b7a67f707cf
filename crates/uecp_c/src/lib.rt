//! The protocol for C, with nothing kept between two calls: checks, frames, the first finding of a stream's bytes,
//! elements, names and characters; and how a server that knows nothing of an encoder joins it: whether the bytes that
//! were read after a pass of empty messages hold the two replies that tell it.
#![tactic(auto)]

mod characters;
mod check;
mod elements;
mod first_finding;
mod frame_bytes;
mod joining;
mod names;
mod plain_element;
mod replies;
mod seen;
mod whole;
