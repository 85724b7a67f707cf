//! For C, with memory: both ends of the line, kept by handles; images of them as bytes, from which a start goes on, and
//! the store of an encoder in words; and messages in words, read and written.
#![tactic(auto)]

mod handles;
mod images;
mod phrases;
