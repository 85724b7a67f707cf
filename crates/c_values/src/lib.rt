//! What crosses between this library and a program in C.
//!
//! - [`buffer`]: what goes into a buffer of the program's: all bytes where they fit, and else none.
//! - [`Finding`]: what is found in a stream, a plain struct in which a frame or a fault is told; [`show`],
//!   [`place_of`].
//! - [`Handle`]: where an [`Object`] lies that the program keeps, a deframer, an encoder with its store or a server,
//!   and whether there is one: a plain struct of the program's. What it has is taken out by [`take`], used, and put
//!   back by [`put`]; C sees none of it. [`status`]: how a call ended.
#![tactic(auto)]

pub mod buffer;
mod finding;
mod handle;
mod object;
mod slot;
pub mod status;
mod unboxed;

pub use finding::{Finding, place_of, show};
pub use handle::{Handle, goes_to_any_thread, put, take};
pub use object::Object;
pub use slot::Slot;
