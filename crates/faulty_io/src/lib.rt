//! What tests of several crates share: a reader and a writer with knobs, memory that runs out, encoders and what they
//! answer, known frames, and a slow finder of frames.
//!
//! Reader and writer move as many bytes at a call as they are told to, and fail at the calls that they are told. They
//! still tell what is left of their bytes, and what they took, so that what a contract says over them is exact.
//!
//! What looks at an answer tells by a `bool` whether it is as wanted, and the test asserts that: a library has no
//! `Abort`. No product crate uses these outside its tests.
//!
//! - [`FaultyReader`]: gives bytes.
//! - [`FaultyWriter`]: takes bytes.
//! - [`ScarceMemory`]: leaves the process no memory, and then gives it back, a little at a time.
//! - [`own_address`]: the address of all frames and encoders that are made here; [`framed`], [`reply_made`]: frames.
//! - [`new_encoder`], [`new_store_encoder`]: encoders; [`CountTarget`]: a target that counts.
//! - [`replies`], [`comes_to`]: whether an encoder answers as wanted; [`pi_of`], [`texts_of`]: what its store has.
//! - [`KNOWN_FRAMES`]: frames that are known from outside; [`altered`]: some bytes with one of them altered.
//! - [`slow_findings`]: which segments end in some bytes, and what each is; [`holds_no_frame`]: whether all are faults.
#![tactic(auto)]

mod encoders;
mod frames;
mod known_frames;
mod memory;
mod reader;
mod slow_finder;
mod writer;

pub use encoders::{
    CountTarget, comes_to, new_encoder, new_store_encoder, pi_of, replies, texts_of,
};
pub use frames::{
    ADD, ADD_1, APPLIED_1, APPLIED_2, EMPTY_1, EMPTY_2, framed, own_address, reply_made,
};
pub use known_frames::{KNOWN_FRAMES, altered, spelling_of};
pub use memory::ScarceMemory;
pub use reader::FaultyReader;
pub use slow_finder::{Plain, SlowFinding, holds_no_frame, slow_findings};
pub use writer::{FaultyWriter, Taken};
