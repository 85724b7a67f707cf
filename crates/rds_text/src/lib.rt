//! What the bytes of a name or of a RadioText say, and the names of programme types: the basic character set of RDS, to
//! Unicode and back, how bytes are written between quotes, and the 32 names of either region.
//!
//! The crate knows no element and no frame; it takes no memory.
//!
//! The law that its users rely on: what is written of a byte spells that byte and no other, and begins no other's
//! spelling, so a text that is shown is read again as the same bytes.
#![tactic(auto)]

mod basic_set;
pub mod laws;
mod programme_type;
mod quoted;

pub use basic_set::{byte_of, character_of};
pub use programme_type::{Region, name_of, number_of};
pub use quoted::{QuotedFault, first_byte, written};
