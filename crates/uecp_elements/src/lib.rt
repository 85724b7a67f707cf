//! The grammar of messages: which bytes spell an element, and which elements a message reads as.
//!
//! The crate gives no element a meaning, keeps no state and takes no memory. It knows no frame either: a message is a
//! list of bytes here.
//!
//! Its main types are [`Element`], whose name or text stays in the message that it was read from; [`Elements`], the
//! reading of a message; and [`Code`], what a message comes to.
//!
//! The law that its users rely on: every message reads in exactly one way, as elements whose spellings, joined, are the
//! message, or as such elements and then one fault, at the first byte where no element begins.
#![tactic(auto)]

mod code;
mod element;
mod element_bytes;
mod element_reader;
mod fault;
mod first_byte;
mod front;
pub mod laws;
mod part;
mod start;

pub use code::Code;
pub use element::Element;
pub use element_bytes::push_element;
pub use element_reader::Elements;
pub use fault::ElementFault;
pub use first_byte::ACK;
pub use part::{RtPart, TEXT_MAX};
pub use start::elements;
