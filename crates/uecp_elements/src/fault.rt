//! The fault that ends a reading. Source: profile.
use crate::code::Code;
use thiserror::Error;

/// Why the bytes of a message are no element: the place at which one was to begin, and the code of the reply to that
/// message.
#[derive(Clone, Copy, Debug, PartialEq, Eq, Error)]
#[error("no element can be read at byte {place}: {code:?}")]
pub struct ElementFault {
    /// The place of the byte at which an element was to begin, counted from 0 in the message.
    pub place: usize,
    /// `UnknownElement` where no element begins with that byte, else `ElementLength`.
    pub code: Code,
}
