//! The replies that an encoder keeps, so that a message that comes again gets the reply of its first time.
//!
//! The crate holds counters and reply codes alone: no message, no bytes of a reply, and no word on when to look one up.
//! Once a ring is made it takes no memory.
//!
//! Its type is [`ReplyRing`]. A clause sees it as the list of its pairs, the newest first.
//!
//! The law that its users rely on: a look-up answers no code only where none of the last 127 pairs has the counter, so
//! a message whose reply is kept is never taken for a new one.
#![tactic(auto)]

mod ring;

pub use ring::ReplyRing;
