//! Messages in words for C, with nothing kept between two calls: the line of phrases that a message is written as, and
//! the message that a line says, or why it says none. Memory is taken within a call and given back before it ends.

mod message_line;
mod outcome;
mod region;
mod told_message;
