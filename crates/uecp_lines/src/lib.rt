//! What there is to say, as lines of output: frames with their elements, segments that are no frames, what an encoder
//! answers, what came of an event, the totals of a line, and a store.
//!
//! Each function adds exactly the lines of the value that it is given. The crate decides nothing and reads no text: a
//! caller has the value from the crates below.
//!
//! - [`put_found`], [`put_answer`], [`put_step`]: the lines of one finding, answer or event.
//! - [`put_given_up`]: the line of a server that was started again.
//! - [`put_totals`], [`put_last`]: the lines that come last.
#![tactic(auto)]

mod element_lines;
mod finding_lines;
mod reply_lines;
mod response_lines;
mod step_lines;
mod store_lines;

pub use finding_lines::{put_fault, put_found};
pub use reply_lines::ReplyLines;
pub use response_lines::put_answer;
pub use step_lines::{put_given_up, put_step, put_totals};
pub use store_lines::put_last;
