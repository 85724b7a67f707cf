//! What there is to say, as lines of JSON, one object each: frames with their elements, segments that are no frames,
//! what an encoder answers, what came of an event, the totals of a line, and a store.
//!
//! Each function adds exactly the lines of the value that it is given. The crate decides nothing and reads no text: a
//! caller has the value from the crates below. It takes no memory but the output's.
//!
//! - [`put_found`], [`put_answer`], [`put_step`]: the line of one finding, answer or event.
//! - [`put_message`]: the members of a message, within the line of what it came in.
//! - [`put_given_up`]: the line of a server that was started again.
//! - [`put_totals`], [`put_store`]: the lines that come last.
//! - [`meaning`], [`put_code`]: what a reply's code means, and the members of both.
#![tactic(auto)]

mod elements;
mod findings;
mod meanings;
mod responses;
mod steps;
mod store;

pub use findings::{put_found, put_message};
pub use meanings::meaning;
pub use responses::put_answer;
pub use steps::{put_code, put_given_up, put_step, put_totals};
pub use store::put_store;
