//! Lines of groups as a receiver hears them: four words, with `----` for a block that was not heard.
//!
//! - [`read_group`]: what a line is, a [`GroupLine`].
//! - [`hear_line`]: a receiver hears it.

mod group_line;
mod heard_line;

pub use group_line::{GroupLine, read_group};
pub use heard_line::hear_line;
