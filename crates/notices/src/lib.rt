//! What is said beside the output, as on standard error: why a run stops, which line was refused, what is waited for.
//!
//! - [`Notices`]: where it is said. Any writer is one; of a writer alone no contract can say that a write failed, so it
//!   is known only that a beginning was written.
//! - [`NoticesTo`]: a writer that remembers whether a write failed. The program says by one why a run stops and what it
//!   refused: where no write failed, that was written whole.
//!
//! It opens nothing, and knows no standard stream. What can't be written stops nothing.
#![tactic(auto)]

pub mod laws;
mod saying;
mod told;

pub use saying::{Notices, fail};
pub use told::NoticesTo;
