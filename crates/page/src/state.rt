//! What a live page shows, a card for each control line: a fold of the lines of JSON that `encoder`, `watch`,
//! `receive`, `answer` and `send` write. No IO, and no clock but the times that the caller gives.
//!
//! - [`Page`]: what is shown, and what was counted; takes a line at a time.
//! - [`Took`]: what a line was.
//! - [`state_text`], [`metrics_text`]: what is shown as JSON, and the counts as monitoring systems read them, at a
//!   [`Moment`]; [`history_text`]: what changed in the last day.
//! - [`has_stale`], [`stale_text`]: whether nothing was told of a control line for too long, and of which.

mod air;
mod announced;
mod changes;
mod counts;
mod day_text;
mod line;
mod link;
mod members;
mod metrics;
mod minutes;
mod page;
mod row;
mod rows;
mod seen;
mod services;
mod silence;
mod texts;

pub use day_text::history_text;
pub use metrics::metrics_text;
pub use page::{LINES_MAX, Page, SERVICES_MAX, Took};
pub use silence::{Moment, has_stale, stale_text};
pub use texts::state_text;
