//! A line as a ladder: its two ends as two posts, each frame and reply as an arrow between them, time downwards.
//!
//! - [`Row`]: what stands at one height of a ladder; [`rows_of`], [`row_of_replacement`]: the rows of what came of an
//!   event.
//! - [`put_ladder`]: a ladder of rows, drawn as SVG or with the characters of boxes.
//! - [`run_ladder`]: does a [`LadderJob`] from an event script to its exit status.
#![tactic(auto)]

mod drawing;
mod ladder_job;
mod picture;
mod playing;
mod row;
mod row_making;
mod row_words;
mod text_drawing;

pub use drawing::put_ladder;
pub use ladder_job::{LadderJob, run_ladder};
pub use row::{Label, Mark, Remark, Row};
pub use row_making::{row_of_replacement, rows_of};
