//! The rows of a history as they are kept (profile).
ghost use Rattle.std.specs.Prelude.{◌≤◌, length};

use crate::state::seen::Seen;
use std::collections::VecDeque;

/// How many rows of a control line are kept.
pub(crate) const ROWS_MAX: usize = 1000;

/// A row: what is shown of a service from then on.
#[derive(Drop)]
pub(crate) struct Change {
    /// When the object came that made it so, by the page's clock, in milliseconds.
    pub(crate) came: u64,
    /// What is shown.
    pub(crate) seen: Seen,
}

/// The last rows of a control line.
#[derive(Drop)]
pub(crate) struct Changes {
    pub(crate) rows: VecDeque<Change>,
    ghost few: { length rows.items ≤ 1000 },
}
