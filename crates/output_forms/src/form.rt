//! In which form a command writes what it has to say (profile).

use rds_text::Region;

/// In which form a command writes what it has to say.
#[derive(Clone, Copy, Debug, PartialEq, Eq)]
pub enum Form {
    /// Lines with bytes in hexadecimal.
    Lines,
    /// Lines of a phrase script, with the programme types of the region; what is no such line stands behind `#`.
    Words(Region),
    /// Lines of JSON, one object each.
    Json,
}
