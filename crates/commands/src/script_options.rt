//! The options of the commands `show`, `make` and `watch` (profile).

use output_forms::Form;
use rds_text::Region;

/// The options of the command `show`.
#[derive(Clone, Copy, Debug, PartialEq, Eq)]
pub struct ShowOptions {
    /// The form of what is written.
    pub form: Form,
}

/// The options of the command `make`.
#[derive(Clone, Copy, Debug, PartialEq, Eq)]
pub struct MakeOptions {
    /// Whose names programme types have in a script of phrases; None where the script is of hexadecimal digits.
    pub words: Option<Region>,
}

/// The options of the command `watch`.
#[derive(Clone, Copy, Debug, PartialEq, Eq)]
pub struct WatchOptions {
    /// The form of what is written.
    pub form: Form,
    /// Whether a line with the time stands before what a read brought.
    pub time: bool,
}
