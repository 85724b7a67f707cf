//! The options of the command `receive` (profile).

use rds_text::Region;

/// In which form a change is told.
#[derive(Clone, Copy, Debug, PartialEq, Eq)]
pub enum ShownForm {
    /// A phrase for each thing that is new, with the programme types of the region.
    Words(Region),
    /// One object with all that is shown.
    Json,
}

/// The options of the command `receive`.
#[derive(Clone, Copy, Debug, PartialEq, Eq)]
pub struct ReceiveOptions {
    /// The form.
    pub form: ShownForm,
    /// Whether the time stands before what is told.
    pub time: bool,
    /// Whether the input is a stream of bits, and not lines of groups.
    pub bits: bool,
}
