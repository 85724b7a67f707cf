//! The options of the command `answer` (profile).

use output_forms::Form;

/// The options of the command `answer`.
#[derive(Debug, Drop, PartialEq, Eq)]
pub struct AnswerOptions {
    /// The encoder's site, 1 to 1023.
    pub site: u16,
    /// The encoder's number at its site, 1 to 63.
    pub encoder: u8,
    /// How many data sets it has, 1 to 8.
    pub sets: u8,
    /// The numbers of its services, the main one first. The store judges them.
    pub services: Vec<u8>,
    /// Whether the store is written out at the end of the input, before the groups.
    pub store: bool,
    /// The form of all that is written.
    pub form: Form,
    /// How many groups of the store are written at the end, 1 to 1000000, if any are.
    pub air: Option<u32>,
}
