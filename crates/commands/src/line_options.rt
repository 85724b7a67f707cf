//! The options of the command `line` (profile).

use output_forms::Form;

/// How a ladder is drawn.
#[derive(Clone, Copy, Debug, PartialEq, Eq)]
pub enum LadderForm {
    /// As SVG, for a document or a browser.
    Picture,
    /// With the characters of boxes, for a terminal.
    Text,
}

/// The options of the command `line`.
#[derive(Debug, Drop, PartialEq, Eq)]
pub struct LineOptions {
    /// The site of both ends, 1 to 1023.
    pub site: u16,
    /// The encoder's number at its site, 1 to 63.
    pub encoder: u8,
    /// How many data sets it has, 1 to 8.
    pub sets: u8,
    /// The numbers of its services, the main one first. The store judges them.
    pub services: Vec<u8>,
    /// Whether the store is written out at the end.
    pub store: bool,
    /// The form of what is written.
    pub form: Form,
    /// How a ladder is drawn in its place, where one is asked for.
    pub ladder: Option<LadderForm>,
}
