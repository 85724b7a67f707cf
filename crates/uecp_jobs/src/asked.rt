//! What of an encoder is written, and how (profile).

use output_forms::Form;

/// What is written.
#[derive(Clone, Copy, Debug)]
pub struct Asked {
    /// Whether the store comes last.
    pub store: bool,
    /// The form of each line.
    pub form: Form,
}
