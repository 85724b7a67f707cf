//! A command, as a row of the table (profile).
use crate::option_row::OptionRow;

/// A command.
#[derive(Clone, Copy)]
pub(crate) struct CommandRow {
    /// Its name.
    pub(crate) name: &'static str,
    /// What it does, in a line.
    pub(crate) about: &'static str,
    /// What stands below its options.
    pub(crate) after: &'static str,
    /// Its options, but those of a file of options, which each command has.
    pub(crate) options: &'static [OptionRow],
}
