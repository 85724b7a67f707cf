//! The command line of the program `uecp`: its commands and options, and what the words of one ask for.
//!
//! - [`parse`]: the words of a command line as a [`Job`], or why they ask for none, a [`Usage`]; [`refuse`] says that.
//! - [`program`]: the commands and their options, as clap takes them.
//! - [`settle`]: the words with the options of the file that they name.
//! - [`line_name`]: the name that they give to their line, which stands in each object that is told.
//!
//! It does nothing of what is asked for.
#![tactic(auto)]

mod arguments;
mod command_name;
mod command_row;
mod command_rows;
mod command_table;
mod conformance_options;
mod definition;
mod encoder_options;
mod file_fault;
mod forms;
mod matched;
mod naming;
mod numbers;
mod option_row;
mod page_options;
mod parsing;
mod receive_options;
mod refusing;
mod send_options;
mod services;
mod settling;
mod title_options;
mod usage;

pub use commands::Job;
pub use definition::program;
pub use naming::line_name;
pub use parsing::parse;
pub use refusing::refuse;
pub use settling::settle;
pub use usage::Usage;
