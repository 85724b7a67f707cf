//! Text in and text out: the bytes of a reader as lines, what a line says, the words of a text and what they spell; the
//! lines that a run writes; why a run stops, and what is said of that.
//!
//! The crate knows no command and no element. What texts mean is the matter of an [`Interpreter`], and the same [`run`]
//! takes any of them over an input: line by line, up to the first text that is refused or ends the run. It opens no
//! file and knows no standard stream: it works on every reader and writer.
//!
//! - [`Interpreter`], [`run`]: what texts do, and the loop over them.
//! - [`Output`]: the lines that a run writes, kept until they are written out.
//! - [`RunFault`], [`TextFault`]: why a run stops, with its exit status and its text.
//! - [`words_of`] and its neighbours: the words of a text, and the bytes and numbers that they spell.
//! - [`PieceBuffer`]: the bytes that a whole text spells, in room that is kept from one text to the next.
#![tactic(auto)]

mod digit_tables;
mod input;
mod interpreter;
pub mod laws;
mod output;
mod piece_buffer;
mod run_fault;
mod stop_report;
mod text_fault;
mod whole_writes;
mod words;

pub use input::{first_input_line, read_all, rest_after, text_of};
pub use interpreter::{Interpreter, Taken, run};
pub use output::{Output, digits_of_byte};
pub use piece_buffer::PieceBuffer;
pub use run_fault::RunFault;
pub use stop_report::{report, write_parts};
pub use text_fault::{TextFault, Unsaid};
pub use words::{byte_of, bytes_of, bytes_or_none, decimal_of, digits_of, number_of, words_of};
