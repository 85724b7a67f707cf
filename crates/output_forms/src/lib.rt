//! What there is to say, in each form in which a command writes it: lines with bytes in hexadecimal, phrases, or JSON.
//!
//! Each function adds exactly the lines of the value that it is given, as one of the crates below writes them. The
//! crate decides nothing but which.
//!
//! - [`Form`]: the form.
//! - [`put_found`], [`put_answer`], [`put_step`], [`put_given_up`]: the lines of one finding, answer or event.
//! - [`put_totals`], [`put_store`]: the lines that come last.
#![tactic(auto)]

mod form;
mod forms;

pub use form::Form;
pub use forms::{put_answer, put_found, put_given_up, put_step, put_store, put_totals};
