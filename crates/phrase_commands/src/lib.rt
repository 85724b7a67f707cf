//! The commands `quote` and `phrases`: any line of text as a string of a phrase, for scripts that build phrases; and
//! the page that tells the phrases. And `make --words --fit`: a script of phrases that is made to fit.
//!
//! - [`run_quote`]: writes the lines of an input as strings, up to the first that no string can be.
//! - [`string_of`]: the string that says a text.
//! - [`run_make_fitted`]: makes the frames of a script, of which a line that says nothing as it stands is made to fit.
//! - [`tell_phrases`]: writes the page, [`PHRASES`], which `help phrases` shows too.
#![tactic(auto)]

mod making;
mod page;
mod quoting;
mod run;

pub use making::run_make_fitted;
pub use page::PHRASES;
pub use quoting::string_of;
pub use run::{run_quote, tell_phrases};
