//! Options out of a file: the words of a command line for which a text of TOML stands.
//!
//! - [`entries_of`]: the entries of a text, each the name of an option and the word that gives it; an [`EntriesFault`]
//!   says why there are none.
//! - [`file_in`]: the path of the file that the words of a command line name.
//! - [`has_option`]: whether they name an option.
//! - [`words_with`]: the words with those of a file's entries, of which none goes before what the words say.
//! - [`words_to_try`]: the words that try an entry alone.
//! - [`place_of`], [`place_at`]: the [`Place`] of an entry, or of a byte.
#![tactic(auto)]

mod entries;
mod entries_fault;
mod joined_words;
pub mod laws;
mod option_words;
mod place;

pub use entries::{Entry, entries_of};
pub use entries_fault::EntriesFault;
pub use joined_words::{file_in, has_option, words_to_try, words_with};
pub use place::{Place, place_at, place_of};
