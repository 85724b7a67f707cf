//! Titles: a line of text that is a RadioText, as it stands or made to fit; and lines of phrases whose strings are made
//! to fit (profile).
//!
//! - [`title_of`]: what a line gives as a title.
//! - [`refitted_line`]: what a line of phrases says, with its strings made to fit where it says nothing as it stands.
//! - [`text_of`]: a text in the basic character set, where it is in it.
//! - [`fit`]: a text in the basic character set of RDS, where it is not in it: what is nearest to each character.
//!
//! The crate reads no input and keeps nothing. What a line of titles has is a text and nothing else: no quote, no
//! semicolon and no word of it is one of a phrase.
#![tactic(auto)]

mod cut;
mod fitting;
mod line;
mod nearest;
mod strings;
mod texts;
mod title;

pub use fitting::fit;
pub use line::refitted_line;
pub use title::{Title, Titles, text_of, title_of};
