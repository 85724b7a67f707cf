//! The tokens of a line of phrases: words, texts between quotes, and the semicolons that end phrases; read out of a
//! line's characters, and written (profile).
//!
//! The crate knows no phrase and no element: what words mean is the matter of `uecp_phrases`.
//!
//! The law that its users rely on: a line has one list of tokens or none, and what is written of tokens reads as these.
#![tactic(auto)]

mod columns;
pub mod laws;
mod token;
mod tokens_read;
mod tokens_written;

pub use columns::column_of;
pub use token::{QUOTED_MAX, Token, WORD_MAX};
pub use tokens_read::{TokenFault, Unread, tokens_of};
pub use tokens_written::{put_behind, put_tokens};
