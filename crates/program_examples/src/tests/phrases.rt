//! Characters, tokens, and phrases with what is expected where there is none.
mod characters;
mod expectations;
mod phrases;
mod tokens;
