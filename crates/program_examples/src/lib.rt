//! The worked examples of the program's commands, of phrases, of what goes on the air and of a bad line, each a test,
//! and nothing else.
#![tactic(auto)]

#[cfg(test)]
mod tests;
