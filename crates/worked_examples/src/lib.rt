//! The worked examples of the crates below the line, each a test, and nothing else: where a crate has tests all of it
//! is proved twice.
#![tactic(auto)]

#[cfg(test)]
mod tests;
