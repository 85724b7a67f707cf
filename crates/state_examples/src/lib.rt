//! The worked examples of images and state files, each a test, and nothing else.
#![tactic(auto)]

#[cfg(test)]
mod tests;
