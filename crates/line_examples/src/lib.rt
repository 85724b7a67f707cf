//! The worked examples of both ends together, on a line and over sockets, each a test, and nothing else.
#![tactic(auto)]

#[cfg(test)]
mod tests;
