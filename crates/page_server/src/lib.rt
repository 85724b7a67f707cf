//! The edge of a live page: one wait for standard input, for those who ask, and for what their connections take. One
//! thread; no connection holds another or the input.
//!
//! - [`run_page_over_tcp`]: does what the options of `page` ask for to the end of the input.
#![tactic(auto)]

mod door;
mod input;
mod over_tcp;
mod server;
mod start;
mod stop;
mod tcp;

pub use over_tcp::run_page_over_tcp;
