//! One connection of a live page as a machine over values: the bytes of requests in, those of answers and of a stream
//! of events out. No IO but through the connection that the caller gives.
//!
//! - [`Client`]: a connection; [`Site`] is what it is answered from.
//! - [`Route`]: what a request asks for; [`route_of`], [`is_own`] and [`served`] judge it.
//! - [`HTML`]: the page itself.

mod answers;
mod asked;
mod client;
mod connection;
mod event_stream;
mod html;
mod request;

pub use client::{Client, Phase, Site};
pub use event_stream::{EndOfEvents, WAITING_MAX};
pub use html::HTML;
pub use request::{Route, is_own, route_of, served};
