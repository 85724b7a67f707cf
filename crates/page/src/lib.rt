//! A live page of a station, as machines over values: what it shows, the events that browsers are owed, and each
//! browser's connection. No IO but through the reader and the sockets that the caller gives.
//!
//! - [`Page`]: what is shown, a card for each control line, as a fold of the lines of JSON that `encoder`, `watch`,
//!   `receive`, `answer` and `send` write; [`Took`] is what a line was. [`state_text`], [`metrics_text`]: it as JSON,
//!   and its counts as monitoring systems read them, at a [`Moment`]; [`history_text`]: what changed in the last day;
//!   [`has_stale`], [`stale_text`]: whether nothing was told of a control line for too long, and of which.
//! - [`History`]: the last 1,000 events, and what a browser is owed that names the last one it has; [`put_event`],
//!   [`GAP`], [`ALIVE`]: the parts of a stream of Server-Sent Events.
//! - [`Client`]: one connection; [`Site`] is what it is answered from, [`Route`] what a request asks for, [`HTML`] the
//!   page itself.
//! - [`Guests`]: all who ask, over any [`Sockets`]; [`Accepted`] is what an accept came to, [`Connection`] the
//!   connection of one, [`Passed`] what a call of it came to, and [`Deed`] what all are asked to do.
//! - [`Intake`]: the bytes of an input cut into lines, and what came of these, each taken once; [`first_number`],
//!   [`own_only`], [`status_of`]: what a run begins and ends with.
//! - [`laws`]: a browser takes each line as it was sent; each event is sent once and in order, or the browser is lost;
//!   what it was sent in the whole life of its connection.
#![tactic(auto)]

mod clients;
mod events;
mod guests;
mod intake;
pub mod laws;
mod state;

pub use clients::{
    Client, EndOfEvents, HTML, Phase, Route, Site, WAITING_MAX, is_own, route_of, served,
};
pub use events::{ALIVE, AddFault, GAP, History, KEPT_MAX, number_of, put_event};
pub use guests::{Accepted, Connection, Deed, Guests, Passed, Sockets};
pub use intake::{Intake, Taken, first_number, own_only, status_of};
pub use state::{
    LINES_MAX, Moment, Page, SERVICES_MAX, Took, has_stale, history_text, metrics_text, stale_text,
    state_text,
};
