//! The job `send`: a studio's server whose lines come as they like, from its options to its exit status.
//!
//! - [`run_send_over_tcp`]: does it over TCP, with lines from a reader and messages of the station from a file.
//! - [`run_send`]: does it over every feed of lines and source of connections.
//! - [`run_live_in`]: so with the state in a file.
//! - [`Passing`]: a feed that keeps each line that is passed over in a [`Ledger`], before it takes the next, and tells
//!   it as an object ([`RefusalObjects`]).
#![tactic(auto)]

mod ended;
mod ledger;
mod live_in;
mod over_tcp;
mod passing;
mod refusals;
mod run;
mod station;

pub use ledger::{Ledger, LedgerFault, LedgerFile};
pub use live_in::run_live_in;
pub use over_tcp::{Dialling, run_send_over_tcp};
pub use passing::Passing;
pub use refusals::RefusalObjects;
pub use run::run_send;
