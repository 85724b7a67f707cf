//! A server whose state is kept, wherever its batches of messages come from: each message is kept before its frame
//! leaves, and its reply is told as soon as it is there, for every source of batches, writer, source of connections and
//! keeper.
//!
//! [`run_from`] is the run, of any [`Source`]; [`run_live`] that of a studio's server whose lines come as they like.
#![tactic(auto)]

mod account;
mod batches;
mod beginning;
mod course;
mod forms;
mod intake;
mod lines;
mod lives;
mod objects;
mod options;
mod run;
mod sent;
mod source;
mod station;
mod teller;
mod timing;
mod turn;

pub use account::Account;
pub use options::{LiveOptions, RunOptions};
pub use output_forms::Form;
pub use run::{run_from, run_live};
pub use source::Source;
pub use teller::Teller;
