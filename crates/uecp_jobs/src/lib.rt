//! The jobs of the program `uecp`, from their input to their exit status, for every reader, writer and source of
//! connections.
//!
//! A [`Job`] is a command with its options, as `commands` has them. [`run_job`], [`run_encoder`] and [`run_server`] do
//! it and answer the exit status, 0 to 3 whatever the input is; [`run_encoder_over`] and [`run_server_over`] too, over
//! connections that are taken back. The crate knows no command line and no machine.
#![tactic(auto)]

mod answering;
mod asked;
mod batches;
mod encoder_run;
mod event_script;
mod frame_script;
pub mod laws;
mod messages;
mod opened;
mod phrase_script;
mod run;
mod server_run;
mod server_setup;
mod setup;
mod showing;

pub use batches::{fault_of, put_settled};
pub use commands::Job;
pub use encoder_run::{put_ending, run_encoder_over};
pub use event_script::{line_event, named_message};
pub use messages::{Messages, messages_of};
pub use opened::{run_encoder, run_server};
pub use output_forms::Form;
pub use run::run_job;
pub use server_run::{batch_size, run_server_over};
pub use server_setup::{ServerSetup, server_setup_of};
pub use setup::{Setup, address_of, new_encoder, new_line};
