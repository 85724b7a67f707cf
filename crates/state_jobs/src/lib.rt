//! The job `server` with its state in a file, and what is in such a file: from the options to the exit status, for
//! every reader, writer, source of connections and place where states are kept.
//!
//! [`run_server_in`] opens the state, goes on from it, and closes it; [`run_server_kept`] is the run between, with
//! whatever keeps the state; [`tell_state`] tells what is in one. The address is judged before a file is opened, and a
//! state that is refused is not overwritten.
//!
//! Where states are kept is the matter of an [`OpenStates`]: files, each at its path, for [`StatesInFiles`].
#![tactic(auto)]

mod files;
mod list;
mod open_states;
mod server_job;
mod server_run;
mod state_lines;
mod telling;
mod texts;

pub use files::{StatesInFiles, StoredEncoder, StoredServer};
pub use open_states::OpenStates;
pub use server_job::run_server_in;
pub use server_run::run_server_kept;
pub use telling::tell_state;
pub use texts::{closed_so, fail_file, state_text};
