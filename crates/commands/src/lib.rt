//! What is asked of the program: a command with its options, as a value.
//!
//! - [`Job`]: one command with its options. `command_line`'s `parse` answers it, and the crates of the commands do it.
//! - [`AnswerOptions`], [`LineOptions`], [`EncoderOptions`], ..: all options of a command that got more of them later.
#![tactic(auto)]

mod answer_options;
mod conformance_options;
mod encoder_options;
mod host;
mod job;
mod line_options;
mod page_options;
mod receive_options;
mod script_options;
mod send_options;
mod server_options;
mod short;

pub use answer_options::AnswerOptions;
pub use conformance_options::ConformanceOptions;
pub use encoder_options::EncoderOptions;
pub use host::host_named;
pub use job::Job;
pub use line_options::{LadderForm, LineOptions};
pub use page_options::PageOptions;
pub use receive_options::{ReceiveOptions, ShownForm};
pub use script_options::{MakeOptions, ShowOptions, WatchOptions};
pub use send_options::{SendOptions, TitleOptions};
pub use server_options::ServerOptions;
pub use short::{in_short, is_device};
