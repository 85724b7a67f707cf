//! One image in a SQLite file, kept so that a crash at any moment loses nothing and doubles nothing.
#![tactic(auto)]

mod fault;
mod file;
mod files;
mod kept;
mod log;
mod names;
mod ours;
mod path_fault;
mod start;
mod table;

pub use fault::KeepFault;
pub use files::{MachineFiles, OpenFiles, Wary};
pub use kept::{Kept, Opened};
pub use names::{MachineNames, Names, Sight};
pub use path_fault::PathFault;
