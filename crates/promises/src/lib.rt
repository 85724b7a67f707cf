//! What holds of the whole, in theorems: the crate to read first. It has no code. Each is the contract of a function
//! that does nothing; what it says of the program stands on the clauses of the calls that the program makes.
//!
//! - [`steps_keep_the_headline`] (of `uecp_link`, whose `Line::play` promises the same of a list that it plays): **over
//!   every list of events on the line the encoder's store is what a prefix of the sent messages makes, each applied
//!   once and in order; every acknowledged message is in it with its one reply, and every missing one is still
//!   outstanding.**
//! - [`headline_with_disks`], [`headline_over_epochs`]: so it is over every crash of either end, each followed by a
//!   start from its file, and over beginnings anew; [`days_are_one_life`]: so an encoder is by the clauses of the calls
//!   that serve it.
//! - [`sent_is_told`], [`sent_is_kept`]: what a run of `send` over TCP took and told, each message once and in order,
//!   and what a crash leaves of its file; [`told_is_taken`], [`done_is_kept`]: so of any run of `sending`.
//! - [`said_station_made`], [`station_is_out`]: where each message that tells a station was acknowledged with 00, the
//!   encoder's store is that station, but for groups that were taken; and `station applied` is told only where each was
//!   told 00.
//! - [`service_is_shown`], [`text_is_shown`], [`no_name_is_mixed`], [`no_said_text_is_mixed`]: what a receiver shows is
//!   what the store holds; [`what_is_taken_is_shown`]: and that is what the messages made which were sent.
//!
//! They rest on `uecp_frame`, `uecp_elements`, `rds_store`, `uecp_encoder` and `uecp_link` (the ends and the line),
//! `uecp_net` and `uecp_encoder` (what is saved, and when), `line_batches`, `kept_jobs`, `sending` and `send_commands`
//! (a run), `store_phrases` and `uecp_phrases` (what is said of a store), and `carousel` and `rds_groups` (the air).
#![tactic(auto)]

pub mod air;
pub mod crash;
pub mod device;
pub mod display;
pub mod line;
pub mod live;
pub mod send;
pub mod station;

pub use air::{no_name_is_mixed, no_said_text_is_mixed, service_is_shown, text_is_shown};
pub use crash::{headline_over_epochs, headline_with_disks};
pub use device::days_are_one_life;
pub use display::what_is_taken_is_shown;
pub use line::{
    each_line_is_shown, each_line_once, each_line_once_over_stretches, one_try_is_enough,
};
pub use live::{done_is_kept, told_is_taken};
pub use send::{sent_is_kept, sent_is_told, sent_outlives};
pub use station::{said_station_made, station_is_out};
pub use uecp_link::laws::steps_keep_the_headline;
