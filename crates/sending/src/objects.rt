//! What is told, as lines of JSON, one object each: each function adds exactly the lines of what it is given.

mod answers;
mod station;

pub(crate) use answers::{put_answers, put_held_answers, put_unknown};
pub(crate) use station::{put_joined, put_progress, put_station_applied, put_station_refused};
