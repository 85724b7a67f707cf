//! A line that is bad on purpose: the rules that say what it does, its bytes cut into segments, and connections over
//! others that go by the rules.
//!
//! - [`read_rules`], [`read_rule`]: the rules of a text; [`Rule`], [`Way`] and [`Span`] are what one says,
//!   [`RulesFault`] and [`RuleFault`] why there are none.
//! - [`LineFaults`]: what a line does to the segments of one direction as they come; [`Fate`] is what comes of one.
//! - [`Cutter`]: the machine that cuts the bytes of one direction; [`Crossed`] is what a call brought.
//! - [`Faulty`]: [`Connections`](uecp_net::Connections) over others, whose ends are [`Arrivals`]; [`Effect`] is what
//!   was done to them.
//! - [`laws`]: what holds of a whole stream.
#![tactic(auto)]

mod connections;
pub mod laws;
mod rules;
mod segments;

pub use connections::{
    Arrivals, Effect, Effects, Faulty, FaultyReader, FaultyWriter, write_effect,
};
pub use rules::{Fate, LineFaults, Rule, RuleFault, RulesFault, Span, Way, read_rule, read_rules};
pub use segments::{Crossed, Cutter, OUT_MAX, Out};
