//! A bad line on purpose: the rules that say what it does, and what comes of each segment by them.
//!
//! - [`read_rules`]: the rules of a text, line by line; [`RulesFault`] is why it has none.
//! - [`read_rule`]: the rule that a line of text spells; [`Rule`], [`Way`] and [`Span`] are what it says.
//! - [`LineFaults`]: what a line does to the segments of one direction as they come; [`Fate`] is what comes of one.

mod chances;
mod delays;
mod fate;
mod fates;
mod file;
mod line_faults;
mod numbers;
mod rule;
mod spelled_rule;
mod words;

pub use fate::Fate;
pub use file::{RulesFault, read_rules};
pub use line_faults::LineFaults;
pub use rule::{Rule, RuleFault, Span, Way};
pub use spelled_rule::read_rule;
