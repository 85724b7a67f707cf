//! Conformance cases: which rules of the protocol an encoder keeps.
//!
//! - [`Case`]: what is sent, and what must come; [`Step`], [`Edit`], [`To`] and [`Counters`] are its parts.
//! - [`CASES`]: those of this project; [`read_cases`]: the cases that a text spells, or a [`Refusal`]; [`Line`] is what
//!   one line says, and [`CaseFault`] what is wrong with one.
//! - [`sent`], [`wanted`]: the bytes of a case for the encoder at an address, and the replies that it wants.
//! - [`judge`]: what came of a case, held against the replies that it wants; [`Verdict`], [`Reply`] and [`Expected`].
//! - [`noise`]: how many bytes came that are no part of a segment.
#![tactic(auto)]

mod built_in;
mod case;
mod case_bytes;
mod case_file;
mod comparison;
mod line;
mod passed_over;
mod steps;
mod verdict;
mod words;

pub use built_in::CASES;
pub use case::{Case, Counters, Edit, Step, To};
pub use case_bytes::{sent, wanted};
pub use case_file::{Refusal, read_cases};
pub use comparison::judge;
pub use line::{CaseFault, Line};
pub use passed_over::noise;
pub use verdict::{Expected, Reply, Verdict};
