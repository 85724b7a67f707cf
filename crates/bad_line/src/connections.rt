//! Connections with faults on purpose: [`Connections`](uecp_net::Connections) over others.

mod arrivals;
mod clock;
mod effect;
mod faulty;
mod passage;
mod reader;
mod spans;
mod writer;

pub use arrivals::Arrivals;
pub use effect::{Effect, Effects, write_effect};
pub use faulty::Faulty;
pub use reader::FaultyReader;
pub use writer::FaultyWriter;
