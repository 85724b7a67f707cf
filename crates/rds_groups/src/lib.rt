//! RDS groups: blocks with their check words, the groups that name a station and carry its text, and their lines; how
//! they are found in a stream of bits, what a receiver hears of them, and what it shows.
//!
//! - [`Group`], [`Head`], [`Segment`]: a group and what it says; [`block`], [`check_word`], [`word_of`]: its blocks,
//!   each with its [`OffsetWord`]; [`line`], [`read_line`]: it as a line of text.
//! - [`Synchroniser`], [`BlockWindow`]: finds groups in a stream of bits; [`bit_of`], [`bit_line`]: such bits as text.
//! - [`Receiver`]: what is shown of groups, each as it was heard, a [`HeardGroup`].
//! - [`laws`]: which wrong bits are found, and how groups and bits read.
#![tactic(auto)]

mod bit_text;
mod block_window;
mod group;
mod group_line;
mod heard;
pub mod laws;
mod offset_word;
mod protection;
mod receiver;
mod synchroniser;

pub use bit_text::{bit_line, bit_of};
pub use block_window::BlockWindow;
pub use group::{Group, Head, Segment, third_offset};
pub use group_line::{line, read_line};
pub use heard::HeardGroup;
pub use offset_word::OffsetWord;
pub use protection::{block, check_word, word_of};
pub use receiver::Receiver;
pub use synchroniser::Synchroniser;
