//! A line of JSON, one object each: its beginning, its members, their values, and its end (RFC 8259, with no space).
//!
//! Each function adds exactly the text of the part that it is given, with no value built, and takes no memory but the
//! output's. Names and words hold no byte that a string has to escape; what bytes say of a name or of a text is
//! escaped.
//!
//! - [`open_line`], [`close_line`], [`put_kind`]: a line, which tells its version of the format and its kind first.
//! - [`number_field`], [`word_field`], [`digits_field`], [`byte_field`], [`block_field`], [`flag_field`],
//!   [`null_field`], [`characters_field`], [`said_fields`], [`time_field`]: further members.
//! - [`open_word`], [`open_digits`], [`open_flag`], [`close`]: an object within a line.
//! - [`put_name`], and the values, `put_number` to `put_characters`: parts of members, for lists and objects.
//! - [`stamp_of`]: what a clock shows, as a member and a remark have it.
//! - [`laws`]: an object is one line, and is read back as what it says.
#![tactic(auto)]

mod fields;
pub mod laws;
mod stamp;
mod values;

pub use fields::{
    block_field, byte_field, characters_field, close, close_line, digits_field, flag_field,
    null_field, number_field, open_digits, open_flag, open_line, open_word, put_kind, put_name,
    said_fields, word_field,
};
pub use stamp::{STAMP_MAX, stamp_of, time_field};
pub use values::{
    put_character, put_characters, put_digits, put_flag, put_null, put_number, put_word,
};
