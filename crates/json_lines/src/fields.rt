//! Members of objects, and the beginning and the end of a line, written (profile). The name of a member, and a word as
//! a value, hold no byte that a string has to escape.
ghost use Rattle.std.specs.Prelude.{◌++◌, [], ◌∷◌, codes, IsTrue};
ghost use Rattle.json.specs.Print.{quoted};
ghost use Rattle.serde_json.specs.Data.{boolean, string, null};
ghost use Rattle.uecp_frame.specs.Frame.{high_first};
ghost use Rattle.json_lines.specs.Objects.{in_decimal, in_digits, in_characters, said_fields, line_of};
ghost use Rattle.json_lines.specs.Texts.{is_plain, first_text, field_text, fields_text, opening_text};
ghost use Rattle.uecp_text.specs.Written.{Adds};

use crate::values::{put_characters, put_digits, put_flag, put_null, put_number, put_word};
use uecp_text::Output;

/// The beginning of a line, up to its kind.
#[tactic(auto, unfolding(crate::specs::Texts::opening_text))]
pub fn open_line(kind: &str, output: &mut Output)
    requires { IsTrue (is_plain kind.now) }
    ensures { Adds output.old output.new (opening_text kind.now) }
{
    open_number("format", 1, output);
    word_field("kind", kind, output);
}

/// The end of a line.
pub fn close_line(output: &mut Output)
    ensures { Adds output.old output.new (codes "}\n") }
{
    output.text("}\n");
}

/// A line with its kind alone.
#[tactic(auto, using(crate::proofs::Objects::parts))]
pub fn put_kind(kind: &str, output: &mut Output)
    requires { IsTrue (is_plain kind.now) }
    ensures { Adds output.old output.new (line_of kind.now []) }
{
    open_line(kind, output);
    close_line(output);
}

/// The end of an object.
pub fn close(output: &mut Output)
    ensures { Adds output.old output.new (codes "}") }
{
    output.text("}");
}

/// The brace of an object and the name of its first member.
fn open(name: &str, output: &mut Output)
    requires { IsTrue (is_plain name.now) }
    ensures { Adds output.old output.new (codes "{" ++ (quoted name.now ++ codes ":")) }
{
    output.text("{");
    put_word(name, output);
    output.text(":");
}

/// The name of a further member.
pub fn put_name(name: &str, output: &mut Output)
    requires { IsTrue (is_plain name.now) }
    ensures { Adds output.old output.new (codes "," ++ (quoted name.now ++ codes ":")) }
{
    output.text(",");
    put_word(name, output);
    output.text(":");
}

/// The first member of an object: a number.
#[tactic(auto, unfolding(crate::specs::Texts::first_text))]
fn open_number(name: &str, number: usize, output: &mut Output)
    requires { IsTrue (is_plain name.now) }
    ensures { Adds output.old output.new (first_text name.now (in_decimal number)) }
{
    open(name, output);
    put_number(number, output);
}

/// The first member of an object: a word.
#[tactic(auto, unfolding(crate::specs::Texts::first_text))]
pub fn open_word(name: &str, word: &str, output: &mut Output)
    requires name { IsTrue (is_plain name.now) }
    requires word { IsTrue (is_plain word.now) }
    ensures { Adds output.old output.new (first_text name.now (string word.now)) }
{
    open(name, output);
    put_word(word, output);
}

/// The first member of an object: bytes.
#[tactic(auto, unfolding(crate::specs::Texts::first_text))]
pub fn open_digits(name: &str, bytes: &[u8], output: &mut Output)
    requires { IsTrue (is_plain name.now) }
    ensures { Adds output.old output.new (first_text name.now (in_digits bytes.now)) }
{
    open(name, output);
    put_digits(bytes, output);
}

/// The first member of an object: a flag.
#[tactic(auto, unfolding(crate::specs::Texts::first_text))]
pub fn open_flag(name: &str, is_set: bool, output: &mut Output)
    requires { IsTrue (is_plain name.now) }
    ensures { Adds output.old output.new (first_text name.now (boolean is_set)) }
{
    open(name, output);
    put_flag(is_set, output);
}

/// A member: a number.
#[tactic(auto, unfolding(crate::specs::Texts::field_text))]
pub fn number_field(name: &str, number: usize, output: &mut Output)
    requires { IsTrue (is_plain name.now) }
    ensures { Adds output.old output.new (field_text name.now (in_decimal number)) }
{
    put_name(name, output);
    put_number(number, output);
}

/// A member: a word.
#[tactic(auto, unfolding(crate::specs::Texts::field_text))]
pub fn word_field(name: &str, word: &str, output: &mut Output)
    requires name { IsTrue (is_plain name.now) }
    requires word { IsTrue (is_plain word.now) }
    ensures { Adds output.old output.new (field_text name.now (string word.now)) }
{
    put_name(name, output);
    put_word(word, output);
}

/// A member: bytes.
#[tactic(auto, unfolding(crate::specs::Texts::field_text))]
pub fn digits_field(name: &str, bytes: &[u8], output: &mut Output)
    requires { IsTrue (is_plain name.now) }
    ensures { Adds output.old output.new (field_text name.now (in_digits bytes.now)) }
{
    put_name(name, output);
    put_digits(bytes, output);
}

/// A member: one byte.
pub fn byte_field(name: &str, byte: u8, output: &mut Output)
    requires { IsTrue (is_plain name.now) }
    ensures { Adds output.old output.new (field_text name.now (in_digits (byte ∷ []))) }
{
    digits_field(name, &[byte], output);
}

/// A member: a number of 16 bits, the high byte first.
pub fn block_field(name: &str, block: u16, output: &mut Output)
    requires { IsTrue (is_plain name.now) }
    ensures { Adds output.old output.new (field_text name.now (in_digits (high_first block))) }
{
    digits_field(name, &block.to_be_bytes(), output);
}

/// A member: a flag.
#[tactic(auto, unfolding(crate::specs::Texts::field_text))]
pub fn flag_field(name: &str, is_set: bool, output: &mut Output)
    requires { IsTrue (is_plain name.now) }
    ensures { Adds output.old output.new (field_text name.now (boolean is_set)) }
{
    put_name(name, output);
    put_flag(is_set, output);
}

/// A member: nothing.
#[tactic(auto, unfolding(crate::specs::Texts::field_text))]
pub fn null_field(name: &str, output: &mut Output)
    requires { IsTrue (is_plain name.now) }
    ensures { Adds output.old output.new (field_text name.now null) }
{
    put_name(name, output);
    put_null(output);
}

/// A member: what bytes say.
#[tactic(auto, unfolding(crate::specs::Texts::field_text))]
pub fn characters_field(name: &str, bytes: &[u8], output: &mut Output)
    requires { IsTrue (is_plain name.now) }
    ensures { Adds output.old output.new (field_text name.now (in_characters bytes.now)) }
{
    put_name(name, output);
    put_characters(bytes, output);
}

/// Two members: bytes, and what they say.
pub fn said_fields(name: &str, bytes: &[u8], output: &mut Output)
    requires { IsTrue (is_plain name.now) }
    ensures { Adds output.old output.new (fields_text (said_fields name.now bytes.now)) }
{
    digits_field(name, bytes, output);
    characters_field("text", bytes, output);
}
