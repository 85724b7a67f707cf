//! Values of JSON, written (profile). Names and words hold no byte that a string has to escape.
ghost use Rattle.std.specs.Prelude.{◌≡◌, ◌≤◌, ◌++◌, codes, IsTrue, flat_map, encode_utf8_all};
ghost use Rattle.std.specs.Char.{encode_utf8};
ghost use Rattle.json.specs.Print.{quoted, escape};
ghost use Rattle.rds_text.specs.Quoted.{written};
ghost use Rattle.serde_json.specs.Data.{null, boolean, string};
ghost use Rattle.serde_json.specs.Written.{compact_text};
ghost use Rattle.json_lines.specs.Objects.{in_decimal, in_digits, in_characters};
ghost use Rattle.json_lines.specs.Texts.{is_plain};
ghost use Rattle.uecp_text.specs.Written.{Adds};

use itoa::Buffer;
use rds_text::written;
use uecp_text::Output;

/// A number, in decimal.
pub fn put_number(number: usize, output: &mut Output)
    ensures { Adds output.old output.new (compact_text (in_decimal number)) }
{
    output.text(Buffer::new().format(number));
}

/// A string of a word.
pub fn put_word(word: &str, output: &mut Output)
    requires { IsTrue (is_plain word.now) }
    ensures { Adds output.old output.new (quoted word.now) }
{
    output.text("\"");
    output.text(word);
    output.text("\"");
}

/// A string of the digits of these bytes.
pub fn put_digits(bytes: &[u8], output: &mut Output)
    ensures { Adds output.old output.new (compact_text (in_digits bytes.now)) }
{
    output.text("\"");
    output.digits(bytes);
    output.text("\"");
}

/// True or false.
pub fn put_flag(is_set: bool, output: &mut Output)
    ensures { Adds output.old output.new (compact_text (boolean is_set)) }
{
    output.text(if is_set { "true" } else { "false" });
}

/// No value.
pub fn put_null(output: &mut Output)
    ensures { Adds output.old output.new (compact_text null) }
{
    output.text("null");
}

/// A string of what these bytes say.
pub fn put_characters(bytes: &[u8], output: &mut Output)
    ensures { Adds output.old output.new (compact_text (in_characters bytes.now)) }
{
    output.text("\"");
    put_bytes(bytes, output);
    output.text("\"");
}

/// The characters of bytes, as a string holds them.
fn put_bytes(bytes: &[u8], output: &mut Output)
    ensures { Adds output.old output.new (escape (encode_utf8_all (flat_map written bytes.now))) }
{
    for byte in bytes {
        put_byte(*byte, output);
    }
}

/// The characters of a byte.
fn put_byte(byte: u8, output: &mut Output)
    ensures { Adds output.old output.new (escape (encode_utf8_all (written byte))) }
{
    for character in written(byte).as_slice() {
        put_character(*character, output);
    }
}

/// A character that is no control, as a string holds it.
pub fn put_character(character: char, output: &mut Output)
    requires { 0x20 ≤ character }
    ensures { Adds output.old output.new (escape (encode_utf8 character)) }
{
    if character == '"' {
        output.text("\\\"");
    } else if character == '\\' {
        output.text("\\\\");
    } else {
        output.text(character.encode_utf8(&mut [0; 4]));
    }
}
