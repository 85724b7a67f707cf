//! Names and rules, as they are shown (profile).
ghost use Rattle.std.specs.Prelude.{◌≡◌, ◌<◌, ◌≤◌, [], ◌∷◌};
ghost use Rattle.json.specs.Print.{escape};
ghost use Rattle.uecp_text.specs.Written.{Adds};
ghost use Rattle.conformance_command.specs.Telling.{shown_byte, shown, tap_byte, tap_name};

use uecp_text::Output;

/// Adds a name as it is shown, as a line of TAP has it.
pub(crate) fn put_tap_name(name: &[u8], output: &mut Output)
    ensures { Adds output.old output.new (tap_name (shown name.now)) }
{
    for byte in name {
        put_tap_byte(shown_byte(*byte), output);
    }
}

/// Adds a text as it is shown, as a string of JSON holds it.
pub(crate) fn put_escaped(text: &[u8], output: &mut Output)
    ensures { Adds output.old output.new (escape (shown text.now)) }
{
    for byte in text {
        put_escape(shown_byte(*byte), output);
    }
}

/// A byte as it is shown.
fn shown_byte(byte: u8) -> u8
    ensures value { result ≡ shown_byte byte }
    ensures printable { (0x20 ≤ result) × (result < 0x7F) }
{
    if byte >= 0x20 && byte < 0x7F {
        byte
    } else {
        b'?'
    }
}

/// Adds a character of ASCII.
fn put_character(byte: u8, output: &mut Output)
    requires { byte < 0x80 }
    ensures { Adds output.old output.new (byte ∷ []) }
{
    output.text(char::from(byte).encode_utf8(&mut [0; 4]));
}

/// Adds a character of ASCII, as a name in a line of TAP has it.
fn put_tap_byte(byte: u8, output: &mut Output)
    requires { byte < 0x80 }
    ensures { Adds output.old output.new (tap_byte byte) }
{
    if byte == b'#' {
        output.text("\\#");
    } else if byte == b'\\' {
        output.text("\\\\");
    } else {
        put_character(byte, output);
    }
}

/// Adds a character of ASCII that is no control, as a string of JSON holds it.
fn put_escape(byte: u8, output: &mut Output)
    requires { (0x20 ≤ byte) × (byte < 0x7F) }
    ensures { Adds output.old output.new (escape (byte ∷ [])) }
{
    json_lines::put_character(char::from(byte), output);
}
