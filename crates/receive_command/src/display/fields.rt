//! Members of what is shown (profile).
ghost use Rattle.std.specs.Prelude.{codes, IsTrue};
ghost use Rattle.serde_json.specs.Written.{compact_text};
ghost use Rattle.json_lines.specs.Objects.{said_fields, object_of};
ghost use Rattle.json_lines.specs.Texts.{is_plain, field_text};
ghost use Rattle.uecp_text.specs.Written.{Adds};
ghost use Rattle.receive_command.specs.Told.{flag_value};

use json_lines::{characters_field, close, flag_field, null_field, open_digits, put_name};
use uecp_text::Output;

/// A member: a flag, or nothing.
pub(crate) fn put_known(name: &str, flag: Option<bool>, output: &mut Output)
    requires { IsTrue (is_plain name.now) }
    ensures { Adds output.old output.new (field_text name.now (flag_value flag)) }
{
    match flag {
        Some(is_set) => flag_field(name, is_set, output),
        None => null_field(name, output),
    }
}

/// A member: an object of bytes, and what they say.
#[tactic(auto, unfolding(json_lines::specs::Texts::field_text))]
pub(crate) fn put_said(name: &str, bytes: &[u8], output: &mut Output)
    requires { IsTrue (is_plain name.now) }
    ensures { Adds output.old output.new (field_text name.now (object_of (said_fields (codes "bytes") bytes.now))) }
{
    put_name(name, output);
    put_said_object(bytes, output);
}

/// That object.
#[tactic(auto, using(json_lines::proofs::Public::parts))]
fn put_said_object(bytes: &[u8], output: &mut Output)
    ensures { Adds output.old output.new (compact_text (object_of (said_fields (codes "bytes") bytes.now))) }
{
    open_digits("bytes", bytes, output);
    characters_field("text", bytes, output);
    close(output);
}
