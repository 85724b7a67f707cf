//! Members of the objects of cases (profile).
ghost use Rattle.std.specs.Prelude.{IsTrue};
ghost use Rattle.json.specs.Print.{quoted};
ghost use Rattle.serde_json.specs.Data.{string};
ghost use Rattle.json_lines.specs.Texts.{is_plain, field_text};
ghost use Rattle.uecp_text.specs.Written.{Adds};
ghost use Rattle.conformance_command.specs.Telling.{shown};

use crate::texts::put_escaped;
use json_lines::put_name;
use uecp_text::Output;

/// A member: a text as it is shown.
#[tactic(auto, unfolding(json_lines::specs::Texts::field_text))]
pub(crate) fn text_field(name: &str, text: &[u8], output: &mut Output)
    requires { IsTrue (is_plain name.now) }
    ensures { Adds output.old output.new (field_text name.now (string (shown text.now))) }
{
    put_name(name, output);
    put_string(text, output);
}

/// A string of a text as it is shown.
fn put_string(text: &[u8], output: &mut Output)
    ensures { Adds output.old output.new (quoted (shown text.now)) }
{
    output.text("\"");
    put_escaped(text, output);
    output.text("\"");
}
