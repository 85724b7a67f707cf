//! What a reply's code means, in a user's words (profile).
ghost use Rattle.std.specs.Prelude.{◌≡◌, IsTrue};
ghost use Rattle.uecp_json.specs.Meanings.{meaning_of};
ghost use Rattle.json_lines.specs.Texts.{is_plain};

use uecp_elements::Code;

/// What a reply's code says of its message, in a user's words. Source: profile.
///
/// ```
/// meaning(Code::BufferFull); // the buffer is full
/// ```
pub fn meaning(code: Code) -> &'static str
    ensures value { result.now ≡ meaning_of code }
    ensures plain { IsTrue (is_plain result.now) }
{
    match code {
        Code::Applied => "applied",
        Code::UnknownElement => "unknown element",
        Code::DataSet => "no such data set, or a selection of several",
        Code::Service => "no such programme service",
        Code::OutOfRange => "a value out of range",
        Code::ElementLength => "wrong length of an element",
        Code::NotHere => "an acknowledgement was sent to the encoder",
        Code::BufferFull => "the buffer is full",
    }
}
