//! The names of elements in a frame script (profile).
ghost use Rattle.std.specs.Prelude.{◌≡◌, ◌≢◌, IfSome, IfNone};
ghost use Rattle.uecp_words.specs.declared.element_name.ElementName.{ElementName};
ghost use Rattle.uecp_words.specs.ScriptWords.{name_word};

/// The element that a line begins with.
#[derive(Clone, Copy, Debug)]
pub enum ElementName {
    Pi,
    Ps,
    TaTp,
    Ms,
    Pty,
    Rt,
    Select,
    Group,
    Ack,
}

/// The name that the word is, if any.
pub fn name_of(word: &[u8]) -> Option<ElementName>
    ensures known { IfSome result (λ name. word.now ≡ name_word name) }
    ensures unknown { IfNone result ((name : ElementName) → word.now ≢ name_word name) }
{
    match word {
        b"pi" => Some(ElementName::Pi),
        b"ps" => Some(ElementName::Ps),
        b"tatp" => Some(ElementName::TaTp),
        b"ms" => Some(ElementName::Ms),
        b"pty" => Some(ElementName::Pty),
        b"rt" => Some(ElementName::Rt),
        b"select" => Some(ElementName::Select),
        b"group" => Some(ElementName::Group),
        b"ack" => Some(ElementName::Ack),
        _ => None,
    }
}
