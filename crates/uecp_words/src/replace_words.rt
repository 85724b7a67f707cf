//! The words by which the server of a line is replaced (profile).
ghost use Rattle.std.specs.Prelude.{◌≡◌, ◌↔◌, IsTrue, codes};
ghost use Rattle.uecp_text.specs.Words.{texts};
ghost use Rattle.uecp_words.specs.ReplaceWords.{replace_words};

/// Whether a line of an event script is `replace server`: it names no event that comes over the line, but that the
/// server died and a new one, which knows nothing, joins. An end that goes on from what it kept is
/// [`EventLine::Restart`](crate::EventLine::Restart).
pub fn is_replacement(words: &[&[u8]]) -> bool
    ensures { IsTrue result ↔ (texts words.now ≡ replace_words) }
{
    match words {
        [name, end] => are_replacement(name, end),
        _ => false,
    }
}

/// Whether the two words are those.
fn are_replacement(name: &[u8], end: &[u8]) -> bool
    ensures { IsTrue result ↔ ((name.now ≡ codes "replace") × (end.now ≡ codes "server")) }
{
    name == b"replace".as_slice() && end == b"server".as_slice()
}
