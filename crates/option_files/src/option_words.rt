//! What a word of a command line says of an option (profile).
ghost use Rattle.std.specs.Prelude.{◌≡◌, option_map, string_bytes, IfOk};
ghost use Rattle.option_files.specs.Words as spec;

use std::alloc::{AllocError, Global};

/// What stands behind these bytes at the front of a word; None where it does not begin with them.
fn behind<'a>(word: &'a str, front: &str) -> Option<&'a str>
    ensures { option_map (λ rest. rest.now) result ≡ spec.behind front.now word.now }
{
    word.strip_prefix(front)
}

/// What a word says of the option of this name: nothing, that it is named with no value, or its value.
pub(crate) fn said<'a>(word: &'a str, name: &str) -> Option<Option<&'a str>>
    ensures { option_map (λ value. option_map (λ text. text.now) value) result ≡ spec.said name.now word.now }
{
    let rest = behind(behind(word, "--")?, name)?;
    if rest.is_empty() {
        return Some(None);
    }
    match behind(rest, "=") {
        Some(value) => Some(Some(value)),
        None => None,
    }
}

/// The word that sets a flag.
pub(crate) fn flag(alloc: Global, name: &str) -> Result<String, AllocError>
    ensures { IfOk result (λ word. string_bytes word ≡ spec.flag name.now) }
{
    let mut word = String::from_str(alloc, "--")?;
    word.push_str(name)?;
    Ok(word)
}
