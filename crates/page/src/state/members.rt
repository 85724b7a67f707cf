//! What a member of an object of JSON says (profile).
ghost use Rattle.std.specs.Prelude.{◌≡◌, IfOk, option_map, string_bytes};
ghost use Rattle.serde_json.specs.View.{view};
ghost use Rattle.page.specs.Members.{text_at, flag_at, number_at, number_or_0, says, is_ours, name_of};

use serde_json::Value;
use std::alloc::{AllocError, Global};

/// A copy of the text that a member is.
pub(crate) fn text_at(alloc: Global, value: &Value, key: &str) -> Result<Option<String>, AllocError>
    ensures { IfOk result (λ text. option_map string_bytes text ≡ text_at key.now (view value.now)) }
{
    match value.get(key).and_then(Value::as_str) {
        Some(text) => Ok(Some(String::from_str(alloc, text)?)),
        None => Ok(None),
    }
}

/// The truth value that a member is.
pub(crate) fn flag_at(value: &Value, key: &str) -> Option<bool>
    ensures { result ≡ flag_at key.now (view value.now) }
{
    value.get(key).and_then(Value::as_bool)
}

/// The whole number that a member is.
pub(crate) fn number_at(value: &Value, key: &str) -> Option<u64>
    ensures { result ≡ number_at key.now (view value.now) }
{
    value.get(key).and_then(Value::as_u64)
}

/// The same, or 0.
pub(crate) fn number_or_0(value: &Value, key: &str) -> u64
    ensures { result ≡ number_or_0 key.now (view value.now) }
{
    number_at(value, key).unwrap_or(0)
}

/// Whether a member is this text.
pub(crate) fn says(value: &Value, key: &str, word: &str) -> bool
    ensures { result ≡ says key.now word.now (view value.now) }
{
    match value.get(key).and_then(Value::as_str) {
        Some(text) => text == word,
        None => false,
    }
}

/// Whether a value is an object of ours: its format is 1, and it has a kind.
pub(crate) fn is_ours(value: &Value) -> bool
    ensures { result ≡ is_ours (view value.now) }
{
    number_at(value, "format") == Some(1) && value.get("kind").and_then(Value::as_str).is_some()
}

/// The name of the control line that an object is of; empty where it names none.
pub(crate) fn name_of(value: &Value) -> &str
    ensures { result.now ≡ name_of (view value.now) }
{
    value.get("line").and_then(Value::as_str).unwrap_or("")
}
