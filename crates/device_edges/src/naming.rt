//! The name of a line in the objects that are told of it (profile).
ghost use Rattle.std.specs.Prelude.{◌≡◌, ◌++◌, OnOk};
ghost use Rattle.device_edges.specs.Naming.{at_end, line_member, named};

use std::alloc::AllocError;

/// Adds lines of objects to a text, each object with one member more as its last: `line`, a string with this name. That
/// has printable characters of ASCII alone, no quote and no backslash among them.
///
/// Errors: where memory is refused a part may have been added.
pub(crate) fn put_named(name: &str, lines: &[u8], text: &mut Vec<u8>) -> Result<(), AllocError>
    ensures { OnOk result (text.new.items ≡ text.old.items ++ named name.now lines.now) }
{
    let mut rest = lines;
    while let Some((first, more)) = rest.split_first() {
        if *first == b'}' && is_at_end(more) {
            put_member(name, text)?;
        }
        text.push(*first)?;
        rest = more;
    }
    Ok(())
}

/// Adds the member `line` to a text.
fn put_member(name: &str, text: &mut Vec<u8>) -> Result<(), AllocError>
    ensures { OnOk result (text.new.items ≡ text.old.items ++ line_member name.now) }
{
    text.extend_from_slice(b",\"line\":\"")?;
    text.extend_from_slice(name.as_bytes())?;
    text.push(b'"')?;
    Ok(())
}

/// Whether a text begins with a line feed.
fn is_at_end(text: &[u8]) -> bool
    ensures { result ≡ at_end text.now }
{
    text.first() == Some(&b'\n')
}
