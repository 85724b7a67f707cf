//! A host, as a person writes it (profile; RFC 3986, section 3.2.2).
ghost use Rattle.commands.specs.Host.{NamesHost};

/// The host that a text names: an address of version 6 may stand in brackets, as in `[::1]`, which are no part of it.
pub fn host_named(text: &str) -> &str
    ensures { NamesHost text.now result.now }
{
    match text.strip_prefix('[') {
        Some(inside) => match inside.strip_suffix(']') {
            Some(address) => address,
            None => text,
        },
        None => text,
    }
}
