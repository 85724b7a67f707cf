//! What a request's head says that is heeded (profile; RFC 9112, and the HTML standard, `Last-Event-ID`).
ghost use Rattle.std.specs.Prelude.{◌≡◌, length, map, option_map};
ghost use Rattle.std.specs.List.{All};
ghost use Rattle.httparse.specs.Spans.{IsWithin, IsHeaderWithin, span_bytes, header_bytes};
ghost use Rattle.page.specs.Asking.{asked_route, value_at, NamesLast};

use crate::clients::request::{Route, route_of, served};
use crate::events::number_of;
use httparse::spans::{HeaderSpan, RequestSpans};

/// What a request asks for, and the number of the event that it names as its last.
#[derive(Clone, Copy, Debug)]
pub(crate) struct Asked {
    /// What it asks for.
    pub(crate) route: Route,
    /// The event that it names as its last.
    pub(crate) last: Option<u64>,
}

impl Asked {
    /// What the head of a request asks for, which has these fields; with `own_only` nothing of another host.
    pub(crate) fn of(
        input: &[u8],
        head: &RequestSpans,
        fields: &[HeaderSpan],
        own_only: bool,
    ) -> Asked
        requires method { IsWithin (length input.now) head.now.method }
        requires path { IsWithin (length input.now) head.now.path }
        requires fields { All (IsHeaderWithin (length input.now)) fields.now }
        ensures route { result.route ≡ asked_route own_only (span_bytes input.now head.now.method)
            (span_bytes input.now head.now.path) (map (header_bytes input.now) fields.now) }
        ensures last { NamesLast (map (header_bytes input.now) fields.now) result.last }
    {
        let route = route_of(head.method.of(input), head.path.of(input));
        let host = value_of(input, fields, b"host");
        Asked {
            route: served(own_only, host, route),
            last: last_of(input, fields),
        }
    }
}

/// The event that is named as the last.
fn last_of(input: &[u8], fields: &[HeaderSpan]) -> Option<u64>
    requires { All (IsHeaderWithin (length input.now)) fields.now }
    ensures { NamesLast (map (header_bytes input.now) fields.now) result }
{
    match value_of(input, fields, b"last-event-id") {
        Some(text) => number_of(text),
        None => None,
    }
}

/// The value of the first field of this name.
fn value_of<'a>(input: &'a [u8], fields: &[HeaderSpan], name: &[u8]) -> Option<&'a [u8]>
    requires { All (IsHeaderWithin (length input.now)) fields.now }
    ensures { option_map (λ value. value.now) result
        ≡ value_at name.now (map (header_bytes input.now) fields.now) }
{
    for field in fields {
        if field.name.of(input).eq_ignore_ascii_case(name) {
            return Some(field.value.of(input));
        }
    }
    None
}
