//! What a request asks for, and whom it takes the page for (profile; RFC 9110, sections 7.2, 9.1 and 15).
ghost use Rattle.std.specs.Prelude.{◌≡◌, option_map};
ghost use Rattle.std.specs.List.{list_all};
ghost use Rattle.page.specs.Asking.{route_of, page_of, is_digit, is_port, is_host, is_own, served};

/// What a request asks for.
#[derive(Clone, Copy, Debug, PartialEq, Eq)]
pub enum Route {
    /// The page itself.
    Page,
    /// The stream of events.
    Events,
    /// What is shown, as JSON.
    State,
    /// What changed in the last day, as JSON.
    History,
    /// The counts, for monitoring systems.
    Metrics,
    /// Whether it is well, for whoever looks after the process.
    Health,
    /// There is no such page.
    NotFound,
    /// The method is neither GET nor HEAD.
    OtherMethod,
    /// The host is another than the machine's own.
    Foreign,
}

/// What a method and a target ask for, to the letter.
pub fn route_of(method: &[u8], target: &[u8]) -> Route
    ensures { result ≡ route_of method.now target.now }
{
    if method == b"GET".as_slice() || method == b"HEAD".as_slice() {
        page_of(target)
    } else {
        Route::OtherMethod
    }
}

/// Which page a target names.
fn page_of(target: &[u8]) -> Route
    ensures { result ≡ page_of target.now }
{
    if target == b"/".as_slice() {
        Route::Page
    } else if target == b"/events".as_slice() {
        Route::Events
    } else if target == b"/state".as_slice() {
        Route::State
    } else if target == b"/history".as_slice() {
        Route::History
    } else if target == b"/metrics".as_slice() {
        Route::Metrics
    } else if target == b"/healthz".as_slice() {
        Route::Health
    } else {
        Route::NotFound
    }
}

/// Whether a host names the machine that it is asked on: `localhost`, `127.0.0.1` or `[::1]`, with or without a port.
pub fn is_own(host: &[u8]) -> bool
    ensures { result ≡ is_own host.now }
{
    is_host(b"localhost", host) || is_host(b"127.0.0.1", host) || is_host(b"[::1]", host)
}

/// Whether a host is this name, with or without a port.
fn is_host(name: &[u8], host: &[u8]) -> bool
    ensures { result ≡ is_host name.now host.now }
{
    host.starts_with(name) && is_port(&host[name.len()..])
}

/// Whether this may stand behind a name: nothing, or a colon and digits.
fn is_port(text: &[u8]) -> bool
    ensures { result ≡ is_port text.now }
{
    match text.split_first() {
        Some((byte, digits)) => *byte == b':' && are_digits(digits),
        None => true,
    }
}

/// Whether each byte is a digit.
fn are_digits(text: &[u8]) -> bool
    ensures { result ≡ list_all is_digit text.now }
{
    text.iter().all(|byte| *byte >= b'0' && *byte <= b'9')
}

/// What is served: with `own_only` nothing to another host than the machine's own.
pub fn served(own_only: bool, host: Option<&[u8]>, route: Route) -> Route
    ensures { result ≡ served own_only (option_map (λ host. host.now) host.entry) route }
{
    if !own_only {
        return route;
    }
    match host {
        Some(host) => { if is_own(host) { route } else { Route::Foreign } }
        None => Route::Foreign,
    }
}
