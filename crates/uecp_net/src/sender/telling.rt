//! The codes that the messages of a batch are told. Source: profile.
ghost use Rattle.std.specs.Prelude.{◌≡◌, ◌≤◌, All, IsSome, length, map, Some};
ghost use Rattle.uecp_link.specs.Server.{waiting, counters_waiting};
ghost use Rattle.uecp_link.specs.Window.{code_under};

use arrayvec::ArrayVec;
use uecp_elements::Code;
use uecp_link::{Server, WINDOW_MAX};

/// The counters of the messages that wait, the oldest first.
pub(super) fn counters_of(server: &Server) -> ArrayVec<u8, WINDOW_MAX>
    ensures counters { result.items ≡ counters_waiting server.now }
    ensures few { length (waiting server.now) ≤ 8 }
{
    let mut counters = ArrayVec::new();
    for place in 0..server.waiting() {
        let Some(counter) = server.counter(place) else {
            unreachable!();
        };
        counters.push(counter);
    }
    counters
}

/// The codes that marks give these counters, in order: each that of the first mark with its counter. Each has one.
pub(super) fn codes_of(
    counters: &ArrayVec<u8, WINDOW_MAX>,
    marks: &ArrayVec<(u8, Code), WINDOW_MAX>,
) -> ArrayVec<Code, WINDOW_MAX>
    requires { All (λ counter. IsSome (code_under counter marks.now.items)) counters.now.items }
    ensures { map Some result.items ≡ map (λ counter. code_under counter marks.now.items) counters.now.items }
{
    let mut codes = ArrayVec::new();
    for counter in counters.as_slice() {
        let Some(code) = first_code(*counter, marks) else {
            unreachable!();
        };
        codes.push(code);
    }
    codes
}

/// The code of the first mark with this counter, if there is one.
fn first_code(counter: u8, marks: &ArrayVec<(u8, Code), WINDOW_MAX>) -> Option<Code>
    ensures { result ≡ code_under counter marks.now.items }
{
    for (marked, code) in marks.as_slice() {
        if *marked == counter {
            return Some(*code);
        }
    }
    None
}
