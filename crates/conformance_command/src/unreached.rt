//! What is said where a connection could not be made (profile).
ghost use Rattle.std.specs.Prelude.{◌≡◌, ◌++◌, None, codes};
ghost use Rattle.conformance_command.specs.Dialling.{dial_words, SaysUnreached};
ghost use Rattle.notices.specs.Told.{Says};

use itoa::Buffer;
use notices::{Notices, NoticesTo};
use std::io::Write;
use uecp_net::DialFault;

/// Says why no connection to this host and port could be made, in a line of its own; nothing where none was refused. A
/// line that can't be written changes nothing.
pub fn say_unreached<E: Write>(
    host: &str,
    port: u16,
    failed: Option<DialFault>,
    errors: &mut NoticesTo<E>,
)
    ensures said { SaysUnreached host.now port failed errors.old errors.new }
    ensures unsaid { failed ≡ None → errors.new ≡ errors.old }
{
    let Some(fault) = failed else {
        return;
    };
    let mut buffer = Buffer::new();
    let port = buffer.format(port).as_bytes();
    write_line(host.as_bytes(), port, words_of(fault).as_bytes(), errors);
}

/// Says the line of a host and a port, in digits, with these words.
fn write_line<'a, E: Write>(
    host: &'a [u8],
    port: &'a [u8],
    words: &'a [u8],
    errors: &mut NoticesTo<E>,
)
    ensures { Says errors.old errors.new
        (codes "uecp: " ++ (host.now ++ (codes " port " ++ (port.now ++ (codes ": " ++ (words.now ++ codes "\n")))))) }
{
    errors.say(&[b"uecp: ", host, b" port ", port, b": ", words, b"\n"]);
}

/// What is said of a fault.
fn words_of(fault: DialFault) -> &'static str
    ensures { result.now ≡ dial_words fault }
{
    match fault {
        DialFault::NoSuchHost => "no such host",
        DialFault::Refused => "refused",
        DialFault::TimedOut => "timed out",
        DialFault::Unreachable => "unreachable",
        DialFault::Failed => "failed",
    }
}
