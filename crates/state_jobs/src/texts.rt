//! What is said of a state that can't be had. Source: profile.
ghost use Rattle.std.specs.Prelude.{◌≡◌, IfOk, None, Some, option_map};
ghost use Rattle.state_jobs.specs.Texts.{state_text, why_text, file_line, fault_line, IsClosed};
ghost use Rattle.notices.specs.Told.{Says};

use notices::{Notices, NoticesTo};
use state_files::StateFault;
use std::io::Write;

/// What is said of a state that can't be opened, read, saved or closed, behind `uecp: `.
pub fn state_text(fault: StateFault) -> &'static str
    ensures { result.now ≡ state_text fault }
{
    match fault {
        StateFault::InUse => "state in use",
        StateFault::NotOurs => "state is not ours",
        StateFault::Newer(_) => "state is of a later version",
        StateFault::Older(_) => "state is of an earlier version",
        StateFault::OtherEnd => "state is of the other end",
        StateFault::Damaged => "state damaged",
        StateFault::OtherAddress => "state is of another address",
        StateFault::OtherSets => "state is of another number of data sets",
        StateFault::OtherServices => "state is of other services",
        StateFault::Store(fault) => fault.name(),
        StateFault::Unreachable(_) => "state out of reach",
        StateFault::Full => "no room for the state",
        StateFault::OutOfMemory => "out of memory",
        StateFault::Replaced | StateFault::Failed => "state failed",
    }
}

/// Why that is so, where there is more to say.
fn why_text(fault: StateFault) -> Option<&'static str>
    ensures { option_map (λ why. why.now) result ≡ why_text fault }
{
    match fault {
        StateFault::Unreachable(why) => Some(why.text()),
        StateFault::Replaced => Some("it was removed, moved or replaced"),
        StateFault::Failed => Some("the disk failed"),
        _ => None,
    }
}

/// Says this of the file at the path, and answers the status.
fn tell_file<'a, E: Write>(text: &'a str, path: &'a str, errors: &mut NoticesTo<E>) -> u8
    ensures status { result ≡ 3 }
    ensures said { Says errors.old errors.new (file_line text.now path.now None) }
{
    let parts = [b"uecp: ", text.as_bytes(), b": ", path.as_bytes(), b"\n"];
    errors.say(&parts);
    3
}

/// Says this of the file at the path, and why, and answers the status.
fn tell_why<'a, E: Write>(
    text: &'a str,
    path: &'a str,
    why: &'a str,
    errors: &mut NoticesTo<E>,
) -> u8
    ensures status { result ≡ 3 }
    ensures said { Says errors.old errors.new (file_line text.now path.now (Some why.now)) }
{
    let parts = [
        b"uecp: ",
        text.as_bytes(),
        b": ",
        path.as_bytes(),
        b": ",
        why.as_bytes(),
        b"\n",
    ];
    errors.say(&parts);
    3
}

/// Says why the state in the file at this path can't be had, and answers the status of that, 3. A text that can't be
/// written changes nothing.
///
/// ```
/// let status = fail_file("tx1.db", StateFault::InUse, &mut errors); // uecp: state in use: tx1.db
/// ```
pub fn fail_file<E: Write>(path: &str, fault: StateFault, errors: &mut NoticesTo<E>) -> u8
    ensures status { result ≡ 3 }
    ensures said { Says errors.old errors.new (fault_line path.now fault) }
{
    let text = state_text(fault);
    match why_text(fault) {
        None => tell_file(text, path, errors),
        Some(why) => tell_why(text, path, why, errors),
    }
}

/// The exit status of a run with its state at this path that ended with this status, and whose state was then closed
/// so: where that went well the status stays; else it is 3, and of the file it is said why.
///
/// ```
/// let status = closed_so("tx1.db", status, states.close_encoder(keeper), &mut errors);
/// // uecp: no room for the state: tx1.db
/// ```
pub fn closed_so<E: Write>(
    path: &str,
    status: u8,
    closed: Result<(), StateFault>,
    errors: &mut NoticesTo<E>,
) -> u8
    ensures closed { IsClosed path.now status closed result errors.old errors.new }
    ensures same { IfOk closed (λ _. errors.new ≡ errors.old) }
{
    match closed {
        Ok(()) => status,
        Err(fault) => fail_file(path, fault, errors),
    }
}
