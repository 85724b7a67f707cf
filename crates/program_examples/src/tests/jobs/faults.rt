//! What is said of each fault, by the function that says it, is the fault's text.
use crate::tests::asserting::{holds, same};
use faulty_io::FaultyWriter;
use kept_jobs::fail_state;
use option_files::{EntriesFault, entries_of};
use rds_store::StoreFault;
use sqlite_image::{KeepFault, PathFault};
use state_files::StateFault;
use state_jobs::state_text;
use std::alloc::Global;
use std::fmt::Display;
use std::process::Abort;
use std::test::Fail;
use uecp_net::DialFault;
use uecp_text::{RunFault, TextFault, Unsaid, report};

/// This was said: `uecp: `, the text of the fault, and the end of the line.
fn was_said(
    rt: &impl Abort,
    alloc: Global,
    fault: &impl Display,
    errors: &FaultyWriter<'_>,
) -> Result<(), Fail> {
    let line = format!(in alloc; "uecp: {fault}\n")?;
    same!(rt; errors.taken(), line.as_bytes());
    Ok(())
}

/// The text of the fault is this.
fn reads(rt: &impl Abort, alloc: Global, fault: &impl Display, text: &str) -> Result<(), Fail> {
    let shown = format!(in alloc; "{fault}")?;
    same!(rt; shown.as_str(), text);
    Ok(())
}

/// `report` says the text of the fault.
fn is_reported(rt: &impl Abort, alloc: Global, fault: &RunFault) -> Result<(), Fail> {
    let mut errors = FaultyWriter::new();
    holds!(rt; report(fault, &mut errors).is_ok());
    was_said(rt, alloc, fault, &errors)
}

/// Which fault of a run it is, counted from 0. A variant that is added has to be given a number here, and has to stand
/// among the faults below.
fn number_of(fault: &RunFault) -> usize {
    match fault {
        RunFault::Text(_, _) => 0,
        RunFault::Services(_) => 1,
        RunFault::NotAList => 2,
        RunFault::Address => 3,
        RunFault::TooLong => 4,
        RunFault::Reading => 5,
        RunFault::Writing => 6,
        RunFault::OutOfMemory => 7,
        RunFault::Listening => 8,
        RunFault::Connection => 9,
        RunFault::Outstanding => 10,
    }
}

#[test]
fn report_says_the_text_of_each_fault_of_a_run(rt: HostRuntime) -> Result<(), Fail> {
    let faults = [
        RunFault::Text(7, TextFault::NotHex),
        RunFault::Services(StoreFault::SetCount),
        RunFault::NotAList,
        RunFault::Address,
        RunFault::TooLong,
        RunFault::Reading,
        RunFault::Writing,
        RunFault::OutOfMemory,
        RunFault::Listening,
        RunFault::Connection,
    ];
    for (place, fault) in faults.iter().enumerate() {
        same!(rt; number_of(fault), place);
        is_reported(&rt, rt.alloc(), fault)?;
    }
    let mut errors = FaultyWriter::new();
    holds!(rt; report(&RunFault::Outstanding, &mut errors).is_ok());
    holds!(rt; errors.taken().is_empty());
    let text = "messages are outstanding";
    reads(&rt, rt.alloc(), &RunFault::Outstanding, text)
}

/// A line of phrases that says nothing at its fourth column.
fn unsaid(character: Option<char>, what: &'static str, nearest: Option<&'static str>) -> TextFault {
    TextFault::Unsaid(Unsaid {
        column: 4,
        character,
        what,
        nearest,
    })
}

/// Which fault of a line it is.
fn line_number_of(fault: &TextFault) -> usize {
    match fault {
        TextFault::NotHex => 0,
        TextFault::NotACommand => 1,
        TextFault::NoFrame => 2,
        TextFault::MessageTooLong => 3,
        TextFault::OutOfMemory => 4,
        TextFault::Unsaid(_) => 5,
    }
}

#[test]
fn report_says_the_text_of_each_fault_of_a_line(rt: HostRuntime) -> Result<(), Fail> {
    let faults = [
        (TextFault::NotHex, "not hex"),
        (TextFault::NotACommand, "not a command"),
        (TextFault::NoFrame, "no frame"),
        (TextFault::MessageTooLong, "message too long"),
        (TextFault::OutOfMemory, "out of memory"),
        (unsaid(None, "a word", None), "expected a word"),
    ];
    for (place, (fault, text)) in faults.iter().enumerate() {
        same!(rt; line_number_of(fault), place);
        reads(&rt, rt.alloc(), fault, text)?;
        is_reported(&rt, rt.alloc(), &RunFault::Text(7, *fault))?;
    }
    let nearest = unsaid(None, "a word", Some("pi"));
    is_reported(&rt, rt.alloc(), &RunFault::Text(7, nearest))?;
    let outside = unsaid(Some('\u{e9}'), "is not in the set", None);
    is_reported(&rt, rt.alloc(), &RunFault::Text(7, outside))?;
    let both = RunFault::Text(12, unsaid(Some('x'), "begins nothing", Some("pi")));
    is_reported(&rt, rt.alloc(), &both)?;
    let text = "line 12, column 4: 'x' begins nothing; did you mean pi?";
    reads(&rt, rt.alloc(), &both, text)
}

/// Which fault of a store it is.
fn store_number_of(fault: &StoreFault) -> usize {
    match fault {
        StoreFault::SetCount => 0,
        StoreFault::ServiceCount => 1,
        StoreFault::ServiceZero => 2,
        StoreFault::ServiceTwice => 3,
        StoreFault::OutOfMemory => 4,
    }
}

#[test]
fn report_says_the_name_of_each_fault_of_a_store(rt: HostRuntime) -> Result<(), Fail> {
    let faults = [
        StoreFault::SetCount,
        StoreFault::ServiceCount,
        StoreFault::ServiceZero,
        StoreFault::ServiceTwice,
        StoreFault::OutOfMemory,
    ];
    for (place, fault) in faults.iter().enumerate() {
        same!(rt; store_number_of(fault), place);
        reads(&rt, rt.alloc(), fault, fault.name())?;
        is_reported(&rt, rt.alloc(), &RunFault::Services(*fault))?;
    }
    Ok(())
}

/// Which fault of a state it is.
fn state_number_of(fault: &StateFault) -> usize {
    match fault {
        StateFault::InUse => 0,
        StateFault::NotOurs => 1,
        StateFault::Newer(_) => 2,
        StateFault::Older(_) => 3,
        StateFault::OtherEnd => 4,
        StateFault::Damaged => 5,
        StateFault::OtherAddress => 6,
        StateFault::OtherSets => 7,
        StateFault::OtherServices => 8,
        StateFault::Store(_) => 9,
        StateFault::Unreachable(_) => 10,
        StateFault::Full => 11,
        StateFault::OutOfMemory => 12,
        StateFault::Replaced => 13,
        StateFault::Failed => 14,
    }
}

#[test]
fn what_is_said_of_a_state_is_the_text_of_its_fault(rt: HostRuntime) -> Result<(), Fail> {
    let faults = [
        StateFault::InUse,
        StateFault::NotOurs,
        StateFault::Newer(2),
        StateFault::Older(1),
        StateFault::OtherEnd,
        StateFault::Damaged,
        StateFault::OtherAddress,
        StateFault::OtherSets,
        StateFault::OtherServices,
        StateFault::Store(StoreFault::ServiceTwice),
        StateFault::Unreachable(PathFault::Folder),
        StateFault::Full,
        StateFault::OutOfMemory,
        StateFault::Replaced,
        StateFault::Failed,
    ];
    for (place, fault) in faults.iter().enumerate() {
        same!(rt; state_number_of(fault), place);
        let mut errors = FaultyWriter::new();
        same!(rt; fail_state(state_text(*fault), &mut errors), 3);
        was_said(&rt, rt.alloc(), fault, &errors)?;
    }
    Ok(())
}

/// The fault of a state that this one of its file is told as.
fn told_as(fault: &KeepFault) -> StateFault {
    match fault {
        KeepFault::InUse => StateFault::InUse,
        KeepFault::NotOurs => StateFault::NotOurs,
        KeepFault::Newer(version) => StateFault::Newer(*version),
        KeepFault::Older(version) => StateFault::Older(*version),
        KeepFault::Damaged => StateFault::Damaged,
        KeepFault::Unreachable(why) => StateFault::Unreachable(*why),
        KeepFault::Full => StateFault::Full,
        KeepFault::OutOfMemory => StateFault::OutOfMemory,
        KeepFault::Failed => StateFault::Failed,
    }
}

#[test]
fn the_text_of_a_file_s_fault_is_that_of_the_state_s(rt: HostRuntime) -> Result<(), Fail> {
    let faults = [
        KeepFault::InUse,
        KeepFault::NotOurs,
        KeepFault::Newer(2),
        KeepFault::Older(1),
        KeepFault::Damaged,
        KeepFault::Unreachable(PathFault::Folder),
        KeepFault::Full,
        KeepFault::OutOfMemory,
        KeepFault::Failed,
    ];
    for fault in &faults {
        reads(&rt, rt.alloc(), fault, state_text(told_as(fault)))?;
    }
    Ok(())
}

/// What is said of why no connection could be made.
fn said_of(fault: &DialFault) -> &'static str {
    match fault {
        DialFault::NoSuchHost => "no such host",
        DialFault::Refused => "refused",
        DialFault::TimedOut => "timed out",
        DialFault::Unreachable => "unreachable",
        DialFault::Failed => "failed",
    }
}

#[test]
fn the_text_of_a_connection_s_fault_is_what_is_said(rt: HostRuntime) -> Result<(), Fail> {
    let faults = [
        DialFault::NoSuchHost,
        DialFault::Refused,
        DialFault::TimedOut,
        DialFault::Unreachable,
        DialFault::Failed,
    ];
    for fault in &faults {
        reads(&rt, rt.alloc(), fault, said_of(fault))?;
    }
    Ok(())
}

/// Which fault of a file of options it is.
fn entries_number_of(fault: &EntriesFault) -> usize {
    match fault {
        EntriesFault::NotToml(_) => 0,
        EntriesFault::NotAName(_) => 1,
        EntriesFault::NotAValue(_) => 2,
        EntriesFault::OutOfMemory => 3,
    }
}

#[test]
fn the_text_of_a_file_of_options_is_what_is_said(rt: HostRuntime) -> Result<(), Fail> {
    let name = "\"A\" is no option that a file may give";
    let value = "sets takes a string, an integer, true or false";
    let rows = [
        ("sets = 1\nsets = 2\n", 0, "duplicate key"),
        ("A = 1\n", 1, name),
        ("sets = 1.5\n", 2, value),
    ];
    for (file, number, text) in &rows {
        match entries_of(rt.alloc(), file) {
            Ok(_) => holds!(rt; false, file),
            Err(fault) => {
                same!(rt; entries_number_of(&fault), *number);
                reads(&rt, rt.alloc(), &fault, text)?;
            }
        }
    }
    reads(&rt, rt.alloc(), &EntriesFault::OutOfMemory, "out of memory")
}
