//! The program `uecp`: both ends of a UECP control line at the command prompt.
//!
//! It reads pieces or scripts from standard input and writes what an encoder answers, what a stream of bytes holds, the
//! frames of a script, or what came of the events of a line; or it is one of the two ends over TCP. It has no rules of
//! its own: each line of output is what one call of the crates below answered. It does not open a serial port.
//!
//! `parse` reads the command line into a `Job`; `run_words` reads it and does the job, each command by the call of its
//! crate, and answers the exit status, which is 0 to 3 whatever the input is. `main` gives it the machine's words,
//! streams, files and network.
#![tactic(auto)]

mod program;

use crate::program::{Hands, run_words};
use clap::error;
use command_line::{Usage, line_name, program, refuse, settle};
use device_edges::{Descriptor, LineName, LinesOut, Outlet, Patience, Voice};
use itoa::Buffer;
use notices::{Notices, NoticesTo};
use sqlite_image::{MachineFiles, Wary};
use state_jobs::{OpenStates, StatesInFiles};
use std::alloc::Global;
use std::cell::RefCell;
use std::env;
use std::io::{ErrorKind, Input, Lock, Read, Write};
use std::process::ExitCode;

/// The descriptor of standard input.
const STANDARD_INPUT: i32 = 0;

/// The descriptor of standard output.
const STANDARD_OUTPUT: i32 = 1;

/// The descriptor of standard error.
const STANDARD_ERROR: i32 = 2;

fn main(rt: HostRuntime) -> ExitCode {
    let alloc = rt.alloc();
    let patience = Patience::endless();
    let output = RefCell::new(Outlet::new(
        alloc,
        rt.stdout().lock(),
        Descriptor::new(STANDARD_OUTPUT),
    ));
    let beside = RefCell::new(Outlet::new(
        alloc,
        rt.stderr().lock(),
        Descriptor::new(STANDARD_ERROR),
    ));
    let mut losses = LinesOut::new(alloc, &beside, &patience, Voice::Notices, None);
    let mut notices = LinesOut::new(alloc, &beside, &patience, Voice::Notices, None);
    let reasons = LinesOut::new(alloc, &beside, &patience, Voice::Reasons, None);
    let mut errors = NoticesTo::new(reasons);
    let mut nameless = LinesOut::new(alloc, &output, &patience, Voice::Log, None);
    let status = match asked(&rt, &mut nameless, &mut errors) {
        Ok((words, name)) => {
            let name = name.as_ref();
            let mut writer = LinesOut::new(alloc, &output, &patience, Voice::Log, name);
            let mut effects = LinesOut::new(alloc, &output, &patience, Voice::Log, name);
            let mut objects = LinesOut::new(alloc, &output, &patience, Voice::Log, name);
            let mut refusals = LinesOut::new(alloc, &output, &patience, Voice::Log, name);
            let hands = Hands {
                input: STANDARD_INPUT,
                losses: &mut losses,
                notices: &mut notices,
                effects: &mut effects,
                objects: &mut objects,
                refusals: &mut refusals,
                patience: &patience,
            };
            let status = run(&rt, words.as_slice(), &mut writer, &mut errors, hands);
            say_untold(writer.close(), &mut errors);
            status
        }
        Err(status) => status,
    };
    let _untold = errors.into_inner().close();
    ExitCode::from(status)
}

/// The words of the command line, with the options of the file that they name, and the name of their line, if they give
/// one; or the exit status where there are none, which was said, or where that file was looked at alone.
fn asked<W: Write, E: Write>(
    rt: &HostRuntime,
    writer: &mut W,
    errors: &mut NoticesTo<E>,
) -> Result<(Vec<String>, Option<LineName>), u8> {
    let words = settled_words(rt, writer, errors)?;
    match name_of(rt.alloc(), words.as_slice()) {
        Ok(name) => Ok((words, name)),
        Err(usage) => Err(refuse(&usage, writer, errors)),
    }
}

/// The name that these words give to their line, if they do.
fn name_of(alloc: Global, words: &[String]) -> Result<Option<LineName>, Usage> {
    match line_name(alloc, words)? {
        Some(name) => Ok(Some(LineName::new(alloc, name)?)),
        None => Ok(None),
    }
}

/// Does what these words ask for, with the hands that the machine gives, and answers the exit status.
fn run<W: Write, E: Write, M: Write, F: Write>(
    rt: &HostRuntime,
    words: &[String],
    writer: &mut W,
    errors: &mut NoticesTo<E>,
    hands: Hands<'_, M, F>,
) -> u8 {
    let states = StatesInFiles::new(MachineFiles::new(rt, Wary));
    let mut reader = rt.stdin().lock();
    run_asked(rt, words, &mut reader, writer, errors, hands, &states)
}

/// Does what these words ask for, with its states in whatever opens them.
fn run_asked<R: Read, W: Write, E: Write, M: Write, F: Write, S: OpenStates>(
    rt: &HostRuntime,
    words: &[String],
    reader: &mut R,
    writer: &mut W,
    errors: &mut NoticesTo<E>,
    hands: Hands<'_, M, F>,
    states: &S,
) -> u8 {
    run_words(rt.alloc(), words, reader, writer, errors, hands, rt, states)
}

/// Says how many lines of standard output were not told in the end, if any.
fn say_untold<E: Write>(count: u64, errors: &mut NoticesTo<E>) {
    if count > 0 {
        errors.say(&[
            b"uecp: ",
            Buffer::new().format(count).as_bytes(),
            b" lines of the output were not told\n",
        ]);
    }
}

/// The words of the command line, with the options of the file that they name; or the exit status where they are none,
/// or where that file was looked at alone.
fn settled_words<W: Write, E: Write>(
    rt: &HostRuntime,
    writer: &mut W,
    errors: &mut NoticesTo<E>,
) -> Result<Vec<String>, u8> {
    match words_of(rt) {
        Ok(words) => settle(rt.alloc(), words, rt, writer, errors),
        Err(usage) => Err(refuse(&usage, writer, errors)),
    }
}

/// The words of the command line as the machine gives them.
fn words_of(rt: &HostRuntime) -> Result<Vec<String>, Usage> {
    let alloc = rt.alloc();
    match env::args(rt) {
        Ok(words) => Ok(words.collect::<Vec<String>>(alloc)?),
        Err(error) if error.kind() == ErrorKind::OutOfMemory => Err(Usage::OutOfMemory),
        Err(_) => {
            let text = "a word of the command line is not UTF-8";
            Err(Usage::Refused(program(alloc)?.error(error::ErrorKind::InvalidValue, text)?))
        }
    }
}
