//! The program `uecp` as `make quick` runs it: the commands `answer`, `show`, `make` and `line` with their flags, and
//! nothing else. It is small so that it is built within a minute with no proof.
#![tactic(auto)]

mod asked;

use crate::asked::job_of;
use notices::fail;
use std::alloc::Global;
use std::env;
use std::io::{Input, Lock, Read, Write};
use std::process::ExitCode;
use uecp_jobs::run_job;
use uecp_text::{RunFault, write_parts};

fn main(rt: HostRuntime) -> ExitCode {
    let mut reader = rt.stdin().lock();
    let mut writer = rt.stdout().lock();
    let mut errors = rt.stderr().lock();
    let alloc = rt.alloc();
    let status = match env::args(&rt) {
        Ok(words) => match words.collect::<Vec<String>>(alloc) {
            Ok(words) => run_words(
                alloc,
                words.as_slice(),
                &mut reader,
                &mut writer,
                &mut errors,
            ),
            Err(_) => fail(&RunFault::OutOfMemory, &mut errors),
        },
        Err(_) => fail(&RunFault::OutOfMemory, &mut errors),
    };
    ExitCode::from(status)
}

/// Does what the words ask for, the first being the program's name, and answers the exit status.
fn run_words<R: Read, W: Write, E: Write>(
    alloc: Global,
    words: &[String],
    reader: &mut R,
    writer: &mut W,
    errors: &mut E,
) -> u8 {
    let (Some(name), Some(flags)) = (words.get(1), words.get(2..)) else {
        return refuse(errors);
    };
    if name.as_str() == "--version" {
        let _ = write_parts(&[b"uecp 1.0.0 (not proved: built by make quick)\n"], writer);
        return 0;
    }
    match job_of(alloc, name.as_str(), flags) {
        Ok(Some(job)) => run_job(alloc, &job, reader, writer, errors),
        Ok(None) => refuse(errors),
        Err(_) => fail(&RunFault::OutOfMemory, errors),
    }
}

/// Says what the program takes, and answers the exit status.
fn refuse<E: Write>(errors: &mut E) -> u8 {
    let _ = write_parts(
        &[
            b"uecp: answer, show, make or line, with --words, --rbds, --json or --store; this is the quick build, not proved\n",
        ],
        errors,
    );
    2
}
