//! The words of a command line, and the job that they ask for.

use crate::tests::asserting::holds;
use command_line::{Job, Usage, parse};
use output_forms::Form;
use std::alloc::Global;
use std::test::Fail;

/// What these words ask for, the program's name first.
fn asked(alloc: Global, line: &str) -> Result<Result<Job, Usage>, Fail> {
    let mut words = Vec::new(alloc);
    for word in line.split(' ') {
        words.push(String::from_str(alloc, word)?)?;
    }
    Ok(parse(alloc, words.as_slice()))
}

/// A command with the options that it had first is the job with those fields, also where a later one says what it says
/// by itself.
#[test]
fn a_command_in_few_words(rt: HostRuntime) -> Result<(), Fail> {
    let alloc = rt.alloc();
    let job = asked(
        alloc,
        "uecp answer --site 1 --encoder 2 --services 01,0A --store",
    )?;
    holds!(rt; matches!(job, Ok(Job::Answer { site: 1, encoder: 2, sets: 1, store: true, .. })));
    holds!(rt; matches!(asked(alloc, "uecp show")?, Ok(Job::Show)));
    holds!(rt; matches!(asked(alloc, "uecp make")?, Ok(Job::Make)));
    let job = asked(
        alloc,
        "uecp encoder --site 1 --encoder 2 --services 01 --port 4001",
    )?;
    holds!(rt; matches!(job, Ok(Job::Encoder { site: 1, encoder: 2, port: 4001, .. })));
    let job = asked(alloc, "uecp server --site 1 --encoder 2 --port 4001")?;
    holds!(rt; matches!(job, Ok(Job::Server { site: 1, encoder: 2, port: 4001, window: 1, .. })));
    Ok(())
}

/// With a later option it is the job with that command's options.
#[test]
fn a_command_with_a_later_option(rt: HostRuntime) -> Result<(), Fail> {
    let alloc = rt.alloc();
    let job = asked(alloc, "uecp show --json")?;
    holds!(rt; matches!(&job, Ok(Job::ShowWith(options)) if matches!(options.form, Form::Json)));
    let job = asked(
        alloc,
        "uecp answer --site 1 --encoder 2 --services 01 --air 4",
    )?;
    holds!(rt; matches!(&job, Ok(Job::AnswerWith(options)) if options.air == Some(4)));
    let job = asked(alloc, "uecp server --site 1 --encoder 2 --port 4001 --join")?;
    holds!(rt; matches!(&job, Ok(Job::ServerWith(options)) if options.join));
    let job = asked(
        alloc,
        "uecp encoder --site 1 --encoder 2 --services 01 --port 4001 --state tx1.db",
    )?;
    holds!(rt; matches!(&job, Ok(Job::EncoderWith(options)) if options.state.is_some()));
    holds!(rt; matches!(asked(alloc, "uecp state tx1.db")?, Ok(Job::State { .. })));
    Ok(())
}

/// Whether these words are none of the program's.
fn is_refused(alloc: Global, line: &str) -> Result<bool, Fail> {
    Ok(matches!(asked(alloc, line)?, Err(Usage::Refused(_))))
}

/// Words that ask for nothing that can be done.
#[test]
fn words_that_are_refused(rt: HostRuntime) -> Result<(), Fail> {
    let alloc = rt.alloc();
    holds!(rt; is_refused(alloc, "uecp")?);
    holds!(rt; is_refused(alloc, "uecp listen")?);
    holds!(rt; is_refused(alloc, "uecp show --site 1")?);
    holds!(rt; is_refused(alloc, "uecp answer --site 1024 --encoder 2 --services 01")?);
    holds!(rt; is_refused(alloc, "uecp line --site 1 --encoder 2 --services 01 --ladder=jpg")?);
    holds!(rt; matches!(asked(alloc, "uecp answer --site 1 --encoder 2 --services 01,")?, Err(Usage::NotAList)));
    Ok(())
}
