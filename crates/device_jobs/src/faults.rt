//! The rules of a bad line out of a file (profile).
ghost use Rattle.std.specs.Prelude.{◌≡◌, ◌≤◌, [], None, IfOk, IfErr};

use bad_line::{Rule, RulesFault, read_rules};
use commands::EncoderOptions;
use itoa::Buffer;
use kept_jobs::fail_state;
use notices::{Notices, NoticesTo, fail};
use std::alloc::Global;
use std::fs::{Files, OpenOptions};
use std::io::Write;
use uecp_text::{RunFault, read_all};

/// Why there are no rules.
#[derive(Debug, Drop)]
pub(crate) enum FaultsFault {
    /// Their file can't be read.
    Unreadable,
    /// The line of this number, counted from 1, is no rule.
    NotARule(usize),
    /// Memory was wanting.
    OutOfMemory,
}

/// The rules of the job's file; none where it has none.
pub(crate) fn rules_of<F: Files>(
    alloc: Global,
    job: &EncoderOptions,
    files: &F,
) -> Result<Vec<Rule>, FaultsFault>
    ensures { job.now.faults ≡ None → IfOk result (λ rules. rules.items ≡ []) × IfErr result (λ _. ⊥) }
{
    match &job.faults {
        None => Ok(Vec::new(alloc)),
        Some(path) => read_file(alloc, path.as_str(), files),
    }
}

/// The rules of the lines of the file at this path.
fn read_file<F: Files>(alloc: Global, path: &str, files: &F) -> Result<Vec<Rule>, FaultsFault> {
    let Ok(mut file) = OpenOptions::new().read(true).open(files, path) else {
        return Err(FaultsFault::Unreadable);
    };
    let all = match read_all(alloc, &mut file) {
        Ok(all) => all,
        Err(RunFault::OutOfMemory) => return Err(FaultsFault::OutOfMemory),
        Err(_) => return Err(FaultsFault::Unreadable),
    };
    match read_rules(alloc, all.as_slice()) {
        Ok(rules) => Ok(rules),
        Err(RulesFault::NotARule(number)) => Err(FaultsFault::NotARule(number)),
        Err(RulesFault::OutOfMemory) => Err(FaultsFault::OutOfMemory),
    }
}

/// Says why there are no rules, and answers the exit status.
pub(crate) fn fail_faults<E: Write>(fault: &FaultsFault, errors: &mut NoticesTo<E>) -> u8
    ensures { (2 ≤ result) × (result ≤ 3) }
{
    match fault {
        FaultsFault::OutOfMemory => fail(&RunFault::OutOfMemory, errors),
        FaultsFault::Unreadable => fail_state("the file of faults can't be read", errors),
        FaultsFault::NotARule(number) => {
            let mut buffer = Buffer::new();
            let line = buffer.format(*number).as_bytes();
            say_no_rule(line, errors);
            2
        }
    }
}

/// Says that the line of this number is no rule.
fn say_no_rule<E: Write>(line: &[u8], errors: &mut NoticesTo<E>) {
    errors.say(&[
        b"uecp: line ",
        line,
        b" of the file of faults: not a rule\n",
    ]);
}
