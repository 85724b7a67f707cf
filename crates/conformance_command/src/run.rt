//! The chosen cases, one after another (profile).
ghost use Rattle.std.specs.Prelude.{◌≡◌, ◌≢◌, ◌⊎◌, ℕ, ◌+◌, ◌<◌, ◌≤◌, ◌^◌, List, [], length, Option, IfOk, IfErr};
ghost use Rattle.std.specs.Prelude.{IsTrue};
ghost use Rattle.std.specs.Option.{option_map};
ghost use Rattle.uecp_frame.specs.Address.{is_exact};
ghost use Rattle.uecp_text.specs.declared.run_fault.RunFault.{RunFault as Fault};
ghost use Rattle.uecp_text.specs.Faults.{error_lines, status_of as fault_status};
ghost use Rattle.conformance_command.specs.declared.went.Went.{Went as HowItWent};
ghost use Rattle.conformance_command.specs.Choosing.{chosen, tally_of, tally_from, status_of};
ghost use Rattle.conformance_command.specs.Conformance.{IsInRange, way_of, only_of, Standing};
ghost use Rattle.conformance_command.specs.Conformance.{RunsAndTells, RunsCases, StopsAt, StopsAmong, RunsAll};
ghost use Rattle.conformance_command.specs.Conformance.{BreaksOff};
ghost use Rattle.conformance_command.specs.Conformance.{IsUnknown, unknown_line};
ghost use Rattle.notices.specs.Told.{Says};

use crate::case_run::{NotRun, run_case};
use crate::choice::{count_chosen, is_chosen};
use crate::job::{only_of, way_of};
use crate::report::{tell_bail, tell_case, tell_first, tell_last};
use crate::tally::Tally;
use crate::way::Way;
use crate::went::Went;
use commands::ConformanceOptions;
use conformance::Case;
use notices::{Notices, NoticesTo, fail};
use std::alloc::Global;
use std::io::Write;
use uecp_net::Connections;
use uecp_text::RunFault;

/// Which cases are run, and how.
#[derive(Drop)]
struct Manner<'a> {
    /// The name of a case or of a group, which alone is run.
    only: Option<&'a [u8]>,
    /// How they are run and told.
    way: Way,
}

/// Runs the chosen ones of these cases, one after another, each over a connection of its own, and answers the exit
/// status: 0 where all that count are kept, 1 where one is not, 2 where no case and no group has the name that is
/// given, 3 where there was no connection to be had, or nothing came of a case, or memory or writing failed. The lines
/// of a case are written out before the next one begins.
///
/// A read of a connection is to fail where nothing came for the job's quiet time. Joining is given up after the timeout
/// in which nothing came, and so is a reply that is missing, where what came is judged. Where not a byte came in the
/// seconds that the job says, the run ends behind that case.
pub fn run_conformance<C: Connections, W: Write, E: Write>(
    alloc: Global,
    job: &ConformanceOptions,
    cases: &[Case<'_>],
    connect: &mut C,
    writer: &mut W,
    errors: &mut NoticesTo<E>,
) -> u8
    requires { IsInRange job.now }
    ensures status { result ≤ 3 }
    // 0 or 1: all chosen cases were run and told, and this is what they come to. Nothing was said on `errors`.
    ensures done { (result ≡ 0) ⊎ (result ≡ 1) → ((wents : List HowItWent)
        × RunsAll C.opens C.closes C.Input.remaining C.Output.contents (way_of job.now)
        (chosen (only_of job.now) cases.now) wents (record {
          connect = connect.old;
          held = W.contents writer.old;
        }) (record {
          connect = connect.new;
          held = W.contents writer.new;
        })
        × (result ≡ status_of (tally_of (chosen (only_of job.now) cases.now) wents)))
        × (IsUnknown (only_of job.now) cases.now → ⊥) × (errors.new ≡ errors.old) }
    // 2: no case and no group has the name. Nothing was opened or written.
    ensures unknown { result ≡ 2 → IsUnknown (only_of job.now) cases.now × (connect.new ≡ connect.old)
        × (writer.new ≡ writer.old) × Says errors.old errors.new unknown_line }
    // 3: it broke off for this, which was said.
    ensures failed { result ≡ 3 → (fault : Fault)
        × BreaksOff C.opens C.closes C.Input.remaining C.Output.contents (way_of job.now)
        (chosen (only_of job.now) cases.now) fault (record {
          connect = connect.old;
          held = W.contents writer.old;
        }) (record {
          connect = connect.new;
          held = W.contents writer.new;
        })
        × Says errors.old errors.new (error_lines fault) }
{
    let only = only_of(job);
    let count = count_chosen(only, cases);
    if count == 0 && only.is_some() {
        return refuse_name(errors);
    }
    let manner = Manner {
        only,
        way: way_of(job),
    };
    match run_all(alloc, &manner, count, cases, connect, writer) {
        Ok(tally) => tally.status(),
        Err(fault) => fail(&fault, errors),
    }
}

/// Says that no case and no group has the name that is given, and answers the status of that.
fn refuse_name<E: Write>(errors: &mut NoticesTo<E>) -> u8
    ensures status { result ≡ 2 }
    ensures said { Says errors.old errors.new unknown_line }
{
    errors.say(&[b"uecp: only: no case and no group has this name\n"]);
    2
}

/// Runs the chosen cases, of which there are so many, and tells of them.
fn run_all<C: Connections, W: Write>(
    alloc: Global,
    manner: &Manner<'_>,
    count: usize,
    cases: &[Case<'_>],
    connect: &mut C,
    writer: &mut W,
) -> Result<Tally, RunFault>
    requires exact { IsTrue (is_exact manner.now.way.own) }
    requires some { 0 < manner.now.way.patience }
    requires count { count ≡ length (chosen (option_map (λ name. name.now) manner.now.only) cases.now) }
    ensures all { IfOk result (λ tally. (wents : List HowItWent)
        × RunsAll C.opens C.closes C.Input.remaining C.Output.contents manner.now.way
        (chosen (option_map (λ name. name.now) manner.now.only) cases.now) wents (record {
          connect = connect.old;
          held = W.contents writer.old;
        }) (record {
          connect = connect.new;
          held = W.contents writer.new;
        })
        × (tally ≡ tally_of (chosen (option_map (λ name. name.now) manner.now.only) cases.now) wents)) }
    ensures some { IfErr result (λ fault. (fault_status fault ≡ 3)
        × BreaksOff C.opens C.closes C.Input.remaining C.Output.contents manner.now.way
        (chosen (option_map (λ name. name.now) manner.now.only) cases.now) fault (record {
          connect = connect.old;
          held = W.contents writer.old;
        }) (record {
          connect = connect.new;
          held = W.contents writer.new;
        })) }
{
    match tell_first(alloc, manner.way.json, count, writer) {
        Err(fault) => Err(fault),
        Ok(()) => {
            let mut tally = Tally::none();
            match run_cases(alloc, manner, 1, cases, connect, writer, &mut tally) {
                Err(fault) => Err(fault),
                Ok(()) => match tell_last(alloc, manner.way.json, count, tally, writer) {
                    Err(fault) => Err(fault),
                    Ok(()) => Ok(tally),
                },
            }
        }
    }
}

/// Runs the chosen ones of these cases, of which the first has this number, tells of each, and counts them.
fn run_cases<C: Connections, W: Write>(
    alloc: Global,
    manner: &Manner<'_>,
    number: usize,
    cases: &[Case<'_>],
    connect: &mut C,
    writer: &mut W,
    tally: &mut Tally,
) -> Result<(), RunFault>
    requires exact { IsTrue (is_exact manner.now.way.own) }
    requires some { 0 < manner.now.way.patience }
    requires numbers { number + length cases.now < 2 ^ 64 }
    requires counts { tally.old.kept + tally.old.not_kept + tally.old.profile_not_kept + length cases.now < 2 ^ 64 }
    ensures all { IfOk result (λ _. (wents : List HowItWent)
        × RunsCases C.opens C.closes C.Input.remaining C.Output.contents manner.now.way number
        (chosen (option_map (λ name. name.now) manner.now.only) cases.now) wents (record {
          connect = connect.old;
          held = W.contents writer.old;
        }) (record {
          connect = connect.new;
          held = W.contents writer.new;
        })
        × (tally.new ≡ tally_from tally.old (chosen (option_map (λ name. name.now) manner.now.only) cases.now) wents)) }
    ensures few { IfOk result (λ _. tally.new.kept + tally.new.not_kept + tally.new.profile_not_kept
        ≤ tally.old.kept + tally.old.not_kept + tally.old.profile_not_kept + length cases.now) }
    ensures some { IfErr result (λ fault. (fault_status fault ≡ 3)
        × StopsAmong C.opens C.closes C.Input.remaining C.Output.contents manner.now.way number
        (chosen (option_map (λ name. name.now) manner.now.only) cases.now) fault (record {
          connect = connect.old;
          held = W.contents writer.old;
        }) (record {
          connect = connect.new;
          held = W.contents writer.new;
        })) }
{
    let Some((case, rest)) = cases.split_first() else {
        return Ok(());
    };
    if !is_chosen(manner.only, case) {
        return run_cases(alloc, manner, number, rest, connect, writer, tally);
    }
    match run_and_tell(alloc, manner, number, case, connect, writer) {
        Err(fault) => Err(fault),
        Ok(went) => {
            tally.count(case.profile, went);
            run_cases(alloc, manner, number + 1, rest, connect, writer, tally)
        }
    }
}

/// Runs a case and tells of it.
fn run_and_tell<C: Connections, W: Write>(
    alloc: Global,
    manner: &Manner<'_>,
    number: usize,
    case: &Case<'_>,
    connect: &mut C,
    writer: &mut W,
) -> Result<Went, RunFault>
    requires exact { IsTrue (is_exact manner.now.way.own) }
    requires some { 0 < manner.now.way.patience }
    ensures all { IfOk result (λ went. RunsAndTells C.opens C.closes C.Input.remaining C.Output.contents manner.now.way
        number
        case.now went (record {
          connect = connect.old;
          held = W.contents writer.old;
        }) (record {
          connect = connect.new;
          held = W.contents writer.new;
        })) }
    ensures some { IfErr result (λ fault. (fault_status fault ≡ 3)
        × StopsAt C.opens C.closes C.Input.remaining C.Output.contents manner.now.way number
        case.now fault (record {
          connect = connect.old;
          held = W.contents writer.old;
        }) (record {
          connect = connect.new;
          held = W.contents writer.new;
        })) }
{
    match run_case(alloc, connect, &manner.way, case) {
        Ok(outcome) => match outcome.went {
            Went::NotHeard => Err(RunFault::OutOfMemory),
            Went::Silent => match tell_case(alloc, &manner.way, number, case, &outcome, writer) {
                Ok(()) => Err(RunFault::Outstanding),
                Err(fault) => Err(fault),
            },
            went => match tell_case(alloc, &manner.way, number, case, &outcome, writer) {
                Ok(()) => Ok(went),
                Err(fault) => Err(fault),
            },
        },
        Err(NotRun::OutOfMemory) => Err(RunFault::OutOfMemory),
        Err(NotRun::NoLine) => {
            let _ = tell_bail(alloc, manner.way.json, writer);
            Err(RunFault::Connection)
        }
    }
}
