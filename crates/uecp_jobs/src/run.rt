//! A job from its input to its exit status (profile).
ghost use Rattle.std.specs.Prelude.{◌≡◌, ◌⊎◌, ◌≤◌, [], Err, IfOk};
ghost use Rattle.uecp_frame.specs.Findings.{Closed};
ghost use Rattle.uecp_text.specs.Run.{RunsWhole};
ghost use Rattle.uecp_text.specs.declared.run_fault.RunFault.{RunFault};
ghost use Rattle.uecp_jobs.specs.Jobs.{IsLocal, IsDescribed, RefusesJob, DoesJob, IsDone, IsRefused, IsUndescribed};
ghost use Rattle.uecp_jobs.specs.Jobs.{HasFailed, RunsScript};
ghost use Rattle.uecp_jobs.specs.Commands.{ShowsIn, AnswersIn};
ghost use Rattle.uecp_jobs.specs.Playing.{PlaysIn, closing_lines};
ghost use Rattle.uecp_jobs.specs.Setups.{options_of, IsSetup, RefusesSetup, encoder_at_first, line_at_first};
ghost use Rattle.output_forms.specs.Forms.{found_lines, answer_lines, store_lines};

use crate::answering::Answering;
use crate::asked::Asked;
use crate::event_script::Playing;
use crate::frame_script::Making;
use crate::phrase_script::MakingWords;
use crate::setup::Setup;
use crate::showing::Showing;
use commands::Job;
use notices::{Notices, fail};
use output_forms::Form;
use rds_text::Region;
use std::alloc::Global;
use std::io::{Read, Write};
use uecp_text::{RunFault, run};

/// Does the job of a command without a connection and answers the exit status: 0 done, 1 a line was refused, 2 the
/// services were refused, 3 memory, reading or writing failed. The output of the lines before a refusal is written all
/// the same. Why a run stopped is said on `errors`, as far as that takes it; nothing is said there of a job that was
/// done.
pub fn run_job<R: Read, W: Write, E: Notices>(
    alloc: Global,
    job: &Job,
    reader: &mut R,
    writer: &mut W,
    errors: &mut E,
) -> u8
    requires { IsLocal job.now }
    ensures status { result ≤ 3 }
    // 0: the options describe an encoder, and what the job writes of the whole input was written. Nothing was said on
    // `errors`.
    ensures done { result ≡ 0 → IsDone job.now (R.remaining reader.old) (R.remaining reader.new) (W.contents writer.old)
        (W.contents writer.new) × (errors.new ≡ errors.old) }
    // 1: a line was refused, what the job writes of the lines before it was written, and the line's number and fault
    // were said.
    ensures refused { result ≡ 1 → IsRefused job.now (R.remaining reader.old) (R.remaining reader.new)
        (W.contents writer.old) (W.contents writer.new) (E.says errors.old errors.new) }
    // 2: the options describe no encoder. Nothing was read or written.
    ensures undescribed { result ≡ 2 → IsUndescribed job.now (E.says errors.old errors.new)
        × (reader.new ≡ reader.old) × (writer.new ≡ writer.old) }
    // 3: memory, reading or writing failed, that was said, and what was written is a beginning of what the job writes
    // of its input.
    ensures failed { result ≡ 3 → HasFailed job.now (R.remaining reader.old) (R.remaining reader.new)
        (W.contents writer.old) (W.contents writer.new) (E.says errors.old errors.new) }
{
    match do_job(alloc, job, reader, writer) {
        Ok(()) => 0,
        Err(fault) => fail(&fault, errors),
    }
}

/// Does the job. The options are judged before anything is read or written.
fn do_job<R: Read, W: Write>(
    alloc: Global,
    job: &Job,
    reader: &mut R,
    writer: &mut W,
) -> Result<(), RunFault>
    requires { IsLocal job.now }
    ensures described { IfOk result (λ _. IsDescribed job.now) }
    ensures does { ((fault : RunFault) × (result ≡ Err fault) × RefusesJob job.now fault × (reader.new ≡ reader.old)
        × (writer.new ≡ writer.old)) ⊎ DoesJob job.now (R.remaining reader.old) (R.remaining reader.new)
        (W.contents writer.old) (W.contents writer.new) result }
{
    match job {
        Job::Show => show(alloc, Form::Lines, reader, writer),
        Job::ShowWith(options) => show(alloc, options.form, reader, writer),
        Job::Make => make(alloc, None, reader, writer),
        Job::MakeWith(options) => make(alloc, options.words, reader, writer),
        Job::Answer {
            site,
            encoder,
            sets,
            services,
            store,
        } => {
            let setup = Setup {
                site: *site,
                encoder: *encoder,
                sets: *sets,
                services: services.as_slice(),
            };
            let asked = Asked {
                store: *store,
                form: Form::Lines,
            };
            answer(alloc, &setup, asked, reader, writer)
        }
        Job::AnswerWith(options) => {
            let setup = Setup {
                site: options.site,
                encoder: options.encoder,
                sets: options.sets,
                services: options.services.as_slice(),
            };
            let asked = Asked {
                store: options.store,
                form: options.form,
            };
            answer(alloc, &setup, asked, reader, writer)
        }
        Job::Line {
            site,
            encoder,
            sets,
            services,
            store,
        } => {
            let setup = Setup {
                site: *site,
                encoder: *encoder,
                sets: *sets,
                services: services.as_slice(),
            };
            let asked = Asked {
                store: *store,
                form: Form::Lines,
            };
            play(alloc, &setup, asked, reader, writer)
        }
        Job::LineWith(options) => {
            let setup = Setup {
                site: options.site,
                encoder: options.encoder,
                sets: options.sets,
                services: options.services.as_slice(),
            };
            let asked = Asked {
                store: options.store,
                form: options.form,
            };
            play(alloc, &setup, asked, reader, writer)
        }
        _ => unreachable!(),
    }
}

/// Shows what stands in the input, in this form.
fn show<R: Read, W: Write>(
    alloc: Global,
    form: Form,
    reader: &mut R,
    writer: &mut W,
) -> Result<(), RunFault>
    ensures { RunsWhole (ShowsIn (found_lines form)) Closed (λ part. []) (R.remaining reader.old)
        (R.remaining reader.new) (W.contents writer.old) (W.contents writer.new) result }
{
    run(alloc, reader, &mut Showing::new(alloc, form), writer)
}

/// Makes the frames of a script: of phrases, with the programme types of this region, or of hexadecimal digits.
fn make<R: Read, W: Write>(
    alloc: Global,
    words: Option<Region>,
    reader: &mut R,
    writer: &mut W,
) -> Result<(), RunFault>
    ensures { RunsScript words (R.remaining reader.old) (R.remaining reader.new) (W.contents writer.old)
        (W.contents writer.new) result }
{
    match words {
        Some(region) => run(alloc, reader, &mut MakingWords::new(region), writer),
        None => run(alloc, reader, &mut Making::new(), writer),
    }
}

/// Answers the input as the encoder of these options. They are judged before anything is read or written.
fn answer<R: Read, W: Write>(
    alloc: Global,
    setup: &Setup<'_>,
    asked: Asked,
    reader: &mut R,
    writer: &mut W,
) -> Result<(), RunFault>
    ensures described { IfOk result (λ _. IsSetup (options_of setup.now)) }
    ensures answers { ((fault : RunFault) × (result ≡ Err fault) × RefusesSetup (options_of setup.now) fault
        × (reader.new ≡ reader.old) × (writer.new ≡ writer.old))
        ⊎ RunsWhole (AnswersIn (answer_lines asked.form)) (encoder_at_first (options_of setup.now))
        (λ e. store_lines asked.form asked.store e.value) (R.remaining reader.old) (R.remaining reader.new)
        (W.contents writer.old) (W.contents writer.new) result }
{
    let mut answering = Answering::new(alloc, setup, asked)?;
    run(alloc, reader, &mut answering, writer)
}

/// Plays the events of the input on a line to the encoder of these options. They are judged before anything is read or
/// written.
fn play<R: Read, W: Write>(
    alloc: Global,
    setup: &Setup<'_>,
    asked: Asked,
    reader: &mut R,
    writer: &mut W,
) -> Result<(), RunFault>
    ensures described { IfOk result (λ _. IsSetup (options_of setup.now)) }
    ensures plays { ((fault : RunFault) × (result ≡ Err fault) × RefusesSetup (options_of setup.now) fault
        × (reader.new ≡ reader.old) × (writer.new ≡ writer.old))
        ⊎ RunsWhole (PlaysIn asked.form) (line_at_first (options_of setup.now)) (closing_lines asked.form asked.store)
        (R.remaining reader.old) (R.remaining reader.new) (W.contents writer.old) (W.contents writer.new) result }
{
    let mut playing = Playing::new(alloc, setup, asked)?;
    run(alloc, reader, &mut playing, writer)
}
