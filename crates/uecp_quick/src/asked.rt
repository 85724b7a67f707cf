//! What the words of the quick program ask for (profile).
ghost use Rattle.std.specs.Prelude.{◌≡◌, map, IfOk, IfSome};
ghost use Rattle.std.specs.String.{string_bytes};
ghost use Rattle.uecp_jobs.specs.Jobs.{IsLocal};
ghost use Rattle.uecp_quick.specs.Asked as spec;

use commands::{AnswerOptions, Job, LineOptions, MakeOptions, ShowOptions};
use rds_text::Region;
use std::alloc::{AllocError, Global};
use uecp_jobs::Form;

/// The job of the command of this name, with the flags among these words; None where there is no such command, or where
/// it has no such form.
pub fn job_of(alloc: Global, name: &str, flags: &[String]) -> Result<Option<Job>, AllocError>
    ensures asked { IfOk result (λ job. IfSome job (spec.IsAsked name.now (map string_bytes flags.now))) }
    ensures local { IfOk result (λ job. IfSome job IsLocal) }
{
    let form = form_of(flags);
    let store = has(flags, "--store");
    match name {
        "answer" => Ok(Some(Job::AnswerWith(AnswerOptions {
            site: 1,
            encoder: 1,
            sets: 1,
            services: vec![in alloc; 1]?,
            store,
            form,
            air: None,
        }))),
        "line" => Ok(Some(Job::LineWith(LineOptions {
            site: 1,
            encoder: 1,
            sets: 1,
            services: vec![in alloc; 1]?,
            store,
            form,
            ladder: None,
        }))),
        "show" => Ok(Some(Job::ShowWith(ShowOptions { form }))),
        "make" => match form {
            Form::Lines => Ok(Some(Job::Make)),
            Form::Words(region) => Ok(Some(Job::MakeWith(MakeOptions {
                words: Some(region),
            }))),
            Form::Json => Ok(None),
        },
        _ => Ok(None),
    }
}

/// The form for which flags ask.
fn form_of(flags: &[String]) -> Form
    ensures { result ≡ spec.form_of (map string_bytes flags.now) }
{
    if has(flags, "--json") {
        Form::Json
    } else if has(flags, "--rbds") {
        Form::Words(Region::NorthAmerica)
    } else if has(flags, "--words") {
        Form::Words(Region::Europe)
    } else {
        Form::Lines
    }
}

/// Whether the flag is one of the words.
fn has(words: &[String], flag: &str) -> bool
    ensures { result ≡ spec.has flag.now (map string_bytes words.now) }
{
    for word in words {
        if word.as_str() == flag {
            return true;
        }
    }
    false
}
