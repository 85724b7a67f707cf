//! A job in few words (profile).
ghost use Rattle.std.specs.Prelude.{◌≡◌, ◌||◌, is_some};
ghost use Rattle.commands.specs.Jobs.{is_device, in_full, in_short, short_answer, short_encoder, short_line};
ghost use Rattle.commands.specs.Jobs.{short_make, short_server, short_show};

use crate::answer_options::AnswerOptions;
use crate::encoder_options::EncoderOptions;
use crate::job::Job;
use crate::line_options::LineOptions;
use crate::script_options::{MakeOptions, ShowOptions};
use crate::server_options::ServerOptions;
use output_forms::Form;

/// The job with the options that its command had first, where no later one is given.
pub fn in_short(job: Job) -> Job
    ensures short { result ≡ in_short job }
    // It asks for the same.
    ensures same { in_full result ≡ in_full job }
{
    match job {
        Job::AnswerWith(options) => short_answer(options),
        Job::ShowWith(options) => short_show(options),
        Job::MakeWith(options) => short_make(options),
        Job::LineWith(options) => short_line(options),
        Job::EncoderWith(options) => short_encoder(options),
        Job::ServerWith(options) => short_server(options),
        job => job,
    }
}

fn short_answer(options: AnswerOptions) -> Job
    ensures { result ≡ short_answer options.form options.air options }
{
    match (options.form, options.air) {
        (Form::Lines, None) => {
            let AnswerOptions {
                site,
                encoder,
                sets,
                services,
                store,
                form: _,
                air: _,
            } = options;
            Job::Answer {
                site,
                encoder,
                sets,
                services,
                store,
            }
        }
        _ => Job::AnswerWith(options),
    }
}

fn short_show(options: ShowOptions) -> Job
    ensures { result ≡ short_show options.form options }
{
    match options.form {
        Form::Lines => Job::Show,
        _ => Job::ShowWith(options),
    }
}

fn short_make(options: MakeOptions) -> Job
    ensures { result ≡ short_make options.words options }
{
    match options.words {
        None => Job::Make,
        Some(_) => Job::MakeWith(options),
    }
}

fn short_line(options: LineOptions) -> Job
    ensures { result ≡ short_line options.form options.ladder options }
{
    match (options.form, options.ladder) {
        (Form::Lines, None) => {
            let LineOptions {
                site,
                encoder,
                sets,
                services,
                store,
                form: _,
                ladder: _,
            } = options;
            Job::Line {
                site,
                encoder,
                sets,
                services,
                store,
            }
        }
        _ => Job::LineWith(options),
    }
}

fn short_encoder(options: EncoderOptions) -> Job
    ensures { result ≡ short_encoder (is_device options || is_some options.state) options.port options }
{
    if is_device(&options) || options.state.is_some() {
        return Job::EncoderWith(options);
    }
    match options.port {
        None => Job::EncoderWith(options),
        Some(port) => {
            let EncoderOptions {
                site,
                encoder,
                sets,
                services,
                listen: _,
                port: _,
                air: _,
                air_bits: _,
                connections,
                turns,
                forever: _,
                idle: _,
                yield_after: _,
                allow: _,
                log: _,
                log_wait: _,
                form: _,
                time: _,
                store: _,
                faults: _,
                seed: _,
                state: _,
            } = options;
            Job::Encoder {
                site,
                encoder,
                sets,
                services,
                port,
                connections,
                turns,
            }
        }
    }
}

/// Whether an encoder is asked for something that only a device does.
pub fn is_device(options: &EncoderOptions) -> bool
    ensures { result ≡ is_device options.now }
{
    if options.listen.is_some() || options.faults.is_some() || options.air.is_some() {
        return true;
    }
    if options.air_bits || options.forever || options.log || options.store {
        return true;
    }
    if options.idle != 0 || options.seed != 0 || !options.time {
        return true;
    }
    if options.yield_after.is_some() || options.allow.is_some() || options.log_wait.is_some() {
        return true;
    }
    match options.form {
        Form::Lines => false,
        Form::Words(_) | Form::Json => true,
    }
}

fn short_server(options: ServerOptions) -> Job
    ensures { result ≡ short_server (options.join || (options.reconnect_silent || (options.verbose
        || is_some options.state))) options }
{
    if options.join || options.reconnect_silent || options.verbose || options.state.is_some() {
        return Job::ServerWith(options);
    }
    let ServerOptions {
        site,
        encoder,
        host,
        port,
        tries,
        timeout,
        turns,
        reconnects,
        window,
        join: _,
        reconnect_silent: _,
        verbose: _,
        state: _,
    } = options;
    Job::Server {
        site,
        encoder,
        host,
        port,
        tries,
        timeout,
        turns,
        reconnects,
        window,
    }
}
