//! The program from its words to its exit status (profile).
ghost use Rattle.std.specs.Prelude.{◌≡◌, ◌≢◌, ◌⊎◌, ◌≤◌, Some, map, is_some, Ok, Err, None, IfSome, IfNone};
ghost use Rattle.std.specs.Prelude.{IsTrue, false};
ghost use Rattle.std.specs.String.{string_bytes};
ghost use Rattle.uecp_text.specs.declared.run_fault.RunFault.{RunFault};
ghost use Rattle.uecp_text.specs.Faults.{Fails, error_lines};
ghost use Rattle.notices.specs.Told.{Says};
ghost use Rattle.uecp_watch.specs.Watching.{Watches};
ghost use Rattle.uecp_jobs.specs.EncoderRun.{IsEncoder};
ghost use Rattle.commands.specs.Jobs.{is_device};
ghost use Rattle.uecp_jobs.specs.Jobs.{IsUndescribed};
ghost use Rattle.uecp_jobs.specs.ServerRun.{IsServer};
ghost use Rattle.commands.specs.declared.job.Job.TheVariants.{EncoderWith, ServerWith};
ghost use Rattle.command_line.specs.Ranges.{IsInRange, IsLiveInRange};
ghost use Rattle.command_line.specs.Usages.{AskForText, SaysFailure};
ghost use Rattle.receive_command.specs.Bits.{ReceivesBits};
ghost use Rattle.uecp_cli.specs.Program.{AskApart, HasDone, HasRefused, HasKept, HasRefusedWords, HasBrokenOff};
ghost use Rattle.uecp_cli.specs.Program.{HasNoJob, IsApart, IsJobDone, IsJobRefused, IsJobStopped, IsJobKept};
ghost use Rattle.uecp_cli.specs.Program.{HasCome};
ghost use Rattle.uecp_cli.specs.Ends.{DialsFor, ListensFor, SendsDialled, SendsOver, ServesPlain};
ghost use Rattle.uecp_cli.specs.Kept.{HasServedLines, SaysWhyOf, ServesKeptAs, SendsDone, SendsRefused, SendsStopped};
ghost use Rattle.uecp_cli.specs.Kept.{SendsKeptAs, SendsNotAll};
ghost use Rattle.uecp_cli.specs.Apart.{is_on_air};
ghost use Rattle.uecp_cli.specs.Apart.{ComesOf, ComesOfDevice, ComesOfLines, ComesOfSend, AnswersOnAir};
ghost use Rattle.uecp_cli.specs.Apart.{DrawsLadder, ReceivesLines};

use air_jobs::{AirJob, run_answer_on_air};
use command_line::{parse, refuse};
use commands::{
    AnswerOptions, EncoderOptions, Job, LadderForm, LineOptions, ReceiveOptions, SendOptions,
    ServerOptions, is_device,
};
use conformance_command::{run_conformance_over_tcp, say_unreached};
use device_edges::{Idle, Patience, Screened, Screening};
use device_jobs::{Beside, run_device_over_tcp, run_encoder_in, run_on_air_over_tcp};
use ladders::{LadderJob, run_ladder};
use line_feed::{Arrival, LineFeed};
use live_edges::{NoticeForm, Polled, Watch};
use notices::{NoticesTo, fail};
use page_server::run_page_over_tcp;
use phrase_commands::{run_make_fitted, run_quote, tell_phrases};
use receive_command::{run_receive, run_receive_bits};
use send_commands::{Dialling, run_send_over_tcp};
use state_jobs::{OpenStates, run_server_in, tell_state};
use std::alloc::Global;
use std::fs::Files;
use std::io::{Read, Write};
use std::net::{Net, TcpListener, TcpStream};
use std::os::fd::RawFd;
use std::time::Clock;
use uecp_jobs::{Form, Setup, run_encoder_over, run_job, run_server_over};
use uecp_net::{Connections, Dialing, Local};
use uecp_text::RunFault;
use uecp_watch::watch;

/// What the commands that go on until they are stopped have of the machine, beside what all have.
#[derive(Drop)]
pub struct Hands<'a, M: Write, F: Write> {
    /// The descriptor of standard input.
    pub input: RawFd,
    /// Where it is said that a connection is lost while nothing is sent, or was another protocol's.
    pub losses: &'a mut M,
    /// Where it is said what is waited for, and that there is no room for who connects.
    pub notices: &'a mut M,
    /// Where it is told, behind what is written, what a bad line does; or in objects what is said on `losses`.
    pub effects: &'a mut F,
    /// The same in objects of what is said on `notices`.
    pub objects: &'a mut F,
    /// And of lines that are refused.
    pub refusals: &'a mut F,
    /// For how long those are waited for who read what is written and said.
    pub patience: &'a Patience,
}

/// For how many seconds a device waits for whoever reads its log, where the job does not say.
const LOG_WAIT: u32 = 1;

/// Does what the words of a command line ask for, the first being the program's name, and answers the exit status: 0
/// done, 1 a line of input was refused, 2 the words or the services were refused, 3 memory, reading, writing, a
/// connection or a state failed.
pub fn run_words<
    R: Read,
    W: Write,
    E: Write,
    M: Write,
    F: Write,
    N: Net<Listener = TcpListener, Stream = TcpStream> + Clock + Files,
    S: OpenStates,
>(
    alloc: Global,
    words: &[String],
    reader: &mut R,
    writer: &mut W,
    errors: &mut NoticesTo<E>,
    hands: Hands<'_, M, F>,
    net: &N,
    states: &S,
) -> u8
    ensures status { AskApart (map string_bytes words.now) ⊎ (result ≤ 3) }
    // 0: what the words ask for was done; or they ask for a text, and nothing was read. Nothing was said on `errors`.
    ensures done { result ≡ 0 → AskApart (map string_bytes words.now)
        ⊎ ((HasDone (S.finds states.now) (map string_bytes words.now) (R.remaining reader.old)
        (R.remaining reader.new) (W.contents writer.old) (W.contents writer.new)
        ⊎ (AskForText (map string_bytes words.now) × (reader.new ≡ reader.old))) × (errors.new ≡ errors.old)) }
    // 1: the words ask for a job, and a line was refused.
    ensures refused { result ≡ 1 → AskApart (map string_bytes words.now)
        ⊎ HasRefused (map string_bytes words.now) (R.remaining reader.old) (R.remaining reader.new)
        (W.contents writer.old) (W.contents writer.new) errors.old errors.new }
    // 2: the words ask for nothing that can be done. Nothing was read or written.
    ensures mistaken { result ≡ 2 → AskApart (map string_bytes words.now)
        ⊎ (HasRefusedWords (map string_bytes words.now) errors.old errors.new
        × (reader.new ≡ reader.old) × (writer.new ≡ writer.old)) }
    // 3: memory, reading, writing, a connection or a state failed: of what the words ask for, and what was written is a
    // beginning of what it writes; or before there was a job, and nothing was read, and but for the text that was asked
    // for nothing was written.
    ensures failed { result ≡ 3 → AskApart (map string_bytes words.now)
        ⊎ (HasBrokenOff (S.finds states.now) (map string_bytes words.now)
        (R.remaining reader.old) (R.remaining reader.new) (W.contents writer.old) (W.contents writer.new)
        errors.old errors.new ⊎ (SaysFailure errors.old errors.new
        × (reader.new ≡ reader.old) × (AskForText (map string_bytes words.now) ⊎ (writer.new ≡ writer.old)))) }
    // 0 or 1: where an end has its state in a file, this is kept there then.
    ensures kept { (result ≡ 0) ⊎ (result ≡ 1) → AskApart (map string_bytes words.now)
        ⊎ (AskForText (map string_bytes words.now) ⊎ HasKept (S.gives_encoder states.now) S.EncoderKeeper.leaves
        S.EncoderKeeper.is_clean (S.gives_server states.now) S.ServerKeeper.leaves S.ServerKeeper.is_clean
        (map string_bytes words.now) (R.remaining reader.old) (R.remaining reader.new) (W.contents writer.old)
        (W.contents writer.new)) }
    // Whatever the status is, this comes of groups on the air, a ladder, an encoder, a display, conformance cases, a
    // page, a script that is made to fit, quoted lines, and the page of phrases; or the words gave no job.
    ensures comes { AskForText (map string_bytes words.now)
        ⊎ (HasNoJob (map string_bytes words.now) errors.old errors.new
        ⊎ HasCome (ComesOf ⟦<TcpStream as Read>⟧.remaining
        ⟦<Screened<Idle<TcpStream>> as Read>⟧.remaining ⟦<TcpStream as Write>⟧.contents (S.gives_encoder states.now)
        (S.refuses_encoder states.now)
        (S.closes_encoder states.now) S.EncoderKeeper.TOGETHER_MAX S.EncoderKeeper.READ_MAX S.EncoderKeeper.leaves
        S.EncoderKeeper.is_clean S.EncoderKeeper.saves S.EncoderKeeper.fails
        ⟦<Screened<TcpStream> as Read>⟧.remaining) (map string_bytes words.now) result
        (R.remaining reader.old) (R.remaining reader.new) (W.contents writer.old) (W.contents writer.new)
        errors.old errors.new) }
    // And this of `server` and `send`.
    ensures sends { AskForText (map string_bytes words.now)
        ⊎ (HasNoJob (map string_bytes words.now) errors.old errors.new
        ⊎ HasCome (ComesOfLines ⟦<TcpStream as Read>⟧.remaining ⟦<TcpStream as Write>⟧.contents
        (S.gives_server states.now) (S.refuses_server states.now) (S.closes_server states.now)
        S.ServerKeeper.leaves S.ServerKeeper.is_clean S.ServerKeeper.saves S.ServerKeeper.fails)
        (map string_bytes words.now) result (R.remaining reader.old)
        (R.remaining reader.new) (W.contents writer.old) (W.contents writer.new) errors.old errors.new) }
{
    match parse(alloc, words) {
        Ok(job) => run_asked(alloc, &job, reader, writer, errors, hands, net, states),
        Err(usage) => refuse(&usage, writer, errors),
    }
}

/// Does the job, and answers the exit status.
fn run_asked<
    R: Read,
    W: Write,
    E: Write,
    M: Write,
    F: Write,
    N: Net<Listener = TcpListener, Stream = TcpStream> + Clock + Files,
    S: OpenStates,
>(
    alloc: Global,
    job: &Job,
    reader: &mut R,
    writer: &mut W,
    errors: &mut NoticesTo<E>,
    hands: Hands<'_, M, F>,
    net: &N,
    states: &S,
) -> u8
    requires { IsInRange job.now }
    ensures status { IsApart job.now ⊎ (result ≤ 3) }
    ensures done { result ≡ 0 → IsApart job.now ⊎ (IsJobDone (S.finds states.now) job.now (R.remaining reader.old)
        (R.remaining reader.new) (W.contents writer.old) (W.contents writer.new) × (errors.new ≡ errors.old)) }
    ensures refused { result ≡ 1 → IsApart job.now ⊎ IsJobRefused job.now (R.remaining reader.old)
        (R.remaining reader.new) (W.contents writer.old) (W.contents writer.new) errors.old
        errors.new }
    ensures undescribed { result ≡ 2 → IsApart job.now
        ⊎ (IsUndescribed job.now (Says errors.old errors.new) × (reader.new ≡ reader.old) × (writer.new ≡ writer.old)) }
    ensures failed { result ≡ 3 → IsApart job.now ⊎ IsJobStopped (S.finds states.now) job.now (R.remaining reader.old)
        (R.remaining reader.new) (W.contents writer.old) (W.contents writer.new) errors.old
        errors.new }
    // 0 or 1: this is kept then.
    ensures kept { (result ≡ 0) ⊎ (result ≡ 1) → IsApart job.now ⊎ IsJobKept (S.gives_encoder states.now)
        S.EncoderKeeper.leaves S.EncoderKeeper.is_clean
        (S.gives_server states.now) S.ServerKeeper.leaves S.ServerKeeper.is_clean job.now (R.remaining reader.old)
        (R.remaining reader.new) (W.contents writer.old) (W.contents writer.new) }
    // This comes of what is made of the options of a command.
    ensures comes { ComesOf ⟦<TcpStream as Read>⟧.remaining
        ⟦<Screened<Idle<TcpStream>> as Read>⟧.remaining
        ⟦<TcpStream as Write>⟧.contents (S.gives_encoder states.now) (S.refuses_encoder states.now)
        (S.closes_encoder states.now) S.EncoderKeeper.TOGETHER_MAX S.EncoderKeeper.READ_MAX S.EncoderKeeper.leaves
        S.EncoderKeeper.is_clean S.EncoderKeeper.saves S.EncoderKeeper.fails
        ⟦<Screened<TcpStream> as Read>⟧.remaining job.now result (R.remaining reader.old)
        (R.remaining reader.new)
        (W.contents writer.old) (W.contents writer.new) errors.old errors.new }
    ensures sends { ComesOfLines ⟦<TcpStream as Read>⟧.remaining
        ⟦<TcpStream as Write>⟧.contents
        (S.gives_server states.now) (S.refuses_server states.now) (S.closes_server states.now)
        S.ServerKeeper.leaves S.ServerKeeper.is_clean S.ServerKeeper.saves S.ServerKeeper.fails job.now result
        (R.remaining reader.old)
        (R.remaining reader.new) (W.contents writer.old) (W.contents writer.new) errors.old
        errors.new }
{
    match job {
        Job::AnswerWith(options) => match options.air {
            Some(groups) => answer_on_air(alloc, options, groups, reader, writer, errors),
            None => run_job(alloc, job, reader, writer, errors),
        },
        Job::LineWith(options) => match options.ladder {
            Some(form) => draw(alloc, options, form, reader, writer, errors),
            None => run_job(alloc, job, reader, writer, errors),
        },
        Job::Encoder { .. } => {
            let mut local = local_of(net, job);
            run_encoder_over(alloc, job, writer, errors, &mut local)
        }
        Job::EncoderWith(options) => serve(alloc, options, writer, errors, hands, net, states),
        Job::Server { .. } => {
            let mut dialing = dialing_of(net, job);
            run_server_over(alloc, job, reader, writer, errors, &mut dialing)
        }
        Job::ServerWith(options) => {
            send_input(alloc, job, options, reader, writer, errors, net, states)
        }
        Job::Send(options) => send(alloc, options, reader, writer, errors, hands, net, states),
        Job::Watch(options) => {
            let clock = if options.time { Some(net) } else { None };
            run_watch(alloc, options.form, clock, reader, writer, errors)
        }
        Job::State { file } => tell_state(alloc, file.as_str(), states, writer, errors),
        Job::Receive(options) => receive(alloc, options, net, reader, writer, errors),
        Job::Conformance(options) => {
            run_conformance_over_tcp(alloc, options, writer, errors, net)
        }
        Job::Page(options) => {
            hands.patience.limit(LOG_WAIT, false);
            run_page_over_tcp(alloc, options, reader, hands.input, errors, net)
        }
        Job::MakeFitted(region) => run_make_fitted(alloc, *region, reader, writer, errors),
        Job::Quote => run_quote(alloc, reader, writer, errors),
        Job::Phrases => tell_phrases(writer, errors),
        Job::Answer { .. }
        | Job::Show
        | Job::ShowWith(_)
        | Job::Make
        | Job::MakeWith(_)
        | Job::Line { .. } => run_job(alloc, job, reader, writer, errors),
    }
}

/// Answers the input and has so many groups of the store on the air behind, and answers the exit status.
fn answer_on_air<R: Read, W: Write, E: Write>(
    alloc: Global,
    options: &AnswerOptions,
    groups: u32,
    reader: &mut R,
    writer: &mut W,
    errors: &mut NoticesTo<E>,
) -> u8
    ensures { AnswersOnAir options.now result (R.remaining reader.old) (R.remaining reader.new) (W.contents writer.old)
        (W.contents writer.new) errors.old errors.new groups }
{
    let job = AirJob {
        setup: Setup {
            site: options.site,
            encoder: options.encoder,
            sets: options.sets,
            services: options.services.as_slice(),
        },
        store: options.store,
        form: options.form,
        groups,
    };
    run_answer_on_air(alloc, &job, reader, writer, errors)
}

/// Draws the line of the input as a ladder, and answers the exit status.
fn draw<R: Read, W: Write, E: Write>(
    alloc: Global,
    options: &LineOptions,
    form: LadderForm,
    reader: &mut R,
    writer: &mut W,
    errors: &mut NoticesTo<E>,
) -> u8
    ensures { DrawsLadder options.now result (R.remaining reader.old) (R.remaining reader.new) (W.contents writer.old)
        (W.contents writer.new) errors.old errors.new form }
{
    let job = LadderJob {
        setup: Setup {
            site: options.site,
            encoder: options.encoder,
            sets: options.sets,
            services: options.services.as_slice(),
        },
        form,
    };
    run_ladder(alloc, &job, reader, writer, errors)
}

/// Is an encoder with its state in a file, where nothing else is asked for that only a device has, or the device that
/// is asked for, and answers the exit status.
fn serve<
    W: Write,
    E: Write,
    M: Write,
    F: Write,
    N: Net<Listener = TcpListener, Stream = TcpStream> + Clock + Files,
    S: OpenStates,
>(
    alloc: Global,
    options: &EncoderOptions,
    writer: &mut W,
    errors: &mut NoticesTo<E>,
    hands: Hands<'_, M, F>,
    net: &N,
    states: &S,
) -> u8
    ensures status { IsApart (EncoderWith options.now) ⊎ ((result ≤ 3) × (result ≢ 1)) }
    ensures done { result ≡ 0 → IsApart (EncoderWith options.now)
        ⊎ (HasServedLines options.now (W.contents writer.old) (W.contents writer.new) × (errors.new ≡ errors.old)) }
    ensures undescribed { result ≡ 2 → IsApart (EncoderWith options.now)
        ⊎ (IsUndescribed (EncoderWith options.now) (Says errors.old errors.new)
        × (writer.new ≡ writer.old)) }
    ensures failed { result ≡ 3 → IsApart (EncoderWith options.now)
        ⊎ SaysWhyOf options.now errors.old errors.new }
    ensures kept { result ≡ 0 → IsApart (EncoderWith options.now)
        ⊎ ServesKeptAs (S.gives_encoder states.now) S.EncoderKeeper.leaves S.EncoderKeeper.is_clean options.now
        (W.contents writer.old) (W.contents writer.new) }
    ensures comes { IsTrue (is_device options.now) → ComesOfDevice ⟦<TcpStream as Read>⟧.remaining
        ⟦<Screened<Idle<TcpStream>> as Read>⟧.remaining
        ⟦<TcpStream as Write>⟧.contents (S.gives_encoder states.now) (S.refuses_encoder states.now)
        (S.closes_encoder states.now) S.EncoderKeeper.TOGETHER_MAX S.EncoderKeeper.READ_MAX S.EncoderKeeper.leaves
        S.EncoderKeeper.is_clean S.EncoderKeeper.saves S.EncoderKeeper.fails options.now (W.contents writer.old)
        (W.contents writer.new)
        errors.old errors.new result }
    ensures plain { is_device options.now ≡ false → ServesPlain ⟦<Screened<TcpStream> as Read>⟧.remaining
        ⟦<TcpStream as Write>⟧.contents (S.gives_encoder states.now) (S.refuses_encoder states.now)
        (S.closes_encoder states.now) S.EncoderKeeper.TOGETHER_MAX S.EncoderKeeper.READ_MAX S.EncoderKeeper.leaves
        S.EncoderKeeper.is_clean S.EncoderKeeper.saves S.EncoderKeeper.fails options.now result (W.contents writer.old)
        (W.contents writer.new) errors.old errors.new }
{
    if is_device(options) {
        return be_device(alloc, options, writer, errors, hands, net, states);
    }
    match (&options.state, local_with(net, options)) {
        (Some(path), Some(local)) => run_encoder_in(
            alloc,
            options,
            path.as_str(),
            states,
            writer,
            errors,
            &mut Screening::new(local, hands.notices),
        ),
        _ => be_device(alloc, options, writer, errors, hands, net, states),
    }
}

/// Is the device that is asked for, on the air where that is asked for, and answers the exit status, as
/// `run_on_air_over_tcp` and `run_device_over_tcp` say.
fn be_device<
    W: Write,
    E: Write,
    M: Write,
    F: Write,
    N: Net<Listener = TcpListener, Stream = TcpStream> + Clock + Files,
    S: OpenStates,
>(
    alloc: Global,
    options: &EncoderOptions,
    writer: &mut W,
    errors: &mut NoticesTo<E>,
    hands: Hands<'_, M, F>,
    net: &N,
    states: &S,
) -> u8
    ensures { ComesOfDevice ⟦<TcpStream as Read>⟧.remaining ⟦<Screened<Idle<TcpStream>> as Read>⟧.remaining
        ⟦<TcpStream as Write>⟧.contents (S.gives_encoder states.now) (S.refuses_encoder states.now)
        (S.closes_encoder states.now) S.EncoderKeeper.TOGETHER_MAX S.EncoderKeeper.READ_MAX S.EncoderKeeper.leaves
        S.EncoderKeeper.is_clean S.EncoderKeeper.saves S.EncoderKeeper.fails options.now (W.contents writer.old)
        (W.contents writer.new)
        errors.old errors.new result }
{
    let Hands {
        input: _,
        losses,
        notices,
        effects,
        objects: _,
        refusals: _,
        patience,
    } = hands;
    patience.limit(
        options.log_wait.unwrap_or(LOG_WAIT),
        is_objects(options.form),
    );
    if options.air.is_some() || options.air_bits {
        return run_on_air_over_tcp(alloc, options, writer, errors, notices, losses, net, states);
    }
    let machine = (net, states);
    be_good_device(
        alloc, options, writer, errors, effects, losses, notices, machine,
    )
}

/// Is the device that is asked for, which is not on the air, and answers the exit status, as `run_device_over_tcp`
/// says.
fn be_good_device<
    W: Write,
    E: Write,
    M: Write,
    F: Write,
    N: Net<Listener = TcpListener, Stream = TcpStream> + Clock + Files,
    S: OpenStates,
>(
    alloc: Global,
    options: &EncoderOptions,
    writer: &mut W,
    errors: &mut NoticesTo<E>,
    effects: &mut F,
    foreign: &mut M,
    notices: &mut M,
    machine: (&N, &S),
) -> u8
    requires { is_on_air options.now ≡ false }
    ensures { ComesOfDevice ⟦<TcpStream as Read>⟧.remaining ⟦<Screened<Idle<TcpStream>> as Read>⟧.remaining
        ⟦<TcpStream as Write>⟧.contents (S.gives_encoder machine.entry.1.now) (S.refuses_encoder machine.entry.1.now)
        (S.closes_encoder machine.entry.1.now) S.EncoderKeeper.TOGETHER_MAX S.EncoderKeeper.READ_MAX
        S.EncoderKeeper.leaves
        S.EncoderKeeper.is_clean S.EncoderKeeper.saves S.EncoderKeeper.fails options.now (W.contents writer.old)
        (W.contents writer.new)
        errors.old errors.new result }
{
    let beside = Beside {
        effects: &mut *effects,
        foreign: &mut *foreign,
        notices: &mut *notices,
    };
    let (net, states) = machine;
    run_device_over_tcp(alloc, options, writer, errors, beside, net, states)
}

/// In which form it is said what becomes of a line, where answers are told so.
fn notice_form(form: Form) -> NoticeForm {
    match form {
        Form::Json => NoticeForm::Objects,
        Form::Lines | Form::Words(_) => NoticeForm::Lines,
    }
}

/// Whether what is told is told in objects.
fn is_objects(form: Form) -> bool {
    match form {
        Form::Json => true,
        Form::Lines | Form::Words(_) => false,
    }
}

/// Sends the messages of the input, with the server's state in a file where one is given, over TCP, and answers the
/// exit status.
fn send_input<
    R: Read,
    W: Write,
    E: Write,
    N: Net<Listener = TcpListener, Stream = TcpStream>,
    S: OpenStates,
>(
    alloc: Global,
    job: &Job,
    options: &ServerOptions,
    reader: &mut R,
    writer: &mut W,
    errors: &mut NoticesTo<E>,
    net: &N,
    states: &S,
) -> u8
    requires { job.now ≡ ServerWith options.now }
    ensures status { result ≤ 3 }
    ensures done { result ≡ 0 → SendsDone options.now (R.remaining reader.old) (R.remaining reader.new)
        (W.contents writer.old) (W.contents writer.new) × (errors.new ≡ errors.old) }
    ensures refused { result ≡ 1 → SendsRefused options.now (R.remaining reader.old) (R.remaining reader.new)
        (W.contents writer.old) (W.contents writer.new) errors.old errors.new }
    ensures undescribed { result ≡ 2 → IsUndescribed (ServerWith options.now) (Says errors.old errors.new)
        × (reader.new ≡ reader.old) × (writer.new ≡ writer.old) }
    ensures failed { result ≡ 3 → SendsStopped options.now (R.remaining reader.old) (R.remaining reader.new)
        (W.contents writer.old) (W.contents writer.new) errors.old errors.new }
    ensures kept { (result ≡ 0) ⊎ (result ≡ 1) → SendsKeptAs (S.gives_server states.now) S.ServerKeeper.leaves
        S.ServerKeeper.is_clean options.now (R.remaining reader.old) (R.remaining reader.new) }
    ensures dialled { SendsDialled ⟦<TcpStream as Read>⟧.remaining ⟦<TcpStream as Write>⟧.contents
        (S.gives_server states.now) (S.refuses_server states.now) (S.closes_server states.now)
        S.ServerKeeper.leaves S.ServerKeeper.is_clean S.ServerKeeper.saves S.ServerKeeper.fails options.now result
        (R.remaining reader.old) (R.remaining reader.new) (W.contents writer.old) (W.contents writer.new)
        errors.old errors.new }
{
    let mut dialing = dialing_of(net, job);
    let status = send_over(
        alloc,
        job,
        options,
        reader,
        writer,
        errors,
        states,
        &mut dialing,
    );
    if status == 3 && options.verbose {
        say_unreached(
            options.host.as_str(),
            options.port,
            dialing.failed(),
            errors,
        );
    }
    status
}

/// Sends them over these connections.
fn send_over<R: Read, W: Write, E: Write, S: OpenStates, C: Connections>(
    alloc: Global,
    job: &Job,
    options: &ServerOptions,
    reader: &mut R,
    writer: &mut W,
    errors: &mut NoticesTo<E>,
    states: &S,
    connect: &mut C,
) -> u8
    requires { job.now ≡ ServerWith options.now }
    ensures status { result ≤ 3 }
    ensures done { result ≡ 0 → SendsDone options.now (R.remaining reader.old) (R.remaining reader.new)
        (W.contents writer.old) (W.contents writer.new) × (errors.new ≡ errors.old) }
    ensures refused { result ≡ 1 → SendsRefused options.now (R.remaining reader.old) (R.remaining reader.new)
        (W.contents writer.old) (W.contents writer.new) errors.old errors.new }
    ensures undescribed { result ≡ 2 → IsUndescribed (ServerWith options.now) (Says errors.old errors.new)
        × (reader.new ≡ reader.old) × (writer.new ≡ writer.old) }
    ensures failed { result ≡ 3 → SendsNotAll options.now (R.remaining reader.old) (R.remaining reader.new)
        (W.contents writer.old) (W.contents writer.new) errors.old errors.new }
    ensures kept { (result ≡ 0) ⊎ (result ≡ 1) → SendsKeptAs (S.gives_server states.now) S.ServerKeeper.leaves
        S.ServerKeeper.is_clean options.now (R.remaining reader.old) (R.remaining reader.new) }
    ensures over { SendsOver C.opens C.closes C.Input.remaining C.Output.contents (S.gives_server states.now)
        (S.refuses_server states.now) (S.closes_server states.now) S.ServerKeeper.leaves S.ServerKeeper.is_clean
        S.ServerKeeper.saves S.ServerKeeper.fails options.now connect.old connect.new result (R.remaining reader.old)
        (R.remaining reader.new) (W.contents writer.old) (W.contents writer.new) errors.old errors.new }
{
    match &options.state {
        Some(path) => run_server_in(
            alloc,
            options,
            path.as_str(),
            states,
            reader,
            writer,
            errors,
            connect,
        ),
        None => run_server_over(alloc, job, reader, writer, errors, connect),
    }
}

/// Sends what the lines of the reader say, for as long as they come, over TCP, and answers the exit status, as
/// `run_send_over_tcp` says.
fn send<
    R: Read,
    W: Write,
    E: Write,
    M: Write,
    F: Write,
    N: Net<Listener = TcpListener, Stream = TcpStream> + Clock + Files,
    S: OpenStates,
>(
    alloc: Global,
    options: &SendOptions,
    reader: &mut R,
    writer: &mut W,
    errors: &mut NoticesTo<E>,
    hands: Hands<'_, M, F>,
    net: &N,
    states: &S,
) -> u8
    requires { IsLiveInRange options.now }
    ensures { ComesOfSend ⟦<TcpStream as Read>⟧.remaining ⟦<TcpStream as Write>⟧.contents
        (S.gives_server states.now) (S.refuses_server states.now) (S.closes_server states.now)
        S.ServerKeeper.leaves S.ServerKeeper.is_clean S.ServerKeeper.saves S.ServerKeeper.fails options.now
        (R.remaining reader.old) (W.contents writer.old)
        (W.contents writer.new) errors.old errors.new result }
{
    let Hands {
        input,
        losses,
        notices,
        effects,
        objects,
        refusals,
        patience: _,
    } = hands;
    let machine = (alloc, net, states, input);
    if is_objects(options.form) {
        return send_over_line(
            options, reader, writer, errors, effects, objects, refusals, machine,
        );
    }
    send_over_line(
        options, reader, writer, errors, losses, notices, refusals, machine,
    )
}

/// Does that where a connection that is lost while nothing is sent is told on `losses`, all else of the line on
/// `notices`, and in JSON lines that are refused on `refusals`.
fn send_over_line<
    R: Read,
    W: Write,
    E: Write,
    M: Write,
    Q: Write,
    N: Net<Listener = TcpListener, Stream = TcpStream> + Clock + Files,
    S: OpenStates,
>(
    options: &SendOptions,
    reader: &mut R,
    writer: &mut W,
    errors: &mut NoticesTo<E>,
    losses: &mut M,
    notices: &mut M,
    refusals: &mut Q,
    machine: (Global, &N, &S, RawFd),
) -> u8
    requires { IsLiveInRange options.now }
    ensures { ComesOfSend ⟦<TcpStream as Read>⟧.remaining ⟦<TcpStream as Write>⟧.contents
        (S.gives_server machine.entry.2.now) (S.refuses_server machine.entry.2.now)
        (S.closes_server machine.entry.2.now) S.ServerKeeper.leaves S.ServerKeeper.is_clean S.ServerKeeper.saves
        S.ServerKeeper.fails options.now
        (R.remaining reader.old) (W.contents writer.old)
        (W.contents writer.new) errors.old errors.new result }
{
    let (alloc, net, states, input) = machine;
    let watch = Watch::new(notice_form(options.form));
    let arrival = Polled::new(alloc, net, input, &watch, &mut *losses);
    let dialling = Dialling {
        alloc,
        net,
        watch: &watch,
        states,
    };
    let status = run_send_over_tcp(
        options, reader, arrival, writer, errors, dialling, notices, refusals,
    );
    watch.finish();
    status
}

/// Tells what a receiver shows for as long as lines or bits come, and answers the exit status, as `run_receive` says of
/// lines and `run_receive_bits` of bits, or 3 where there is no memory to begin with.
fn receive<R: Read, W: Write, E: Write, C: Clock>(
    alloc: Global,
    options: &ReceiveOptions,
    clock: &C,
    reader: &mut R,
    writer: &mut W,
    errors: &mut NoticesTo<E>,
) -> u8
    ensures bits { IsTrue options.now.bits → ReceivesBits options.now.form options.now.time result
        (R.remaining reader.old) (R.remaining reader.new) (W.contents writer.old) (W.contents writer.new)
        errors.old errors.new }
    ensures lines { options.now.bits ≡ false → ReceivesLines options.now result (R.remaining reader.old)
        (W.contents writer.old) (W.contents writer.new) errors.old errors.new }
{
    if options.bits {
        return run_receive_bits(alloc, options, Some(clock), reader, writer, errors);
    }
    match LineFeed::new(alloc, reader, AtOnce) {
        Ok(mut feed) => run_receive(alloc, options, Some(clock), &mut feed, writer, errors),
        Err(_) => fail(&RunFault::OutOfMemory, errors),
    }
}

/// Lines are read as soon as they are asked for.
#[derive(Drop)]
struct AtOnce;

impl Arrival for AtOnce {
    fn wait(&mut self, _milliseconds: Option<u64>) -> bool {
        true
    }

    fn pause(&mut self, _milliseconds: u64) {}
}

/// Tells what comes as it comes, and answers the exit status.
fn run_watch<R: Read, W: Write, E: Write, C: Clock>(
    alloc: Global,
    form: Form,
    clock: Option<&C>,
    reader: &mut R,
    writer: &mut W,
    errors: &mut NoticesTo<E>,
) -> u8
    ensures status { (result ≡ 0) ⊎ (result ≡ 3) }
    ensures done { result ≡ 0 → Watches form (is_some clock.entry) (R.remaining reader.old) (R.remaining reader.new)
        (W.contents writer.old) (W.contents writer.new) (Ok tt) × (errors.new ≡ errors.old) }
    ensures failed { result ≡ 3 → (fault : RunFault) × Fails fault × Watches form (is_some clock.entry)
        (R.remaining reader.old) (R.remaining reader.new) (W.contents writer.old) (W.contents writer.new) (Err fault)
        × Says errors.old errors.new (error_lines fault) }
{
    match watch(alloc, form, clock, reader, writer) {
        Ok(()) => 0,
        Err(fault) => fail(&fault, errors),
    }
}

/// Where the connections of `encoder` come from: those that come to its port of 127.0.0.1.
fn local_of<'a, N: Net<Listener = TcpListener, Stream = TcpStream>>(
    net: &'a N,
    job: &Job,
) -> Local<'a, N>
    requires { IsEncoder job.now }
    ensures { ListensFor job.now result }
{
    match job {
        Job::Encoder { port, .. } => Local::new(net, *port),
        _ => unreachable!(),
    }
}

/// Where those of an encoder with all options come from: those that come to its port of 127.0.0.1, where it has one.
fn local_with<'a, N: Net<Listener = TcpListener, Stream = TcpStream>>(
    net: &'a N,
    options: &EncoderOptions,
) -> Option<Local<'a, N>>
    ensures port { IfSome result (λ listened. options.now.port ≡ Some listened) }
    ensures none { IfNone result (options.now.port ≡ None) }
{
    match options.port {
        Some(port) => Some(Local::new(net, port)),
        None => None,
    }
}

/// Where the connections of `server` come from: its host and port, dialled with its limit of time.
fn dialing_of<'a, N: Net<Listener = TcpListener, Stream = TcpStream>>(
    net: &'a N,
    job: &'a Job,
) -> Dialing<'a, N>
    requires { IsServer job.now }
    ensures { DialsFor job.now result }
{
    match job {
        Job::Server {
            host,
            port,
            timeout,
            ..
        } => Dialing::new(net, host.as_str(), *port, u64::from(*timeout)),
        Job::ServerWith(options) => Dialing::new(
            net,
            options.host.as_str(),
            options.port,
            u64::from(options.timeout),
        ),
        _ => unreachable!(),
    }
}
