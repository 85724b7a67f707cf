//! The job `send`. Source: profile.
ghost use Rattle.std.specs.Prelude.{◌≡◌, ◌≤◌, IsTrue};
ghost use Rattle.uecp_frame.specs.Address.{is_exact};
ghost use Rattle.send_commands.specs.Job.{IsSendable, IsFor, IsInput, HasSentLive, SendsTo};

use crate::live_in::run_live_in;
use commands::SendOptions;
use kept_jobs::Start;
use line_batches::{Input, Reading};
use line_feed::Feed;
use notices::{NoticesTo, fail};
use sending::{LiveOptions, Teller, run_live};
use state_jobs::OpenStates;
use std::io::Write;
use std::time::Clock;
use titles::Titles;
use uecp_encoder::NotSaved;
use uecp_frame::{Address, Message};
use uecp_jobs::address_of;
use uecp_link::Server;
use uecp_net::{Connections, Limits, Progress};
use uecp_text::RunFault;

/// Sends the messages of the lines that come, and answers the exit status: 0 all were applied, 1 a line was refused, 2
/// the address is not that of one encoder, 3 the state can't be opened, saved or closed, a message is outstanding, or
/// memory, reading or writing failed, 4 the encoder refused a message, or one is unknown. With a state in a file the
/// run goes on from it; else it begins with a new server, which joins its encoder. The messages of the station are sent
/// behind each join.
pub fn run_send<S: OpenStates, F: Feed, W: Write, E: Write, C: Connections, T: Clock>(
    job: &SendOptions,
    station: &[Message],
    states: &S,
    feed: &mut F,
    teller: &mut Teller<'_, W, T>,
    errors: &mut NoticesTo<E>,
    connect: &mut C,
) -> u8
    requires { IsSendable job.now }
    ensures sent { HasSentLive F.remaining F.takes F.says F.passes C.opens C.closes C.Input.remaining C.Output.contents
        (S.gives_server states.now)
        (S.refuses_server states.now) (S.closes_server states.now) S.ServerKeeper.leaves S.ServerKeeper.is_clean
        S.ServerKeeper.saves S.ServerKeeper.fails job.now station.now connect.old connect.new feed.old feed.new
        teller.old.held teller.new.held errors.old errors.new result }
    ensures writer { teller.new.writer ≡ teller.old.writer }
{
    let Some(address) = address_of(job.site, job.encoder) else {
        return fail(&RunFault::Address, errors);
    };
    let options = options_of(job, station);
    match &job.state {
        Some(path) => {
            let path = path.as_str();
            run_live_in(
                &options, address, path, states, feed, teller, errors, connect,
            )
        }
        None => run_unkept(&options, address, feed, teller, errors, connect),
    }
}

/// The options of a run.
fn options_of<'a>(job: &'a SendOptions, station: &'a [Message]) -> LiveOptions<'a>
    ensures { IsFor job.now station.now result }
{
    LiveOptions {
        limits: Limits {
            tries: job.tries,
            turns: job.turns,
            reconnects: u32::MAX,
            reconnect_silent: true,
        },
        reading: Reading {
            input: input_of(job),
            size: usize::from(job.window),
            strict: job.strict,
        },
        lines_before: job.from_line.saturating_sub(1) as usize,
        join: job.join,
        rejoin: job.rejoin,
        form: job.form,
        station,
    }
}

/// What the lines of the job are.
fn input_of(job: &SendOptions) -> Input<'_>
    ensures { IsInput job.now result }
{
    match &job.titles {
        None if job.fit => Input::Fitted(job.region),
        None => Input::Phrases(job.region),
        Some(options) => Input::Titles(Titles {
            prefix: options.prefix.as_slice(),
            service: options.service,
            fit: job.fit,
        }),
    }
}

/// Sends with no state, from a new server on.
fn run_unkept<F: Feed, W: Write, E: Write, C: Connections, T: Clock>(
    options: &LiveOptions<'_>,
    address: Address,
    feed: &mut F,
    teller: &mut Teller<'_, W, T>,
    errors: &mut NoticesTo<E>,
    connect: &mut C,
) -> u8
    requires exact { IsTrue (is_exact address) }
    requires some { 1 ≤ options.now.reading.size }
    requires most { options.now.reading.size ≤ 8 }
    ensures sends { SendsTo F.remaining F.takes F.says F.passes C.opens C.closes C.Input.remaining C.Output.contents
        address
        options.now connect.old
        connect.new feed.old feed.new teller.old.held teller.new.held
        errors.old errors.new result }
    ensures writer { teller.new.writer ≡ teller.old.writer }
{
    let start = Start {
        server: Server::new(address),
        progress: Progress {
            taken: 0,
            joined: false,
        },
    };
    run_live(options, start, &mut NotSaved, feed, teller, errors, connect)
}
