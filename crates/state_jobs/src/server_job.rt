//! The job `server` with its state in a file. Source: profile.
ghost use Rattle.std.specs.Prelude.{◌≡◌, ◌⊎◌, ◌≤◌, ℕ, Some, None, IsTrue};
ghost use Rattle.uecp_frame.specs.Address.{is_exact};
ghost use Rattle.uecp_jobs.specs.Jobs.{IsUndescribed};
ghost use Rattle.commands.specs.declared.job.Job.TheVariants.{ServerWith};
ghost use Rattle.kept_jobs.specs.Stops.{Went};
ghost use Rattle.kept_jobs.specs.ServerRun.{IsTold};
ghost use Rattle.state_jobs.specs.Texts.{Closed, IsClosed};
ghost use Rattle.uecp_text.specs.declared.run_fault.RunFault.{RunFault};
ghost use Rattle.uecp_text.specs.Faults.{error_lines};
ghost use Rattle.kept_jobs.specs.ServerKept.{IsReadWith};
ghost use Rattle.state_jobs.specs.Kept.{HasSentKept, SentKept, SaysWhy};
ghost use Rattle.state_jobs.specs.ServerJob.{Sends, HasLostState, HasSent};
ghost use Rattle.notices.specs.Told.{Told, Says};

use crate::open_states::OpenStates;
use crate::server_run::run_server_kept;
use crate::texts::{closed_so, fail_file};
use commands::ServerOptions;
use kept_jobs::Start;
use notices::{NoticesTo, fail};
use state_files::StateFault;
use std::alloc::Global;
use std::io::{Read, Write};
use uecp_frame::Address;
use uecp_jobs::{ServerSetup, address_of, server_setup_of};
use uecp_net::Connections;
use uecp_text::RunFault;

/// How many messages a server has taken at most: a file that tells of more was damaged.
const TAKEN_MAX: u64 = 1 << 63;

/// Does the job of `server` with its state at this path, and answers the exit status: 0 done, 1 a line was refused, 2
/// the address was refused, 3 the state can't be opened, saved or closed, a batch of messages is outstanding, or
/// memory, reading or writing failed. The address is judged before the state is opened, and the state before anything
/// is read.
pub fn run_server_in<S: OpenStates, R: Read, W: Write, E: Write, C: Connections>(
    alloc: Global,
    options: &ServerOptions,
    path: &str,
    states: &S,
    reader: &mut R,
    writer: &mut W,
    errors: &mut NoticesTo<E>,
    connect: &mut C,
) -> u8
    ensures status { result ≤ 3 }
    // 2: the address is not that of one encoder. No state was opened, no connection, and nothing was read or written.
    ensures undescribed { result ≡ 2 → IsUndescribed (ServerWith options.now) (Says errors.old errors.new)
        × (reader.new ≡ reader.old) × (writer.new ≡ writer.old) × (connect.new ≡ connect.old) }
    // 0, 1 and 3: the messages of the input were sent from where the state had come, as far as that went, and that was
    // told. 3 too: the state could not be opened or closed.
    ensures sent { (result ≡ 2) ⊎ (HasSent (S.gives_server states.now) (S.closes_server states.now)
        S.ServerKeeper.leaves S.ServerKeeper.is_clean
        S.ServerKeeper.saves S.ServerKeeper.fails
        C.opens C.closes C.Input.remaining C.Output.contents
        path.now options.now result (R.remaining reader.old) (R.remaining reader.new) connect.old connect.new
        (W.contents writer.old) (W.contents writer.new) errors.old errors.new
        ⊎ ((result ≡ 3) × HasLostState (S.gives_server states.now) (S.refuses_server states.now) path.now
        (R.remaining reader.old) (R.remaining reader.new) connect.old connect.new (W.contents writer.old)
        (W.contents writer.new) errors.old errors.new)) }
    // 0: whatever the connections are, a crash leaves a server that has taken the messages of the input, of which none
    // waits, and no line is refused. Nothing was said on `errors`.
    ensures done { result ≡ 0 → HasSentKept (S.gives_server states.now) S.ServerKeeper.leaves S.ServerKeeper.is_clean
        path.now options.now (R.remaining reader.old) (R.remaining reader.new)
        × IsReadWith None (R.remaining reader.old) (R.remaining reader.new) × (errors.new ≡ errors.old) }
    // 1: so with the messages before a line that is refused, and its number and fault were said.
    ensures refused { result ≡ 1 → HasSentKept (S.gives_server states.now) S.ServerKeeper.leaves S.ServerKeeper.is_clean
        path.now options.now (R.remaining reader.old) (R.remaining reader.new)
        × ((fault : RunFault) × IsReadWith (Some fault) (R.remaining reader.old) (R.remaining reader.new)
        × Says errors.old errors.new (error_lines fault)) }
    // 3: why was said.
    ensures said { result ≡ 3 → SaysWhy path.now errors.old errors.new }
{
    let Some(address) = address_of(options.site, options.encoder) else {
        return fail(&RunFault::Address, errors);
    };
    let setup = server_setup_of(options);
    let place = Place { states, path };
    send_in(
        alloc, &setup, address, place, reader, writer, errors, connect,
    )
}

/// Where a state is: which states there are, and the path of this one.
struct Place<'a, S: OpenStates> {
    states: &'a S,
    path: &'a str,
}

/// Opens the state, sends, and closes it.
fn send_in<S: OpenStates, R: Read, W: Write, E: Write, C: Connections>(
    alloc: Global,
    setup: &ServerSetup,
    address: Address,
    place: Place<'_, S>,
    reader: &mut R,
    writer: &mut W,
    errors: &mut NoticesTo<E>,
    connect: &mut C,
) -> u8
    requires { IsTrue (is_exact address) }
    ensures status { (result ≡ 0) ⊎ ((result ≡ 1) ⊎ (result ≡ 3)) }
    ensures sent { ((went : Went) × (closed : Closed) × (before : ℕ) × (between : Told)
        × Sends (S.gives_server place.entry.states.now)
        (S.closes_server place.entry.states.now) S.ServerKeeper.leaves S.ServerKeeper.is_clean
        S.ServerKeeper.saves S.ServerKeeper.fails
        C.opens C.closes C.Input.remaining C.Output.contents
        place.entry.path.now address setup.now.limits setup.now.window setup.now.join (R.remaining reader.old)
        (R.remaining reader.new) connect.old connect.new (W.contents writer.old) (W.contents writer.new) went closed
        × IsTold Says went before errors.old between
        × IsClosed place.entry.path.now before closed result between errors.new)
        ⊎ ((result ≡ 3) × HasLostState (S.gives_server place.entry.states.now) (S.refuses_server place.entry.states.now)
        place.entry.path.now (R.remaining reader.old) (R.remaining reader.new) connect.old connect.new
        (W.contents writer.old)
        (W.contents writer.new) errors.old errors.new) }
    // 0: whatever the connections are, a crash leaves a server that has taken the messages of the input, of which none
    // waits, and no line is refused. Nothing was said on `errors`.
    ensures done { result ≡ 0 → SentKept (S.gives_server place.entry.states.now) S.ServerKeeper.leaves
        S.ServerKeeper.is_clean
        place.entry.path.now address (R.remaining reader.old) (R.remaining reader.new)
        × IsReadWith None (R.remaining reader.old) (R.remaining reader.new) × (errors.new ≡ errors.old) }
    // 1: so with the messages before a line that is refused, and its number and fault were said.
    ensures refused { result ≡ 1 → SentKept (S.gives_server place.entry.states.now) S.ServerKeeper.leaves
        S.ServerKeeper.is_clean place.entry.path.now address (R.remaining reader.old) (R.remaining reader.new)
        × ((fault : RunFault) × IsReadWith (Some fault) (R.remaining reader.old) (R.remaining reader.new)
        × Says errors.old errors.new (error_lines fault)) }
    // 3: why was said.
    ensures said { result ≡ 3 → SaysWhy place.entry.path.now errors.old errors.new }
{
    let Place { states, path } = place;
    match states.open_server(path, address) {
        Err(fault) => fail_file(path, fault, errors),
        Ok((server, progress, mut keeper)) => {
            if progress.taken >= TAKEN_MAX {
                return fail_file(path, StateFault::Damaged, errors);
            }
            let start = Start { server, progress };
            let status = run_server_kept(
                alloc,
                setup,
                start,
                &mut keeper,
                reader,
                writer,
                errors,
                connect,
            );
            closed_so(path, status, states.close_server(keeper), errors)
        }
    }
}
