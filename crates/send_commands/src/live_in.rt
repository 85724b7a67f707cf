//! A run whose state is in a file. Source: profile.
ghost use Rattle.std.specs.Prelude.{◌≡◌, ◌⊎◌, ◌≤◌, IsTrue};
ghost use Rattle.uecp_frame.specs.Address.{is_exact};
ghost use Rattle.send_commands.specs.LiveIn.{LivesIn, HasNoState};

use kept_jobs::Start;
use line_feed::Feed;
use notices::NoticesTo;
use sending::{LiveOptions, Teller, run_live};
use state_files::StateFault;
use state_jobs::{OpenStates, closed_so, fail_file};
use std::io::Write;
use std::time::Clock;
use uecp_frame::Address;
use uecp_net::Connections;

/// How many messages a server has taken at most: a file that tells of more was damaged.
const TAKEN_MAX: u64 = 1 << 63;

/// Sends the messages of the lines that come, from where the state at this path has come, and answers the exit status,
/// as [`run_live`] does: 0 all were applied, 1 a line was refused, 3 the run stopped, or the state can't be opened,
/// saved or closed, 4 the encoder refused a message. The state is opened before a line is taken and before any
/// connection is, and closed at the end.
pub fn run_live_in<S: OpenStates, F: Feed, W: Write, E: Write, C: Connections, T: Clock>(
    options: &LiveOptions<'_>,
    address: Address,
    path: &str,
    states: &S,
    feed: &mut F,
    teller: &mut Teller<'_, W, T>,
    errors: &mut NoticesTo<E>,
    connect: &mut C,
) -> u8
    requires exact { IsTrue (is_exact address) }
    requires some { 1 ≤ options.now.reading.size }
    requires most { options.now.reading.size ≤ 8 }
    // The state was opened, the run was made from there, and the state closed; or it could not be opened, and nothing
    // was taken, opened or written.
    ensures lives { LivesIn F.remaining F.takes F.says F.passes (S.gives_server states.now) (S.closes_server states.now)
        S.ServerKeeper.leaves
        S.ServerKeeper.is_clean S.ServerKeeper.saves S.ServerKeeper.fails C.opens C.closes C.Input.remaining
        C.Output.contents path.now address options.now connect.old connect.new feed.old feed.new teller.old.held
        teller.new.held errors.old
        errors.new result
        ⊎ (HasNoState (S.gives_server states.now) (S.refuses_server states.now) path.now errors.old
        errors.new result × (feed.new ≡ feed.old) × (teller.new.held ≡ teller.old.held)
        × (connect.new ≡ connect.old)) }
    ensures writer { teller.new.writer ≡ teller.old.writer }
{
    match states.open_server(path, address) {
        Err(fault) => fail_file(path, fault, errors),
        Ok((server, progress, mut keeper)) => {
            if progress.taken >= TAKEN_MAX {
                return fail_file(path, StateFault::Damaged, errors);
            }
            let start = Start { server, progress };
            let status = run_live(options, start, &mut keeper, feed, teller, errors, connect);
            closed_so(path, status, states.close_server(keeper), errors)
        }
    }
}
