//! Why a run stops whose state is kept, and what is said of that. Source: profile.
ghost use Rattle.std.specs.Prelude.{◌≡◌, Err};
ghost use Rattle.kept_jobs.specs.Stops.{stop_status, stop_lines, state_line, heard_nothing, stop_for};
ghost use Rattle.kept_jobs.specs.declared.stop.KeptStop.TheVariants.{Run};

use notices::{Notices, fail};
use uecp_link::ServerCounts;
use uecp_net::Outstanding;
use uecp_text::RunFault;

/// Why a run stopped whose state is kept.
#[derive(Debug, Drop)]
pub enum KeptStop {
    /// For what stops a run without a state.
    Run(RunFault),
    /// A batch is outstanding, its tries are spent, and since the run began nothing was heard of its encoder: neither a
    /// reply nor any other frame nor noise.
    Unanswered,
    /// The state could not be saved.
    StateFailed,
}

impl From<RunFault> for KeptStop {
    ghost from_gives = { λ fault stop. stop ≡ Run fault };

    fn from(fault: RunFault) -> KeptStop {
        KeptStop::Run(fault)
    }
}

/// Says on the writer of errors why a run stopped, and answers its status. A text that can't be written changes
/// nothing.
pub fn fail_run<E: Notices>(stop: &KeptStop, errors: &mut E) -> u8
    ensures status { result ≡ stop_status stop.now }
    ensures said { E.says errors.old errors.new (stop_lines stop.now) }
{
    match stop {
        KeptStop::Run(fault) => fail(fault, errors),
        KeptStop::Unanswered => {
            let text =
                "the encoder answers nothing: if it is new or lost its state, begin anew with --join";
            fail_state(text, errors)
        }
        KeptStop::StateFailed => fail_state("state failed", errors),
    }
}

/// Says on the writer of errors why a state can't be kept, as `state in use`, and answers the status of that, 3. A text
/// that can't be written changes nothing.
pub fn fail_state<E: Notices>(text: &str, errors: &mut E) -> u8
    ensures status { result ≡ 3 }
    ensures said { E.says errors.old errors.new (state_line text.now) }
{
    errors.say(&[b"uecp: ", text.as_bytes(), b"\n"]);
    3
}

/// Why a run stops whose messages are outstanding for this reason, where the server counted so much.
pub fn stop_for(reason: Outstanding, counts: ServerCounts) -> KeptStop
    ensures { result ≡ stop_for counts reason }
{
    match reason {
        Outstanding::TriesSpent if heard_nothing(counts) => KeptStop::Unanswered,
        Outstanding::TriesSpent => KeptStop::Run(RunFault::Outstanding),
        Outstanding::ConnectionFailed => KeptStop::Run(RunFault::Connection),
    }
}

/// Whether nothing was heard that is counted: no reply, no other frame and no noise.
fn heard_nothing(counts: ServerCounts) -> bool
    ensures { result ≡ heard_nothing counts }
{
    counts.acknowledged == 0 && counts.stray == 0 && counts.dropped == 0
}
