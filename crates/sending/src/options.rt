//! How a server sends whose state is kept. Source: profile.
ghost use Rattle.std.specs.Prelude.{◌≡◌};
ghost use Rattle.sending.specs.Run.{run_of};

use crate::account::Account;
use line_batches::Reading;
use output_forms::Form;
use uecp_frame::Message;
use uecp_net::Limits;

/// How a server sends whose lines come as they like.
#[derive(Clone, Copy, Debug)]
pub struct LiveOptions<'a> {
    /// What its sender may spend.
    pub limits: Limits,
    /// How its lines are read.
    pub reading: Reading<'a>,
    /// How many lines come before the first of the input: the numbers of its lines are counted behind them.
    pub lines_before: usize,
    /// Whether its encoder is joined even where it was joined before. What waits is then given up.
    pub join: bool,
    /// Whether an encoder is taken for a new one where messages are outstanding and each try was spent: it is joined,
    /// made the station, and these messages are told as unknown. Else the run stops, as it does where there is no
    /// connection to be had.
    pub rejoin: bool,
    /// In which form it is told what comes of them; words make no difference.
    pub form: Form,
    /// The messages that make the station what it is, sent after each join.
    pub station: &'a [Message],
}

/// How a server sends, wherever its batches come from.
#[derive(Clone, Copy, Debug)]
pub struct RunOptions<'a> {
    /// What its sender may spend.
    pub limits: Limits,
    /// How many messages a batch has at most, 1 to 8.
    pub size: usize,
    /// Whether its encoder is joined even where it was joined before. What waits is then given up.
    pub join: bool,
    /// Whether an encoder is taken for a new one where messages are outstanding and each try was spent, as for
    /// [`LiveOptions`].
    pub rejoin: bool,
    /// How it is told what comes of them.
    pub account: Account,
    /// The messages that make the station what it is, sent after each join.
    pub station: &'a [Message],
}

/// What of these options is no matter of its lines: each message is told under its number.
pub(crate) fn run_of<'a>(options: &LiveOptions<'a>) -> RunOptions<'a>
    ensures { result ≡ run_of options.now }
{
    RunOptions {
        limits: options.limits,
        size: options.reading.size,
        join: options.join,
        rejoin: options.rejoin,
        account: Account::Numbered(options.form),
        station: options.station,
    }
}
