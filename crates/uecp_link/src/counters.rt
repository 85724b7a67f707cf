//! Counters of numbered messages, and how late one may come. Source: RDS Forum SPB 490, sequence counter, for the
//! range; profile for the rest.
ghost use Rattle.std.specs.Prelude.{◌≡◌, ◌<◌, true};
ghost use Rattle.uecp_link.specs.Counters.{counter_of, is_recent};

/// The greatest counter, and how many counters there are: 01 to FF.
pub(crate) const COUNTER_MAX: u8 = 0xFF;

/// How many messages may be numbered after one that still comes: one fewer than the replies that an encoder keeps.
const LATENESS: usize = 126;

/// The counter of a message's number, which counts from 0: 01 to FF in turn, and 01 again.
pub(crate) fn counter_of(number: usize) -> u8
    ensures { result ≡ counter_of number }
{
    (1 + number % COUNTER_MAX as usize) as u8
}

/// Whether at most 126 messages were numbered after this one, of so many in all.
pub(crate) fn is_recent(sent: usize, number: usize) -> bool
    requires { number < sent }
    ensures { result ≡ is_recent sent number }
{
    sent - number <= LATENESS + 1
}
