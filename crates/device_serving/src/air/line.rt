//! The connection that is open. Source: profile.
ghost use Rattle.std.specs.Prelude.{◌≡◌};
ghost use Rattle.device_serving.specs.AirLines.{together, ended_over, is_over};

use uecp_encoder::{KeptFault, ServeFault, Served};

/// How many replies were sent over a connection so far, and how many bytes they are. At its greatest value each stays.
#[derive(Clone, Copy, Debug)]
pub(crate) struct Sent {
    pub(crate) replies: u64,
    pub(crate) bytes: u64,
}

/// The connection that is open: its two ends, how many reads are left to it, and what was sent over it.
#[derive(Drop)]
pub(crate) struct OpenLine<I, O> {
    pub(crate) input: I,
    pub(crate) output: O,
    pub(crate) left: u32,
    pub(crate) sent: Sent,
}

/// So many together, up to the greatest count.
pub(crate) fn together(a: u64, b: u64) -> u64
    ensures { result ≡ together a b }
{
    a.saturating_add(b)
}

/// How a whole connection ended whose last read ended so, where this was sent before it.
pub(crate) fn ended_over(sent: Sent, ended: Result<Served, KeptFault>) -> Result<Served, KeptFault>
    ensures { result ≡ ended_over sent ended }
{
    match ended {
        Ok(served) => Ok(Served {
            read: served.read,
            replies: together(sent.replies, served.replies),
        }),
        Err(KeptFault::Serve(ServeFault::WriteFailed { written })) => Err(KeptFault::Serve(
            ServeFault::WriteFailed {
                written: together(sent.bytes, written),
            },
        )),
        Err(KeptFault::Serve(ServeFault::ReadFailed)) => Err(KeptFault::Serve(
            ServeFault::ReadFailed,
        )),
        Err(KeptFault::Serve(ServeFault::TurnsSpent)) => Err(KeptFault::Serve(
            ServeFault::TurnsSpent,
        )),
        Err(KeptFault::StateFailed) => Err(KeptFault::StateFailed),
    }
}

/// Whether a connection is over after a read that ended so, where so many more are left to it.
pub(crate) fn is_over(left: u32, ended: Result<Served, KeptFault>) -> bool
    ensures { result ≡ is_over left ended }
{
    match ended {
        Err(KeptFault::Serve(ServeFault::TurnsSpent)) => left == 0,
        Ok(_)
        | Err(
            KeptFault::Serve(ServeFault::ReadFailed | ServeFault::WriteFailed { .. })
            | KeptFault::StateFailed,
        ) => true,
    }
}
