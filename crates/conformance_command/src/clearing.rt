//! What stands between joining and a case (profile).
ghost use Rattle.std.specs.Prelude.{◌≡◌, true};
ghost use Rattle.conformance_command.specs.Running.{WaitsOn, ReadsAway};

use crate::case_run::READS_MAX;
use crate::reply_stream::READ_MAX;
use std::io::Read;
use uecp_encoder::{Failed, Meter};

/// What joining had left on a connection.
#[derive(Clone, Copy)]
pub(crate) struct Left {
    /// How many bytes were read away.
    pub(crate) bytes: usize,
    /// Whether nothing came any more then.
    pub(crate) is_quiet: bool,
}

/// Whether this many reads more fail, one after another. Where one brings something, or meets the end, no more are
/// made.
pub(crate) fn is_silent<R: Read>(most: u32, input: &mut Meter<R>) -> bool
    ensures { WaitsOn R.remaining most input.old input.new result }
{
    let mut buffer = [0u8; READ_MAX];
    for _turn in 0..most {
        if let Ok(_count) = input.read(&mut buffer) {
            return false;
        }
    }
    true
}

/// Reads away what joining left, until a read fails or the input is at its end.
pub(crate) fn read_away<R: Read>(input: &mut Meter<R>) -> Left
    ensures { ReadsAway R.remaining input.old input.new result.bytes result.is_quiet }
{
    let mut bytes = 0;
    let mut buffer = [0u8; READ_MAX];
    for _turn in 0..READS_MAX {
        match input.read(&mut buffer) {
            Err(Failed) => return quiet_behind(bytes),
            Ok(0) => return quiet_behind(bytes),
            Ok(count) => bytes += count,
        }
    }
    Left {
        bytes,
        is_quiet: false,
    }
}

/// That nothing came any more behind so many bytes.
fn quiet_behind(bytes: usize) -> Left
    ensures { result ≡ record { bytes = bytes; is_quiet = true } }
{
    Left {
        bytes,
        is_quiet: true,
    }
}
