//! The law of state files, the contract of a function that does nothing (profile).
ghost use Rattle.state_files.specs.Encoders.{TellsWhatIsKept};

use rds_store::laws::is_known_by_places;
use uecp_elements::laws::codes_and_bytes;

/// The image of an encoder tells what is kept of it: two encoders with one image, whose stores have something in each
/// of their sets for each of their services and nothing elsewhere, keep the same.
pub fn tells_what_is_kept()
    ensures { TellsWhatIsKept }
{
    codes_and_bytes();
    is_known_by_places();
}
