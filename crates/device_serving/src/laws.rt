//! Laws of the definitions, each the contract of a function that does nothing (profile).
ghost use Rattle.device_serving.specs.Laws.{TellsInOrder};

use uecp_encoder::Target;

/// A log that was told of findings, tells each event, and has not ended, got the lines of each, once and in order, and
/// nothing between two.
pub fn tells_in_order<T: Target>()
    ensures { TellsInOrder T.step }
{}
