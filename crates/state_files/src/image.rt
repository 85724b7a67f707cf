//! The state of an end as an image of bytes says it. Source: profile.
ghost use Rattle.std.specs.Prelude.{◌≡◌, ◌++◌, ℕ, List, OnOk};
ghost use Rattle.state_files.specs.Saving.{ImagesTell};

use std::alloc::AllocError;
use uecp_encoder::SavedState;

/// The state of an end that has an image: of an encoder over a store, or of a server.
pub trait Image: SavedState {
    // The image of an end that has come so far.
    ghost image: { Self.Progress → Self.End → List ℕ };

    // What each end is, so that its image tells what is kept of it.
    ghost is_end: { Self.Progress → Self.End → Type 0 };

    /// Adds the image of an end behind the bytes that are there.
    ///
    /// Errors: memory was refused.
    fn put(end: &Self::End, progress: Self::Progress, bytes: &mut Vec<u8>) -> Result<(), AllocError>
        ensures { OnOk result (bytes.new.items ≡ bytes.old.items ++ image progress end.now) };

    /// Does nothing: that images tell what is kept of ends, of which this is one.
    fn tells(end: &Self::End, progress: Self::Progress)
        ensures kept { ImagesTell image is_end Self.kept_of }
        ensures end { is_end progress end.now };
}
