//! Why bytes are not read as an image. Source: profile.
ghost use Rattle.std.specs.Prelude.{◌≡◌};

use std::alloc::AllocError;

/// Why bytes are not read as the image of an end, in the order in which it is looked for.
#[derive(Clone, Copy, Debug, PartialEq, Eq)]
pub enum ImageFault {
    /// The first byte is a version above 01: a newer program has written it.
    Newer(u8),
    /// They begin as the image of the other end, and end with their check.
    OtherEnd,
    /// They are the image of no end of this kind.
    Damaged,
    /// There was no memory for what they say.
    OutOfMemory,
}

impl From<AllocError> for ImageFault {
    ghost use Rattle.end_images.specs.declared.fault.ImageFault.TheVariants.{OutOfMemory};

    ghost from_gives = { λ _ fault. fault ≡ OutOfMemory };

    /// No memory.
    fn from(_fault: AllocError) -> ImageFault {
        ImageFault::OutOfMemory
    }
}
