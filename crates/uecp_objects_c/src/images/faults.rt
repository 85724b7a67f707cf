//! Why bytes are not read as an image, as C is told. Source: profile.
ghost use Rattle.std.specs.Prelude.{◌≡◌};
ghost use Rattle.uecp_objects_c.specs.Images.{status_of};

use c_values::status::{DAMAGED_IMAGE, NEWER_IMAGE, NO_MEMORY, OTHER_IMAGE};
use end_images::ImageFault;

/// The status that says this fault.
pub(crate) fn status_of(fault: ImageFault) -> u8
    ensures { result ≡ status_of fault }
{
    match fault {
        ImageFault::Newer(_) => NEWER_IMAGE,
        ImageFault::OtherEnd => OTHER_IMAGE,
        ImageFault::Damaged => DAMAGED_IMAGE,
        ImageFault::OutOfMemory => NO_MEMORY,
    }
}
