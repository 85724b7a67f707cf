//! An image into a buffer. Source: profile.
ghost use Rattle.std.specs.Prelude.{◌≡◌, OnOk, OnErr};
ghost use Rattle.uecp_objects_c.specs.Images.{Writes};

use c_values::buffer::put;
use c_values::status::DONE;

/// Puts bytes at the start of a buffer where they fit, and tells how many they are.
pub(crate) fn tell(bytes: &[u8], out: &mut [u8], length: &mut usize) -> u8
    ensures { Writes bytes.now result length.old length.new out.old out.new }
{
    *length = put(bytes, out);
    DONE
}
