//! Bytes into a buffer. Source: profile.
ghost use Rattle.std.specs.Prelude.{◌≡◌, length};
ghost use Rattle.c_values.specs.Buffers.{filled};

/// Puts the bytes at the start of the buffer, or none of them where it is too short, and tells how many they are.
///
/// ```
/// let mut buffer = [0; 4];
/// put(b"abc", &mut buffer); // 3, and the buffer is 61 62 63 00
/// put(b"abcde", &mut buffer); // 5, and the buffer is as it was
/// ```
pub fn put(bytes: &[u8], buffer: &mut [u8]) -> usize
    ensures length { result ≡ length bytes.now }
    ensures put { buffer.new ≡ filled bytes.now buffer.old }
{
    if bytes.len() <= buffer.len() {
        buffer[..bytes.len()].copy_from_slice(bytes);
    }
    bytes.len()
}
