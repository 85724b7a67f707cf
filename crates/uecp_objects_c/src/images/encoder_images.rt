//! The image of an encoder. Source: profile.
ghost use Rattle.std.specs.Prelude.{◌≡◌, Some, None};
ghost use Rattle.rds_store.specs.Value.{Store};
ghost use Rattle.uecp_encoder.specs.State.{EncoderState, restarted};
ghost use Rattle.end_images.specs.Images.{encoder_image};
ghost use Rattle.end_images.specs.Reading.{IsEncoder};
ghost use Rattle.c_values.specs.declared.object.Object.TheVariants as object;
ghost use Rattle.c_values.specs.Kinds.{encoder_of};
ghost use Rattle.c_values.specs.Calls.{Calls};
ghost use Rattle.uecp_objects_c.specs.Images.{Writes, ReadsEncoder, IsBack};

use crate::images::faults::status_of;
use crate::images::image_buffer::tell;
use c_values::status::{DONE, EMPTY, NO_MEMORY, OCCUPIED, OTHER_KIND};
use c_values::{Handle, Object, put, take};
use end_images::{put_encoder, read_encoder};
use rds_store::RdsStore;
use std::alloc::Global;
use uecp_encoder::Encoder;

/// Tells the image of an encoder.
fn write(alloc: Global, encoder: &Encoder<RdsStore>, out: &mut [u8], length: &mut usize) -> u8
    ensures { Writes (encoder_image encoder.now) result length.old length.new out.old out.new }
{
    let mut image = Vec::new(alloc);
    match put_encoder(encoder, &mut image) {
        Ok(()) => tell(image.as_slice(), out, length),
        Err(_) => NO_MEMORY,
    }
}

/// Tells in `length` how many bytes the image of a handle's encoder has, and puts it at the start of `out`. Where `out`
/// is shorter than that, nothing is written there. The encoder stays as it was.
#[unsafe(no_mangle)]
pub extern "C" fn uecp_encoder_image(
    alloc: Global,
    handle: &mut Handle,
    out: &mut [u8],
    length: &mut usize,
) -> u8
    ensures told { Calls (encoder_of handle.old.object.value) result
        ((length.new ≡ length.old) × (out.new ≡ out.old))
        (λ e. Writes (encoder_image e) result length.old length.new out.old out.new) }
    ensures stays { handle.new.object.value ≡ handle.old.object.value }
{
    let Some(object) = take(alloc, handle) else {
        return EMPTY;
    };
    let status = match &*object {
        Object::Encoder(encoder) => write(alloc, encoder, out, length),
        _ => OTHER_KIND,
    };
    put(handle, object);
    status
}

/// Puts the encoder that these bytes are the image of into a handle that has nothing, as a start leaves it: nothing is
/// counted or open.
#[unsafe(no_mangle)]
pub extern "C" fn uecp_encoder_of_image(alloc: Global, handle: &mut Handle, bytes: &[u8]) -> u8
    ensures read { ReadsEncoder handle.old.object.value handle.new.object.value bytes.now result }
    ensures complete { handle.old.object.value ≡ None → (e : EncoderState Store) → IsEncoder e
        → bytes.now ≡ encoder_image e
        → IsBack handle.new.object.value result (object.Encoder (restarted e)) }
{
    if let Some(object) = take(alloc, handle) {
        put(handle, object);
        return OCCUPIED;
    }
    let encoder = match read_encoder(alloc, bytes) {
        Ok(encoder) => encoder,
        Err(fault) => return status_of(fault),
    };
    match Box::new(alloc, Object::Encoder(encoder)) {
        Ok(object) => {
            put(handle, object);
            DONE
        }
        Err(_) => NO_MEMORY,
    }
}
