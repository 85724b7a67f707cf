//! The store of an encoder in words. Source: profile.
ghost use Rattle.std.specs.Prelude.{◌≡◌, IfOk};
ghost use Rattle.c_values.specs.Kinds.{encoder_of};
ghost use Rattle.c_values.specs.Calls.{Calls};
ghost use Rattle.uecp_objects_c.specs.Images.{Writes};
ghost use Rattle.uecp_objects_c.specs.StoreWords.{store_words};

use crate::images::image_buffer::tell;
use c_values::status::{EMPTY, NO_MEMORY, OTHER_KIND};
use c_values::{Handle, Object, put, take};
use rds_store::RdsStore;
use rds_text::Region;
use std::alloc::{AllocError, Global};
use store_phrases::put_store;
use uecp_encoder::Encoder;
use uecp_text::Output;

/// The lines of a store.
fn lines_of(alloc: Global, is_north_america: bool, store: &RdsStore) -> Result<Vec<u8>, AllocError>
    ensures { IfOk result (λ lines. lines.items ≡ store_words is_north_america store.now) }
{
    let region = if is_north_america {
        Region::NorthAmerica
    } else {
        Region::Europe
    };
    let mut output = Output::new(alloc);
    put_store(region, store, &mut output);
    output.check()?;
    let mut lines = Vec::new(alloc);
    match output.write_out(&mut lines) {
        Ok(()) => Ok(lines),
        Err(_) => Err(AllocError),
    }
}

/// Tells the lines of an encoder's store.
fn write(
    alloc: Global,
    is_north_america: bool,
    encoder: &Encoder<RdsStore>,
    out: &mut [u8],
    length: &mut usize,
) -> u8
    ensures { Writes (store_words is_north_america encoder.now.value) result length.old length.new out.old out.new }
{
    match lines_of(alloc, is_north_america, encoder.target()) {
        Ok(lines) => tell(lines.as_slice(), out, length),
        Err(_) => NO_MEMORY,
    }
}

/// Tells in `length` how many bytes the lines of phrases have that make the store of a handle's encoder, and puts them
/// at the start of `out`, in UTF-8, each with its line feed; `is_north_america` says whose names programme types have.
/// Where `out` is shorter than that, nothing is written there. The encoder stays as it was.
#[unsafe(no_mangle)]
pub extern "C" fn uecp_encoder_words(
    alloc: Global,
    handle: &mut Handle,
    is_north_america: bool,
    out: &mut [u8],
    length: &mut usize,
) -> u8
    ensures told { Calls (encoder_of handle.old.object.value) result
        ((length.new ≡ length.old) × (out.new ≡ out.old))
        (λ e. Writes (store_words is_north_america e.value) result length.old length.new out.old out.new) }
    ensures stays { handle.new.object.value ≡ handle.old.object.value }
{
    let Some(object) = take(alloc, handle) else {
        return EMPTY;
    };
    let status = match &*object {
        Object::Encoder(encoder) => write(alloc, is_north_america, encoder, out, length),
        _ => OTHER_KIND,
    };
    put(handle, object);
    status
}
