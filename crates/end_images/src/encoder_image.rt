//! The image of an encoder, written. Source: profile.
ghost use Rattle.std.specs.Prelude.{◌≡◌, ◌+◌, ◌++◌, ◌∷◌, ◌<◌, length, drop, IsTrue, OnOk, OnErr};
ghost use Rattle.uecp_elements.specs.Grammar.{spelling};
ghost use Rattle.uecp_text.specs.Written.{Kept, Adds};
ghost use Rattle.end_images.specs.Images.{version, encoder_kind, encoder_content, encoder_image, counted, pair_bytes};

use crate::image::{Image, append};
use crate::parts::{ENCODER, VERSION};
use arrayvec::ArrayVec;
use rds_store::RdsStore;
use reply_ring::ReplyRing;
use std::alloc::{AllocError, Global};
use store_phrases::{ElementForm, put_elements};
use uecp_elements::{Element, push_element};
use uecp_encoder::Encoder;
use uecp_frame::Message;

/// How many services a store has at most.
const SERVICES_MAX: usize = 8;

/// Each element as the message that it alone is, behind its length.
#[derive(Clone, Copy)]
struct Messages;

impl ElementForm for Messages {
    type Out = Image;

    ghost kept = { λ image. image };

    ghost bytes = { λ form element. counted (spelling element) };

    fn put(&self, element: &Element<'_>, image: &mut Image) {
        let mut message = Message::new();
        if push_element(&mut message, element).is_err() {
            unreachable!();
        }
        image.add_counted(message.bytes());
    }
}

/// Adds the image of an encoder behind the bytes that are there: its address, its store and its kept replies, and
/// neither its counts nor what is open; and their check. Where memory is refused, the bytes are as before.
///
/// ```
/// let mut image = Vec::new(alloc);
/// put_encoder(&encoder, &mut image)?; // 01 45 ..
/// ```
pub fn put_encoder(encoder: &Encoder<RdsStore>, bytes: &mut Vec<u8>) -> Result<(), AllocError>
    ensures added { OnOk result (bytes.new.items ≡ bytes.old.items ++ encoder_image encoder.now) }
    ensures unchanged { OnErr result (bytes.new.items ≡ bytes.old.items) }
{
    let image = image_of_encoder(*bytes.allocator(), encoder);
    append(&image, bytes)
}

/// The image of an encoder.
pub(crate) fn image_of_encoder(alloc: Global, encoder: &Encoder<RdsStore>) -> Image
    ensures { IsTrue result.is_whole → result.bytes ≡ encoder_image encoder.now }
{
    let mut image = Image::new(alloc);
    add_encoder(encoder, &mut image);
    image.seal();
    image
}

/// Adds the image of an encoder up to its check.
fn add_encoder(encoder: &Encoder<RdsStore>, image: &mut Image)
    ensures { Adds image.old image.new (version ∷ encoder_kind ∷ encoder_content encoder.now) }
{
    let store = encoder.target();
    image.add(&[VERSION, ENCODER]);
    image.add_address(encoder.address());
    image.add(&[store.set_count()]);
    image.add_counted(services_of(store).as_slice());
    image.add(&[encoder.kept().len() as u8]);
    add_pairs(encoder.kept(), image);
    put_elements(&Messages, store, image);
}

/// The services of a store, in configured order.
fn services_of(store: &RdsStore) -> ArrayVec<u8, SERVICES_MAX>
    ensures { result.items ≡ store.now.services }
{
    let mut services = ArrayVec::new();
    let mut place = 0;
    while let Some(number) = store.service_number(place) {
        services.push(number);
        place += 1;
    }
    services
}

/// Adds the kept pairs, the oldest first.
fn add_pairs(ring: &ReplyRing, image: &mut Image)
    ensures { Adds image.old image.new (pair_bytes ring.now) }
{
    let mut place = ring.len();
    while place > 0 {
        place -= 1;
        add_pair(ring, place, image);
    }
}

/// Adds the pair at a place, where those behind it were added: its counter and the byte of its code.
fn add_pair(ring: &ReplyRing, place: usize, image: &mut Image)
    requires { place < length ring.now }
    ensures { (before : Kept) → Adds before image.old (pair_bytes (drop (place + 1) ring.now))
        → Adds before image.new (pair_bytes (drop place ring.now)) }
{
    if let Some((counter, code)) = ring.pair(place) {
        image.add(&[counter, code.byte()]);
    }
}
