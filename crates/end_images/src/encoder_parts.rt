//! The image of an encoder, read. Source: profile.
ghost use Rattle.std.specs.Prelude.{◌≡◌, ◌<◌, ◌↔◌, Some, None, [], length, IsTrue, IfOk, IfErr, IfSome, IsSomeAnd};
ghost use Rattle.std.specs.Prelude.{if◌then◌else◌};
ghost use Rattle.std.specs.Option.{option_map};
ghost use Rattle.rds_store.specs.Value.{Store};
ghost use Rattle.uecp_encoder.specs.State.{EncoderState, restarted};
ghost use Rattle.end_images.specs.Images.{encoder_content, encoder_image};
ghost use Rattle.end_images.specs.Reading.{IsOpenedStation, IsEncoder, EncoderRead, GivesBack};
ghost use Rattle.end_images.specs.Parsing.{encoder_says, encoder_parts, with_pairs, pair_kept, pairs_kept, Tells};
ghost use Rattle.end_images.specs.Parsing.{says_encoder, SaysStore, IsAsStarted, IsUnread, RingRead};

use crate::encoder_image::image_of_encoder;
use crate::fault::ImageFault;
use crate::parts::{ENCODER, SERVER, content_of, exact_of, split_off};
use rds_store::laws::messages_keep_sets_and_services;
use rds_store::{RdsStore, StoreFault};
use reply_ring::ReplyRing;
use std::alloc::Global;
use store_phrases::laws::{are_stations, made_again};
use uecp_elements::Code;
use uecp_elements::laws::codes_and_bytes;
use uecp_encoder::Encoder;

/// The parts of what an encoder's image says.
#[derive(Clone, Copy)]
pub(crate) struct EncoderParts<'a> {
    /// The address.
    pub(crate) address: u16,
    /// How many data sets there are.
    pub(crate) sets: u8,
    /// The services, in configured order.
    pub(crate) services: &'a [u8],
    /// The kept pairs, the oldest first.
    pub(crate) pairs: &'a [u8],
    /// The messages that make the store again, each behind its length.
    pub(crate) messages: &'a [u8],
}

/// Reads the image of an encoder, which is then as a start leaves it: nothing is counted or open.
///
/// Bytes that are the image of no such encoder are refused: `Newer` with their version where that is above 01, whatever
/// else they are; `OtherEnd` where they begin as a server's image and end with their check; else `Damaged`.
/// `OutOfMemory` where there was no memory.
///
/// ```
/// let encoder = read_encoder(alloc, image.as_slice())?;
/// ```
pub fn read_encoder(alloc: Global, bytes: &[u8]) -> Result<Encoder<RdsStore>, ImageFault>
    ensures read { EncoderRead bytes.now result }
    ensures complete { (e : EncoderState Store) → IsEncoder e → bytes.now ≡ encoder_image e
        → GivesBack result (restarted e) }
{
    match content_of(bytes, ENCODER, SERVER) {
        Err(fault) => Err(fault),
        Ok(content) => match encoder_in(alloc, content) {
            Err(fault) => Err(fault),
            Ok(encoder) => checked(alloc, encoder, bytes),
        },
    }
}

/// The encoder, where these bytes are its image.
fn checked(
    alloc: Global,
    encoder: Encoder<RdsStore>,
    bytes: &[u8],
) -> Result<Encoder<RdsStore>, ImageFault>
    ensures same { IfOk result (λ e. e ≡ encoder) }
    ensures image { IfOk result (λ e. bytes.now ≡ encoder_image encoder) }
    ensures fault { IfErr result IsUnread }
    ensures complete { bytes.now ≡ encoder_image encoder → GivesBack result encoder }
{
    if is_image(alloc, &encoder, bytes)? {
        Ok(encoder)
    } else {
        Err(ImageFault::Damaged)
    }
}

/// Whether these bytes are the image of the encoder.
fn is_image(alloc: Global, encoder: &Encoder<RdsStore>, bytes: &[u8]) -> Result<bool, ImageFault>
    ensures is { IfOk result (λ is. IsTrue is ↔ (bytes.now ≡ encoder_image encoder.now)) }
    ensures memory { IfErr result (λ fault. fault ≡ ImageFault.OutOfMemory) }
{
    let image = image_of_encoder(alloc, encoder);
    let whole = image.whole()?;
    Ok(whole == bytes)
}

/// The encoder that this content says.
fn encoder_in(alloc: Global, content: &[u8]) -> Result<Encoder<RdsStore>, ImageFault>
    ensures started { IfOk result IsAsStarted }
    ensures fault { IfErr result IsUnread }
    ensures complete { (e : EncoderState Store) → IsEncoder e → content.now ≡ encoder_content e
        → GivesBack result (restarted e) }
{
    match encoder_parts(content) {
        None => Err(ImageFault::Damaged),
        Some(parts) => encoder_of(alloc, &parts),
    }
}

/// The parts of an encoder's content. None where they are not all there.
fn encoder_parts(content: &[u8]) -> Option<EncoderParts<'_>>
    ensures { option_map encoder_says result ≡ encoder_parts content.now }
{
    let [high, low, sets, count, rest @ ..] = content else {
        return None;
    };
    let address = u16::from_be_bytes([*high, *low]);
    let (services, rest) = split_off(rest, usize::from(*count))?;
    parts_behind(address, *sets, services, rest)
}

/// The parts of an encoder's content, where this is what is behind its services. None where they are not all there.
fn parts_behind<'a>(
    address: u16,
    sets: u8,
    services: &'a [u8],
    rest: &'a [u8],
) -> Option<EncoderParts<'a>>
    ensures { option_map encoder_says result ≡ with_pairs address sets (Some (services.now, rest.now)) }
{
    let [count, rest @ ..] = rest else {
        return None;
    };
    let (pairs, messages) = split_off(rest, 2 * usize::from(*count))?;
    Some(EncoderParts {
        address,
        sets,
        services,
        pairs,
        messages,
    })
}

/// The encoder that these parts make.
fn encoder_of(alloc: Global, parts: &EncoderParts<'_>) -> Result<Encoder<RdsStore>, ImageFault>
    ensures started { IfOk result IsAsStarted }
    ensures fault { IfErr result IsUnread }
    ensures complete { (e : EncoderState Store) → IsEncoder e → encoder_says parts.now ≡ says_encoder e
        → GivesBack result (restarted e) }
{
    codes_and_bytes();
    let Some(address) = exact_of(parts.address) else {
        return Err(ImageFault::Damaged);
    };
    match ring_of(alloc, parts.pairs) {
        Err(fault) => Err(fault),
        Ok(ring) => match store_of(alloc, parts.sets, parts.services, parts.messages) {
            Err(fault) => Err(fault),
            Ok(store) => Ok(Encoder::resumed(address, store, ring)),
        },
    }
}

/// The store of these sets and services that the messages make.
fn store_of(
    alloc: Global,
    sets: u8,
    services: &[u8],
    messages: &[u8],
) -> Result<RdsStore, ImageFault>
    ensures station { IfOk result IsOpenedStation }
    ensures fault { IfErr result IsUnread }
    ensures complete { (v : Store) → IsOpenedStation v → SaysStore sets services.now messages.now v
        → GivesBack result v }
{
    made_again();
    are_stations();
    match RdsStore::new(alloc, sets, services) {
        Err(StoreFault::OutOfMemory) => Err(ImageFault::OutOfMemory),
        Err(_) => Err(ImageFault::Damaged),
        Ok(mut store) => {
            if tell(&mut store, messages) {
                Ok(store)
            } else {
                Err(ImageFault::Damaged)
            }
        }
    }
}

/// Applies messages, each behind its length, and answers whether each was applied.
fn tell(store: &mut RdsStore, messages: &[u8]) -> bool
    ensures told { (after : Store) → Tells store.old messages.now after → IsTrue result × (store.new ≡ after) }
    ensures station { IsOpenedStation store.old → IsOpenedStation store.new }
{
    let mut rest = messages;
    while !rest.is_empty() {
        match tell_first(store, rest) {
            None => return false,
            Some(more) => rest = more,
        }
    }
    true
}

/// Applies the first message, and gives the bytes behind it. None where it is not all there, or was not applied.
fn tell_first<'a>(store: &mut RdsStore, messages: &'a [u8]) -> Option<&'a [u8]>
    requires { 0 < length messages.now }
    ensures told { (after : Store) → Tells store.old messages.now after
        → IsSomeAnd result (λ more. Tells store.new more.now after) }
    ensures shorter { IfSome result (λ more. length more.now < length messages.now) }
    ensures station { IsOpenedStation store.old → IsOpenedStation store.new }
{
    are_stations();
    messages_keep_sets_and_services();
    let [count, more @ ..] = messages else {
        return None;
    };
    match split_off(more, usize::from(*count)) {
        None => None,
        Some((message, more)) => match store.apply(message) {
            Code::Applied => Some(more),
            _ => None,
        },
    }
}

/// The ring that keeps these pairs.
fn ring_of(alloc: Global, pairs: &[u8]) -> Result<ReplyRing, ImageFault>
    ensures { RingRead pairs.now result }
{
    let mut ring = ReplyRing::new(alloc)?;
    if keep_pairs(&mut ring, pairs) {
        prove!(ring.len() <= 127);
        Ok(ring)
    } else {
        Err(ImageFault::Damaged)
    }
}

/// Keeps pairs in turn, and answers whether each could be kept.
fn keep_pairs(ring: &mut ReplyRing, pairs: &[u8]) -> bool
    ensures { (if result then Some ring.new else None) ≡ pairs_kept ring.old pairs.now }
{
    let mut rest = pairs;
    while let [counter, byte, more @ ..] = rest {
        if !keep_pair(ring, *counter, *byte) {
            return false;
        }
        rest = more;
    }
    rest.is_empty()
}

/// Keeps a pair of a counter and a code's byte, and answers whether it could be kept.
fn keep_pair(ring: &mut ReplyRing, counter: u8, byte: u8) -> bool
    ensures { (if result then Some ring.new else None) ≡ pair_kept ring.old counter byte }
{
    if counter == 0 || ring.find(counter).is_some() {
        return false;
    }
    match Code::from_byte(byte) {
        None => false,
        Some(code) => {
            ring.keep(counter, code);
            true
        }
    }
}
