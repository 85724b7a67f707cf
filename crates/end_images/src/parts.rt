//! How an image comes apart. Source: profile.
ghost use Rattle.std.specs.Prelude.{◌≡◌, ◌∷◌, ℕ, List, IfOk, IfErr, IfSome, IfNone};
ghost use Rattle.std.specs.Option.{option_map};
ghost use Rattle.end_images.specs.Images.{version, sealed};
ghost use Rattle.end_images.specs.Reading.{IsFaultOf, IsWhole};
ghost use Rattle.end_images.specs.Parsing.{halves_of, split_off, exact_of};

use crate::fault::ImageFault;
use uecp_frame::{Address, check_of};

/// The version of the layout that is written and read here.
pub(crate) const VERSION: u8 = 0x01;

/// The kind of an encoder's image.
pub(crate) const ENCODER: u8 = 0x45;

/// The kind of a server's image.
pub(crate) const SERVER: u8 = 0x53;

/// What is between the kind and the check of an image of this kind.
#[tactic(auto, unfolding(crate::specs::Images::sealed))]
pub(crate) fn content_of(bytes: &[u8], kind: u8, other: u8) -> Result<&[u8], ImageFault>
    ensures content { IfOk result (λ content. bytes.now ≡ sealed (version ∷ kind ∷ content.now)) }
    ensures fault { IfErr result (λ fault. IsFaultOf kind other bytes.now fault × (IsWhole kind bytes.now → ⊥)) }
{
    if let [newer, ..] = bytes
        && *newer > VERSION
    {
        return Err(ImageFault::Newer(*newer));
    }
    match unsealed(bytes) {
        Some([VERSION, found, content @ ..]) if *found == kind => Ok(content),
        Some([VERSION, found, ..]) if *found == other => Err(ImageFault::OtherEnd),
        _ => Err(ImageFault::Damaged),
    }
}

/// The bytes before the check that ends them. None where it is the check of others, or there is no room for one.
#[tactic(auto, unfolding(crate::specs::Images::sealed))]
fn unsealed(bytes: &[u8]) -> Option<&[u8]>
    ensures body { IfSome result (λ body. bytes.now ≡ sealed body.now) }
    ensures none { IfNone result ((body : List ℕ) → bytes.now ≡ sealed body → ⊥) }
{
    let [body @ .., high, low] = bytes else {
        return None;
    };
    if u16::from_be_bytes([*high, *low]) == check_of(body) {
        Some(body)
    } else {
        None
    }
}

/// So many bytes, and those behind them. None where there are fewer.
#[tactic(auto, unfolding(crate::specs::Parsing::split_off))]
pub(crate) fn split_off(bytes: &[u8], count: usize) -> Option<(&[u8], &[u8])>
    ensures { option_map halves_of result ≡ split_off count bytes.now }
{
    if bytes.len() < count {
        return None;
    }
    Some(bytes.split_at(count))
}

/// The address of this value, where it is one encoder's own.
pub(crate) fn exact_of(value: u16) -> Option<Address>
    ensures { result ≡ exact_of value }
{
    let address = Address::new(value / 64, (value % 64) as u8)?;
    if address.is_exact() {
        Some(address)
    } else {
        None
    }
}
