//! Bytes of an image while it is made. Source: profile.
ghost use Rattle.std.specs.Prelude.{◌≡◌, ◌≤◌, ◌++◌, [], length, IfOk, IsTrue, OnOk, OnErr, true};
ghost use Rattle.uecp_frame.specs.Frame.{high_first};
ghost use Rattle.uecp_text.specs.Written.{Adds};
ghost use Rattle.end_images.specs.Images.{sealed, counted};

use std::alloc::{AllocError, Global};
use std::marker::Model;
use uecp_frame::{Address, check_of};

/// The bytes of an image so far. Once memory was refused it takes nothing more, and is whole no longer.
#[derive(Drop)]
pub(crate) struct Image {
    bytes: Vec<u8>,
    is_whole: bool,
}

impl Model for Image {
    ghost use Rattle.uecp_text.specs.Written.{Kept};

    ghost Value = { Kept };

    ghost view = { λ image. record { bytes = image.bytes.items; is_whole = image.is_whole } };
}

impl Image {
    /// No bytes yet.
    pub(crate) fn new(alloc: Global) -> Image
        ensures empty { result.bytes ≡ [] }
        ensures whole { result.is_whole ≡ true }
    {
        Image {
            bytes: Vec::new(alloc),
            is_whole: true,
        }
    }

    /// Adds bytes at the end.
    pub(crate) fn add(&mut self, bytes: &[u8])
        ensures { Adds self.old self.new bytes.now }
    {
        if self.is_whole {
            self.is_whole = self.bytes.extend_from_slice(bytes).is_ok();
        }
    }

    /// Adds an address, high byte first.
    pub(crate) fn add_address(&mut self, address: Address)
        ensures { Adds self.old self.new (high_first address) }
    {
        self.add(&address.value().to_be_bytes());
    }

    /// Adds bytes behind their number.
    pub(crate) fn add_counted(&mut self, bytes: &[u8])
        requires { length bytes.now ≤ 255 }
        ensures { Adds self.old self.new (counted bytes.now) }
    {
        self.add(&[bytes.len() as u8]);
        self.add(bytes);
    }

    /// Adds the check of the bytes so far, high byte first: so ends an image.
    #[tactic(auto, unfolding(crate::specs::Images::sealed))]
    pub(crate) fn seal(&mut self)
        ensures { IsTrue self.new.is_whole → IsTrue self.old.is_whole × (self.new.bytes ≡ sealed self.old.bytes) }
    {
        let check = check_of(self.bytes.as_slice());
        self.add(&check.to_be_bytes());
    }

    /// The bytes, where all were taken.
    pub(crate) fn whole(&self) -> Result<&[u8], AllocError>
        ensures { IfOk result (λ bytes. IsTrue self.now.is_whole × (bytes.now ≡ self.now.bytes)) }
    {
        if self.is_whole {
            Ok(self.bytes.as_slice())
        } else {
            Err(AllocError)
        }
    }
}

/// Adds the bytes of an image behind those that are there, all or none.
pub(crate) fn append(image: &Image, bytes: &mut Vec<u8>) -> Result<(), AllocError>
    ensures added { OnOk result (IsTrue image.now.is_whole × (bytes.new.items ≡ bytes.old.items ++ image.now.bytes)) }
    ensures unchanged { OnErr result (bytes.new.items ≡ bytes.old.items) }
{
    let whole = image.whole()?;
    bytes.extend_from_slice(whole)
}
