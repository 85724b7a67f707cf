//! The laws of images, each the contract of a function that does nothing (profile).
ghost use Rattle.end_images.specs.Laws.{SaysEncoder, SaysServer, NoticesAChange, AreEncoders};

use rds_store::laws::messages_keep_sets_and_services;
use store_phrases::laws::{are_stations, made_again};
use uecp_elements::laws::codes_and_bytes;

/// Read after written is the same: encoders with one image are one encoder, but for what a start forgets.
pub fn encoder_again()
    ensures { SaysEncoder }
{
    codes_and_bytes();
    made_again();
}

/// Read after written is the same: servers with one image are one server, but for what a start forgets, and have what
/// was kept beside them.
pub fn server_again()
    ensures { SaysServer }
{}

/// The check that ends an image notices a change of one byte of it, and of two that are neighbours.
pub fn a_change_is_noticed()
    ensures { NoticesAChange }
{}

/// Each encoder of a store is one whose image is read: a new one is, and bytes, takes, a lost line and a start leave
/// one.
pub fn are_encoders()
    ensures { AreEncoders }
{
    are_stations();
    messages_keep_sets_and_services();
}
