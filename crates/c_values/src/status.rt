//! What a call answers. Source: profile.

/// The call did what it is for.
pub const DONE: u8 = 0;

/// A new object was to go into a handle that has one.
pub const OCCUPIED: u8 = 1;

/// The handle has no object.
pub const EMPTY: u8 = 2;

/// The handle's object is of another kind than the call is for.
pub const OTHER_KIND: u8 = 3;

/// There was no memory.
pub const NO_MEMORY: u8 = 4;

/// Site and encoder are not one encoder's own address.
pub const NO_ADDRESS: u8 = 5;

/// Behind it come the faults of a store, by their numbers from 1.
pub const BEFORE_STORE_FAULTS: u8 = 5;

/// A message has more than 255 bytes.
pub const MESSAGE_LENGTH: u8 = 10;

/// Eight messages are held.
pub const WINDOW_FULL: u8 = 11;

/// There is no such set, service, text or group.
pub const NOT_THERE: u8 = 12;

/// Bytes are an image whose version is above 01: a newer program has written it.
pub const NEWER_IMAGE: u8 = 13;

/// Bytes are the image of an object of the other kind, or begin and end as one.
pub const OTHER_IMAGE: u8 = 14;

/// Bytes are no image.
pub const DAMAGED_IMAGE: u8 = 15;
