//! How cases are run and told (profile).
use uecp_frame::Address;

/// How cases are run and told. A read in which nothing came takes the quiet time.
#[derive(Debug, Drop)]
pub struct Way {
    /// The encoder's own address.
    pub own: Address,
    /// How many reads in which nothing came are made where something is missing, from 1.
    pub patience: u32,
    /// How many are made where nothing came at all.
    pub silent: u32,
    /// How many seconds these take.
    pub seconds: u32,
    /// Whether it is told in objects of JSON.
    pub json: bool,
    /// Whether what was sent, wanted and came of a case that is not kept is told too.
    pub verbose: bool,
}
