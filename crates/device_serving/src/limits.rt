//! The limits of a device (profile).

/// The limits of a device.
#[derive(Clone, Copy, Debug)]
pub struct Limits {
    /// How many connections are served.
    pub connections: u64,
    /// How many reads one may take.
    pub turns: u32,
    /// Whether the store is told at the end.
    pub store: bool,
}
