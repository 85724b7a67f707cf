//! What comes of a segment (profile).

/// What comes of a segment on a bad line.
#[derive(Clone, Copy, Debug, PartialEq, Eq)]
pub struct Fate {
    /// How often it comes: 0, 1 or 2 times.
    pub copies: u8,
    /// The place of the byte that comes as another, from 1 to the length of the segment, if there is one.
    pub damaged: Option<usize>,
    /// Whether the connection breaks behind it.
    pub breaks: bool,
}
