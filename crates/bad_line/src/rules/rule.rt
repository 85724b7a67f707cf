//! What a bad line does (profile).

/// A direction of a control line.
#[derive(Clone, Copy, Debug, PartialEq, Eq)]
pub enum Way {
    /// From the server to the encoder, whose segments are frames.
    Frame,
    /// From the encoder to the server, whose segments are replies.
    Reply,
}

/// Segments that come one after another in one direction, by their numbers; the first of a line has the number 1.
#[derive(Clone, Copy, Debug, PartialEq, Eq)]
pub struct Span {
    /// The number of the first.
    pub first: u32,
    /// The number of the last.
    pub last: u32,
}

/// One thing that a bad line does. The segments of each direction are counted from 1, and so are the bytes of one.
#[derive(Clone, Copy, Debug, PartialEq, Eq)]
pub enum Rule {
    /// These segments are lost.
    Lose(Way, Span),
    /// Each of these segments comes twice.
    Repeat(Way, Span),
    /// Of the segment of this number the byte at this place comes as another.
    Damage(Way, u32, u32),
    /// The connection breaks behind the segment of this number.
    BreakAfter(Way, u32),
    /// Each segment from this number on comes so many milliseconds later, and none waits for another.
    Delay(u64, u32),
    /// Each segment from this number on is held so many milliseconds, one behind the other.
    Pace(u64, u32),
    /// For so many milliseconds from the start no connection is taken.
    RefuseConnections(u64),
    /// Of a hundred segments from this number on so many are lost, by chance.
    LoseByChance(u32, u32),
    /// Of a hundred segments from this number on so many come with one byte changed, by chance.
    DamageByChance(u32, u32),
    /// The encoder begins anew behind the frame of this number.
    RestartAfter(u32),
}

/// Why a text is no rule.
#[derive(Clone, Copy, Debug, PartialEq, Eq)]
pub enum RuleFault {
    /// Its words say no rule.
    NotARule,
}
