//! The options of the command `conformance` (profile).

/// The options of the command `conformance`.
#[derive(Debug, Drop, PartialEq, Eq)]
pub struct ConformanceOptions {
    /// Where the encoder listens: a name or an address, a colon, and a port from 1 to 65535.
    pub place: String,
    /// The encoder's site, 1 to 1023.
    pub site: u16,
    /// The encoder's number at its site, 1 to 63.
    pub encoder: u8,
    /// The name of a case or of a group, which alone is run; None: all are.
    pub only: Option<String>,
    /// How many milliseconds a connection may take to be made, and a reply to come, from 1.
    pub timeout: u32,
    /// After how many milliseconds in which nothing came a case is judged, from 1.
    pub quiet: u32,
    /// After how many seconds in which nothing came of a case at all the run ends, 1 to 86400.
    pub silent: u32,
    /// Whether what was sent, wanted and came of a case that is not kept is told too.
    pub verbose: bool,
    /// Whether it is told in objects of JSON.
    pub json: bool,
}
