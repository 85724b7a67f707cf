//! How a case went, and what came of it (profile).
use conformance::Verdict;

/// How a case went.
#[derive(Clone, Copy, Debug, PartialEq, Eq)]
pub enum Went {
    /// The encoder was joined, all was sent, and this is the verdict on what came.
    Judged(Verdict),
    /// The encoder could not be joined, and nothing of the case was sent.
    NotJoined,
    /// The same, and not a byte came for as long as that is waited for.
    Silent,
    /// The encoder was joined, and 16384 reads of at most 64 bytes did not read away what it goes on to send. Nothing
    /// of the case was sent.
    Floods,
    /// The connection took so many bytes of the case and no more.
    NotSent(u64),
    /// All was sent, and after 16384 reads of at most 64 bytes there was still something to read.
    NotQuiet,
    /// All was sent, and there was no memory for all that came.
    NotHeard,
}

/// How a case went, and what came.
#[derive(Debug, Drop)]
pub struct Outcome {
    /// How it went.
    pub went: Went,
    /// How many bytes joining had left on the connection, which were read away before the case was sent.
    pub left: usize,
    /// What came behind that.
    pub came: Vec<u8>,
}
