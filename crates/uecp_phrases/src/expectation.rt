//! What may stand at a place of a line (profile).

/// What may stand at a place of a line of phrases.
#[derive(Clone, Copy, Debug, PartialEq, Eq)]
pub enum Expectation {
    /// The first word of a phrase, `in` or `for`.
    FirstWord,
    /// `for`, or the first word of a phrase that acts in a data set.
    WordInSet,
    /// The first word of a phrase that acts for a programme service.
    WordForService,
    /// What names a data set.
    DataSet,
    /// What names a programme service.
    Service,
    /// A byte.
    TwoDigits,
    /// A number of 16 bits.
    FourDigits,
    /// A programme service name.
    Name,
    /// The text of a RadioText.
    Text,
    /// What stands behind `rt`.
    RadioText,
    /// The word `bits`.
    Bits,
    /// What stands behind `traffic`.
    Traffic,
    /// What stands behind `ta` and `tp`.
    Switch,
    /// What stands behind `pty`.
    ProgrammeType,
    /// A choice behind a RadioText, or the end of the phrase: which choices may still be made.
    Choice {
        /// `add` may.
        add: bool,
        /// `same` may.
        same: bool,
        /// `times` may.
        times: bool,
    },
    /// How often a RadioText is sent.
    Times,
    /// What stands behind `group`.
    GroupType,
    /// The last five bits of a group's block 2.
    FiveBits,
    /// `add` behind a group, or the end of the phrase.
    Added,
    /// One more byte behind `raw`, or the end of the phrase.
    AnotherByte,
    /// The end of the phrase: a semicolon, or the end of the line.
    End,
    /// A further phrase, where the line says a message already.
    Semicolon,
    /// A line whose message fits.
    ShortMessage,
}

impl Expectation {
    /// How it is said behind the word "expected".
    ///
    /// ```
    /// Expectation::Times.text(); // a number of times, 0 to 15
    /// ```
    pub fn text(self) -> &'static str {
        match self {
            Expectation::FirstWord => "the first word of a phrase",
            Expectation::WordInSet => "for, pi, ps, rt, traffic, ta, tp, music, speech, ms or pty",
            Expectation::WordForService => "pi, ps, rt, traffic, ta, tp, music, speech, ms or pty",
            Expectation::DataSet => "a data set: its number, others or all",
            Expectation::Service => "a programme service: two hexadecimal digits",
            Expectation::TwoDigits => "two hexadecimal digits",
            Expectation::FourDigits => "four hexadecimal digits",
            Expectation::Name => "a text between quotes of at most 8 bytes",
            Expectation::Text => "a text between quotes",
            Expectation::RadioText => "a text between quotes, clear or bits",
            Expectation::Bits => "bits",
            Expectation::Traffic => "none, eon, programme, announcement or bits",
            Expectation::Switch => "on or off",
            Expectation::ProgrammeType => {
                "a name of a programme type between quotes, a number up to 31, or bits"
            }
            Expectation::Choice { add, same, times } => choice_text(add, same, times),
            Expectation::Times => "a number of times, 0 to 15",
            Expectation::GroupType => "a type of group, 0A to 15B, or bits",
            Expectation::FiveBits => "two hexadecimal digits, 00 to 1F",
            Expectation::Added => "add or the end of the phrase",
            Expectation::AnotherByte => "two hexadecimal digits or the end of the phrase",
            Expectation::End => "the end of the phrase",
            Expectation::Semicolon => "a semicolon",
            Expectation::ShortMessage => "a message of at most 255 bytes",
        }
    }
}

/// How the choices that may still be made are said.
fn choice_text(add: bool, same: bool, times: bool) -> &'static str {
    match (add, same, times) {
        (true, true, true) => "add, same, times or the end of the phrase",
        (true, true, false) => "add, same or the end of the phrase",
        (true, false, true) => "add, times or the end of the phrase",
        (true, false, false) => "add or the end of the phrase",
        (false, true, true) => "same, times or the end of the phrase",
        (false, true, false) => "same or the end of the phrase",
        (false, false, true) => "times or the end of the phrase",
        (false, false, false) => "the end of the phrase",
    }
}
