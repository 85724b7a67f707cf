//! Reply codes: what a message came to. Source: profile.
ghost use Rattle.std.specs.Prelude.{◌≡◌, ◌≢◌, Some, IfSome, IfNone};
ghost use Rattle.uecp_elements.specs.Codes.{byte_of, code_of_byte};
ghost use Rattle.uecp_elements.specs.declared.code.Code.TheVariants.{Applied};

/// What a message came to, in the order of the bytes by which an encoder says so.
#[derive(Clone, Copy, Debug, PartialEq, Eq, Hash)]
pub enum Code {
    /// 00: every element was applied.
    Applied,
    /// 03: no element begins with the byte where one was to begin.
    UnknownElement,
    /// 04: there is no data set of that number, or a select names several.
    DataSet,
    /// 05: the service is not listed.
    Service,
    /// 06: a programme type or a group type above 1F, or a buffer rule that has no meaning.
    OutOfRange,
    /// 07: a RadioText's length is above 41, or the message ends inside the element.
    ElementLength,
    /// 09: an acknowledgement was sent to the encoder.
    NotHere,
    /// 0B: what was to be added finds its buffer full.
    BufferFull,
}

impl Code {
    /// The byte that stands for the code: `Code::BufferFull.byte()` is 0B.
    #[tactic(auto, unfolding(crate::specs::Codes::code_of_byte))]
    pub fn byte(self) -> u8
        ensures value { result ≡ byte_of self }
        ensures read_back { code_of_byte result ≡ Some self }
    {
        match self {
            Code::Applied => 0x00,
            Code::UnknownElement => 0x03,
            Code::DataSet => 0x04,
            Code::Service => 0x05,
            Code::OutOfRange => 0x06,
            Code::ElementLength => 0x07,
            Code::NotHere => 0x09,
            Code::BufferFull => 0x0b,
        }
    }

    /// The code that the byte stands for, or None where it stands for none, as for `Code::from_byte(0x08)`.
    #[tactic(auto, unfolding(crate::specs::Codes::code_of_byte))]
    pub fn from_byte(byte: u8) -> Option<Code>
        ensures value { result ≡ code_of_byte byte }
        ensures some { IfSome result (λ code. byte_of code ≡ byte) }
        ensures none { IfNone result ((code : Code) → byte_of code ≢ byte) }
    {
        match byte {
            0x00 => Some(Code::Applied),
            0x03 => Some(Code::UnknownElement),
            0x04 => Some(Code::DataSet),
            0x05 => Some(Code::Service),
            0x06 => Some(Code::OutOfRange),
            0x07 => Some(Code::ElementLength),
            0x09 => Some(Code::NotHere),
            0x0b => Some(Code::BufferFull),
            _ => None,
        }
    }
}

impl Default for Code {
    ghost is_default = { λ code. code ≡ Applied };

    /// What stands in a place of a fixed room where no code is held: `Applied`.
    fn default() -> Code {
        Code::Applied
    }
}
