//! The options of the command `encoder` (profile).

use output_forms::Form;

/// The options of the command `encoder`, those of a device that runs for long among them.
#[derive(Debug, Drop, PartialEq, Eq)]
pub struct EncoderOptions {
    /// The encoder's site, 1 to 1023.
    pub site: u16,
    /// The encoder's number at its site, 1 to 63.
    pub encoder: u8,
    /// How many data sets it has, 1 to 8.
    pub sets: u8,
    /// The numbers of its services, the main one first.
    pub services: Vec<u8>,
    /// Where it listens: an address, or an address and a port; 127.0.0.1 where that is left out.
    pub listen: Option<String>,
    /// The port on which it listens, 1 to 65535, where it is given apart.
    pub port: Option<u16>,
    /// The port at which the groups go out as they are on the air, 1 to 65535, if they do.
    pub air: Option<u16>,
    /// Whether they go out as bits.
    pub air_bits: bool,
    /// How many connections are served, 1 to 1000.
    pub connections: u32,
    /// How many reads one connection may take, 1 to 1000000.
    pub turns: u32,
    /// Whether connections are served without end, and each takes as many reads as can be counted.
    pub forever: bool,
    /// After how many seconds with nothing read a connection is closed; 0 for never.
    pub idle: u32,
    /// After how many seconds a connection gives way to one that waits, 0 for never; where it is left out, a device's
    /// own.
    pub yield_after: Option<u32>,
    /// From where connections are taken, addresses and networks; from anywhere where it is left out.
    pub allow: Option<String>,
    /// Whether it is told what comes and what becomes of it.
    pub log: bool,
    /// For how many seconds it waits for whoever reads that, 0 for not at all; where it is left out, a device's own.
    pub log_wait: Option<u32>,
    /// In which form it is told.
    pub form: Form,
    /// Whether it is told behind the time.
    pub time: bool,
    /// Whether the store is told at the end.
    pub store: bool,
    /// The file with the rules of a bad line, if there is one.
    pub faults: Option<String>,
    /// The number that chance begins with on a bad line.
    pub seed: u32,
    /// The file in which the encoder is kept, if it is.
    pub state: Option<String>,
}
