//! What is said once, however often it is so (profile).
ghost use Rattle.std.specs.Prelude.{◌≡◌, false};
ghost use Rattle.device_edges.specs.Screen.{SaysFirst, SaysLine, SaysOnce, unsaid};
ghost use Rattle.device_edges.specs.Place.{TellsRoom};

use std::io::Write;
use std::marker::Model;
use uecp_encoder::Meter;

/// What is said of a connection that is another protocol's.
const FOREIGN: &[u8] =
    b"uecp: HTTP or TLS, not UECP: a connection is closed, and nothing of it is taken\n";

/// What is said where there is no descriptor or no memory for one more connection.
pub const NO_ROOM: &[u8] = b"uecp: too many files are open: who connects now waits\n";

/// Says something once, however often it is so: who comes again and again would fill what takes it.
#[derive(Drop)]
pub struct OnceNotice<W: Write> {
    writer: Meter<W>,
    is_told: bool,
}

impl<W: Write> Model for OnceNotice<W> {
    ghost use Rattle.device_edges.specs.Screen.{Notice};

    ghost Value = { Notice };

    ghost view = { λ n. record {
      said = W.contents n.writer.device;
      failures = n.writer.failures;
      is_told = n.is_told;
    } };
}

impl<W: Write> OnceNotice<W> {
    /// Will say it on this writer.
    pub fn new(writer: W) -> OnceNotice<W>
        ensures { result ≡ unsaid (W.contents writer) }
    {
        OnceNotice {
            writer: Meter::new(writer),
            is_told: false,
        }
    }

    /// A connection is done with that was another protocol's, or not: that one was is said, once of all.
    pub fn done(&mut self, is_foreign: bool)
        ensures { SaysOnce is_foreign self.old self.new }
    {
        if is_foreign {
            self.say_first(FOREIGN);
        }
    }

    /// The system was asked for one more connection, and lacked a descriptor or memory for it, or not: that it did is
    /// said, once until it did not.
    pub fn asked(&mut self, lacks: bool)
        ensures { TellsRoom lacks self.old self.new }
    {
        if lacks {
            self.say_first(NO_ROOM);
        } else {
            self.is_told = false;
        }
    }

    /// Says this line where it was not said before.
    fn say_first(&mut self, line: &[u8])
        ensures { SaysFirst line.now self.old.is_told self.old self.new }
    {
        if !self.is_told {
            self.say(line);
        }
    }

    /// Says this line.
    fn say(&mut self, line: &[u8])
        requires { self.old.is_told ≡ false }
        ensures { SaysLine line.now self.old self.new }
    {
        self.is_told = self.writer.write_whole(line).is_ok();
    }
}
