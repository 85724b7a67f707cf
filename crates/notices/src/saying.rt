//! Where something is said. Source: profile.
ghost use Rattle.std.specs.Prelude.{◌≡◌, ℕ, List, flat_map};
ghost use Rattle.uecp_text.specs.Faults.{error_lines, status_of};
ghost use Rattle.uecp_text.specs.Written.{Begins};

use std::io::Write;
use uecp_text::{RunFault, report, write_parts};

/// Where is said what is no output, as standard error. What can't be written stops nothing and is answered nowhere.
pub trait Notices {
    /// From one state to another these bytes were said.
    ghost says: { Self → Self → List ℕ → Type 0 };

    /// Says the parts, one after another, as one text, with no memory.
    fn say(&mut self, parts: &[&[u8]])
        ensures { says self.old self.new (flat_map (λ part. part.now) parts.now) };

    /// Says why a run stopped, with no memory: a line, or nothing where what was written tells it.
    fn report(&mut self, fault: &RunFault)
        ensures { says self.old self.new (error_lines fault.now) };
}

impl<W: Write> Notices for W {
    ghost says = { λ before after bytes. Begins (W.contents before) (W.contents after) bytes };

    fn say(&mut self, parts: &[&[u8]]) {
        let _ = write_parts(parts, self);
    }

    fn report(&mut self, fault: &RunFault) {
        let _ = report(fault, self);
    }
}

/// Says why a run stopped, and answers its exit status.
///
/// ```
/// fail(&RunFault::Reading, &mut errors); // 3, and errors got "uecp: reading failed\n"
/// ```
pub fn fail<E: Notices>(fault: &RunFault, errors: &mut E) -> u8
    ensures status { result ≡ status_of fault.now }
    ensures said { E.says errors.old errors.new (error_lines fault.now) }
{
    errors.report(fault);
    fault.status()
}
