//! The command `show` (profile).
ghost use Rattle.std.specs.Prelude.{◌≡◌, [], flat_map};
ghost use Rattle.uecp_frame.specs.Findings.{Closed};
ghost use Rattle.uecp_frame.specs.Beyond.{found_beyond, open_beyond};
ghost use Rattle.uecp_text.specs.Written.{Adds};
ghost use Rattle.uecp_jobs.specs.Commands.{ShowsIn};
ghost use Rattle.output_forms.specs.Forms.{found_lines};

use output_forms::{Form, put_found};
use std::alloc::Global;
use uecp_frame::Deframer;
use uecp_text::{Interpreter, Output, PieceBuffer, Taken, TextFault, rest_after};

/// Says what frames and elements stand in pieces, as one stream.
#[derive(Drop)]
pub struct Showing {
    deframer: Deframer,
    form: Form,
    /// Room for one piece after another.
    room: PieceBuffer,
}

impl Showing {
    /// No piece came yet.
    pub fn new(alloc: Global, form: Form) -> Showing
        ensures { (result.deframer ≡ Closed) × (result.form ≡ form) }
    {
        Showing {
            deframer: Deframer::new(),
            form,
            room: PieceBuffer::new(alloc),
        }
    }
}

impl Interpreter for Showing {
    ghost meaning = { λ s text outcome s'. ShowsIn (found_lines s.form) s.deframer text outcome s'.deframer
        × (s'.form ≡ s.form) };

    ghost closing = { λ _. [] };

    #[inline(always)]
    fn take(
        &mut self,
        _alloc: Global,
        text: &[u8],
        output: &mut Output,
    ) -> Result<Taken, TextFault> {
        let piece = self.room.read(text)?;
        show_piece(self.form, &mut self.deframer, piece, output);
        output.check()?;
        Ok(Taken::GoesOn)
    }

    fn close(&self, _output: &mut Output) {}
}

/// Shows what one piece ends.
fn show_piece(form: Form, deframer: &mut Deframer, piece: &[u8], output: &mut Output)
    ensures lines { Adds output.old output.new (flat_map (found_lines form) (found_beyond deframer.old piece.now)) }
    ensures left { open_beyond deframer.old piece.now ≡ deframer.new }
{
    let mut rest = piece;
    while !rest.is_empty() {
        let fed = deframer.feed(rest);
        rest = rest_after(rest, fed.used);
        put_found(form, &fed.found, output);
    }
}
