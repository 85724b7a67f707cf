//! What an encoder answers, as lines (profile).
ghost use Rattle.std.specs.Prelude.{flat_map};
ghost use Rattle.uecp_encoder.specs.Answering.{responses_of};
ghost use Rattle.uecp_lines.specs.Lines.{response_line};
ghost use Rattle.uecp_text.specs.Written.{Adds};

use crate::finding_lines::put_fault;
use uecp_encoder::What;
use uecp_text::Output;

/// The line of what an encoder answers, if it answers: a reply, new or kept; not for it; not numbered; not the next; or
/// no frame.
#[inline(always)]
pub fn put_answer(what: What<'_>, output: &mut Output)
    ensures { Adds output.old output.new (flat_map response_line (responses_of what.entry)) }
{
    match what {
        What::Nothing => {}
        What::Reply(reply, fresh) => {
            output.text("reply");
            output.row(reply.as_slice());
            output.text(if fresh { " new\n" } else { " kept\n" });
        }
        What::NotForMe => output.text("not for me\n"),
        What::Unnumbered => output.text("unnumbered\n"),
        What::NotNext => output.text("not next\n"),
        What::Dropped(fault) => put_fault(fault, output),
    }
}
