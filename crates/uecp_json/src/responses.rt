//! What an encoder answers, as objects (profile).
ghost use Rattle.std.specs.Prelude.{flat_map};
ghost use Rattle.uecp_encoder.specs.Answering.{responses_of, Replied};
ghost use Rattle.uecp_json.specs.Findings.{response_line};
ghost use Rattle.uecp_text.specs.Written.{Adds};

use crate::findings::put_dropped;
use json_lines::{close_line, digits_field, flag_field, open_line, put_kind};
use uecp_encoder::What;
use uecp_text::Output;

/// The line of what an encoder answers, if it answers: a reply, new or kept; not for it; not numbered; not the next; or
/// no frame.
pub fn put_answer(what: What<'_>, output: &mut Output)
    ensures { Adds output.old output.new (flat_map response_line (responses_of what.entry)) }
{
    match what {
        What::Nothing => {}
        What::Reply(reply, fresh) => put_reply(reply.as_slice(), fresh, output),
        What::NotForMe => put_kind("not_for_me", output),
        What::Unnumbered => put_kind("unnumbered", output),
        What::NotNext => put_kind("not_next", output),
        What::Dropped(fault) => put_dropped(fault, output),
    }
}

/// The line of a reply.
#[tactic(auto, using(json_lines::proofs::Public::parts))]
fn put_reply(reply: &[u8], fresh: bool, output: &mut Output)
    ensures { Adds output.old output.new (response_line (Replied reply.now fresh)) }
{
    open_line("reply", output);
    flag_field("fresh", fresh, output);
    digits_field("reply", reply, output);
    close_line(output);
}
