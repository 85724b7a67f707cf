//! A receiver hears lines (profile).
ghost use Rattle.std.specs.Prelude.{◌≡◌};
ghost use Rattle.rds_groups.specs.View.{receiver_of};
ghost use Rattle.receive_command.specs.GroupLines.{after_line, nothing_heard};

use crate::group_lines::group_line::GroupLine;
use rds_groups::{HeardGroup, Receiver};

/// The receiver hears what a line is. Where that is no group it heard nothing for the time of one.
pub fn hear_line(line: &GroupLine, receiver: &mut Receiver)
    ensures { receiver_of receiver.new ≡ after_line line.now (receiver_of receiver.old) }
{
    match line {
        GroupLine::Nothing => {}
        GroupLine::Group(group) => receiver.hear(group),
        GroupLine::NoGroup => receiver.hear(&nothing()),
    }
}

/// A group of which no block was heard.
fn nothing() -> HeardGroup
    ensures { result ≡ nothing_heard }
{
    HeardGroup {
        block1: None,
        block2: None,
        block3: None,
        block4: None,
    }
}
