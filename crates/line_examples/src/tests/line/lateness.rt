//! The edge of lateness: the frame of a number comes again while at most 126 messages were numbered after it.
use super::{delivered, frame, goes_over, is_taken, new_line, reply, steps};
use crate::tests::asserting::same;
use faulty_io::CountTarget;
use std::alloc::Global;
use std::process::Abort;
use std::test::Fail;
use uecp_elements::Code;
use uecp_link::{Line, LineRefusal, ServerCounts, Stepped};

/// A line on which 127 empty messages were sent, applied and acknowledged.
fn all_acknowledged(rt: &impl Abort, alloc: Global) -> Line<CountTarget> {
    let mut line = new_line(rt, alloc, CountTarget::default());
    for _ in 0..127 {
        is_taken(rt, &mut line, &[]);
        goes_over(rt, &mut line, Code::Applied);
    }
    line
}

/// The frame of this number is a repeat.
fn is_repeat(rt: &impl Abort, line: &mut Line<CountTarget>, number: usize) {
    steps(rt, line, &frame(number), delivered(false, Code::Applied));
}

#[test]
fn the_last_127_come_again(rt: HostRuntime) {
    let mut line = all_acknowledged(&rt, rt.alloc());
    for number in (0..127).rev() {
        is_repeat(&rt, &mut line, number);
        steps(&rt, &mut line, &reply(number), Ok(Stepped::Stray));
    }
    let counts = ServerCounts {
        acknowledged: 127,
        stray: 127,
        dropped: 0,
    };
    same!(rt; line.server().counts(), counts);
    same!(rt; line.encoder().counts().repeats, 127);
    same!(rt; line.encoder().target().messages, 127);
}

#[test]
fn the_128th_makes_the_first_too_late(rt: HostRuntime) -> Result<(), Fail> {
    let mut line = all_acknowledged(&rt, rt.alloc());
    is_taken(&rt, &mut line, &[]);
    steps(&rt, &mut line, &frame(0), Err(LineRefusal::TooLate));
    is_repeat(&rt, &mut line, 1);
    steps(&rt, &mut line, &frame(127), delivered(true, Code::Applied));
    is_repeat(&rt, &mut line, 1);
    same!(rt; line.encoder().target().messages, 128);
    Ok(())
}
