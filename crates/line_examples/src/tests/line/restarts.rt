//! Ends that start again, and go on from what they kept.
use super::{acknowledged, delivered, frame, is_taken, new_store_line, reply, steps};
use crate::tests::asserting::same;
use rds_store::RdsStore;
use std::process::Abort;
use uecp_elements::Code;
use uecp_encoder::Counts;
use uecp_link::{Line, LineEvent, ServerCounts, Stepped};

/// Two messages wait, one of which was applied; each end starts again, and all goes on.
fn goes_on(rt: &impl Abort, line: &mut Line<RdsStore>) {
    is_taken(rt, line, &[0x99]);
    is_taken(rt, line, &[]);
    steps(rt, line, &frame(0), delivered(true, Code::UnknownElement));
    steps(rt, line, &LineEvent::EncoderRestart, Ok(Stepped::Restarted));
    same!(rt; line.encoder().counts(), Counts::default());
    steps(rt, line, &frame(0), delivered(false, Code::UnknownElement));
    steps(rt, line, &reply(0), acknowledged(Code::UnknownElement));
    steps(rt, line, &LineEvent::ServerRestart, Ok(Stepped::Restarted));
    same!(rt; line.server().counts(), ServerCounts::default());
    same!(rt; line.server().waiting(), 1);
    steps(rt, line, &frame(1), delivered(true, Code::Applied));
    steps(rt, line, &reply(1), acknowledged(Code::Applied));
}

#[test]
fn an_end_that_starts_again_goes_on_from_what_it_kept(rt: HostRuntime) {
    let mut line = new_store_line(&rt, rt.alloc());
    goes_on(&rt, &mut line);
}
