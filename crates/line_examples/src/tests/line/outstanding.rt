//! Up to eight messages outstanding on a line.
use super::{
    acknowledged, delivered, frame, is_taken, message, new_line, new_store_line, reply, steps,
};
use crate::tests::asserting::{holds, same};
use faulty_io::{ADD, CountTarget, texts_of};
use rds_store::RdsStore;
use std::process::Abort;
use uecp_elements::Code;
use uecp_encoder::Target;
use uecp_link::{Line, LineEvent, LineRefusal, Stepped};

/// The next message finds eight outstanding from the oldest on.
fn is_busy<T: Target>(rt: &impl Abort, line: &mut Line<T>) {
    let empty = message(rt, &[]);
    steps(rt, line, &LineEvent::Submit(&empty), Err(LineRefusal::Busy));
}

/// Eight messages go out; a gap among the replies keeps the window shut until the oldest is acknowledged.
fn opens_with_the_oldest<T: Target>(rt: &impl Abort, line: &mut Line<T>) {
    for _ in 0..8 {
        is_taken(rt, line, &[]);
    }
    is_busy(rt, line);
    steps(rt, line, &frame(1), Ok(Stepped::NotNext));
    steps(rt, line, &reply(1), Err(LineRefusal::NotSent));
    steps(rt, line, &frame(0), delivered(true, Code::Applied));
    steps(rt, line, &frame(1), delivered(true, Code::Applied));
    steps(rt, line, &reply(1), acknowledged(Code::Applied));
    same!(rt; (line.acknowledged(), line.is_acknowledged(1)), (0, true));
    is_busy(rt, line);
    steps(rt, line, &reply(0), acknowledged(Code::Applied));
    same!(rt; (line.acknowledged(), line.server().waiting()), (2, 6));
    steps(rt, line, &reply(1), Ok(Stepped::Stray));
    is_taken(rt, line, &[]);
    is_taken(rt, line, &[]);
    same!(rt; line.sent().len(), 10);
    is_busy(rt, line);
    holds!(rt; !line.is_acknowledged(2) && !line.is_acknowledged(10));
}

#[test]
fn a_window_opens_with_its_oldest_message(rt: HostRuntime) {
    let mut line = new_line(&rt, rt.alloc(), CountTarget::default());
    opens_with_the_oldest(&rt, &mut line);
    same!(rt; line.encoder().target().messages, 2);
}

#[test]
fn a_window_over_a_store_opens_with_its_oldest_message(rt: HostRuntime) {
    let mut line = new_store_line(&rt, rt.alloc());
    opens_with_the_oldest(&rt, &mut line);
    same!(rt; line.encoder().counts().fresh, 2);
}

/// The frames of eight texts come from the last to the second, and then in order.
fn comes_before_its_turn(rt: &impl Abort, line: &mut Line<RdsStore>) {
    for _ in 0..8 {
        is_taken(rt, line, &ADD);
    }
    for number in (1..8).rev() {
        steps(rt, line, &frame(number), Ok(Stepped::NotNext));
    }
    let counts = line.encoder().counts();
    same!(rt; (counts.fresh, counts.repeats, counts.dropped), (0, 0, 0));
    // Noise before a frame is over with it, also where that frame is passed over.
    let open = LineEvent::NoiseToEncoder(&[0xfe, 0x00]);
    steps(rt, line, &open, Ok(Stepped::Noise { dropped: 0 }));
    steps(rt, line, &frame(7), Ok(Stepped::NotNext));
    let rest = LineEvent::NoiseToEncoder(&[0xff]);
    steps(rt, line, &rest, Ok(Stepped::Noise { dropped: 0 }));
    for number in 0..8 {
        steps(rt, line, &frame(number), delivered(true, Code::Applied));
    }
    for number in (0..8).rev() {
        steps(rt, line, &reply(number), acknowledged(Code::Applied));
        same!(rt; line.acknowledged(), if number == 0 { 8 } else { 0 });
    }
    same!(rt; texts_of(line.encoder().target(), 1), Some(8));
    holds!(rt; line.server().is_idle());
}

#[test]
fn a_message_before_its_turn_is_passed_over_and_applied_later(rt: HostRuntime) {
    let mut line = new_store_line(&rt, rt.alloc());
    comes_before_its_turn(&rt, &mut line);
}

/// One number that is outstanding: its frame comes, and by chance its reply. What comes of both is told by how many
/// were applied, and by whether this one is acknowledged.
fn comes<T: Target>(rt: &impl Abort, line: &mut Line<T>, number: usize, replied: bool) {
    let applied = line.applied();
    let was = line.is_acknowledged(number);
    let wanted = if number < applied {
        delivered(false, Code::Applied)
    } else if number == applied {
        delivered(true, Code::Applied)
    } else {
        Ok(Stepped::NotNext)
    };
    steps(rt, line, &frame(number), wanted);
    if replied {
        let wanted = if number > applied {
            Err(LineRefusal::NotSent)
        } else if was {
            Ok(Stepped::Stray)
        } else {
            acknowledged(Code::Applied)
        };
        steps(rt, line, &reply(number), wanted);
        same!(rt; line.is_acknowledged(number), number <= applied);
    }
}

/// Three turns of the counter with at most so many messages outstanding, frames and replies in an order of their own.
fn goes_round<T: Target>(rt: &impl Abort, line: &mut Line<T>, window: usize, seed: u32) {
    let mut chance = seed;
    for _ in 0..40_000u32 {
        chance = chance.wrapping_mul(1_103_515_245).wrapping_add(12_345);
        let least = line.acknowledged();
        let waiting = line.sent().len().saturating_sub(least);
        let place = chance as usize / 4096 % 8;
        if chance / 256 % 3 == 0 && waiting < window && least < 770 {
            is_taken(rt, line, &[]);
        } else if place < waiting {
            comes(
                rt,
                line,
                least.saturating_add(place),
                chance / 65_536 % 2 == 0,
            );
        }
    }
    // Nothing is lost any more: each frame once, and each reply once, and no message is outstanding.
    for number in line.acknowledged()..line.sent().len() {
        holds!(rt; line.step(&frame(number)).is_ok());
        holds!(rt; line.step(&reply(number)).is_ok());
    }
    let sent = line.sent().len();
    holds!(rt; line.server().is_idle() && sent >= 770);
    same!(rt; (line.applied(), line.acknowledged()), (sent, sent));
}

#[test]
fn windows_of_1_to_8_over_three_turns_of_the_counter(rt: HostRuntime) {
    for window in 1..=8u32 {
        let mut line = new_line(&rt, rt.alloc(), CountTarget::default());
        goes_round(&rt, &mut line, window as usize, window);
        same!(rt; line.encoder().target().messages, line.sent().len() as u64);
    }
}

#[test]
fn windows_of_1_to_8_over_a_store_and_three_turns_of_the_counter(rt: HostRuntime) {
    for window in 1..=8u32 {
        let mut line = new_store_line(&rt, rt.alloc());
        goes_round(&rt, &mut line, window as usize, window + 8);
        same!(rt; line.encoder().counts().fresh, line.sent().len() as u64);
    }
}
