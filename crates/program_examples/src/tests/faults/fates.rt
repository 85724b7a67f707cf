//! What comes of segments.

use crate::tests::asserting::{holds, same};
use bad_line::{Fate, LineFaults, Rule, Span, Way};
use std::alloc::AllocError;

/// The rules of the table.
const RULES: [Rule; 7] = [
    Rule::Lose(Way::Frame, Span { first: 2, last: 3 }),
    Rule::Lose(Way::Reply, Span { first: 1, last: 9 }),
    Rule::Repeat(Way::Frame, Span { first: 3, last: 5 }),
    Rule::Damage(Way::Frame, 4, 9),
    Rule::Damage(Way::Frame, 4, 8),
    Rule::Damage(Way::Frame, 6, 9),
    Rule::BreakAfter(Way::Frame, 3),
];

#[test]
fn each_frame_of_eight_bytes(rt: HostRuntime) -> Result<(), AllocError> {
    let mut faults = LineFaults::of(rt.alloc(), &RULES, Way::Frame, 1)?;
    let table = [
        (1, None, false),
        (0, None, false),
        (0, None, true),
        (2, Some(8), false),
        (2, None, false),
        (1, None, false),
    ];
    for (copies, damaged, breaks) in table {
        let fate = Fate {
            copies,
            damaged,
            breaks,
        };
        same!(rt; faults.pass(8), fate);
    }
    holds!(rt; faults.passed() == 6);
    Ok(())
}

#[test]
fn chance_takes_about_so_many_and_the_same_again(rt: HostRuntime) -> Result<(), AllocError> {
    let rules = [Rule::LoseByChance(5, 1), Rule::DamageByChance(50, 1)];
    let mut faults = LineFaults::of(rt.alloc(), &rules, Way::Frame, 7)?;
    let mut again = LineFaults::of(rt.alloc(), &rules, Way::Frame, 7)?;
    let mut lost = 0u32;
    let mut damaged = 0u32;
    for _segment in 0..1000 {
        let fate = faults.pass(8);
        same!(rt; again.pass(8), fate);
        lost = lost.saturating_add(u32::from(fate.copies == 0));
        damaged = damaged.saturating_add(u32::from(fate.damaged.is_some()));
    }
    holds!(rt; (20..100).contains(&lost));
    holds!(rt; (400..560).contains(&damaged));
    Ok(())
}

#[test]
fn chance_begins_at_its_number(rt: HostRuntime) -> Result<(), AllocError> {
    let rules = [Rule::LoseByChance(100, 256), Rule::DamageByChance(100, 255)];
    let mut faults = LineFaults::of(rt.alloc(), &rules, Way::Reply, 7)?;
    for _segment in 1..255u16 {
        let whole = Fate {
            copies: 1,
            damaged: None,
            breaks: false,
        };
        same!(rt; faults.pass(8), whole);
    }
    holds!(rt; faults.pass(8).damaged.is_some());
    holds!(rt; faults.pass(8).copies == 0);
    Ok(())
}
