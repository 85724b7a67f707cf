//! Lines and the rules that they spell.

use crate::tests::asserting::same;
use bad_line::{Rule, RuleFault, Span, Way, read_rule};

const fn span(first: u32, last: u32) -> Span {
    Span { first, last }
}

#[test]
fn each_line_that_spells_a_rule(rt: HostRuntime) {
    let table: [(&[u8], Rule); 20] = [
        (b"lose frame 3", Rule::Lose(Way::Frame, span(3, 3))),
        (b"lose frame 3..7", Rule::Lose(Way::Frame, span(3, 7))),
        (b"lose reply 5..9", Rule::Lose(Way::Reply, span(5, 9))),
        (b"damage frame 2 byte 4", Rule::Damage(Way::Frame, 2, 4)),
        (b"damage reply 2 byte 4", Rule::Damage(Way::Reply, 2, 4)),
        (b"repeat frame 7", Rule::Repeat(Way::Frame, span(7, 7))),
        (b"repeat reply 7..8", Rule::Repeat(Way::Reply, span(7, 8))),
        (b"break after frame 12", Rule::BreakAfter(Way::Frame, 12)),
        (b"break after reply 3", Rule::BreakAfter(Way::Reply, 3)),
        (b"delay 200ms", Rule::Delay(200, 1)),
        (b"delay 2s from frame 256", Rule::Delay(2000, 256)),
        (b"pace 200ms", Rule::Pace(200, 1)),
        (b"pace  1s  from  frame  7 ", Rule::Pace(1000, 7)),
        (b"refuse connections 2s", Rule::RefuseConnections(2000)),
        (b"lose 5%", Rule::LoseByChance(5, 1)),
        (b"lose 5% from frame 256", Rule::LoseByChance(5, 256)),
        (b"damage  1% ", Rule::DamageByChance(1, 1)),
        (b"damage 2% from frame 1", Rule::DamageByChance(2, 1)),
        (b"restart after 40", Rule::RestartAfter(40)),
        (
            b"lose frame 000000001..999999999",
            Rule::Lose(Way::Frame, span(1, 999_999_999)),
        ),
    ];
    for (text, rule) in table {
        same!(rt; read_rule(text), Ok(rule), rule);
    }
}

#[test]
fn lines_that_spell_none(rt: HostRuntime) {
    let table: [&[u8]; 22] = [
        b"",
        b"lose",
        b"lose frame",
        b"lose frame 0",
        b"lose frame 7..3",
        b"lose frame 3...7",
        b"lose frame 3..7..9",
        b"lose frame 0000000001",
        b"lose frames 3",
        b"lose 101%",
        b"delay 200",
        b"delay 0ms",
        b"damage frame 2 bytes 4",
        b"restart after 40 now",
        b"lose 5% from",
        b"lose 5% from frame",
        b"lose 5% from frame 0",
        b"lose 5% from reply 256",
        b"lose 5% frame 256",
        b"delay 200ms from frame 256 on",
        b"from frame 256 lose 5%",
        b"lose frame 3 from frame 2",
    ];
    for text in table {
        same!(rt; read_rule(text), Err(RuleFault::NotARule), text);
    }
}
