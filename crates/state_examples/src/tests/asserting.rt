//! What each test asserts with. An assertion that a test spells out is a branch that its proof goes into, and one with
//! a message costs the checker seconds; a call of a function that asserts costs next to nothing.
ghost use Rattle.std.specs.Prelude.{◌≡◌, true};

use std::fmt::Debug;
use std::process::Abort;

/// Asserts that the condition holds, whose text this is.
pub(crate) fn must_hold(rt: &impl Abort, condition: bool, text: &str)
    ensures { condition ≡ true }
{
    assert!(rt; condition, "{text}");
}

/// The same in this row of a table.
pub(crate) fn must_hold_in(rt: &impl Abort, condition: bool, text: &str, row: &impl Debug)
    ensures { condition ≡ true }
{
    assert!(rt; condition, "{text} in {row:?}");
}

/// Asserts that what was found, whose text this is, is what is wanted.
pub(crate) fn must_be<T: PartialEq + Debug>(rt: &impl Abort, found: &T, wanted: &T, text: &str) {
    assert_eq!(rt; *found, *wanted, "{text}");
}

/// The same in this row of a table.
pub(crate) fn must_be_in<T: PartialEq + Debug>(
    rt: &impl Abort,
    found: &T,
    wanted: &T,
    text: &str,
    row: &impl Debug,
) {
    assert_eq!(rt; *found, *wanted, "{text} in {row:?}");
}

/// `assert!` by a call: where the condition does not hold, the test stops and prints its text, and the row that
/// follows.
macro_rules! holds {
    ($rt:expr; $condition:expr) => {
        $crate::tests::asserting::must_hold(&$rt, $condition, stringify!($condition))
    };
    ($rt:expr; $condition:expr, $row:expr) => {
        $crate::tests::asserting::must_hold_in(&$rt, $condition, stringify!($condition), &$row)
    };
}

pub(crate) use holds;

/// `assert_eq!` by a call: where the two differ, the test stops and prints the first one's text and both, and the row
/// that follows.
macro_rules! same {
    ($rt:expr; $found:expr, $wanted:expr) => {
        $crate::tests::asserting::must_be(&$rt, &$found, &$wanted, stringify!($found))
    };
    ($rt:expr; $found:expr, $wanted:expr, $row:expr) => {
        $crate::tests::asserting::must_be_in(&$rt, &$found, &$wanted, stringify!($found), &$row)
    };
}

pub(crate) use same;
