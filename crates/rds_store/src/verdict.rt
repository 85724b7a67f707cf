//! With which code a message is answered, told before any of its elements is put. Source: profile for the refusals.
ghost use Rattle.std.specs.Prelude.{ℕ, ◌≡◌, ◌≢◌, ◌≤◌, length, false, Some, IfOk, IfSome, MatchOption, MatchResult};
ghost use Rattle.uecp_elements.specs.declared.code.Code.TheVariants.{Applied};
ghost use Rattle.uecp_elements.specs.Grammar as grammar;
ghost use Rattle.uecp_elements.specs.View.{element_of};
ghost use Rattle.rds_store.specs.Value.{Store};
ghost use Rattle.rds_store.specs.Names.{address};
ghost use Rattle.rds_store.specs.Refusals.{adds_text, code_of};
ghost use Rattle.rds_store.specs.Put.{put};
ghost use Rattle.rds_store.specs.Step.{element_by_element};

use crate::data_sets::DataSets;
use crate::rules::{TYPE_MAX, adds, adds_text, is_out_of_range, is_wrong_rule};
use uecp_elements::{Code, Element, elements};

/// How many groups wait at most.
const GROUPS_MAX: usize = 32;

impl DataSets {
    /// The code with which a message is answered. None where an element adds a text: whether there is room for it may
    /// depend on the elements before it. All others are refused, or not, whatever those left, but for the number of
    /// groups.
    pub(crate) fn judged(&self, message: &[u8]) -> Option<Code>
        ensures { IfSome result (λ code. (element_by_element self.now message.now).1 ≡ code) }
    {
        let mut waiting = self.groups.len();
        for item in elements(message) {
            match item {
                Ok(element) => {
                    if adds_text(&element) {
                        return None;
                    }
                    match self.judge(&element, waiting) {
                        Ok(after) => waiting = after,
                        Err(refused) => return Some(refused),
                    }
                }
                Err(fault) => return Some(fault.code),
            }
        }
        Some(Code::Applied)
    }

    /// How many groups wait once an element that adds no text was put where so many wait; or the code with which it is
    /// refused. The places, the texts and the current set have no part in that.
    fn judge(&self, element: &Element<'_>, waiting: usize) -> Result<usize, Code>
        requires plain { adds_text (element_of element.now) ≡ false }
        requires few { waiting ≤ 32 }
        ensures judged { (v : Store) → v.sets ≡ self.now.sets → v.services ≡ self.now.services
            → length v.groups ≡ waiting → MatchResult result
            (λ after. (code_of v (element_of element.now) ≡ Applied)
            × (length (put v (element_of element.now)).0.groups ≡ after))
            (λ refused. (code_of v (element_of element.now) ≡ refused) × (refused ≢ Applied)) }
        ensures few { IfOk result (λ after. after ≤ 32) }
    {
        match *element {
            Element::Ack { .. } => Err(Code::NotHere),
            Element::Select { dsn } if dsn > self.sets => Err(Code::DataSet),
            Element::Select { .. } => Ok(waiting),
            Element::Group { kind, mode, .. } => judge_group(kind, mode, waiting),
            Element::Pi { dsn, psn, .. }
            | Element::Ps { dsn, psn, .. }
            | Element::TaTp { dsn, psn, .. }
            | Element::Ms { dsn, psn, .. }
            | Element::Pty { dsn, psn, .. }
            | Element::Rt { dsn, psn, .. } => match self.judge_at(dsn, psn, element) {
                Some(refused) => Err(refused),
                None => Ok(waiting),
            },
        }
    }

    /// The code with which an element of this DSN and PSN that adds no text is refused, if it is.
    fn judge_at(&self, dsn: u8, psn: u8, element: &Element<'_>) -> Option<Code>
        requires addressed { address (element_of element.now) ≡ Some (dsn, psn) }
        requires plain { adds_text (element_of element.now) ≡ false }
        ensures { (v : Store) → v.sets ≡ self.now.sets → v.services ≡ self.now.services → MatchOption result
            (code_of v (element_of element.now) ≡ Applied)
            (λ refused. (code_of v (element_of element.now) ≡ refused) × (refused ≢ Applied)) }
    {
        if !self.is_dsn(dsn) {
            Some(Code::DataSet)
        } else if self.place_of(psn).is_none() {
            Some(Code::Service)
        } else if is_out_of_range(element) {
            Some(Code::OutOfRange)
        } else {
            None
        }
    }
}

/// How many groups wait once a group was put where so many wait; or the code with which it is refused.
fn judge_group(kind: u8, mode: u8, waiting: usize) -> Result<usize, Code>
    requires few { waiting ≤ 32 }
    ensures judged { (v : Store) → (block3 block4 : ℕ) → length v.groups ≡ waiting → MatchResult result
        (λ after. (code_of v (grammar.Group kind mode block3 block4) ≡ Applied)
        × (length (put v (grammar.Group kind mode block3 block4)).0.groups ≡ after))
        (λ refused. (code_of v (grammar.Group kind mode block3 block4) ≡ refused) × (refused ≢ Applied)) }
    ensures few { IfOk result (λ after. after ≤ 32) }
{
    if kind > TYPE_MAX || is_wrong_rule(mode) {
        Err(Code::OutOfRange)
    } else if !adds(mode) {
        Ok(1)
    } else if waiting == GROUPS_MAX {
        Err(Code::BufferFull)
    } else {
        Ok(waiting + 1)
    }
}
