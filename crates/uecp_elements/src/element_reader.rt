//! The reading of a message, element by element. Source: profile for the fault; the elements' own sources stand there.
ghost use Rattle.std.specs.Iterator.{YieldsFirstBy, item_count};
ghost use Rattle.uecp_elements.specs.View.{item_of};

use crate::element::Element;
use crate::fault::ElementFault;
use crate::front::first_of;
use std::marker::Model;

/// The elements of a message that are still to be read, and its fault last; behind a fault nothing comes. A clause sees
/// their list.
#[derive(Debug, Drop)]
pub struct Elements<'a> {
    /// The bytes that are not read yet; none behind a fault.
    pub(crate) rest: &'a [u8],
    /// Where they begin, counted from 0 in the message.
    pub(crate) place: usize,
}

impl<'a> Model for Elements<'a> {
    ghost use Rattle.std.specs.Prelude.{List, length, ◌+◌, ◌<◌, ◌^◌};
    ghost use Rattle.uecp_elements.specs.Reading.{Item, items_at};

    ghost Value = { List Item };

    ghost view = { λ s. items_at s.place 0 s.rest.now };

    ghost invariant = { λ s. s.place + length s.rest.now < 2 ^ 64 };
}

impl<'a> Iterator for Elements<'a> {
    type Item = Result<Element<'a>, ElementFault>;

    ghost next_gives = { YieldsFirstBy item_of (λ rest. rest) };

    ghost remaining = { item_count (λ rest. rest) };

    fn next(&mut self) -> Option<Result<Element<'a>, ElementFault>> {
        if self.rest.is_empty() {
            return None;
        }
        match first_of(self.rest) {
            Ok((element, rest)) => {
                self.place += self.rest.len() - rest.len();
                self.rest = rest;
                Some(Ok(element))
            }
            Err(code) => {
                self.rest = &[];
                Some(Err(ElementFault {
                    place: self.place,
                    code,
                }))
            }
        }
    }
}
