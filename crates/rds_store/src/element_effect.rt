//! How an element is put into a store. Source: RDS Forum SPB 490 for what a DSN and a PSN name, profile for the
//! refusals.
ghost use Rattle.std.specs.Prelude.{◌≡◌, ◌&&◌, ℕ, false, true, not, Some, None, IfSome, MatchOption, slice_get};
ghost use Rattle.uecp_elements.specs.Grammar as grammar;
ghost use Rattle.uecp_elements.specs.View.{element_of};
ghost use Rattle.rds_store.specs.Names.{address, names_set, is_dsn, service_of};
ghost use Rattle.rds_store.specs.Content.{taken};
ghost use Rattle.rds_store.specs.Refusals.{is_out_of_range, adds_text, has_full_set};
ghost use Rattle.rds_store.specs.Put.{change_where, put};
ghost use Rattle.rds_store.specs.Kept.{at_service};

use crate::data_sets::DataSets;
use crate::group::Group;
use crate::in_sets::put_into_service;
use crate::named_sets::NamedSets;
use crate::rules::{TYPE_MAX, adds, is_out_of_range, is_wrong_rule};
use uecp_elements::{Code, Element};

impl DataSets {
    /// Whether an element may have that DSN.
    pub(crate) fn is_dsn(&self, dsn: u8) -> bool
        ensures { result ≡ is_dsn self.now.sets dsn }
    {
        dsn <= self.sets || dsn == 0xfe || dsn == 0xff
    }

    /// The place in configured order of the service that a PSN names.
    pub(crate) fn place_of(&self, psn: u8) -> Option<usize>
        ensures { MatchOption result (service_of self.now.services psn ≡ None) (λ place. (number : ℕ)
            × (service_of self.now.services psn ≡ Some number) × (slice_get self.now.services place ≡ Some number)) }
    {
        if psn == 0 {
            Some(0)
        } else {
            self.services.get_index_of(&psn)
        }
    }

    /// The service at a place of the order takes the element's content in each set that a DSN names, and the answer is
    /// true; or one of them has no room for it, and nothing has changed.
    fn put_into(&mut self, dsn: u8, place: usize, element: &Element<'_>) -> bool
        requires short { grammar.IsElement (element_of element.now) }
        requires in_range { is_out_of_range (element_of element.now) ≡ false }
        ensures room { IfSome (slice_get self.old.services place) (λ number. result
            ≡ not (adds_text (element_of element.now) && has_full_set self.old dsn number)) }
        ensures taken { IfSome (slice_get self.old.services place) (λ number. result ≡ true
            → self.new ≡ record self.old {
              places = change_where (at_service (names_set dsn self.old.current) number)
                  (taken (element_of element.now))
                  self.old.places;
            }) }
        ensures kept { result ≡ false → self.new ≡ self.old }
    {
        let named = NamedSets {
            dsn,
            current: self.current,
        };
        put_into_service(&mut self.services, place, named, element)
    }

    /// Puts an element that has this DSN and PSN.
    fn put_at(&mut self, dsn: u8, psn: u8, element: &Element<'_>) -> Code
        requires addressed { address (element_of element.now) ≡ Some (dsn, psn) }
        requires short { grammar.IsElement (element_of element.now) }
        ensures { (self.new, result) ≡ put self.old (element_of element.now) }
    {
        if !self.is_dsn(dsn) {
            return Code::DataSet;
        }
        let Some(place) = self.place_of(psn) else {
            return Code::Service;
        };
        if is_out_of_range(element) {
            return Code::OutOfRange;
        }
        if self.put_into(dsn, place, element) {
            Code::Applied
        } else {
            Code::BufferFull
        }
    }

    /// Makes a set current; 00 keeps the one that is. There are at most 8 sets, so FE and FF are no set's numbers.
    fn select(&mut self, dsn: u8) -> Code
        ensures { (self.new, result) ≡ put self.old (grammar.Select dsn) }
    {
        if dsn > self.sets {
            return Code::DataSet;
        }
        if dsn != 0 {
            self.current = dsn;
        }
        Code::Applied
    }

    /// Queues a group by the buffer rule in its mode.
    fn queue(&mut self, kind: u8, mode: u8, block3: u16, block4: u16) -> Code
        ensures { (self.new, result) ≡ put self.old (grammar.Group kind mode block3 block4) }
    {
        if kind > TYPE_MAX || is_wrong_rule(mode) {
            return Code::OutOfRange;
        }
        if adds(mode) && self.groups.is_full() {
            return Code::BufferFull;
        }
        if !adds(mode) {
            self.groups.clear();
        }
        match self.groups.try_push(Group {
            kind,
            bits: mode % 32,
            block3,
            block4,
        }) {
            Ok(()) => {}
            Err(_) => unreachable!(),
        }
        Code::Applied
    }

    /// Puts one element, whole or not at all, and answers its code.
    ///
    /// The refusals are asked in the order 09, 04, 05, 06, 0B, also where the DSN names no set. After a code but 00
    /// nothing has changed. A text of the element has at most 64 bytes.
    pub(crate) fn put(&mut self, element: &Element<'_>) -> Code
        requires { grammar.IsElement (element_of element.now) }
        ensures { (self.new, result) ≡ put self.old (element_of element.now) }
    {
        match *element {
            Element::Ack { .. } => Code::NotHere,
            Element::Select { dsn } => self.select(dsn),
            Element::Group {
                kind,
                mode,
                block3,
                block4,
            } => self.queue(kind, mode, block3, block4),
            Element::Pi { dsn, psn, .. }
            | Element::Ps { dsn, psn, .. }
            | Element::TaTp { dsn, psn, .. }
            | Element::Ms { dsn, psn, .. }
            | Element::Pty { dsn, psn, .. }
            | Element::Rt { dsn, psn, .. } => self.put_at(dsn, psn, element),
        }
    }
}
