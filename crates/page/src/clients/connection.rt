//! What came of a connection's request, and what waits to be sent (profile; RFC 9112).
ghost use Rattle.std.specs.Prelude.{◌≡◌, [], ◌++◌, length};
ghost use Rattle.page.specs.ClientView.{standing_of, source_of, came_of};
ghost use Rattle.page.specs.Hearing.{Hears};
ghost use Rattle.page.specs.Delivering.{WritesOnce};

use crate::clients::asked::Asked;
use crate::clients::client::{Client, Phase, Site};
use crate::guests::{Connection, Passed};
use http1::{Event, Limits, Server};
use httparse::spans::EMPTY_HEADER_SPAN;
use std::alloc::Global;

/// How many fields a head has at most.
const FIELDS_MAX: usize = 64;

impl Client {
    /// A connection that has asked for nothing.
    pub fn new(alloc: Global) -> Client
        ensures waiting { (standing_of result).output ≡ [] }
        ensures phase { (standing_of result).phase ≡ Phase.Asking }
        ensures came { came_of result ≡ [] }
    {
        Client {
            server: Server::new(Limits::default()),
            phase: Phase::Asking,
            due: 0,
            input: Vec::new(alloc),
            output: Vec::new(alloc),
        }
    }

    /// What it is for now.
    pub fn phase(&self) -> Phase
        ensures { result ≡ (standing_of self.now).phase }
    {
        self.phase
    }

    /// How many bytes wait to be written.
    pub fn waiting(&self) -> usize
        ensures { result ≡ length (standing_of self.now).output }
    {
        self.output.len()
    }

    /// Writes once what waits, as much as the connection takes.
    pub(crate) fn write_to<C: Connection>(&mut self, connection: &mut C) -> Passed
        ensures writes { WritesOnce (C.talk connection.old) (C.talk connection.new) (standing_of self.old)
            (standing_of self.new) result }
        ensures came { came_of self.new ≡ came_of self.old }
    {
        let passed = connection.write(self.output.as_slice());
        if let Passed::Bytes(count) = passed {
            self.output.drain(..count);
        }
        passed
    }

    /// Takes what came of its request, and answers it once its head is whole. What comes behind that is passed over.
    pub fn receive(&mut self, alloc: Global, came: &[u8], site: &Site<'_>)
        ensures kept { ((standing_of self.old).phase ≡ Phase.Asking → ⊥) → standing_of self.new ≡ standing_of self.old }
        ensures hears { (standing_of self.old).phase ≡ Phase.Asking → Hears (source_of site.now) site.now.own_only
            (came_of self.old ++ came.now) (standing_of self.old) (standing_of self.new) }
        ensures came { (standing_of self.new).phase ≡ Phase.Asking → came_of self.new ≡ came_of self.old ++ came.now }
    {
        if self.phase != Phase::Asking {
            return;
        }
        if self.input.extend_from_slice(came).is_err() {
            self.phase = Phase::Closing;
            return;
        }
        self.hear(alloc, site);
    }

    /// Answers what came of its request, once its head is whole.
    fn hear(&mut self, alloc: Global, site: &Site<'_>)
        requires { self.old.phase ≡ Phase.Asking }
        ensures hears { Hears (source_of site.now) site.now.own_only (came_of self.old)
            (standing_of self.old) (standing_of self.new) }
        ensures came { self.new.input.items ≡ self.old.input.items }
    {
        let mut fields = [EMPTY_HEADER_SPAN; FIELDS_MAX];
        let input = self.input.as_slice();
        match self.server.read(input, &mut fields) {
            Ok(progress) => {
                if let Event::Head(head) = progress.event {
                    let asked = Asked::of(input, &head, &fields[..head.headers], site.own_only);
                    self.phase = Phase::Closing;
                    let _ = self.answer(alloc, &asked, site);
                }
            }
            Err(error) => {
                self.phase = Phase::Closing;
                let _ = self.refuse(error.status());
            }
        }
    }
}
