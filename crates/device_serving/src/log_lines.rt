//! What a device tells, line by line (profile).
ghost use Rattle.std.specs.Prelude.{◌≡◌, ℕ, List, None, true, IsTrue, is_some};
ghost use Rattle.std.specs.List.{list_all};
ghost use Rattle.json_lines.specs.Stamps.{is_plain};
ghost use Rattle.device_serving.specs.Logging.{Log, IsTimeOf, WritesLog, Logs, LogsEvent, LogsOpening};
ghost use Rattle.device_serving.specs.EventLines.{event_lines};
ghost use Rattle.device_serving.specs.ConnectionLines.{opened_lines, ended_lines};
ghost use Rattle.device_serving.specs.DeviceRun.{tells_first};
ghost use Rattle.output_forms.specs.Forms.{store_lines};

use crate::connection_lines::{put_ended, put_opened};
use crate::event_lines::put_event;
use arrayvec::ArrayString;
use json_lines::{STAMP_MAX, stamp_of};
use output_forms::{Form, put_store};
use rds_store::RdsStore;
use std::alloc::Global;
use std::io::Write;
use std::marker::Model;
use std::time::Clock;
use uecp_encoder::{Event, KeptFault, Listener, Served};
use uecp_text::Output;

/// Why a log ended.
#[derive(Clone, Copy, Debug, PartialEq, Eq)]
pub enum LogFault {
    /// There was no memory for a line. Nothing of it was written.
    OutOfMemory,
    /// The writer failed. It has got a beginning of a line.
    Writing,
}

/// The lines that a device tells, each written out at once. Where one can't be written the log ends: nothing more is
/// written, and the encoder serves on. Contracts see it as one value, `Log`.
#[derive(Drop)]
pub struct LogLines<'a, W: Write, C: Clock> {
    alloc: Global,
    form: Form,
    clock: Option<&'a C>,
    events: bool,
    number: u64,
    fault: Option<LogFault>,
    writer: &'a mut W,
}

impl<'a, W: Write, C: Clock> Model for LogLines<'a, W, C> {
    ghost use Rattle.device_serving.specs.Logging.{Log};
    ghost use Rattle.std.specs.Prelude.{is_some};

    ghost Value = { Log };

    ghost view = { λ l. record {
      form = l.form;
      timed = is_some l.clock;
      told = l.events;
      number = l.number;
      loan = l.writer.ghost_name;
      held = W.contents l.writer.now;
      fault = l.fault;
    } };
}

impl<'a, W: Write, C: Clock> LogLines<'a, W, C> {
    /// A log in this form, with the time before each line where there is a clock. Where `events` is set it tells each
    /// connection that is opened and each event, and else only how each connection ended.
    pub fn new(
        alloc: Global,
        form: Form,
        clock: Option<&'a C>,
        events: bool,
        writer: &'a mut W,
    ) -> LogLines<'a, W, C>
        ensures { result ≡ record {
          form = form;
          timed = is_some clock.entry;
          told = events;
          number = 0;
          loan = writer.entry.ghost_name;
          held = W.contents writer.old;
          fault = None;
        } }
    {
        LogLines {
            alloc,
            form,
            clock,
            events,
            number: 0,
            fault: None,
            writer,
        }
    }

    /// Why it ended, if it did.
    pub fn fault(&self) -> Option<LogFault>
        ensures { result ≡ self.now.fault }
    {
        self.fault
    }

    /// Whether it tells the store before the first connection: where it tells each event in objects.
    pub(crate) fn tells_first(&self) -> bool
        ensures { result ≡ tells_first self.now }
    {
        self.events && matches!(self.form, Form::Json)
    }

    /// The writer back.
    pub fn finish(self) -> &'a mut W
        ensures same { result.ghost_name ≡ self.entry.loan }
        ensures held { W.contents result.now ≡ self.entry.held }
    {
        let LogLines {
            alloc: _,
            form: _,
            clock: _,
            events: _,
            number: _,
            fault: _,
            writer,
        } = self;
        writer
    }

    /// What the clock shows, or nothing where there is none.
    fn stamp(&self) -> ArrayString<STAMP_MAX>
        ensures time { IsTimeOf self.now.timed result.bytes }
        ensures plain { IsTrue (list_all is_plain result.bytes) }
    {
        match self.clock {
            Some(clock) => stamp_of(clock),
            None => ArrayString::new(),
        }
    }

    /// Writes out what was put down, unless the log has ended.
    fn write(&mut self, output: &mut Output)
        ensures { (lines : List ℕ) → (IsTrue output.old.is_whole → output.old.bytes ≡ lines)
            → WritesLog lines self.old self.new }
    {
        if self.fault.is_some() {
            return;
        }
        if output.check().is_err() {
            self.fault = Some(LogFault::OutOfMemory);
            return;
        }
        if output.write_out(&mut *self.writer).is_err() {
            self.fault = Some(LogFault::Writing);
        }
    }

    /// Tells of an event.
    fn tell(&mut self, event: &Event, sent: bool)
        ensures { Logs (λ stamp. event_lines self.old.form stamp event.now sent) self.old self.new }
    {
        let stamp = self.stamp();
        let mut output = Output::new(self.alloc);
        put_event(self.form, stamp.as_str(), event, sent, &mut output);
        self.write(&mut output);
    }

    /// Tells that the connection of this number was opened.
    fn tell_opened(&mut self)
        ensures { Logs (λ stamp. opened_lines self.old.form stamp self.old.number) self.old self.new }
    {
        let stamp = self.stamp();
        let mut output = Output::new(self.alloc);
        put_opened(self.form, stamp.as_str(), self.number, &mut output);
        self.write(&mut output);
    }

    /// Tells how the connection that was opened last ended, whether each event is told or not.
    pub fn tell_ended(&mut self, ended: Result<Served, KeptFault>)
        ensures { Logs (λ stamp. ended_lines self.old.form stamp self.old.number ended) self.old self.new }
    {
        let stamp = self.stamp();
        let mut output = Output::new(self.alloc);
        put_ended(self.form, stamp.as_str(), self.number, ended, &mut output);
        self.write(&mut output);
    }

    /// Tells the lines of a store, as `answer --store` writes them.
    pub fn tell_store(&mut self, store: &RdsStore)
        ensures { WritesLog (store_lines self.old.form true store.now) self.old self.new }
    {
        let mut output = Output::new(self.alloc);
        put_store(self.form, store, true, &mut output);
        self.write(&mut output);
    }
}

impl<'a, W: Write, C: Clock> Listener for LogLines<'a, W, C> {
    ghost use Rattle.std.proofs.Common.{refl, subst, sym};
    ghost use Rattle.device_serving.specs.Logging.{LogsWhere};

    ghost listens = { λ l. l.told };

    ghost deaf = { λ l event sent no.
        subst (λ told. LogsWhere told (λ stamp. event_lines l.form stamp event sent) l l) (sym no) refl };

    ghost begins = { λ l l'. LogsOpening l l' };

    ghost hears = { λ l event sent l'. LogsEvent l event sent l' };

    fn is_listening(&self) -> bool {
        self.events
    }

    fn begin(&mut self) {
        self.number = self.number.saturating_add(1);
        if self.events {
            self.tell_opened();
        }
    }

    fn hear(&mut self, event: &Event, sent: bool) {
        if self.events {
            self.tell(event, sent);
        }
    }
}
