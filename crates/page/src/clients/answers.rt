//! What a connection is answered (profile; RFC 9110, section 15).
ghost use Rattle.std.specs.Prelude.{◌≡◌, ◌⊎◌, [], ◌++◌, IfOk, OnOk, OnErr, true, false, if◌then◌else◌};
ghost use Rattle.http1.specs.Conn.{data_text};
ghost use Rattle.http1.specs.Server.{writing};
ghost use Rattle.page.specs.Events.{due, is_gap};
ghost use Rattle.page.specs.Stream.{part_text, gap};
ghost use Rattle.page.specs.Streaming.{IsStreaming};
ghost use Rattle.page.specs.Answers.{Answer, answer_of, no_memory, head_text, behind_head, answer_text, opening_text};
ghost use Rattle.page.specs.Answers.{reply_text, reason_of, refusal, Tells, Replies};
ghost use Rattle.page.specs.ClientView.{standing_of, source_of};

use crate::clients::asked::Asked;
use crate::clients::client::{Client, Phase, Site};
use crate::clients::html::{HTML, POLICY};
use crate::clients::request::Route;
use crate::events::GAP;
use crate::state::{has_stale, history_text, metrics_text, stale_text, state_text};
use http1::{BodySize, Header, WriteError};
use std::alloc::Global;

/// The text form of metrics.
const METRICS: &[u8] = b"text/plain; version=0.0.4; charset=utf-8";

/// Plain text.
const PLAIN: &[u8] = b"text/plain; charset=utf-8";

/// The reason of a status, of a head that can't be read.
fn reason_of(status: u16) -> &'static [u8]
    ensures { result.now ≡ reason_of status }
{
    match status {
        414 => b"URI Too Long",
        431 => b"Request Header Fields Too Large",
        _ => b"Bad Request",
    }
}

impl Client {
    /// Answers what was asked for.
    ///
    /// Errors: where it can't be written whole; it is closed then.
    pub(crate) fn answer(
        &mut self,
        alloc: Global,
        asked: &Asked,
        site: &Site<'_>,
    ) -> Result<(), WriteError>
        requires { self.old.phase ≡ Phase.Closing }
        ensures replies { Replies (source_of site.now) self.old.server asked.now.route asked.now.last
            (standing_of self.old) (standing_of self.new) }
        ensures came { self.new.input.items ≡ self.old.input.items }
    {
        match asked.route {
            Route::Page => self.whole(200, b"OK", b"text/html; charset=utf-8", HTML.as_bytes()),
            Route::Events => self.open_events(asked.last, site),
            Route::State => self.tell_state(alloc, site),
            Route::History => self.tell_history(alloc, site),
            Route::Metrics => self.tell_metrics(alloc, site),
            Route::Health => self.tell_health(alloc, site),
            Route::NotFound => self.whole(404, b"Not Found", PLAIN, b"no such page\n"),
            Route::OtherMethod => {
                self.whole(
                    405,
                    b"Method Not Allowed",
                    PLAIN,
                    b"only GET and HEAD are served\n",
                )
            }
            Route::Foreign => {
                self.whole(
                    421,
                    b"Misdirected Request",
                    PLAIN,
                    b"only the machine's own names are served here\n",
                )
            }
        }
    }

    /// Answers a head that can't be read.
    ///
    /// Errors: where that can't be written whole.
    pub(crate) fn refuse(&mut self, status: u16) -> Result<(), WriteError>
        requires { self.old.phase ≡ Phase.Closing }
        ensures told { Tells (answer_text self.old.server (refusal status))
            self.old.output.items self.new.output.items }
        ensures closes { self.new.phase ≡ Phase.Closing }
        ensures came { self.new.input.items ≡ self.old.input.items }
    {
        self.whole(
            status,
            reason_of(status),
            PLAIN,
            b"not a request that is read here\n",
        )
    }

    /// The state as JSON.
    fn tell_state(&mut self, alloc: Global, site: &Site<'_>) -> Result<(), WriteError>
        requires { self.old.phase ≡ Phase.Closing }
        ensures told { Tells (answer_text self.old.server (answer_of (source_of site.now) Route.State))
            self.old.output.items self.new.output.items
            ⊎ Tells (answer_text self.old.server no_memory) self.old.output.items self.new.output.items }
        ensures closes { self.new.phase ≡ Phase.Closing }
        ensures came { self.new.input.items ≡ self.old.input.items }
    {
        match state_text(alloc, site.page, site.moment) {
            Ok(text) => self.whole(200, b"OK", b"application/json", text.as_bytes()),
            Err(_) => self.no_memory(),
        }
    }

    /// What changed in the last day as JSON.
    fn tell_history(&mut self, alloc: Global, site: &Site<'_>) -> Result<(), WriteError>
        requires { self.old.phase ≡ Phase.Closing }
        ensures told { Tells (answer_text self.old.server (answer_of (source_of site.now) Route.History))
            self.old.output.items self.new.output.items
            ⊎ Tells (answer_text self.old.server no_memory) self.old.output.items self.new.output.items }
        ensures closes { self.new.phase ≡ Phase.Closing }
        ensures came { self.new.input.items ≡ self.old.input.items }
    {
        match history_text(alloc, site.page, site.moment.now) {
            Ok(rows) => self.whole(200, b"OK", b"application/json", rows.as_bytes()),
            Err(_) => self.no_memory(),
        }
    }

    /// The counts for monitoring systems.
    fn tell_metrics(&mut self, alloc: Global, site: &Site<'_>) -> Result<(), WriteError>
        requires { self.old.phase ≡ Phase.Closing }
        ensures told { Tells (answer_text self.old.server (answer_of (source_of site.now) Route.Metrics))
            self.old.output.items self.new.output.items
            ⊎ Tells (answer_text self.old.server no_memory) self.old.output.items self.new.output.items }
        ensures closes { self.new.phase ≡ Phase.Closing }
        ensures came { self.new.input.items ≡ self.old.input.items }
    {
        match metrics_text(alloc, site.page, site.moment) {
            Ok(text) => self.whole(200, b"OK", METRICS, text.as_slice()),
            Err(_) => self.no_memory(),
        }
    }

    /// That all is well, or which control lines are stale.
    fn tell_health(&mut self, alloc: Global, site: &Site<'_>) -> Result<(), WriteError>
        requires { self.old.phase ≡ Phase.Closing }
        ensures told { Tells (answer_text self.old.server (answer_of (source_of site.now) Route.Health))
            self.old.output.items self.new.output.items
            ⊎ Tells (answer_text self.old.server no_memory) self.old.output.items self.new.output.items }
        ensures closes { self.new.phase ≡ Phase.Closing }
        ensures came { self.new.input.items ≡ self.old.input.items }
    {
        if !has_stale(site.page, site.moment) {
            return self.whole(200, b"OK", PLAIN, b"ok\n");
        }
        match stale_text(alloc, site.page, site.moment) {
            Ok(text) => self.whole(503, b"Service Unavailable", PLAIN, text.as_slice()),
            Err(_) => self.no_memory(),
        }
    }

    /// There was no memory for an answer.
    fn no_memory(&mut self) -> Result<(), WriteError>
        requires { self.old.phase ≡ Phase.Closing }
        ensures told { Tells (answer_text self.old.server no_memory)
            self.old.output.items self.new.output.items }
        ensures closes { self.new.phase ≡ Phase.Closing }
        ensures came { self.new.input.items ≡ self.old.input.items }
    {
        self.whole(503, b"Service Unavailable", PLAIN, b"out of memory\n")
    }

    /// A whole answer. The connection is closed behind it.
    fn whole(
        &mut self,
        status: u16,
        reason: &[u8],
        kind: &[u8],
        body: &[u8],
    ) -> Result<(), WriteError>
        requires { self.old.phase ≡ Phase.Closing }
        ensures told { Tells (answer_text self.old.server (record {
          status = status;
          reason = reason.now;
          kind = kind.now;
          body = body.now;
        })) self.old.output.items self.new.output.items }
        ensures closes { self.new.phase ≡ Phase.Closing }
        ensures came { self.new.input.items ≡ self.old.input.items }
    {
        let size = BodySize::Known(body.len() as u64);
        self.head(status, reason, kind, size)?;
        self.server.write_data(&mut self.output, body)?;
        self.server.write_end(&mut self.output, &[])
    }

    /// The head of an answer.
    ///
    /// Errors: where it can't be written; nothing is added then.
    #[tactic(auto, unfolding(crate::specs::Answers::head_text, crate::specs::Answers::behind_head))]
    fn head(
        &mut self,
        status: u16,
        reason: &[u8],
        kind: &[u8],
        size: BodySize,
    ) -> Result<(), WriteError>
        requires { self.old.phase ≡ Phase.Closing }
        ensures output { OnOk result (self.new.output.items
            ≡ self.old.output.items ++ head_text self.old.server status reason.now kind.now size) }
        ensures behind { OnOk result (self.new.server ≡ behind_head self.old.server status kind.now size) }
        ensures err { OnErr result (self.new.output.items ≡ self.old.output.items) }
        ensures closes { self.new.phase ≡ Phase.Closing }
        ensures came { self.new.input.items ≡ self.old.input.items }
    {
        let headers = [
            Header {
                name: b"content-type",
                value: kind,
            },
            Header {
                name: b"allow",
                value: b"GET, HEAD",
            },
            Header {
                name: b"cache-control",
                value: b"no-store",
            },
            Header {
                name: b"content-security-policy",
                value: POLICY,
            },
            Header {
                name: b"x-content-type-options",
                value: b"nosniff",
            },
            Header {
                name: b"connection",
                value: b"close",
            },
        ];
        self.server
            .write_response(&mut self.output, status, reason, &headers, size)
    }

    /// The head of the stream of events, which goes on from the event that was named; and that events are gone, where
    /// they are.
    fn open_events(&mut self, last: Option<u64>, site: &Site<'_>) -> Result<(), WriteError>
        requires { self.old.phase ≡ Phase.Closing }
        ensures told { Tells (reply_text (source_of site.now) self.old.server Route.Events last)
            self.old.output.items self.new.output.items }
        ensures phase { (self.new.phase ≡ Phase.Live) ⊎ (self.new.phase ≡ Phase.Closing) }
        ensures room { self.new.phase ≡ Phase.Live → site.now.is_full ≡ false }
        ensures output { self.new.phase ≡ Phase.Live → self.new.output.items
            ≡ self.old.output.items ++ opening_text self.old.server last site.now.history.now }
        ensures due { self.new.phase ≡ Phase.Live → self.new.due ≡ due last site.now.history.now }
        ensures came { self.new.input.items ≡ self.old.input.items }
    {
        if site.is_full {
            return self.whole(
                503,
                b"Service Unavailable",
                PLAIN,
                b"64 get the events already\n",
            );
        }
        self.head(200, b"OK", b"text/event-stream", BodySize::Unknown)?;
        if !self.takes_chunks()? {
            return Ok(());
        }
        self.due = site.history.due(last);
        self.tell_gap(last, site)?;
        self.phase = Phase::Live;
        Ok(())
    }

    /// Whether the body that is begun goes out in chunks: a client of HTTP/1.0 takes none.
    fn takes_chunks(&mut self) -> Result<bool, WriteError>
        requires { self.old.phase ≡ Phase.Closing }
        ensures chunks { IfOk result (λ takes. takes ≡ true → IsStreaming (writing self.new.server)) }
        ensures output { self.new.output.items ≡ self.old.output.items }
        ensures closes { self.new.phase ≡ Phase.Closing }
        ensures came { self.new.input.items ≡ self.old.input.items }
    {
        let frame = self.server.frame_data(1)?;
        Ok(!frame.prefix().is_empty())
    }

    /// Says that events are gone, where they are.
    ///
    /// Errors: where it can't be written; nothing is added then.
    fn tell_gap(&mut self, last: Option<u64>, site: &Site<'_>) -> Result<(), WriteError>
        requires { self.old.phase ≡ Phase.Closing }
        ensures output { OnOk result (self.new.output.items ≡ self.old.output.items ++ (
            if is_gap last site.now.history.now
            then data_text (writing self.old.server) (part_text gap)
            else []
            )) }
        ensures err { OnErr result (self.new.output.items ≡ self.old.output.items) }
        ensures chunks { IsStreaming (writing self.old.server) → IsStreaming (writing self.new.server) }
        ensures due { self.new.due ≡ self.old.due }
        ensures closes { self.new.phase ≡ Phase.Closing }
        ensures came { self.new.input.items ≡ self.old.input.items }
    {
        if site.history.is_gap(last) {
            self.server.write_data(&mut self.output, GAP.as_bytes())
        } else {
            Ok(())
        }
    }
}
