//! Connections with faults (profile).
ghost use Rattle.std.specs.Prelude.{◌≡◌, ◌<◌, Some, None, IfOk, nat_lt, IsTrue};
ghost use Rattle.bad_line.specs.declared.rules.rule.Way.TheVariants.{Frame, Reply};
ghost use Rattle.bad_line.specs.Connections.{Line, OpensNext, AsksRestart, with_restarts, refusal_in};

use crate::connections::arrivals::Arrivals;
use crate::connections::clock::now;
use crate::connections::effect::{Effect, Effects};
use crate::connections::reader::FaultyReader;
use crate::connections::spans::{breaking, refusal_of, restarts};
use crate::connections::writer::FaultyWriter;
use crate::rules::{LineFaults, Rule, Way};
use std::alloc::{AllocError, Global};
use std::io::Write;
use std::marker::Model;
use std::time::Clock;
use uecp_net::Connections;

/// How many connections are refused at most before one is opened.
const REFUSED_MAX: u64 = u64::MAX;

/// Connections with faults over others: what comes of one is what comes out of what it brings, and what is written to
/// it is what comes out of what is given, each direction by its rules. How many segments have come goes on from one
/// connection to the next. One connection is open at a time.
#[derive(Drop)]
pub struct Faulty<'a, C, T, E> {
    connect: C,
    frames: Option<LineFaults>,
    replies: Option<LineFaults>,
    /// For how many milliseconds from the start no connection is taken.
    refusal: u64,
    rules: Vec<Rule>,
    /// How many frames had come when it was asked last whether the encoder begins anew.
    asked: u64,
    /// The milliseconds of the clock at the start.
    start: u64,
    time: &'a T,
    effects: &'a E,
}

impl<'a, C, T, E> Model for Faulty<'a, C, T, E> {
    ghost use Rattle.std.specs.Prelude.{nat_lt};
    ghost use Rattle.bad_line.specs.Connections.{Line};

    ghost Value = { Line C };

    ghost view = { λ f. record {
      connect = f.connect;
      frames = f.frames;
      replies = f.replies;
      refuses = nat_lt 0 f.refusal;
      rules = f.rules.items;
      asked = f.asked;
    } };
}

impl<'a, C: Drop, T: Clock, E> Faulty<'a, C, T, E> {
    /// Connections with these faults. What is left to chance is drawn from the seed, and the same again from the same.
    /// The time counts from now on.
    ///
    /// Errors: no memory for the rules.
    pub fn new(
        alloc: Global,
        connect: C,
        rules: &[Rule],
        seed: u64,
        time: &'a T,
        effects: &'a E,
    ) -> Result<Faulty<'a, C, T, E>, AllocError>
        ensures { IfOk result (λ f. f ≡ record {
          connect = connect;
          frames = Some (record { rules = with_restarts rules.now; way = Frame; passed = 0 });
          replies = Some (record { rules = with_restarts rules.now; way = Reply; passed = 0 });
          refuses = nat_lt 0 (refusal_in rules.now);
          rules = rules.now;
          asked = 0;
        }) }
    {
        let all = breaking(alloc, rules)?;
        let frames = LineFaults::of(alloc, all.as_slice(), Way::Frame, seed)?;
        let replies = LineFaults::of(alloc, all.as_slice(), Way::Reply, seed.wrapping_add(1))?;
        let mut kept = Vec::new(alloc);
        kept.extend_from_slice(rules)?;
        Ok(Faulty {
            connect,
            frames: Some(frames),
            replies: Some(replies),
            refusal: refusal_of(rules),
            rules: kept,
            asked: 0,
            start: now(time),
            time,
            effects,
        })
    }
}

impl<'a, C, T: Clock, E> Faulty<'a, C, T, E> {
    /// Where connections without faults come from, back.
    pub fn into_inner(self) -> C
        ensures { result ≡ self.entry.connect }
    {
        let Faulty {
            connect,
            frames: _,
            replies: _,
            refusal: _,
            rules: _,
            asked: _,
            start: _,
            time: _,
            effects: _,
        } = self;
        connect
    }

    /// Whether the encoder begins anew: a frame came behind which it does since this was asked last. It is asked
    /// between two connections, since the connection breaks behind that frame; while one is open the answer is no.
    pub fn takes_restart(&mut self) -> bool
        ensures { AsksRestart self.old result self.new }
    {
        match &self.frames {
            Some(frames) => {
                let passed = frames.passed();
                let due = restarts(self.rules.as_slice(), self.asked, passed);
                self.asked = passed;
                due
            }
            None => false,
        }
    }

    /// Whether no connection is taken now, which is so only where a rule refuses some.
    fn refuses(&self) -> bool
        ensures { IsTrue result → IsTrue self.now.refuses }
    {
        self.refusal > 0 && now(self.time).saturating_sub(self.start) < self.refusal
    }
}

impl<'a, C: Connections, T: Clock, E: Effects> Faulty<'a, C, T, E> {
    /// The next connection without faults, behind those that are refused.
    fn open_next(&mut self) -> Option<(C::Input, C::Output)>
        ensures { OpensNext C.opens C.closes self.old result self.new }
    {
        for _refused in 0..REFUSED_MAX {
            match self.connect.open() {
                None => return None,
                Some((input, output)) => {
                    if !self.refuses() {
                        return Some((input, output));
                    }
                    self.effects.tell(Effect::Refused);
                    self.connect.close(input, output);
                }
            }
        }
        None
    }
}

impl<'a, A: Write + Arrivals + Drop, C: Connections<Output = A>, T: Clock, E: Effects> Connections
    for Faulty<'a, C, T, E> {
    type Input = FaultyReader<'a, C::Input, A, T, E>;

    type Output = FaultyWriter<'a, A, T, E>;

    ghost use Rattle.bad_line.specs.Connections.{OpensFaulty, ClosesFaulty};

    ghost opens = { λ line ends line'. OpensFaulty C.opens C.closes line ends line' };

    ghost closes = { λ line input output line'. ClosesFaulty C.closes line input output line' };

    fn open(&mut self) -> Option<(Self::Input, Self::Output)> {
        let Some(frames) = self.frames.take() else {
            return None;
        };
        let Some(replies) = self.replies.take() else {
            self.frames = Some(frames);
            return None;
        };
        match self.open_next() {
            Some((input, output)) => {
                let arrivals = output.another();
                Some((
                    FaultyReader::new(input, frames, arrivals, self.time, self.effects),
                    FaultyWriter::new(output, replies, self.time, self.effects),
                ))
            }
            None => {
                self.frames = Some(frames);
                self.replies = Some(replies);
                None
            }
        }
    }

    fn close(&mut self, input: Self::Input, output: Self::Output) {
        let (input, frames) = input.into_parts();
        let (output, replies) = output.into_parts();
        self.connect.close(input, output);
        self.frames = Some(frames);
        self.replies = Some(replies);
    }
}
