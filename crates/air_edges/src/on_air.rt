//! The edge of an encoder on the air, over the sockets that the machine gives it (profile).
ghost use Rattle.std.specs.Prelude.{◌≡◌, ◌<◌, ◌≤◌, ◌^◌, ◌++◌, ◌∷◌, [], length, MatchOption, IfOk, true};
ghost use Rattle.std.specs.List.{list_any};
ghost use Rattle.uecp_text.specs.Written.{Begins};
ghost use Rattle.device_edges.specs.Place.{room_line};
ghost use Rattle.air_edges.specs.Hearers.{is_behind};
ghost use Rattle.air_edges.specs.Edge.{
  edge_at_first,
  Accepts,
  Joins,
  TakesPlace,
  crowd_line,
  TellsOut,
  TellsOnce,
  TellsSlow,
  LookBrings,
  LookPasses,
  Brings,
  Passes,
  IsEarly,
};

use crate::form::{AirForm, bytes_of};
use crate::hearers::Hearers;
use crate::hears::Hears;
use crate::pace::Pace;
use crate::silence::{is_silent, wait_limit};
use crate::sockets::Sockets;
use device_edges::NO_ROOM;
use device_serving::{Moment, Moments};
use rds_groups::Group;
use std::alloc::{AllocError, Global};
use std::io::Write;
use std::marker::Model;
use uecp_text::write_parts;

/// What is said where one more than may listen wants to.
const FULL: &[u8] = b"uecp: air: too many listen, and one more is not taken\n";

/// What is said of one who is let go as slow.
const SLOW: &[u8] = b"uecp: air: one who listens does not keep up, and is closed\n";

/// What is said of one who is let go since more listen from where it comes than from where another does.
const CROWD: &[u8] = b"uecp: air: too many listen from one address, and one of them is closed\n";

/// The edge of an encoder on the air: connections of the studio are accepted, one at a time, and those who listen get
/// the groups as they go out, from the next on, at most 64. Who does not take them in time is let go, which is said.
/// Where there are 64 one more gets the place of the first that is behind; or where none is, of the first of those from
/// whose address most listen, where from its own fewer do; or is not taken. That is said once until there is room. That
/// the system has no room for one more connection is said once until it has.
#[derive(Drop)]
pub struct OnAir<'a, S, H, W: Write> {
    sockets: S,
    notices: &'a mut W,
    form: AirForm,
    idle: Option<u32>,
    pace: Pace,
    heard: u64,
    hearers: Hearers<H>,
    is_full_told: bool,
    is_crowd_told: bool,
    is_out_told: bool,
}

impl<'a, S, H, W: Write> Model for OnAir<'a, S, H, W> {
    ghost use Rattle.air_edges.specs.Edge.{Edge};

    ghost Value = { Edge S H };

    ghost view = { λ a. record {
      sockets = a.sockets;
      form = a.form;
      idle = a.idle;
      next = a.pace;
      heard = a.heard;
      hearers = a.hearers;
      is_full_told = a.is_full_told;
      is_crowd_told = a.is_crowd_told;
      is_out_told = a.is_out_told;
      told = W.contents a.notices.now;
    } };
}

impl<'a, S: Drop, H: Drop, W: Write> OnAir<'a, S, H, W> {
    /// Is on the air over these sockets from the first wait on. A connection of the studio on which nothing comes for
    /// `idle` seconds is given up; with None there is no limit. What is said of those who listen goes to `notices`.
    ///
    /// Errors: no memory for those who listen.
    pub fn new(
        alloc: Global,
        sockets: S,
        form: AirForm,
        idle: Option<u32>,
        notices: &'a mut W,
    ) -> Result<OnAir<'a, S, H, W>, AllocError>
        ensures { IfOk result (λ edge. edge ≡ edge_at_first sockets form idle (W.contents notices.old)) }
    {
        let hearers = Hearers::new(alloc)?;
        Ok(OnAir {
            sockets,
            notices,
            form,
            idle,
            pace: Pace::new(),
            heard: 0,
            hearers,
            is_full_told: false,
            is_crowd_told: false,
            is_out_told: false,
        })
    }
}

impl<'a, S: Sockets<Hearer = H>, H: Hears, W: Write> OnAir<'a, S, H, W> {
    /// Reads the clock, and does what is to be done at its time; where nothing is, looks once. None: nothing came of
    /// it.
    fn turn(&mut self, is_open: bool) -> Option<Moment<S::Input, S::Output>>
        ensures { MatchOption result (Passes S.reads S.waits S.opens S.joins is_open self.old self.new)
            (λ moment. Brings S.reads S.waits S.opens S.joins is_open self.old moment self.new) }
    {
        let now = self.sockets.now();
        if self.pace.is_due(now) {
            self.pace.sent(now);
            return Some(Moment::Due);
        }
        if is_silent(is_open, self.idle, self.heard, now) {
            self.heard = now;
            return Some(Moment::Readable);
        }
        self.look(is_open, now)
    }

    /// Waits once, at most until something is to be done, and accepts who came.
    fn look(&mut self, is_open: bool, now: u64) -> Option<Moment<S::Input, S::Output>>
        requires range { now < 2 ^ 58 }
        requires early { IsEarly is_open self.old now }
        ensures { MatchOption result (LookPasses S.reads S.waits S.opens S.joins is_open now self.old self.new)
            (λ moment. LookBrings S.reads S.waits S.opens S.joins is_open now self.old moment self.new) }
    {
        let limit = wait_limit(is_open, self.idle, self.heard, &self.pace, now);
        let came = match self.sockets.wait(is_open, limit) {
            Some(came) => came,
            None => return Some(Moment::Over),
        };
        self.tell_out(came.is_out);
        self.accept(came.air);
        if !came.studio {
            return None;
        }
        if is_open {
            self.heard = now;
            return Some(Moment::Readable);
        }
        match self.sockets.open() {
            Some((input, output)) => {
                self.heard = now;
                Some(Moment::Connected(input, output))
            }
            None => None,
        }
    }

    /// Accepts one who wants to listen, where one came.
    fn accept(&mut self, came: bool)
        ensures { Accepts S.joins came self.old self.new }
    {
        if !came {
            return;
        }
        match self.sockets.join() {
            Some((output, origin)) => self.add(output, origin),
            None => {}
        }
    }

    /// One more that comes from there listens. Where as many do as may it is in the place of the one that gives it, and
    /// where none does it is not taken, which is said.
    fn add(&mut self, output: H, origin: u128)
        ensures { Joins output origin self.old self.new }
    {
        if self.hearers.has_room() {
            self.hearers.add(output, origin);
            return;
        }
        match self.hearers.given_place(origin) {
            Some(place) => self.replace(place, output, origin),
            None => self.tell_once(FULL),
        }
    }

    /// One more listens in the place of the one at this place, who is let go, as slow or for the crowd that it is of;
    /// which is said.
    fn replace(&mut self, place: usize, output: H, origin: u128)
        requires { place < length self.old.hearers }
        ensures { TakesPlace (list_any is_behind self.old.hearers) place output origin self.old self.new }
    {
        let is_slow = self.hearers.is_behind();
        self.hearers.replace(place, output, origin);
        if is_slow {
            self.tell_once(SLOW);
        } else {
            self.tell_crowd();
        }
    }

    /// Says why one more is not taken, or in whose place it is, once until there is room again: who comes again and
    /// again would fill what takes the notices, and hold the encoder.
    fn tell_once(&mut self, line: &[u8])
        ensures tells { TellsOnce line.now self.old.is_full_told self.old.told self.new.told }
        ensures same { self.new ≡ record self.old { is_full_told = true; told = self.new.told } }
    {
        if !self.is_full_told {
            let _ = write_parts(&[line], self.notices);
            self.is_full_told = true;
        }
    }

    /// Says that one is let go for the crowd that it is of, once until there is room again.
    fn tell_crowd(&mut self)
        ensures tells { TellsOnce crowd_line self.old.is_crowd_told self.old.told self.new.told }
        ensures same { self.new ≡ record self.old { is_crowd_told = true; told = self.new.told } }
    {
        if !self.is_crowd_told {
            let _ = write_parts(&[CROWD], self.notices);
            self.is_crowd_told = true;
        }
    }

    /// Says that there is no room for one more connection, where there is none, once until there is again.
    fn tell_out(&mut self, is_out: bool)
        ensures { TellsOut is_out self.old self.new }
    {
        if is_out {
            self.tell_no_room();
        } else {
            self.is_out_told = false;
        }
    }

    /// Says so, where it was not said.
    fn tell_no_room(&mut self)
        ensures tells { TellsOnce room_line self.old.is_out_told self.old.told self.new.told }
        ensures same { self.new ≡ record self.old { is_out_told = true; told = self.new.told } }
    {
        if !self.is_out_told {
            let _ = write_parts(&[NO_ROOM], self.notices);
            self.is_out_told = true;
        }
    }

    /// Says of so many that they are let go.
    fn tell_slow(&mut self, count: usize)
        ensures tells { TellsSlow count self.old.told self.new.told }
        ensures same { self.new ≡ record self.old { told = self.new.told } }
    {
        for _one in 0..count {
            let _ = write_parts(&[SLOW], self.notices);
        }
    }
}

impl<'a, S: Sockets<Hearer = H>, H: Hears, W: Write> Moments for OnAir<'a, S, H, W> {
    type Input = S::Input;

    type Output = S::Output;

    ghost use Rattle.air_edges.specs.Edge.{Waits, ClosesEnds, SendsGroup};

    ghost waits = { λ e is_open moment e'. Waits S.reads S.waits S.opens S.joins e is_open moment e' };

    ghost closes = { λ e input output e'. ClosesEnds S.closes e input output e' };

    ghost sends = { λ e group e'. SendsGroup H.takes H.contents e group e' };

    fn wait(&mut self, is_open: bool) -> Moment<S::Input, S::Output> {
        for _turn in 0..u64::MAX {
            match self.turn(is_open) {
                Some(moment) => return moment,
                None => {}
            }
        }
        Moment::Over
    }

    fn close(&mut self, input: S::Input, output: S::Output) {
        self.sockets.close(input, output);
    }

    fn send(&mut self, group: &Group) {
        let bytes = bytes_of(group, self.form);
        let slow = self.hearers.send(bytes.as_slice());
        if self.hearers.has_room() {
            self.is_full_told = false;
            self.is_crowd_told = false;
        }
        self.tell_slow(slow);
    }
}
