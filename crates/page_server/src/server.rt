//! A page is served for as long as lines come: what is read, which lines are taken, and who is heard and sent what.
//! What a socket gives or takes is the machine's matter (profile).

ghost use Rattle.std.specs.Prelude.{◌≡◌, ◌⊎◌, false, [], IfOk, IsTrue, ◌↔◌, option_map};
ghost use Rattle.std.specs.Duration.{as_nanos};
ghost use Rattle.page.specs.Intake.{board_of, IsLoopback, first_number};
ghost use Rattle.page.specs.Input.{cutting_of, IntakeOf, TakesNext, TakesLast, GoesOn, Ends};
ghost use Rattle.page_server.specs.Serving.{ReadsAll, Moves, other_line};
ghost use Rattle.notices.specs.Told.{Says};
ghost use Rattle.page_server.specs.Guesting.{AllCaughtUp, seconds_since, moment_of, TakesNow, IsServing, IsHeard};
ghost use Rattle.page_server.specs.Guesting.{Welcomes, Settles};
ghost use Rattle.page.specs.Talk.{IsUnsaid};
ghost use Rattle.page.specs.Visits.{guests_of, AllDo};

use crate::start::Start;
use crate::stop::Stop;
use itoa::Buffer;
use notices::{Notices, NoticesTo};
use page::{
    Accepted, Connection, Deed, Guests, Intake, Moment, Sockets, Taken, first_number, own_only,
};
use std::alloc::Global;
use std::io::{Read, Write};

/// How many lines are taken before those who ask are looked after again.
const LINES_MAX: u32 = 256;

/// How many connections are accepted in one turn.
const ACCEPTS_MAX: u32 = 64;

/// A tick, in milliseconds: so often each who asks is looked at for how long it has been there.
const TICK: u64 = 1000;

/// For how many milliseconds at most what waits is sent once the input has ended.
const LAST: u64 = 2000;

/// For how many milliseconds is waited at once meanwhile.
const LAST_WAIT: u64 = 100;

/// What is said where there is no descriptor or no memory for one more who asks.
const NO_ROOM: &[u8] = b"uecp: too many files are open: who comes now waits\n";

/// How far a turn came with the input.
#[derive(Clone, Copy, Debug, PartialEq, Eq)]
pub(crate) enum Progress {
    /// There may be more at once.
    More,
    /// A read would wait.
    Waits,
    /// The input has ended, and all its lines were taken.
    Ended,
}

/// What there is of a page: what was read, what is shown, the last events, and those who ask.
pub(crate) struct Serving<C> {
    alloc: Global,
    guests: Guests<C>,
    intake: Intake,
    heard: Option<u64>,
    stale: Option<u32>,
    ticked: u64,
    is_out: bool,
}

impl<C: Connection> Serving<C> {
    /// A page of which nothing came yet. The first event gets the time in microseconds for its number.
    pub(crate) fn new(alloc: Global, start: &Start) -> Result<Serving<C>, Stop>
        ensures own_only { IfOk result (λ serving. IsTrue serving.guests.own_only ↔ IsLoopback start.now.place) }
        ensures first { IfOk result (λ serving. (board_of serving.intake).past.first
            ≡ first_number (option_map as_nanos start.now.since)) }
        ensures refused { IfOk result (λ serving. (board_of serving.intake).refused ≡ false) }
        ensures stale { IfOk result (λ serving. serving.stale ≡ start.now.stale) }
        ensures begins { IfOk result (λ serving. IntakeOf (first_number (option_map as_nanos start.now.since)) []
            serving.intake) }
        ensures serving { IfOk result (IsServing C.talk) }
        ensures caught_up { IfOk result AllCaughtUp }
    {
        let Ok(intake) = Intake::new(alloc, first_number(start.since())) else {
            return Err(Stop::OutOfMemory);
        };
        Ok(Serving {
            alloc,
            guests: Guests::new(alloc, own_only(&start.place())),
            intake,
            heard: None,
            stale: start.stale(),
            ticked: 0,
            is_out: false,
        })
    }

    /// Serves until the input has ended and what waits is sent. Whether a line was no object of ours.
    pub(crate) fn serve<R: Read, E: Write, S: Sockets<Connection = C>>(
        &mut self,
        reader: &mut R,
        errors: &mut NoticesTo<E>,
        sockets: &mut S,
    ) -> Result<bool, Stop>
        requires serving { IsServing C.talk self.old }
        requires caught_up { AllCaughtUp self.old }
        ensures all { IfOk result (λ _. ReadsAll (R.remaining reader.old) (R.remaining reader.new) self.old.intake
            self.new.intake) }
        ensures refused { IfOk result (λ refused. refused ≡ (board_of self.new.intake).refused) }
        ensures limit { self.new.stale ≡ self.old.stale }
        ensures serving { IsServing C.talk self.new }
        ensures caught_up { AllCaughtUp self.new }
    {
        self.take_all(reader, errors, sockets)?;
        self.send_rest(errors, sockets)?;
        Ok(self.intake.refused())
    }

    /// Takes the lines as they come up to the end of the input, and looks after those who ask meanwhile.
    fn take_all<R: Read, E: Write, S: Sockets<Connection = C>>(
        &mut self,
        reader: &mut R,
        errors: &mut NoticesTo<E>,
        sockets: &mut S,
    ) -> Result<(), Stop>
        requires serving { IsServing C.talk self.old }
        requires caught_up { AllCaughtUp self.old }
        ensures reads { IfOk result (λ _. ReadsAll (R.remaining reader.old) (R.remaining reader.new) self.old.intake
            self.new.intake) }
        ensures limit { self.new.stale ≡ self.old.stale }
        ensures serving { IsServing C.talk self.new }
        ensures caught_up { AllCaughtUp self.new }
    {
        let mut numbers = Vec::new(self.alloc);
        let mut at_once = true;
        for _turn in 0..u64::MAX {
            let limit = if at_once { 0 } else { TICK };
            self.turn(limit, &mut numbers, errors, sockets)?;
            match self.take_lines(reader, errors, sockets)? {
                Progress::Ended => return Ok(()),
                progress => at_once = progress == Progress::More,
            }
            self.settle(sockets);
        }
        Err(Stop::Listening)
    }

    /// Waits at most so many milliseconds; hears those on whose connections something came, and answers them; and
    /// accepts those who ask.
    fn turn<E: Write, S: Sockets<Connection = C>>(
        &mut self,
        limit: u64,
        numbers: &mut Vec<usize>,
        errors: &mut NoticesTo<E>,
        sockets: &mut S,
    ) -> Result<(), Stop>
        requires serving { IsServing C.talk self.old }
        requires caught_up { AllCaughtUp self.old }
        ensures same { self.new.intake ≡ self.old.intake }
        ensures limit { self.new.stale ≡ self.old.stale }
        ensures serving { IsServing C.talk self.new }
        ensures caught_up { AllCaughtUp self.new }
    {
        let Some(asks) = sockets.wait(limit, numbers) else {
            return Err(Stop::Listening);
        };
        for number in numbers.iter() {
            self.hear(*number, sockets);
        }
        if asks {
            self.accept(errors, sockets);
        }
        Ok(())
    }

    /// Something came on the connection of this number, or it may be written to: it is heard, and sent what waits.
    fn hear<S: Sockets<Connection = C>>(&mut self, number: usize, sockets: &mut S)
        requires serving { IsServing C.talk self.old }
        requires caught_up { AllCaughtUp self.old }
        ensures hears { IsHeard C.talk C.origin C.numbered C.reads S.reads sockets.old number self.old self.new }
        ensures same { self.new.intake ≡ self.old.intake }
        ensures limit { self.new.stale ≡ self.old.stale }
        ensures serving { IsServing C.talk self.new }
        ensures caught_up { AllCaughtUp self.new }
    {
        let moment = self.moment(sockets.now());
        self.guests
            .hear(self.alloc, number, &self.intake, moment, sockets);
    }

    /// The moment at which the clock says now.
    fn moment(&self, now: u64) -> Moment
        ensures { result ≡ moment_of self.now now }
    {
        Moment {
            now,
            seconds: seconds_since(self.heard, now),
            stale: self.stale,
        }
    }

    /// Accepts those who ask. Where there is no descriptor or no memory for one more, that is said once until all who
    /// asked were accepted.
    fn accept<E: Write, S: Sockets<Connection = C>>(
        &mut self,
        errors: &mut NoticesTo<E>,
        sockets: &mut S,
    )
        requires serving { IsServing C.talk self.old }
        requires caught_up { AllCaughtUp self.old }
        ensures same { self.new.intake ≡ self.old.intake }
        ensures limit { self.new.stale ≡ self.old.stale }
        ensures serving { IsServing C.talk self.new }
        ensures caught_up { AllCaughtUp self.new }
    {
        for _one in 0..ACCEPTS_MAX {
            match sockets.accept() {
                Accepted::One(connection) => self.welcome(connection, sockets),
                Accepted::Nobody => {
                    self.is_out = false;
                    return;
                }
                Accepted::NoRoom => {
                    if !self.is_out {
                        errors.say(&[NO_ROOM]);
                    }
                    self.is_out = true;
                    return;
                }
            }
        }
    }

    /// One more asks. What came of it already is heard at once, so that where it has asked it is answered before
    /// another takes its place.
    fn welcome<S: Sockets<Connection = C>>(&mut self, connection: C, sockets: &mut S)
        requires serving { IsServing C.talk self.old }
        requires caught_up { AllCaughtUp self.old }
        requires unsaid { IsUnsaid (C.talk connection) }
        ensures welcomes { Welcomes C.talk C.origin C.numbered C.reads S.reads connection self.old self.new }
        ensures same { self.new.intake ≡ self.old.intake }
        ensures limit { self.new.stale ≡ self.old.stale }
        ensures serving { IsServing C.talk self.new }
        ensures caught_up { AllCaughtUp self.new }
    {
        let number = connection.number();
        self.guests
            .add(self.alloc, connection, self.intake.history(), sockets);
        self.hear(number, sockets);
    }

    /// All who ask do this.
    fn all<S: Sockets<Connection = C>>(&mut self, deed: Deed, sockets: &mut S)
        requires { IsServing C.talk self.old }
        ensures all { AllDo C.talk deed (board_of self.old.intake).past (guests_of self.old.guests)
            (guests_of self.new.guests) }
        ensures same { self.new ≡ record self.old { guests = self.new.guests } }
        ensures serving { IsServing C.talk self.new }
        ensures caught_up { ((deed ≡ Deed.CatchUp) ⊎ AllCaughtUp self.old) → AllCaughtUp self.new }
    {
        self.guests
            .all(self.alloc, self.intake.history(), deed, sockets);
    }

    /// What waits is sent, as far as each takes it; and where enough time has gone by, each who asks is looked at.
    fn settle<S: Sockets<Connection = C>>(&mut self, sockets: &mut S)
        requires serving { IsServing C.talk self.old }
        requires caught_up { AllCaughtUp self.old }
        ensures same { self.new.intake ≡ self.old.intake }
        ensures settles { Settles C.talk S.reads sockets.old self.old self.new }
        ensures limit { self.new.stale ≡ self.old.stale }
        ensures serving { IsServing C.talk self.new }
        ensures caught_up { AllCaughtUp self.new }
    {
        let now = sockets.now();
        self.all(Deed::Deliver, sockets);
        if now >= self.ticked.saturating_add(TICK) {
            self.ticked = now;
            self.all(Deed::Tick, sockets);
            self.all(Deed::Deliver, sockets);
        }
    }

    /// The input has ended, so no more events come: what waits is sent, for so long as that may take.
    fn send_rest<E: Write, S: Sockets<Connection = C>>(
        &mut self,
        errors: &mut NoticesTo<E>,
        sockets: &mut S,
    ) -> Result<(), Stop>
        requires serving { IsServing C.talk self.old }
        requires caught_up { AllCaughtUp self.old }
        ensures same { self.new.intake ≡ self.old.intake }
        ensures limit { self.new.stale ≡ self.old.stale }
        ensures serving { IsServing C.talk self.new }
        ensures caught_up { AllCaughtUp self.new }
    {
        self.all(Deed::End, sockets);
        let last = sockets.now().saturating_add(LAST);
        let mut numbers = Vec::new(self.alloc);
        for _turn in 0..u64::MAX {
            self.settle(sockets);
            self.turn(LAST_WAIT, &mut numbers, errors, sockets)?;
            if !self.guests.is_behind() || sockets.now() >= last {
                return Ok(());
            }
        }
        Err(Stop::Listening)
    }

    /// Lets all go who ask, and closes their connections.
    pub(crate) fn close<S: Sockets<Connection = C>>(self, sockets: &mut S)
        requires { IsServing C.talk self }
    {
        let Serving {
            alloc: _,
            guests,
            intake,
            heard: _,
            stale: _,
            ticked: _,
            is_out: _,
        } = self;
        guests.close(intake.history(), sockets);
    }

    /// Takes the lines that are there, so many at most, of one read.
    fn take_lines<R: Read, E: Write, S: Sockets<Connection = C>>(
        &mut self,
        reader: &mut R,
        errors: &mut NoticesTo<E>,
        sockets: &mut S,
    ) -> Result<Progress, Stop>
        requires serving { IsServing C.talk self.old }
        requires caught_up { AllCaughtUp self.old }
        ensures moves { IfOk result (Moves (R.remaining reader.old) (R.remaining reader.new) self.old.intake
            self.new.intake) }
        ensures limit { self.new.stale ≡ self.old.stale }
        ensures serving { IsServing C.talk self.new }
        ensures caught_up { AllCaughtUp self.new }
    {
        if !self.intake.is_cut() {
            return self.take_read(errors, sockets);
        }
        if !sockets.has_input() {
            return Ok(Progress::Waits);
        }
        match self.intake.read(reader) {
            Ok(true) => self.take_read(errors, sockets),
            Ok(false) => self.take_last(errors, sockets),
            Err(_) => Err(Stop::Reading),
        }
    }

    /// Takes lines of what was read, so many at most.
    fn take_read<E: Write, S: Sockets<Connection = C>>(
        &mut self,
        errors: &mut NoticesTo<E>,
        sockets: &mut S,
    ) -> Result<Progress, Stop>
        requires serving { IsServing C.talk self.old }
        requires caught_up { AllCaughtUp self.old }
        ensures more { IfOk result (λ progress. progress ≡ Progress.More) }
        ensures goes_on { IfOk result (λ _. GoesOn [] self.old.intake self.new.intake) }
        ensures limit { self.new.stale ≡ self.old.stale }
        ensures serving { IsServing C.talk self.new }
        ensures caught_up { AllCaughtUp self.new }
    {
        for _line in 0..LINES_MAX {
            if !self.take_next(errors, sockets)? {
                break;
            }
        }
        Ok(Progress::More)
    }

    /// Takes the next line of what was read, once, as one that comes now. Whether there was one. That a message was
    /// heard is told by the time only where one was counted.
    fn take_next<E: Write, S: Sockets<Connection = C>>(
        &mut self,
        errors: &mut NoticesTo<E>,
        sockets: &mut S,
    ) -> Result<bool, Stop>
        requires serving { IsServing C.talk self.old }
        requires caught_up { AllCaughtUp self.old }
        ensures goes_on { IfOk result (λ _. GoesOn [] self.old.intake self.new.intake) }
        ensures taken { IfOk result (λ _. TakesNow TakesNext S.reads sockets.old self.old.intake self.new.intake) }
        ensures heard { IfOk result (λ _. (board_of self.new.intake).shown.messages
            ≡ (board_of self.old.intake).shown.messages → self.new.heard ≡ self.old.heard) }
        ensures limit { self.new.stale ≡ self.old.stale }
        ensures serving { IsServing C.talk self.new }
        ensures caught_up { AllCaughtUp self.new }
    {
        let before = self.intake.page().messages();
        let came = sockets.now();
        match self.intake.take_next(self.alloc, came) {
            Err(_) => Err(Stop::OutOfMemory),
            Ok(None) => Ok(false),
            Ok(Some(taken)) => {
                self.tell(before, came, taken, errors, sockets);
                Ok(true)
            }
        }
    }

    /// The input has ended: a line that no line feed ends is taken, as one that comes now.
    fn take_last<E: Write, S: Sockets<Connection = C>>(
        &mut self,
        errors: &mut NoticesTo<E>,
        sockets: &mut S,
    ) -> Result<Progress, Stop>
        requires cut { (cutting_of self.old.intake).ahead ≡ [] }
        requires serving { IsServing C.talk self.old }
        requires caught_up { AllCaughtUp self.old }
        ensures ended { IfOk result (λ progress. progress ≡ Progress.Ended) }
        ensures ends { IfOk result (λ _. Ends [] self.old.intake self.new.intake) }
        ensures taken { IfOk result (λ _. TakesNow TakesLast S.reads sockets.old self.old.intake self.new.intake) }
        ensures heard { IfOk result (λ _. (board_of self.new.intake).shown.messages
            ≡ (board_of self.old.intake).shown.messages → self.new.heard ≡ self.old.heard) }
        ensures limit { self.new.stale ≡ self.old.stale }
        ensures serving { IsServing C.talk self.new }
        ensures caught_up { AllCaughtUp self.new }
    {
        let before = self.intake.page().messages();
        let came = sockets.now();
        match self.intake.take_last(self.alloc, came) {
            Err(_) => return Err(Stop::OutOfMemory),
            Ok(None) => {}
            Ok(Some(taken)) => self.tell(before, came, taken, errors, sockets),
        }
        Ok(Progress::Ended)
    }

    /// Tells what a line came to that came then: an event goes to those who get them, another line is told on `errors`.
    /// So many messages were counted before it.
    fn tell<E: Write, S: Sockets<Connection = C>>(
        &mut self,
        before: u64,
        came: u64,
        taken: Taken,
        errors: &mut NoticesTo<E>,
        sockets: &mut S,
    )
        requires serving { IsServing C.talk self.old }
        requires caught_up { (taken ≡ Taken.Event → ⊥) → AllCaughtUp self.old }
        ensures same { self.new.intake ≡ self.old.intake }
        ensures heard { (board_of self.old.intake).shown.messages ≡ before → self.new.heard ≡ self.old.heard }
        ensures event { taken ≡ Taken.Event → AllDo C.talk Deed.CatchUp (board_of self.old.intake).past
            (guests_of self.old.guests) (guests_of self.new.guests) }
        ensures limit { self.new.stale ≡ self.old.stale }
        ensures serving { IsServing C.talk self.new }
        ensures caught_up { AllCaughtUp self.new }
    {
        match taken {
            Taken::Other(number) => say_other(number, errors),
            Taken::Event => self.all(Deed::CatchUp, sockets),
            Taken::Unsent => {}
        }
        if self.intake.page().messages() != before {
            self.heard = Some(came);
        }
    }
}

/// How many whole seconds have gone by since then, where it is told.
fn seconds_since(then: Option<u64>, now: u64) -> Option<u64>
    ensures { result ≡ seconds_since then now }
{
    match then {
        Some(then) => Some(now.saturating_sub(then) / 1000),
        None => None,
    }
}

/// Says that the line of this number is no object of ours.
#[tactic(auto, unfolding(crate::specs::Serving::other_line))]
fn say_other<E: Write>(number: u64, errors: &mut NoticesTo<E>)
    ensures { Says errors.old errors.new (other_line number) }
{
    let mut buffer = Buffer::new();
    let digits = buffer.format(number).as_bytes();
    errors.say(&[b"uecp: line ", digits, b": no object of uecp\n"]);
}
