//! The connections of a device, as its edge tells of them (profile).
ghost use Rattle.std.specs.Prelude.{◌≡◌, false};
ghost use Rattle.bad_line.specs.Connections.{Line};

use crate::telling::Told;
use bad_line::{Arrivals, Effects, Faulty};
use device_edges::Idle;
use std::io::{Read, Write};
use std::marker::Model;
use std::time::Clock;
use uecp_net::Connections;

/// How many addresses are told at a time from which no connection was taken.
const STRANGERS_MAX: u32 = 8;

/// Connections that are told of where they are closed since nothing came on them, or gave way to one that waited; what
/// is told no contract says.
#[derive(Drop)]
pub(crate) struct Attended<'t, 'w, C, W: Write, T: Clock> {
    connect: C,
    /// After how many seconds with nothing they are closed.
    idle: u32,
    /// After how many seconds they give way.
    yielding: u32,
    told: &'t Told<'w, W, T>,
}

impl<'t, 'w, C, W: Write, T: Clock> Model for Attended<'t, 'w, C, W, T> {
    ghost Value = { C };

    ghost view = { λ a. a.connect };
}

impl<'t, 'w, C, W: Write, T: Clock> Attended<'t, 'w, C, W, T> {
    /// These connections, which are closed where nothing comes for so many seconds, and give way after so many.
    pub(crate) fn new(
        connect: C,
        idle: u32,
        yielding: u32,
        told: &'t Told<'w, W, T>,
    ) -> Attended<'t, 'w, C, W, T>
        ensures { result ≡ connect }
    {
        Attended {
            connect,
            idle,
            yielding,
            told,
        }
    }
}

impl<'t, 'w, R: Read + Drop, C: Connections<Input = Idle<R>>, W: Write, T: Clock> Connections
    for Attended<'t, 'w, C, W, T> {
    type Input = Idle<R>;

    type Output = C::Output;

    ghost opens = { λ connect ends connect'. C.opens connect ends connect' };

    ghost closes = { λ connect input output connect'. C.closes connect input output connect' };

    fn open(&mut self) -> Option<(Idle<R>, Self::Output)> {
        self.connect.open()
    }

    fn close(&mut self, input: Idle<R>, output: Self::Output) {
        tell_strangers(&input, self.told);
        let is_idle = input.is_idle();
        let gave_way = input.gave_way();
        self.connect.close(input, output);
        if is_idle {
            self.told.tell_idle(self.idle);
        }
        if gave_way {
            self.told.tell_yielding(self.yielding);
        }
    }
}

/// Tells from which addresses no connection was taken while this one was served.
fn tell_strangers<R, W: Write, T: Clock>(input: &Idle<R>, told: &Told<'_, W, T>) {
    for _stranger in 0..STRANGERS_MAX {
        let Some(address) = input.take_stranger() else {
            return;
        };
        told.tell_stranger(&address);
    }
}

/// Connections of a bad line up to one behind which the encoder begins anew: then there is none to be had, once.
#[derive(Drop)]
pub(crate) struct Restarting<'a, 'f, K: Connections + Drop, T: Clock, E: Effects> {
    faulty: &'a mut Faulty<'f, K, T, E>,
    is_restart: bool,
}

impl<'a, 'f, K: Connections + Drop, T: Clock, E: Effects> Model for Restarting<'a, 'f, K, T, E> {
    ghost use Rattle.device_jobs.specs.Connections.{Stretch};

    ghost Value = { Stretch K };

    ghost view = { λ r. record { line = r.faulty.now; is_over = r.is_restart } };
}

impl<'a, 'f, K: Connections + Drop, T: Clock, E: Effects> Restarting<'a, 'f, K, T, E> {
    /// The connections of this line.
    pub(crate) fn new(faulty: &'a mut Faulty<'f, K, T, E>) -> Restarting<'a, 'f, K, T, E>
        ensures line { result.line ≡ faulty.old }
        ensures over { result.is_over ≡ false }
    {
        Restarting {
            faulty,
            is_restart: false,
        }
    }

    /// Whether there was none to be had since the encoder begins anew.
    pub(crate) fn is_restart(&self) -> bool
        ensures { result ≡ self.now.is_over }
    {
        self.is_restart
    }
}

impl<
    'a,
    'f,
    A: Write + Arrivals + Drop,
    K: Connections<Output = A> + Drop,
    T: Clock,
    E: Effects,
> Connections for Restarting<'a, 'f, K, T, E> {
    type Input = <Faulty<'f, K, T, E> as Connections>::Input;

    type Output = <Faulty<'f, K, T, E> as Connections>::Output;

    ghost use Rattle.device_jobs.specs.Connections.{OpensUpTo, ClosesOn};

    ghost opens = { λ s ends s'. OpensUpTo ⟦<Faulty<'f, K, T, E> as Connections>⟧.opens s ends s' };

    ghost closes = { λ s input output s'.
        ClosesOn ⟦<Faulty<'f, K, T, E> as Connections>⟧.closes s input output s' };

    fn open(&mut self) -> Option<(Self::Input, Self::Output)> {
        if self.faulty.takes_restart() {
            self.is_restart = true;
            return None;
        }
        self.faulty.open()
    }

    fn close(&mut self, input: Self::Input, output: Self::Output) {
        self.faulty.close(input, output);
    }
}
