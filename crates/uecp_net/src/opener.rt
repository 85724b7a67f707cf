//! Connections by what only opens them. Source: profile.
ghost use Rattle.std.specs.Prelude.{◌≡◌, ℕ};
ghost use Rattle.uecp_net.specs.Opening.{LetsGo};

use crate::connect::{Connect, Connections};
use std::marker::{Brand, Model, PhantomData};

/// The loan under which an [`Opening`] has what opens its connections: a name, for proofs alone. Code passes [`Brand`],
/// and a proof picks the name.
pub trait Loan {
    ghost name: { ℕ };
}

impl Loan for Brand {
    ghost name = { 0 };
}

/// What opens connections, while it is lent.
#[derive(Drop)]
pub struct Lent<'a, C> {
    /// What opens them.
    pub connect: &'a mut C,
}

/// The connections that a [`Connect`] opens. Both ends of one are let go where it is done with. Contracts see it as
/// what opens them, and it has that under the loan `L` as long as it lives.
#[derive(Drop)]
pub struct Opening<'a, C, L: Loan> {
    connect: &'a mut C,
    loan: PhantomData<L>,
}

impl<'a, C, L: Loan> Model for Opening<'a, C, L> {
    ghost Value = { C };

    ghost view = { λ opening. opening.connect.now };

    ghost invariant = { λ opening. opening.connect.ghost_name ≡ L.name };
}

impl<'a, C: Connect, L: Loan> Opening<'a, C, L> {
    /// Opens connections by this.
    pub fn new(lent: Lent<'a, C>) -> Opening<'a, C, L>
        requires { lent.connect.ghost_name ≡ L.name }
        ensures { result ≡ lent.entry.connect.now }
    {
        let Lent { connect } = lent;
        Opening {
            connect,
            loan: PhantomData,
        }
    }

    /// Gives back what opened the connections.
    pub fn finish(self) -> &'a mut C
        ensures same { result.ghost_name ≡ L.name }
        ensures value { result.now ≡ self.entry }
    {
        let Opening { connect, loan: _ } = self;
        connect
    }
}

impl<'a, C: Connect, L: Loan> Connections for Opening<'a, C, L> {
    type Input = C::Input;

    type Output = C::Output;

    ghost opens = { λ connect ends connect'. C.opens connect ends connect' };

    ghost closes = { λ connect input output connect'. LetsGo connect input output connect' };

    fn open(&mut self) -> Option<(C::Input, C::Output)> {
        self.connect.open()
    }

    fn close(&mut self, _input: C::Input, _output: C::Output) {}
}
