//! Why a store was not made. Source: profile.
ghost use Rattle.std.specs.Prelude.{◌≡◌};
ghost use Rattle.rds_store.specs.Fault.{number_of, name_of};

use thiserror::Error;

/// The faults in the order in which they are looked for.
#[derive(Clone, Copy, Debug, PartialEq, Eq, Error)]
pub enum StoreFault {
    /// The number of data sets is not 1 to 8.
    #[error("SetCount")]
    SetCount,
    /// The number of services is not 1 to 8.
    #[error("ServiceCount")]
    ServiceCount,
    /// A service has the number 00.
    #[error("ServiceZero")]
    ServiceZero,
    /// A service is listed twice.
    #[error("ServiceTwice")]
    ServiceTwice,
    /// There was no memory for the store.
    #[error("OutOfMemory")]
    OutOfMemory,
}

impl StoreFault {
    /// The fault's place in that order, counted from 1.
    pub fn number(self) -> u8
        ensures { result ≡ number_of self }
    {
        match self {
            StoreFault::SetCount => 1,
            StoreFault::ServiceCount => 2,
            StoreFault::ServiceZero => 3,
            StoreFault::ServiceTwice => 4,
            StoreFault::OutOfMemory => 5,
        }
    }

    /// The fault's name, as the program prints it.
    pub fn name(self) -> &'static str
        ensures { result.now ≡ name_of self }
    {
        match self {
            StoreFault::SetCount => "SetCount",
            StoreFault::ServiceCount => "ServiceCount",
            StoreFault::ServiceZero => "ServiceZero",
            StoreFault::ServiceTwice => "ServiceTwice",
            StoreFault::OutOfMemory => "OutOfMemory",
        }
    }
}
