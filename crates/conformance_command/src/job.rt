//! What is asked for (profile).
ghost use Rattle.std.specs.Prelude.{◌≡◌, ◌<◌, ◌≤◌};
ghost use Rattle.std.specs.Option.{option_map};
ghost use Rattle.conformance_command.specs.Conformance.{IsInRange, only_of, own_address, parts_of, way_of};

use crate::way::Way;
use commands::ConformanceOptions;
use uecp_frame::Address;

/// The address of the encoder.
fn own_address(job: &ConformanceOptions) -> Address
    requires { IsInRange job.now }
    ensures { result ≡ own_address job.now }
{
    match Address::new(job.site, job.encoder) {
        Some(address) => address,
        None => unreachable!(),
    }
}

/// The name of the case or group that alone is to be run, where one is given.
pub(crate) fn only_of(job: &ConformanceOptions) -> Option<&[u8]>
    ensures { option_map (λ name. name.now) result ≡ only_of job.now }
{
    match &job.only {
        Some(name) => Some(name.as_str().as_bytes()),
        None => None,
    }
}

/// How the cases are run and told.
pub(crate) fn way_of(job: &ConformanceOptions) -> Way
    requires { IsInRange job.now }
    ensures value { result ≡ way_of job.now }
    ensures some { 0 < result.patience }
{
    Way {
        own: own_address(job),
        patience: parts_of(job.timeout, job.quiet),
        silent: parts_of(job.silent * 1000, job.quiet),
        seconds: job.silent,
        json: job.json,
        verbose: job.verbose,
    }
}

/// How many parts of this length make up a whole, the last of them perhaps not whole.
fn parts_of(whole: u32, part: u32) -> u32
    requires whole { 1 ≤ whole }
    requires part { 1 ≤ part }
    ensures value { result ≡ parts_of whole part }
    ensures some { 0 < result }
{
    let parts = whole / part;
    if whole % part == 0 { parts } else { parts + 1 }
}
