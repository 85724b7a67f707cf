//! The built-in cases over TCP (profile).
ghost use Rattle.std.specs.Prelude.{◌≡◌, ◌≤◌};
ghost use Rattle.conformance_command.specs.Conformance.{IsInRange};
ghost use Rattle.conformance_command.specs.OverTcp.{RunsBuiltIn};

use crate::address::address_of;
use crate::dialled::Dialled;
use crate::run::run_conformance;
use crate::unreached::say_unreached;
use commands::ConformanceOptions;
use conformance::{CASES, read_cases};
use notices::{Notices, NoticesTo, fail};
use std::alloc::Global;
use std::io::{Read, Write};
use std::net::{Net, TcpStream};
use uecp_net::Connections;
use uecp_text::RunFault;

/// Runs the chosen ones of the built-in cases over TCP, and answers the exit status: that of [`run_conformance`]; 2
/// also where the text of the place is none, which is said on `errors`. Where there was no connection to be had, it
/// says why there.
pub fn run_conformance_over_tcp<'a, W: Write, E: Write, N: Net<Stream = TcpStream>>(
    alloc: Global,
    job: &'a ConformanceOptions,
    writer: &mut W,
    errors: &mut NoticesTo<E>,
    net: &'a N,
) -> u8
    requires { IsInRange job.now }
    ensures status { result ≤ 3 }
    ensures done { result ≤ 1 → RunsBuiltIn ⟦<Dialled<'a, N> as Connections>⟧.opens
        ⟦<Dialled<'a, N> as Connections>⟧.closes ⟦<TcpStream as Read>⟧.remaining ⟦<TcpStream as Write>⟧.contents job.now
        (W.contents writer.old) (W.contents writer.new) result × (errors.new ≡ errors.old) }
    ensures unknown { result ≡ 2 → writer.new ≡ writer.old }
{
    let Ok(cases) = read_cases(alloc, CASES) else {
        // A test reads them all, so it is for want of memory.
        return fail(&RunFault::OutOfMemory, errors);
    };
    let timeout = u64::from(job.timeout);
    let quiet = u64::from(job.quiet);
    let Some((host, port)) = address_of(job.place.as_str()) else {
        errors.say(&[
            b"uecp: no HOST:PORT: ",
            job.place.as_str().as_bytes(),
            b"\n",
        ]);
        return 2;
    };
    let mut dialled = Dialled::new(net, host, port, timeout, quiet);
    let status = run_conformance(alloc, job, cases.as_slice(), &mut dialled, writer, errors);
    if status == 3 {
        say_unreached(host, port, dialled.failed(), errors);
    }
    status
}
