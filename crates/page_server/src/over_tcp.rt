//! The job `page` over TCP (profile).
ghost use Rattle.std.specs.Prelude.{◌≡◌, ◌≤◌, ◌⊎◌, IfOk, OnErr};
ghost use Rattle.page.specs.Intake.{status_of};
ghost use Rattle.page_server.specs.Serving.{EndsWith};

use crate::server::Serving;
use crate::start::Start;
use crate::stop::Stop;
use crate::tcp::TcpSockets;
use commands::PageOptions;
use device_edges::{AddressFault, BindFault, bind};
use notices::{Notices, NoticesTo, fail};
use page::{Connection, Sockets, status_of};
use std::alloc::Global;
use std::io::{Read, Write};
use std::net::{Net, SocketAddr, TcpListener, TcpStream};
use std::os::fd::RawFd;
use std::time::Clock;
use uecp_text::RunFault;

/// Serves the page of the lines that a reader gives, whose descriptor is told, until it is at its end and what waits is
/// sent. It answers the exit status: 0 at the end of the input, 1 there where a line was no object of ours; 2 where the
/// address is none; 3 where nobody can listen there, and where memory or reading failed. Each line that is none is told
/// on `errors` by its number, and where the page is found, and why a run stopped.
pub fn run_page_over_tcp<
    R: Read,
    E: Write,
    N: Net<Listener = TcpListener, Stream = TcpStream> + Clock,
>(
    alloc: Global,
    options: &PageOptions,
    reader: &mut R,
    fd: RawFd,
    errors: &mut NoticesTo<E>,
    net: &N,
) -> u8
    ensures most { result ≤ 3 }
    // 0 or 1: the input was read to its end, and the status is that of its lines.
    ensures ended { result ≤ 1 → EndsWith (R.remaining reader.old) (R.remaining reader.new) result }
    // 2: nothing was read.
    ensures unread { result ≡ 2 → reader.new ≡ reader.old }
{
    let start = match Start::of(options, net) {
        Ok(start) => start,
        Err(fault) => return fail_place(fault, errors),
    };
    match listener_at(net, start.place()) {
        Ok(listener) => match TcpSockets::new(alloc, net, fd, listener) {
            Some(mut sockets) => {
                sockets.say_place(alloc, errors);
                serve(alloc, reader, &start, errors, &mut sockets)
            }
            None => fail(&RunFault::Listening, errors),
        },
        Err(fault) => fail_bind(fault, errors),
    }
}

/// Serves over these sockets, and answers the exit status.
fn serve<R: Read, E: Write, S: Sockets<Connection = C>, C: Connection>(
    alloc: Global,
    reader: &mut R,
    start: &Start,
    errors: &mut NoticesTo<E>,
    sockets: &mut S,
) -> u8
    ensures ended { result ≤ 1 → EndsWith (R.remaining reader.old) (R.remaining reader.new) result }
    ensures most { (result ≤ 1) ⊎ (result ≡ 3) }
{
    match Serving::new(alloc, start) {
        Ok(mut serving) => {
            let served = serving.serve(reader, errors, sockets);
            serving.close(sockets);
            end(served, errors)
        }
        Err(stop) => end(Err(stop), errors),
    }
}

/// The exit status of a run that ended so, which says why where it was stopped: at the end of its input 1 where a line
/// was no object of ours, and else 0.
fn end<E: Write>(served: Result<bool, Stop>, errors: &mut NoticesTo<E>) -> u8
    ensures ok { IfOk served (λ refused. result ≡ status_of refused) }
    ensures err { OnErr served (result ≡ 3) }
    ensures most { (result ≤ 1) ⊎ (result ≡ 3) }
{
    match served {
        Ok(refused) => status_of(refused),
        Err(Stop::OutOfMemory) => fail(&RunFault::OutOfMemory, errors),
        Err(Stop::Reading) => fail(&RunFault::Reading, errors),
        Err(Stop::Listening) => fail(&RunFault::Listening, errors),
    }
}

/// A listener whose calls don't wait.
fn listener_at<N: Net<Listener = TcpListener, Stream = TcpStream>>(
    net: &N,
    place: SocketAddr,
) -> Result<TcpListener, BindFault> {
    let listener = bind(net, place)?;
    match listener.set_nonblocking(true) {
        Ok(()) => Ok(listener),
        Err(_) => Err(BindFault::Failed),
    }
}

/// Says why the job asks for no address and port, and answers the exit status.
fn fail_place<E: Write>(fault: AddressFault, errors: &mut NoticesTo<E>) -> u8
    ensures { result ≡ 2 }
{
    errors.say(&[b"uecp: ", fault.text().as_bytes(), b"\n"]);
    2
}

/// Says why nobody can listen there, and answers the exit status.
fn fail_bind<E: Write>(fault: BindFault, errors: &mut NoticesTo<E>) -> u8
    ensures { result ≡ 3 }
{
    let status = fail(&RunFault::Listening, errors);
    if let Some(text) = fault.text() {
        errors.say(&[b"uecp: ", text.as_bytes(), b"\n"]);
    }
    status
}
