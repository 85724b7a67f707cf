//! The job `send` over TCP, with lines from a reader. Source: profile.
ghost use Rattle.std.specs.Prelude.{◌≡◌, ◌≤◌, ◌++◌, [], None, true, codes, is_some, option_map, IfOk, IfErr};
ghost use Rattle.notices.specs.Told.{Says};
ghost use Rattle.std.specs.String.{string_bytes};
ghost use Rattle.send_commands.specs.Job.{IsSendable};
ghost use Rattle.send_commands.specs.OverTcp.{HasNoLedger, HasRunTcp, HasSentTcp, DialsLive, limit_of};
ghost use Rattle.send_commands.specs.Passing.{TellsFault};
ghost use Rattle.send_commands.specs.StationFile.{IsStationOf};

use crate::ended::tell_ended;
use crate::ledger::{LedgerFault, LedgerFile, open_ledger};
use crate::passing::Passing;
use crate::refusals::RefusalObjects;
use crate::run::run_send;
use crate::station::{StationFault, read_station};
use commands::SendOptions;
use kept_jobs::fail_state;
use line_feed::{Arrival, LineFeed};
use live_edges::{Patience, Patient, Watch};
use notices::{Notices, NoticesTo, fail};
use sending::Teller;
use state_jobs::OpenStates;
use std::alloc::Global;
use std::fs::Files;
use std::io::{Read, Write};
use std::net::{Net, TcpStream};
use std::time::Clock;
use uecp_frame::Message;
use uecp_jobs::address_of;
use uecp_net::Dialing;
use uecp_text::RunFault;

/// What the connections of `send` are dialled with, and where its state is kept.
pub struct Dialling<'a, N, S> {
    /// Where memory comes from.
    pub alloc: Global,
    /// The network, the clock and the files.
    pub net: &'a N,
    /// What has the connection that is there, so that an arrival can look after it.
    pub watch: &'a Watch,
    /// What opens the state.
    pub states: &'a S,
}

/// Does the job over TCP with the lines of a reader, tells in JSON how it ended, and answers the exit status: that of
/// [`run_send`], or 2 where a line of the station's file is refused, and 3 where that can't be read. What is said of
/// the connection goes to `notices`; lines that are refused are told on `refusals` as objects, where the job tells in
/// JSON.
pub fn run_send_over_tcp<
    'a,
    R: Read,
    A: Arrival + Drop,
    W: Write,
    E: Write,
    M: Write,
    N: Net<Stream = TcpStream> + Clock + Files,
    S: OpenStates,
    Q: Write,
>(
    job: &'a SendOptions,
    reader: &mut R,
    arrival: A,
    writer: &mut W,
    errors: &mut NoticesTo<E>,
    dialling: Dialling<'a, N, S>,
    notices: &'a mut M,
    refusals: &'a mut Q,
) -> u8
    requires { IsSendable job.now }
    ensures { HasSentTcp A.answers ⟦<TcpStream as Read>⟧.remaining ⟦<TcpStream as Write>⟧.contents
        (S.gives_server dialling.entry.states.now) (S.refuses_server dialling.entry.states.now)
        (S.closes_server dialling.entry.states.now)
        S.ServerKeeper.leaves S.ServerKeeper.is_clean S.ServerKeeper.saves S.ServerKeeper.fails job.now
        arrival (M.contents notices.old) (R.remaining reader.old) (W.contents writer.old) (W.contents writer.new)
        errors.old errors.new result }
{
    let alloc = dialling.alloc;
    let clock = dialling.net;
    let mut teller = Teller::new(alloc, clock, writer);
    let status = run_over_tcp(
        job,
        reader,
        arrival,
        &mut teller,
        errors,
        dialling,
        notices,
        refusals,
    );
    let writer = teller.finish();
    tell_ended(alloc, clock, job.form, status, writer, errors);
    status
}

/// Does the job so.
fn run_over_tcp<
    'a,
    R: Read,
    A: Arrival + Drop,
    W: Write,
    E: Write,
    M: Write,
    N: Net<Stream = TcpStream> + Clock + Files,
    S: OpenStates,
    Q: Write,
>(
    job: &'a SendOptions,
    reader: &mut R,
    arrival: A,
    teller: &mut Teller<'_, W, N>,
    errors: &mut NoticesTo<E>,
    dialling: Dialling<'a, N, S>,
    notices: &'a mut M,
    refusals: &'a mut Q,
) -> u8
    requires { IsSendable job.now }
    ensures sent { HasRunTcp A.answers ⟦<TcpStream as Read>⟧.remaining ⟦<TcpStream as Write>⟧.contents
        (S.gives_server dialling.entry.states.now) (S.refuses_server dialling.entry.states.now)
        (S.closes_server dialling.entry.states.now)
        S.ServerKeeper.leaves S.ServerKeeper.is_clean S.ServerKeeper.saves S.ServerKeeper.fails job.now
        arrival (M.contents notices.old) (R.remaining reader.old) teller.old.held teller.new.held errors.old
        errors.new result }
    ensures writer { teller.new.writer ≡ teller.old.writer }
{
    let Dialling {
        alloc,
        net,
        watch,
        states,
    } = dialling;
    match station_of(alloc, job, net, errors) {
        Err(fault) => fail_station(&fault, errors),
        Ok(station) => {
            let Ok(feed) = LineFeed::new(alloc, reader, arrival) else {
                return fail(&RunFault::OutOfMemory, errors);
            };
            let ledger = match ledger_of(job, net) {
                Ok(ledger) => ledger,
                Err(why) => return fail_ledger(job, why, errors),
            };
            let objects = RefusalObjects::new(alloc, net, job.form, refusals);
            let mut feed = Passing::new(alloc, feed, ledger, objects);
            let mut patient = patient_of(net, job, watch, notices);
            let station = station.as_slice();
            let status = run_send(
                job,
                station,
                states,
                &mut feed,
                teller,
                errors,
                &mut patient,
            );
            say_fault(&job.pass_over, feed.fault(), errors);
            status
        }
    }
}

/// What keeps the lines that are passed over; none where the job has no file for them.
fn ledger_of<N: Files>(
    job: &SendOptions,
    files: &N,
) -> Result<Option<LedgerFile<N::File>>, LedgerFault>
    ensures there { IfOk result (λ ledger. is_some ledger ≡ is_some job.now.pass_over) }
    ensures named { IfErr result (λ _. is_some job.now.pass_over ≡ true) }
{
    match &job.pass_over {
        None => Ok(None),
        Some(path) => match open_ledger(files, path.as_str()) {
            Ok(ledger) => Ok(Some(ledger)),
            Err(why) => Err(why),
        },
    }
}

/// Says of the job's file for lines that are passed over why it can't be opened, and answers the exit status.
fn fail_ledger<E: Write>(job: &SendOptions, why: LedgerFault, errors: &mut NoticesTo<E>) -> u8
    requires named { is_some job.now.pass_over ≡ true }
    ensures status { result ≡ 3 }
    ensures said { HasNoLedger job.now errors.old errors.new }
{
    match &job.pass_over {
        Some(path) => {
            say_not_kept(path.as_str().as_bytes(), why.text().as_bytes(), errors);
            3
        }
        None => unreachable!(),
    }
}

/// Says of this file why a line that is passed over could not be kept there, where it could not.
fn say_fault<E: Write>(path: &Option<String>, fault: Option<LedgerFault>, errors: &mut NoticesTo<E>)
    ensures { TellsFault (option_map string_bytes path.now) fault errors.old errors.new }
{
    if let (Some(path), Some(fault)) = (path, fault) {
        say_not_kept(path.as_str().as_bytes(), fault.text().as_bytes(), errors);
    }
}

/// The messages of the job's station; none where it has no file.
fn station_of<F: Files, E: Write>(
    alloc: Global,
    job: &SendOptions,
    files: &F,
    errors: &mut NoticesTo<E>,
) -> Result<Vec<Message>, StationFault>
    ensures none { job.now.station ≡ None → IfOk result (λ station. station.items ≡ []) × IfErr result (λ _. ⊥)
        × (errors.new ≡ errors.old) }
    ensures all { is_some job.now.station ≡ true → IfOk result (λ station. (file : F.File)
        × IsStationOf job.now.region (F.File.Read.remaining file) station.items) }
{
    match &job.station {
        None => Ok(Vec::new(alloc)),
        Some(path) => read_station(alloc, job.region, path.as_str(), files, errors),
    }
}

/// Says why there is no station, and answers the exit status.
fn fail_station<E: Write>(fault: &StationFault, errors: &mut NoticesTo<E>) -> u8
    ensures { (2 ≤ result) × (result ≤ 3) }
{
    match fault {
        StationFault::OutOfMemory => fail(&RunFault::OutOfMemory, errors),
        StationFault::Unreadable => fail_state("the station's file can't be read", errors),
        StationFault::LineRefused => {
            let _ = fail_state("that line is in the station's file", errors);
            2
        }
        StationFault::TooLong => {
            let _ = fail_state("the station has more than 4096 messages", errors);
            2
        }
    }
}

/// Where the connections come from: the job's host and port, dialled again and again.
fn patient_of<'a, 'n, N: Net<Stream = TcpStream> + Clock, M: Write>(
    net: &'a N,
    job: &'a SendOptions,
    watch: &'a Watch,
    notices: &'n mut M,
) -> Patient<'a, 'n, Dialing<'a, N>, N, M>
    ensures { DialsLive job.now (M.contents notices.old) result }
{
    let patience = Patience {
        retry_every: u64::from(job.retry_every),
        give_up: limit_of(job.give_up),
        silent: u64::from(job.silent),
        stop_when_silent: job.rejoin,
    };
    Patient::new(
        net,
        job.host.as_str(),
        job.port,
        u64::from(job.timeout),
        address_of(job.site, job.encoder),
        patience,
        watch,
        notices,
    )
}

/// A limit of so many seconds; none where it is 0.
fn limit_of(seconds: u32) -> Option<u64>
    ensures { result ≡ limit_of seconds }
{
    if seconds == 0 {
        None
    } else {
        Some(u64::from(seconds))
    }
}

/// Says of the file at this path why a line that is passed over could not be kept there.
fn say_not_kept<'a, E: Write>(path: &'a [u8], why: &'a [u8], errors: &mut NoticesTo<E>)
    ensures { Says errors.old errors.new
        (codes "uecp: refused lines can't be kept: " ++ (path.now ++ (codes ": " ++ (why.now ++ codes "\n")))) }
{
    errors.say(&[
        b"uecp: refused lines can't be kept: ",
        path,
        b": ",
        why,
        b"\n",
    ]);
}
