//! A device over TCP. Source: profile.
ghost use Rattle.std.specs.Prelude.{◌≡◌, ◌≢◌, ◌≤◌, ◌<◌, ◌&&◌, [], None, false, is_some, IfOk, IfErr, OnOk};
ghost use Rattle.std.specs.Prelude.{IfSome, IfNone, MatchResult};
ghost use Rattle.device_edges.specs.Place.{ComesTo, GoesFrom};
ghost use Rattle.device_edges.specs.Screen.{OpensScreened, ClosesScreened};
ghost use Rattle.uecp_jobs.specs.Setups.{address_of};
ghost use Rattle.device_jobs.specs.Limits.{limit_of, yield_seconds};
ghost use Rattle.device_jobs.specs.OverTcp.{IsPlaceOf, IsNoPlaceOf, IsAllowedOf, HasServedTcp, ServesTold};
ghost use Rattle.device_jobs.specs.Serving.{HasServedDevice};

use crate::connections::{Attended, Restarting};
use crate::faults::{fail_faults, rules_of};
use crate::serving::run_device_from;
use crate::telling::Told;
use arrayvec::ArrayVec;
use bad_line::{Arrivals, Faulty, Rule};
use commands::EncoderOptions;
use device_edges::{
    Accepting, AddressFault, AllowFault, Allowed, BindFault, HERE, Idle, Screened, Screening,
    Yielding, listen_address,
};
use device_serving::LogLines;
use kept_jobs::fail_state;
use notices::{Notices, NoticesTo, fail};
use state_jobs::OpenStates;
use std::alloc::Global;
use std::fs::Files;
use std::io;
use std::io::{Read, Write};
use std::net::{Net, SocketAddr, TcpListener, TcpStream};
use std::time::Clock;
use uecp_frame::Address;
use uecp_jobs::{Setup, new_encoder};
use uecp_net::Connections;
use uecp_text::RunFault;

/// After how many seconds a connection gives way where the job does not say.
const YIELD_AFTER: u32 = 10;

/// Is the device that the job asks for, over TCP, and answers the exit status: that of
/// [`run_device_from`](crate::run_device_from), or 2 where the address is none or a line of the file of faults is no
/// rule, and 3 where that file can't be read, or nobody can listen there. What is said beside the log goes to `beside`.
pub fn run_device_over_tcp<
    W: Write,
    E: Write,
    M: Write,
    Q: Write,
    N: Net<Listener = TcpListener, Stream = TcpStream> + Clock + Files,
    S: OpenStates,
>(
    alloc: Global,
    job: &EncoderOptions,
    writer: &mut W,
    errors: &mut NoticesTo<E>,
    beside: Beside<'_, M, Q>,
    net: &N,
    states: &S,
) -> u8
    ensures status { (result ≤ 3) × (result ≢ 1) }
    // With no faults it served over connections that came where the job has it listen, with its limit, and of those of
    // another protocol it took nothing.
    ensures serves { job.now.faults ≡ None → HasServedTcp (HasServedDevice
        (OpensScreened ComesTo)
        (ClosesScreened GoesFrom)
        ⟦<Screened<Idle<TcpStream>> as Read>⟧.remaining ⟦<TcpStream as Write>⟧.contents (S.gives_encoder states.now)
        (S.refuses_encoder states.now) (S.closes_encoder states.now) S.EncoderKeeper.TOGETHER_MAX
        S.EncoderKeeper.READ_MAX S.EncoderKeeper.leaves S.EncoderKeeper.is_clean S.EncoderKeeper.saves
        S.EncoderKeeper.fails job.now) job.now (W.contents writer.old) (W.contents writer.new)
        errors.old errors.new result }
{
    let Beside {
        effects,
        foreign,
        notices,
    } = beside;
    match begin(alloc, job, net, notices, errors) {
        Err(status) => status,
        Ok(begun) => {
            let told = Told::new(job.log, job.form, clock_of(job, net), effects);
            serve_with(alloc, job, begun, writer, errors, foreign, &told, states)
        }
    }
}

/// Where a device says what stands in no log of its encoder.
#[derive(Drop)]
pub struct Beside<'a, M: Write, Q: Write> {
    /// What a bad line does.
    pub effects: &'a mut M,
    /// That a connection was another protocol's, of which nothing is taken.
    pub foreign: &'a mut Q,
    /// That there is no descriptor or no memory for one more connection.
    pub notices: &'a mut Q,
}

/// What a device begins with: its clock, the rules of its line, and where it listens.
#[derive(Drop)]
struct Begun<'a, 'q, N: Net<Listener = TcpListener, Stream = TcpStream> + Clock, Q: Write> {
    net: &'a N,
    rules: Vec<Rule>,
    accepting: Accepting<'a, N, &'q mut Q>,
}

/// The rules of the job's line, and a listener at its address; or the exit status, and why was said.
fn begin<
    'a,
    'q,
    E: Write,
    Q: Write,
    N: Net<Listener = TcpListener, Stream = TcpStream> + Clock + Files,
>(
    alloc: Global,
    job: &EncoderOptions,
    net: &'a N,
    notices: &'q mut Q,
    errors: &mut NoticesTo<E>,
) -> Result<Begun<'a, 'q, N, Q>, u8>
    ensures place { IfOk result (λ begun. IsPlaceOf job.now begun.accepting.place) }
    ensures idle { IfOk result (λ begun. begun.accepting.idle ≡ limit_of job.now.idle) }
    ensures unsaid { IfOk result (λ begun. begun.accepting.notice.is_told ≡ false) }
    ensures rules { job.now.faults ≡ None → IfOk result (λ begun. begun.rules.items ≡ []) }
    ensures same { OnOk result (errors.new ≡ errors.old) }
    ensures status { IfErr result (λ status. (2 ≤ status) × (status ≤ 3)) }
{
    let place = match address_of(job) {
        Ok(place) => place,
        Err(fault) => return Err(fail_address(fault, errors)),
    };
    let rules = match rules_of(alloc, job, net) {
        Ok(rules) => rules,
        Err(fault) => return Err(fail_faults(&fault, errors)),
    };
    let allowed = match allowed_of(alloc, job) {
        Ok(allowed) => allowed,
        Err(fault) => return Err(fail_allow(fault, errors)),
    };
    let setup = Setup {
        site: job.site,
        encoder: job.encoder,
        sets: job.sets,
        services: job.services.as_slice(),
    };
    if let Err(fault) = new_encoder(alloc, &setup) {
        return Err(fail(&fault, errors));
    }
    match Accepting::new(
        alloc,
        net,
        place,
        limit_of(job.idle),
        yielding_of(job),
        allowed,
        notices,
    ) {
        Ok(accepting) => Ok(Begun {
            net,
            rules,
            accepting,
        }),
        Err(fault) => Err(fail_bind(fault, errors)),
    }
}

/// The address and port at which the job listens.
pub fn address_of(job: &EncoderOptions) -> Result<SocketAddr, AddressFault>
    ensures { MatchResult result (IsPlaceOf job.now) (IsNoPlaceOf job.now) }
{
    match &job.listen {
        Some(text) => listen_address(text.as_str(), job.port),
        None => listen_address(HERE, job.port),
    }
}

/// When a connection gives way to one that waits: after ten seconds where the job says nothing of it; never where it
/// says 0.
pub fn yielding_of(job: &EncoderOptions) -> Option<Yielding>
    ensures some { IfSome result (λ yielding. (yielding.seconds ≡ yield_seconds job.now)
        × (yielding.address ≡ address_of job.now.site job.now.encoder)) }
    ensures none { IfNone result (job.now.site < 1024 → job.now.encoder < 64 → yield_seconds job.now ≡ 0) }
{
    let seconds = limit_of(yield_seconds(job))?;
    let address = Address::new(job.site, job.encoder)?;
    Some(Yielding { seconds, address })
}

/// After how many seconds it does; 0 for never.
fn yield_seconds(job: &EncoderOptions) -> u32
    ensures { result ≡ yield_seconds job.now }
{
    job.yield_after.unwrap_or(YIELD_AFTER)
}

/// A limit of so many seconds; none where it is 0.
pub fn limit_of(seconds: u32) -> Option<u32>
    ensures { result ≡ limit_of seconds }
{
    if seconds == 0 { None } else { Some(seconds) }
}

/// Says why the job asks for no address and port, and answers the exit status.
pub fn fail_address<E: Write>(fault: AddressFault, errors: &mut NoticesTo<E>) -> u8
    ensures { (2 ≤ result) × (result ≤ 3) }
{
    let _ = fail_state(fault.text(), errors);
    2
}

/// From where the job takes connections, if it says so.
pub fn allowed_of(alloc: Global, job: &EncoderOptions) -> Result<Option<Allowed>, AllowFault>
    ensures { IfOk result (IsAllowedOf job.now) }
{
    match &job.allow {
        Some(text) => Ok(Some(Allowed::of(alloc, text.as_str())?)),
        None => Ok(None),
    }
}

/// Says why the job's list of who may connect is none, and answers the exit status.
pub fn fail_allow<E: Write>(fault: AllowFault, errors: &mut NoticesTo<E>) -> u8
    ensures { (2 ≤ result) × (result ≤ 3) }
{
    match fault {
        AllowFault::NotAList => {
            let _ = fail_state("allow: not a list of addresses and networks", errors);
            2
        }
        AllowFault::OutOfMemory => fail(&RunFault::OutOfMemory, errors),
    }
}

/// Says why nobody can listen there, and answers the exit status.
pub fn fail_bind<E: Write>(fault: BindFault, errors: &mut NoticesTo<E>) -> u8
    ensures { (2 ≤ result) × (result ≤ 3) }
{
    let status = fail(&RunFault::Listening, errors);
    if let Some(text) = fault.text() {
        let _ = fail_state(text, errors);
    }
    status
}

/// Serves over these connections, with what a bad line does to them where there are rules for it.
fn serve_with<
    W: Write,
    E: Write,
    M: Write,
    Q: Write,
    N: Net<Listener = TcpListener, Stream = TcpStream> + Clock,
    S: OpenStates,
>(
    alloc: Global,
    job: &EncoderOptions,
    begun: Begun<'_, '_, N, Q>,
    writer: &mut W,
    errors: &mut NoticesTo<E>,
    foreign: &mut Q,
    told: &Told<'_, M, N>,
    states: &S,
) -> u8
    requires place { IsPlaceOf job.now begun.accepting.place }
    requires idle { begun.accepting.idle ≡ limit_of job.now.idle }
    requires unsaid { begun.accepting.notice.is_told ≡ false }
    ensures status { (result ≤ 3) × (result ≢ 1) }
    ensures serves { begun.entry.rules.items ≡ [] → HasServedTcp (HasServedDevice
        (OpensScreened ComesTo)
        (ClosesScreened GoesFrom)
        ⟦<Screened<Idle<TcpStream>> as Read>⟧.remaining ⟦<TcpStream as Write>⟧.contents (S.gives_encoder states.now)
        (S.refuses_encoder states.now) (S.closes_encoder states.now) S.EncoderKeeper.TOGETHER_MAX
        S.EncoderKeeper.READ_MAX S.EncoderKeeper.leaves S.EncoderKeeper.is_clean S.EncoderKeeper.saves
        S.EncoderKeeper.fails job.now) job.now (W.contents writer.old) (W.contents writer.new)
        errors.old errors.new result }
{
    let Begun {
        net,
        rules,
        accepting,
    } = begun;
    let clock = clock_of(job, net);
    let mut screening = Screening::new(
        Attended::new(accepting, job.idle, yield_seconds(job), told),
        &mut *foreign,
    );
    if rules.is_empty() {
        return serve_told(alloc, job, clock, writer, errors, &mut screening, states);
    }
    let mut log = LogLines::new(alloc, job.form, clock, job.log, writer);
    let seed = u64::from(job.seed);
    match Faulty::new(alloc, screening, rules.as_slice(), seed, net, told) {
        Err(_) => fail(&RunFault::OutOfMemory, errors),
        Ok(mut faulty) => serve_restarting(alloc, job, states, &mut log, errors, &mut faulty, told),
    }
}

/// The clock of the log, where that is asked for with the time.
fn clock_of<'a, N>(job: &EncoderOptions, net: &'a N) -> Option<&'a N>
    ensures { is_some result ≡ (job.now.log && job.now.time) }
{
    if job.log && job.time { Some(net) } else { None }
}

/// Serves over these connections, and tells it in the log that the job asks for.
fn serve_told<W: Write, E: Write, T: Clock, C: Connections, S: OpenStates>(
    alloc: Global,
    job: &EncoderOptions,
    clock: Option<&T>,
    writer: &mut W,
    errors: &mut NoticesTo<E>,
    connect: &mut C,
    states: &S,
) -> u8
    requires { is_some clock ≡ (job.now.log && job.now.time) }
    ensures status { (result ≤ 3) × (result ≢ 1) }
    ensures serves { ServesTold (HasServedDevice C.opens C.closes C.Input.remaining C.Output.contents
        (S.gives_encoder states.now) (S.refuses_encoder states.now) (S.closes_encoder states.now)
        S.EncoderKeeper.TOGETHER_MAX S.EncoderKeeper.READ_MAX S.EncoderKeeper.leaves S.EncoderKeeper.is_clean
        S.EncoderKeeper.saves S.EncoderKeeper.fails job.now) job.now connect.old connect.new (W.contents writer.old)
        (W.contents writer.new) errors.old errors.new result }
{
    let mut log = LogLines::new(alloc, job.form, clock, job.log, writer);
    let status = run_device_from(alloc, job, states, &mut log, errors, connect);
    let _writer = log.finish();
    status
}

/// Serves over a bad line, and again with an encoder that begins anew each time that the line asks for it: with a state
/// in a file from that, and else with a new one.
fn serve_restarting<
    S: OpenStates,
    W: Write,
    C: Clock,
    E: Write,
    M: Write,
    A: Write + Arrivals + Drop,
    K: Connections<Output = A> + Drop,
>(
    alloc: Global,
    job: &EncoderOptions,
    states: &S,
    log: &mut LogLines<'_, W, C>,
    errors: &mut NoticesTo<E>,
    faulty: &mut Faulty<'_, K, C, Told<'_, M, C>>,
    told: &Told<'_, M, C>,
) -> u8
    ensures { (result ≤ 3) × (result ≢ 1) }
{
    for _restart in 0..u64::MAX {
        let mut said = NoticesTo::new(Said::new());
        let mut line = Restarting::new(faulty);
        let status = run_device_from(alloc, job, states, log, &mut said, &mut line);
        if !line.is_restart() {
            errors.say(&[said.into_inner().bytes()]);
            return status;
        }
        told.tell_restart();
    }
    0
}

/// What is said of a run, kept until it is known whether it ended for good.
#[derive(Drop)]
struct Said {
    bytes: ArrayVec<u8, SAID_MAX>,
}

/// How much of it is kept.
const SAID_MAX: usize = 512;

impl Said {
    fn new() -> Said {
        Said {
            bytes: ArrayVec::new(),
        }
    }

    fn bytes(&self) -> &[u8] {
        self.bytes.as_slice()
    }
}

impl Write for Said {
    fn write(&mut self, buf: &[u8]) -> io::Result<usize> {
        for byte in buf {
            let _ = self.bytes.try_push(*byte);
        }
        Ok(buf.len())
    }

    fn flush(&mut self) -> io::Result<()> {
        Ok(())
    }
}
