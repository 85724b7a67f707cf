//! The jobs `encoder` and `server` over connections that are only opened (profile).
ghost use Rattle.std.specs.Prelude.{◌≡◌, ◌≢◌, ◌≤◌};
ghost use Rattle.uecp_text.specs.Written.{Begins};
ghost use Rattle.uecp_net.specs.Opening.{LetsGo};
ghost use Rattle.uecp_jobs.specs.Jobs.{IsUndescribed};
ghost use Rattle.uecp_jobs.specs.EncoderRun.{IsEncoder, ServedAll, HasNotServedAll};
ghost use Rattle.uecp_jobs.specs.ServerRun.{IsServer, HasSentAll, HasSentBefore, HasNotSentAll, AreAcknowledged};
ghost use Rattle.uecp_jobs.specs.ServerRun.{AreAcknowledgedBefore, AreNotAcknowledged};

use crate::encoder_run::run_encoder_over;
use crate::server_run::run_server_over;
use commands::Job;
use std::alloc::Global;
use std::io::{Read, Write};
use std::marker::Brand;
use uecp_net::{Connect, Lent, Loan, Opening};

/// How a run ended, with what opened its connections.
#[derive(Drop)]
struct Ended<'a, C> {
    status: u8,
    connect: &'a mut C,
}

/// Does the job of `encoder` as [`run_encoder_over`](crate::run_encoder_over) does, over the connections that this
/// opens, both ends of which are let go where one is done with.
pub fn run_encoder<W: Write, E: Write, C: Connect>(
    alloc: Global,
    job: &Job,
    writer: &mut W,
    errors: &mut E,
    connect: &mut C,
) -> u8
    requires { IsEncoder job.now }
    ensures status { (result ≤ 3) × (result ≢ 1) }
    // 0: all connections were served, and each has its line. Nothing was said on `errors`.
    ensures done { result ≡ 0 → ServedAll C.opens LetsGo C.Input.remaining C.Output.contents job.now connect.old
        connect.new (W.contents writer.old) (W.contents writer.new) × (errors.new ≡ errors.old) }
    // 2: the options describe no encoder. No connection was opened, and nothing was written.
    ensures undescribed { result ≡ 2 → IsUndescribed job.now (Begins (E.contents errors.old) (E.contents errors.new))
        × (writer.new ≡ writer.old) × (connect.new ≡ connect.old) }
    // 3: there was no connection to be had, and each that was served has its line; or memory or writing failed, and a
    // beginning of the lines of those that were served was written.
    ensures failed { result ≡ 3 → HasNotServedAll C.opens LetsGo C.Input.remaining C.Output.contents job.now
        connect.old connect.new (W.contents writer.old) (W.contents writer.new)
        (Begins (E.contents errors.old) (E.contents errors.new)) }
{
    let Ended { status, connect } = encode_lent::<W, E, C, Brand>(
        alloc,
        job,
        writer,
        errors,
        Lent { connect },
    );
    // Nothing happens here: the proof reads what is left of `connect`.
    let _ = &*connect;
    status
}

/// Does the job of `encoder` over the connections that are opened by what is lent, under this loan.
fn encode_lent<'a, W: Write, E: Write, C: Connect, L: Loan>(
    alloc: Global,
    job: &Job,
    writer: &mut W,
    errors: &mut E,
    lent: Lent<'a, C>,
) -> Ended<'a, C>
    requires job { IsEncoder job.now }
    requires loan { lent.connect.ghost_name ≡ L.name }
    ensures same { result.connect.ghost_name ≡ L.name }
    ensures status { (result.status ≤ 3) × (result.status ≢ 1) }
    ensures done { result.status ≡ 0 → ServedAll C.opens LetsGo C.Input.remaining C.Output.contents job.now
        lent.entry.connect.now result.connect.now (W.contents writer.old) (W.contents writer.new)
        × (errors.new ≡ errors.old) }
    ensures undescribed { result.status ≡ 2 → IsUndescribed job.now
        (Begins (E.contents errors.old) (E.contents errors.new))
        × (writer.new ≡ writer.old) × (result.connect.now ≡ lent.entry.connect.now) }
    ensures failed { result.status ≡ 3 → HasNotServedAll C.opens LetsGo C.Input.remaining C.Output.contents job.now
        lent.entry.connect.now result.connect.now (W.contents writer.old) (W.contents writer.new)
        (Begins (E.contents errors.old) (E.contents errors.new)) }
{
    let mut opening: Opening<'a, C, L> = Opening::new(lent);
    let status = run_encoder_over(alloc, job, writer, errors, &mut opening);
    Ended {
        status,
        connect: opening.finish(),
    }
}

/// Does the job of `server` as [`run_server_over`](crate::run_server_over) does, over the connections that this opens,
/// both ends of which are let go where one is done with.
pub fn run_server<R: Read, W: Write, E: Write, C: Connect>(
    alloc: Global,
    job: &Job,
    reader: &mut R,
    writer: &mut W,
    errors: &mut E,
    connect: &mut C,
) -> u8
    requires { IsServer job.now }
    ensures status { result ≤ 3 }
    // 0: all messages of the input were sent, each once, and acknowledged, and no line was refused. Nothing was said on
    // `errors`.
    ensures sent { result ≡ 0 → HasSentAll C.opens LetsGo C.Input.remaining C.Output.contents job.now connect.old
        connect.new (R.remaining reader.old) (R.remaining reader.new) (W.contents writer.old) (W.contents writer.new)
        × (errors.new ≡ errors.old) }
    // 0: so there is one line for each message, in order.
    ensures acknowledged { result ≡ 0 → AreAcknowledged job.now (R.remaining reader.old) (R.remaining reader.new)
        (W.contents writer.old) (W.contents writer.new) }
    // 1: a line was refused, the messages before it were sent, each once, and acknowledged, and the line's number and
    // fault were said.
    ensures sent_before { result ≡ 1 → HasSentBefore C.opens LetsGo C.Input.remaining C.Output.contents job.now
        connect.old connect.new (R.remaining reader.old) (R.remaining reader.new) (W.contents writer.old)
        (W.contents writer.new) (Begins (E.contents errors.old) (E.contents errors.new)) }
    // 1: so there is one line for each of those messages, in order.
    ensures acknowledged_before { result ≡ 1 → AreAcknowledgedBefore job.now (R.remaining reader.old)
        (R.remaining reader.new) (W.contents writer.old) (W.contents writer.new)
        (Begins (E.contents errors.old) (E.contents errors.new)) }
    // 2: the address is not that of one encoder. No connection was opened, and nothing was read or written.
    ensures undescribed { result ≡ 2 → IsUndescribed job.now (Begins (E.contents errors.old) (E.contents errors.new))
        × (reader.new ≡ reader.old) × (writer.new ≡ writer.old) × (connect.new ≡ connect.old) }
    // 3: a batch is outstanding, and not before its tries and its connections are spent; or memory or writing failed
    // behind a batch; or nothing was sent.
    ensures not_sent { result ≡ 3 → HasNotSentAll C.opens LetsGo C.Input.remaining C.Output.contents job.now
        connect.old connect.new (R.remaining reader.old) (R.remaining reader.new) (W.contents writer.old)
        (W.contents writer.new) (Begins (E.contents errors.old) (E.contents errors.new)) }
    // 3: so the lines of the batches before that were written, and then that it is outstanding; or a beginning of that.
    ensures not_acknowledged { result ≡ 3 → AreNotAcknowledged job.now (R.remaining reader.old) (R.remaining reader.new)
        (W.contents writer.old) (W.contents writer.new) (Begins (E.contents errors.old) (E.contents errors.new)) }
{
    let Ended { status, connect } = send_lent::<R, W, E, C, Brand>(
        alloc,
        job,
        reader,
        writer,
        errors,
        Lent { connect },
    );
    // Nothing happens here: the proof reads what is left of `connect`.
    let _ = &*connect;
    status
}

/// Does the job of `server` over the connections that are opened by what is lent, under this loan.
fn send_lent<'a, R: Read, W: Write, E: Write, C: Connect, L: Loan>(
    alloc: Global,
    job: &Job,
    reader: &mut R,
    writer: &mut W,
    errors: &mut E,
    lent: Lent<'a, C>,
) -> Ended<'a, C>
    requires job { IsServer job.now }
    requires loan { lent.connect.ghost_name ≡ L.name }
    ensures same { result.connect.ghost_name ≡ L.name }
    ensures status { result.status ≤ 3 }
    ensures sent { result.status ≡ 0 → HasSentAll C.opens LetsGo C.Input.remaining C.Output.contents job.now
        lent.entry.connect.now result.connect.now (R.remaining reader.old) (R.remaining reader.new)
        (W.contents writer.old) (W.contents writer.new) × (errors.new ≡ errors.old) }
    ensures acknowledged { result.status ≡ 0 → AreAcknowledged job.now (R.remaining reader.old)
        (R.remaining reader.new) (W.contents writer.old) (W.contents writer.new) }
    ensures sent_before { result.status ≡ 1 → HasSentBefore C.opens LetsGo C.Input.remaining C.Output.contents job.now
        lent.entry.connect.now result.connect.now (R.remaining reader.old) (R.remaining reader.new)
        (W.contents writer.old) (W.contents writer.new) (Begins (E.contents errors.old) (E.contents errors.new)) }
    ensures acknowledged_before { result.status ≡ 1 → AreAcknowledgedBefore job.now (R.remaining reader.old)
        (R.remaining reader.new) (W.contents writer.old) (W.contents writer.new)
        (Begins (E.contents errors.old) (E.contents errors.new)) }
    ensures undescribed { result.status ≡ 2 → IsUndescribed job.now
        (Begins (E.contents errors.old) (E.contents errors.new))
        × (reader.new ≡ reader.old) × (writer.new ≡ writer.old) × (result.connect.now ≡ lent.entry.connect.now) }
    ensures not_sent { result.status ≡ 3 → HasNotSentAll C.opens LetsGo C.Input.remaining C.Output.contents job.now
        lent.entry.connect.now result.connect.now (R.remaining reader.old) (R.remaining reader.new)
        (W.contents writer.old) (W.contents writer.new) (Begins (E.contents errors.old) (E.contents errors.new)) }
    ensures not_acknowledged { result.status ≡ 3 → AreNotAcknowledged job.now (R.remaining reader.old)
        (R.remaining reader.new) (W.contents writer.old) (W.contents writer.new)
        (Begins (E.contents errors.old) (E.contents errors.new)) }
{
    let mut opening: Opening<'a, C, L> = Opening::new(lent);
    let status = run_server_over(alloc, job, reader, writer, errors, &mut opening);
    Ended {
        status,
        connect: opening.finish(),
    }
}
