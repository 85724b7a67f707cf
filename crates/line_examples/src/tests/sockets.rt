//! Both ends over real sockets, in one process and one thread: what is written waits in the socket until the other end
//! reads it.
use super::line::{driven_in, message, store_encoder};
use crate::tests::asserting::{holds, same};
use faulty_io::{ADD, own_address};
use rds_store::RdsStore;
use std::net::{TcpListener, TcpStream};
use std::process::Abort;
use std::test::Fail;
use std::time::Duration;
use uecp_encoder::{Encoder, Meter, ServeFault, serve};
use uecp_link::{DriveFault, Server, drive, resend};
use uecp_net::{Connections, Dialing, Limits, Listening, Outstanding, Sender, serve_connection};

/// A read that brings nothing for so many milliseconds fails.
const TIMEOUT: u64 = 100;

/// One end of a connection.
#[derive(Drop)]
struct End {
    input: Meter<TcpStream>,
    output: Meter<TcpStream>,
}

/// The end that this opens next, whose reads time out.
fn open(
    connect: &mut impl Connections<Input = TcpStream, Output = TcpStream>,
) -> Result<End, Fail> {
    let (input, output) = connect.open().ok_or("no connection")?;
    input.set_read_timeout(Some(Duration::from_millis(TIMEOUT)))?;
    Ok(End {
        input: Meter::new(input),
        output: Meter::new(output),
    })
}

/// Serves a turn at a time, at most 100, until so many messages were fresh and so many were repeats.
fn serve_until(
    rt: &impl Abort,
    encoder: &mut Encoder<RdsStore>,
    end: &mut End,
    (fresh, repeats): (u64, u64),
) {
    for _ in 0..100u32 {
        let counts = encoder.counts();
        if (counts.fresh, counts.repeats) == (fresh, repeats) {
            return;
        }
        let _ = serve(encoder, &mut end.input, &mut end.output, 1);
    }
    holds!(rt; false, "not served");
}

/// Sends the text "HI" once, and hears nothing.
fn sends_first(rt: &impl Abort, server: &mut Server, end: &mut End) {
    holds!(rt; server.is_idle());
    let message = message(rt, &ADD);
    let driven = drive(server, &mut end.input, &mut end.output, &message, 1, 1);
    same!(rt; driven, Err(DriveFault::TriesSpent));
}

/// Sends it again, and hears the reply to the first.
fn sends_again(rt: &impl Abort, server: &mut Server, end: &mut End) {
    assert!(rt; server.waiting() == 1);
    let driven = resend(server, &mut end.input, &mut end.output, 1, 16);
    same!(rt; driven, driven_in(1));
}

/// Sends the text "HI" on a connection on which nothing is answered.
fn is_outstanding<C: Connections>(rt: &impl Abort, sender: &mut Sender<'_, C>) {
    holds!(rt; sender.has_room());
    let message = message(rt, &ADD);
    sender.submit(&message);
    let Err(reason) = sender.settle() else {
        holds!(rt; false, "acknowledged");
        return;
    };
    same!(rt; reason, Outstanding::TriesSpent);
}

/// Service 01 has the text "HI" once, and no other.
fn has_one_text(rt: &impl Abort, encoder: &Encoder<RdsStore>) {
    let service = encoder.target().service(1, 0x01).expect(rt, "service 01");
    same!(rt; service.texts().len(), 1);
    for text in service.texts() {
        same!(rt; text.text(), b"HI".as_slice());
    }
}

/// The text is sent and served, and then sent again and served as a repeat.
fn acts_once(
    rt: &impl Abort,
    client: &mut End,
    accepted: &mut End,
    encoder: &mut Encoder<RdsStore>,
) {
    let mut server = Server::new(own_address());
    sends_first(rt, &mut server, client);
    serve_until(rt, encoder, accepted, (1, 0));
    sends_again(rt, &mut server, client);
    serve_until(rt, encoder, accepted, (1, 1));
    has_one_text(rt, encoder);
}

/// Serves one connection for one turn.
fn serves_one_turn(rt: &impl Abort, encoder: &mut Encoder<RdsStore>, listening: &mut Listening) {
    let served = serve_connection(encoder, 1, listening);
    same!(rt; served, Some(Err(ServeFault::TurnsSpent)));
    has_one_text(rt, encoder);
}

#[test]
fn a_message_sent_twice_over_sockets_acts_once(rt: HostRuntime) -> Result<(), Fail> {
    let listener = TcpListener::bind(&rt, ("127.0.0.1", 0))?;
    let port = listener.local_addr()?.port();
    let mut client = open(&mut Dialing::new(&rt, "127.0.0.1", port, TIMEOUT))?;
    let mut accepted = open(&mut Listening::new(listener))?;
    let mut encoder = store_encoder(&rt, rt.alloc());
    acts_once(&rt, &mut client, &mut accepted, &mut encoder);
    Ok(())
}

#[test]
fn a_sender_and_an_encoder_over_one_connection(rt: HostRuntime) -> Result<(), Fail> {
    let alloc = rt.alloc();
    let listener = TcpListener::bind(&rt, ("127.0.0.1", 0))?;
    let port = listener.local_addr()?.port();
    let mut dialing = Dialing::new(&rt, "127.0.0.1", port, TIMEOUT);
    let limits = Limits {
        tries: 1,
        turns: 1,
        reconnects: 0,
        reconnect_silent: false,
    };
    let mut sender = Sender::new(&mut dialing, Server::new(own_address()), limits);
    is_outstanding(&rt, &mut sender);
    let mut encoder = store_encoder(&rt, rt.alloc());
    serves_one_turn(&rt, &mut encoder, &mut Listening::new(listener));
    Ok(())
}
