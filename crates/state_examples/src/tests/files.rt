//! An encoder and a server, each in a database in memory, saved, and refused where another is asked for.
mod keeping;

ghost use Rattle.std.specs.Prelude.{IsTrue};
ghost use Rattle.sqlite.specs.State.{HasCleanDisk, Opens};
ghost use Rattle.sqlite.specs.Held.{state};
ghost use Rattle.uecp_frame.specs.Address.{is_exact};

use crate::tests::asserting::{holds, same};
use end_images::{put_encoder, put_server};
use rds_store::RdsStore;
use sqlite::{Alter, Connection};
use sqlite_image::{Kept, Opened};
use state_files::{EncoderFile, ServerFile, StateFault, encoder_over, server_over};
use std::alloc::Global;
use std::test::Fail;
use uecp_encoder::Encoder;
use uecp_frame::Address;
use uecp_link::Server;
use uecp_net::Progress;

/// An encoder of two sets with the services 01 and 05, over a connection that was just opened.
fn encoder_in<S: Alter + Drop>(
    conn: Connection<S>,
    alloc: Global,
    address: Address,
) -> Option<(Encoder<RdsStore>, EncoderFile<S>)>
    requires exact { IsTrue (is_exact address) }
    requires opens { HasCleanDisk (state S.Store conn) → Opens (state S.Store conn) }
{
    match Kept::over(conn, 1) {
        Err(_) => None,
        Ok(opened) => match encoder_over(opened, alloc, address, 2, &[0x01, 0x05]) {
            Err(_) => None,
            Ok(begun) => Some(begun),
        },
    }
}

/// Saves an encoder, and says why one with these services is refused over its file.
fn other_encoder<S: Alter + Drop>(
    encoder: &Encoder<RdsStore>,
    mut file: EncoderFile<S>,
    alloc: Global,
    address: Address,
    services: &[u8],
) -> Option<StateFault>
    requires { IsTrue (is_exact address) }
{
    let mut image = Vec::new(alloc);
    match (file.put(encoder, ()), put_encoder(encoder, &mut image)) {
        (Ok(()), Ok(())) => {
            let opened = Opened {
                kept: file.into_kept(),
                image: Some(image),
            };
            match encoder_over(opened, alloc, address, 2, services) {
                Ok(_) => None,
                Err((fault, _)) => Some(fault),
            }
        }
        _ => None,
    }
}

/// A server over a connection that was just opened.
fn server_in<S: Alter + Drop>(
    conn: Connection<S>,
    alloc: Global,
    address: Address,
) -> Option<(Server, Progress, ServerFile<S>)>
    requires exact { IsTrue (is_exact address) }
    requires opens { HasCleanDisk (state S.Store conn) → Opens (state S.Store conn) }
{
    match Kept::over(conn, 1) {
        Err(_) => None,
        Ok(opened) => match server_over(opened, alloc, address) {
            Err(_) => None,
            Ok(begun) => Some(begun),
        },
    }
}

/// Saves a server, and says why one for this address is refused over its file.
fn other_server<S: Alter + Drop>(
    server: &Server,
    progress: Progress,
    mut file: ServerFile<S>,
    alloc: Global,
    address: Address,
) -> Option<StateFault>
    requires { IsTrue (is_exact address) }
{
    let mut image = Vec::new(alloc);
    let saved = file.put(server, progress);
    let written = put_server(progress.joined, progress.taken, server, &mut image);
    match (saved, written) {
        (Ok(()), Ok(())) => {
            let opened = Opened {
                kept: file.into_kept(),
                image: Some(image),
            };
            match server_over(opened, alloc, address) {
                Ok(_) => None,
                Err((fault, _)) => Some(fault),
            }
        }
        _ => None,
    }
}

#[test]
fn a_new_encoder_is_kept(rt: HostRuntime) -> Result<(), Fail> {
    let alloc = rt.alloc();
    let address = Address::new(1, 1).ok_or("no address")?;
    holds!(rt; address.is_exact());
    let conn = Connection::open_in_memory(alloc)?;
    let begun = encoder_in(conn, alloc, address);
    let (encoder, file) = begun.ok_or("no encoder")?;
    same!(rt; encoder.target().set_count(), 2);
    same!(rt; encoder.target().service_count(), 2);
    same!(rt; encoder.target().service_number(1), Some(0x05));
    same!(rt;
        other_encoder(&encoder, file, alloc, address, &[0x05, 0x01]),
        Some(StateFault::OtherServices)
    );
    Ok(())
}

#[test]
fn a_new_server_is_kept(rt: HostRuntime) -> Result<(), Fail> {
    let alloc = rt.alloc();
    let address = Address::new(1, 1).ok_or("no address")?;
    holds!(rt; address.is_exact());
    let other = Address::new(1, 2).ok_or("no address")?;
    holds!(rt; other.is_exact());
    let conn = Connection::open_in_memory(alloc)?;
    let begun = server_in(conn, alloc, address);
    let (server, progress, file) = begun.ok_or("no server")?;
    same!(rt;
        (server.last(), progress.taken, progress.joined),
        (0, 0, false)
    );
    same!(rt;
        other_server(&server, progress, file, alloc, other),
        Some(StateFault::OtherAddress)
    );
    Ok(())
}
