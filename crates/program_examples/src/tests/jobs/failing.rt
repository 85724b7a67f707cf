//! Reads, writes and flushes that are short or fail, and runs that read and write nothing.
use super::{Comes, Ends, NOT_HEX, PIECES, REPLY, answer, comes_to};
use crate::tests::asserting::same;
use faulty_io::{FaultyReader, FaultyWriter};
use std::alloc::Global;
use std::process::Abort;
use std::test::Fail;

/// An encoder with service 01 comes to this over these ends.
fn answers(
    rt: &impl Abort,
    alloc: Global,
    mut ends: Ends<'_>,
    comes: Comes<'_>,
) -> Result<(), Fail> {
    let job = answer(alloc, &[0x01])?;
    comes_to(rt, alloc, &job, &mut ends, comes);
    Ok(())
}

#[test]
fn short_reads_and_writes_make_no_difference(rt: HostRuntime) -> Result<(), Fail> {
    for at_most in [1, 7, usize::MAX] {
        let ends = Ends {
            reader: FaultyReader::new(PIECES.as_bytes()).giving(at_most),
            writer: FaultyWriter::new().taking(at_most),
            errors: FaultyWriter::new().taking(at_most),
        };
        answers(&rt, rt.alloc(), ends, (1, REPLY, NOT_HEX))?;
    }
    Ok(())
}

/// An encoder whose output goes to this writer ends with 3, and has written this.
fn fails_to_write(
    rt: &impl Abort,
    alloc: Global,
    writer: FaultyWriter<'_>,
    written: &str,
) -> Result<(), Fail> {
    let ends = Ends {
        writer,
        ..Ends::new(PIECES.as_bytes())
    };
    answers(rt, alloc, ends, (3, written, "uecp: writing failed\n"))
}

#[test]
fn a_failed_read_a_failed_write_and_a_failed_flush_end_with_3(rt: HostRuntime) -> Result<(), Fail> {
    let alloc = rt.alloc();
    let ends = Ends {
        reader: FaultyReader::new(PIECES.as_bytes())
            .giving(20)
            .failing_at(&[2]),
        ..Ends::new(b"")
    };
    answers(&rt, alloc, ends, (3, "", "uecp: reading failed\n"))?;
    let first = FaultyWriter::new().taking(7).failing_at(&[1]);
    fails_to_write(&rt, alloc, first, "")?;
    let third = FaultyWriter::new().taking(7).failing_at(&[3]);
    fails_to_write(&rt, alloc, third, "reply FE004100")?;
    let flush = FaultyWriter::new().failing_flushed();
    fails_to_write(&rt, alloc, flush, REPLY)
}

#[test]
fn errors_that_take_a_beginning_change_no_status(rt: HostRuntime) -> Result<(), Fail> {
    let ends = Ends {
        errors: FaultyWriter::new().taking(5).failing_at(&[3]),
        ..Ends::new(PIECES.as_bytes())
    };
    answers(&rt, rt.alloc(), ends, (1, REPLY, "uecp: line"))
}

#[test]
fn refused_services_read_and_write_nothing(rt: HostRuntime) -> Result<(), Fail> {
    let job = answer(rt.alloc(), &[0x01, 0x01])?;
    let mut ends = Ends::new(PIECES.as_bytes());
    let refused = (2, "", "uecp: services: ServiceTwice\n");
    comes_to(&rt, rt.alloc(), &job, &mut ends, refused);
    let calls = (
        ends.reader.reads(),
        ends.writer.writes(),
        ends.writer.flushes(),
    );
    same!(rt; calls, (0, 0, 0));
    Ok(())
}
