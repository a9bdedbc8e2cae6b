//! Sinks that take a part or nothing.

use crate::description::expect;
use byte_sink::{Sink, SinkFault, ToWrite, write_fully};
use std::alloc::{AllocError, Global};
use std::io;
use std::test::Fail;
use test_doubles::FailingSink;

/// A writer that takes three bytes at a time, and none from a certain call on.
#[derive(Drop)]
struct ThreeByteWriter {
    calls: u8,
}

impl io::Write for ThreeByteWriter {
    fn write(&mut self, buf: &[u8]) -> io::Result<usize> {
        if self.calls == 0 {
            return Ok(0);
        }
        self.calls -= 1;
        Ok(buf.len().min(3))
    }

    fn flush(&mut self) -> io::Result<()> {
        Ok(())
    }
}

/// The bytes that are taken, text by text, if the writer takes some in its first four calls.
const PUT: &[&[u8]] = &[b"r", b"re", b"rep", b"repo", b"more", b""];

/// The number of bytes that are taken of each text.
fn describe_calls(alloc: Global) -> Result<String, AllocError> {
    let mut sink = ToWrite::new(ThreeByteWriter { calls: 4 });
    let mut description = String::new(alloc);
    for text in PUT {
        match sink.put(text) {
            Ok(count) => write!(description, "{count} ")?,
            Err(SinkFault::Device) => description.push_str("failed ")?,
            Err(SinkFault::Memory) => return Err(AllocError),
        }
    }
    Ok(description)
}

/// Writes a text, and appends whether all of it was taken.
fn append_write<S: Sink>(
    description: &mut String,
    sink: &mut S,
    text: &[u8],
) -> Result<(), AllocError> {
    match write_fully(sink, text) {
        Ok(()) => description.push_str("all "),
        Err(SinkFault::Device) => description.push_str("failed "),
        Err(SinkFault::Memory) => Err(AllocError),
    }
}

/// The bytes that are taken of two texts and an empty one, if the writer takes some in its first two calls.
fn describe_writes(alloc: Global) -> Result<String, AllocError> {
    let mut sink = ToWrite::new(ThreeByteWriter { calls: 2 });
    let mut description = String::new(alloc);
    append_write(&mut description, &mut sink, b"report")?;
    append_write(&mut description, &mut sink, b"more")?;
    append_write(&mut description, &mut sink, b"")?;
    Ok(description)
}

/// The state of a sink that fails after this many writes: whether it has a prefix of the text, its length, the number of failures, and of
/// empty writes.
fn append_prefix(description: &mut String, alloc: Global, writes: u64) -> Result<(), AllocError> {
    let mut sink = FailingSink::new(alloc, writes);
    append_write(description, &mut sink, b"report")?;
    write!(
        description,
        "{} {} {} {}, ",
        b"report".starts_with(sink.taken.as_slice()),
        sink.taken.len(),
        sink.failures,
        sink.empty
    )
}

fn describe_prefixes(alloc: Global) -> Result<String, AllocError> {
    let mut description = String::new(alloc);
    for writes in 0..8u64 {
        append_prefix(&mut description, alloc, writes)?;
    }
    Ok(description)
}

#[test]
fn a_writer_that_takes_nothing_fails(rt: HostRuntime) -> Result<(), Fail> {
    expect(
        &rt,
        describe_calls(rt.alloc())?.as_str(),
        "1 2 3 3 failed 0 ",
    );
    expect(
        &rt,
        describe_writes(rt.alloc())?.as_str(),
        "all failed all ",
    );
    Ok(())
}

#[test]
fn a_failure_at_each_write(rt: HostRuntime) -> Result<(), Fail> {
    expect(
        &rt,
        describe_prefixes(rt.alloc())?.as_str(),
        "failed true 0 1 0, failed true 1 1 0, failed true 2 1 0, failed true 3 1 0, \
        failed true 4 1 0, failed true 5 1 0, all true 6 0 0, all true 6 0 0, ",
    );
    Ok(())
}
