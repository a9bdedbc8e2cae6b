//! The output of a network and of a path of its imports; the network is read back from it.
ghost use Rattle.std.specs.Prelude.{◌≡◌, [], IsTrue};

use crate::description::expect;
use crate::worked::{DIAMOND, TWO_WAYS, net_of};
use byte_sink::{Sink, SinkFault};
use cut_net::Net;
use cut_report::{shortest_import_path, write_chain, write_net};
use std::alloc::{AllocError, Global};
use std::test::Fail;
use test_doubles::FailingSink;

/// Lists is imported by Main only, Out by both without a line of its own, and Alone has only its own line.
const WITH_ALONE: &[u8] =
    b"import Main Out 12\nimport Main Lists 3\n\nmodule Alone\nimport Lists Out 0\nmodule Main\n\nmodule Alone";

/// The text of a network, and its output.
const PUT: &[(&[u8], &str)] = &[
    (b"", ""),
    (b"\n\n", ""),
    (b"module M", "module M\n"),
    (
        WITH_ALONE,
        "module Alone\nmodule Lists\nmodule Main\nmodule Out\n\
        import Lists Out 0\nimport Main Lists 3\nimport Main Out 12\n",
    ),
    // Names are sorted by their bytes, and a total weight of 2^64 - 1 is permitted.
    (
        b"import b B 1\nimport B a 18446744073709551614\n",
        "module B\nmodule a\nmodule b\nimport B a 18446744073709551614\nimport b B 1\n",
    ),
    (
        TWO_WAYS,
        "module A\nmodule D\nmodule U\nmodule V\n\
        import A U 5\nimport A V 0\nimport U D 1\nimport V U 3\n",
    ),
];

/// The text of a network, the numbers of two of its modules, and the output of the smallest path from one to the other.
const CHAINS: &[(&[u8], u32, u32, &str)] = &[
    // Of two paths of two imports the one through B.
    (DIAMOND, 0, 3, "import A B 1\nimport B D 3\n"),
    (DIAMOND, 2, 3, "import C D 1\n"),
    // A path of one module has no output.
    (DIAMOND, 1, 1, ""),
    (DIAMOND, 3, 0, "none"),
    (DIAMOND, 1, 2, "none"),
    // Two imports are fewer than three, whatever their weights.
    (TWO_WAYS, 0, 1, "import A U 5\nimport U D 1\n"),
    (TWO_WAYS, 3, 1, "import V U 3\nimport U D 1\n"),
    (TWO_WAYS, 0, 3, "import A V 0\n"),
    (WITH_ALONE, 0, 2, "none"),
    (WITH_ALONE, 2, 3, "import Main Out 12\n"),
];

fn is_unpinned(net: &Net) -> bool
    ensures { IsTrue result → net.now.pins ≡ [] }
{
    net.pins().is_empty()
}

/// Whether everything was written. Fails if an allocation fails.
fn is_complete(put: Result<(), SinkFault>) -> Result<bool, AllocError> {
    match put {
        Ok(()) => Ok(true),
        Err(SinkFault::Device) => Ok(false),
        Err(SinkFault::Memory) => Err(AllocError),
    }
}

/// Writes a network without pins.
fn write_if_unpinned<S: Sink>(alloc: Global, net: &Net, sink: &mut S) -> Result<bool, AllocError> {
    if !is_unpinned(net) {
        return Err(AllocError);
    }
    is_complete(write_net(alloc, net, sink))
}

/// Writes the smallest path from a module to another; returns whether there is one.
fn write_path<S: Sink>(
    alloc: Global,
    net: &Net,
    from: u32,
    to: u32,
    sink: &mut S,
) -> Result<Option<bool>, AllocError> {
    if !is_unpinned(net) || from >= net.nodes() || to >= net.nodes() {
        return Err(AllocError);
    }
    match shortest_import_path(alloc, net, from, to)? {
        Some(chain) => Ok(Some(is_complete(write_chain(alloc, net, chain.as_slice(), sink))?)),
        None => Ok(None),
    }
}

/// The output of a network to a sink that takes one byte at a time.
fn describe_net(alloc: Global, text: &[u8]) -> Result<String, AllocError> {
    let net = net_of(alloc, text, b"")?;
    let mut sink = FailingSink::new(alloc, 1000);
    let whole = write_if_unpinned(alloc, &net, &mut sink)?;
    describe_taken(alloc, whole, &sink)
}

fn describe_taken(alloc: Global, whole: bool, sink: &FailingSink) -> Result<String, AllocError> {
    match str::from_utf8(sink.taken.as_slice()) {
        Ok(text) if whole => String::from_str(alloc, text),
        _ => String::from_str(alloc, "failed"),
    }
}

fn describe_chain(alloc: Global, text: &[u8], from: u32, to: u32) -> Result<String, AllocError> {
    let net = net_of(alloc, text, b"")?;
    let mut sink = FailingSink::new(alloc, 1000);
    match write_path(alloc, &net, from, to, &mut sink)? {
        Some(whole) => describe_taken(alloc, whole, &sink),
        None => String::from_str(alloc, "none"),
    }
}

/// Appends the state of a failed sink: whether it has a prefix of the text, its length, and the number of failures.
fn append_prefix(
    description: &mut String,
    whole: bool,
    sink: &FailingSink,
    text: &str,
) -> Result<(), AllocError> {
    write!(
        description,
        "{whole} {} {} {}, ",
        text.as_bytes().starts_with(sink.taken.as_slice()),
        sink.taken.len(),
        sink.failures
    )
}

/// Appends the state of a sink that fails after this many bytes, for a network of two modules and for its path.
fn append_failed(description: &mut String, alloc: Global, writes: u64) -> Result<(), AllocError> {
    let net = net_of(alloc, b"import A B 1", b"")?;
    let mut sink = FailingSink::new(alloc, writes);
    let whole = write_if_unpinned(alloc, &net, &mut sink)?;
    append_prefix(
        description,
        whole,
        &sink,
        "module A\nmodule B\nimport A B 1\n",
    )?;
    let mut sink = FailingSink::new(alloc, writes);
    let whole = write_path(alloc, &net, 0, 1, &mut sink)? == Some(true);
    append_prefix(description, whole, &sink, "import A B 1\n")
}

fn describe_failed(alloc: Global, writes: &[u64]) -> Result<String, AllocError> {
    let mut description = String::new(alloc);
    for writes in writes {
        append_failed(&mut description, alloc, *writes)?;
    }
    Ok(description)
}

#[test]
fn a_network_is_written_as_its_lines(rt: HostRuntime) -> Result<(), Fail> {
    for (text, want) in PUT {
        expect(&rt, describe_net(rt.alloc(), text)?.as_str(), want);
    }
    Ok(())
}

#[test]
fn a_written_network_is_read_back(rt: HostRuntime) -> Result<(), Fail> {
    for (_, text) in PUT {
        expect(
            &rt,
            describe_net(rt.alloc(), text.as_bytes())?.as_str(),
            text,
        );
    }
    Ok(())
}

#[test]
fn a_path_is_written_as_its_imports(rt: HostRuntime) -> Result<(), Fail> {
    for (text, from, to, want) in CHAINS {
        let description = describe_chain(rt.alloc(), text, *from, *to)?;
        expect(&rt, description.as_str(), want);
    }
    Ok(())
}

#[test]
fn a_sink_fails_while_a_network_is_written(rt: HostRuntime) -> Result<(), Fail> {
    let description = describe_failed(rt.alloc(), &[0, 1, 12, 13, 14, 30, 31])?;
    expect(
        &rt,
        description.as_str(),
        "false true 0 1, false true 0 1, false true 1 1, false true 1 1, false true 12 1, false true 12 1, \
        false true 13 1, true true 13 0, false true 14 1, true true 13 0, false true 30 1, true true 13 0, \
        true true 31 0, true true 13 0, ",
    );
    Ok(())
}
