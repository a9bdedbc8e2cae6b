//! Rules of a tree: the output of their violations, also to sinks that fail.
ghost use Rattle.std.specs.Prelude.{◌≡◌, IfOk, length};
ghost use Rattle.cut_rules.specs.Folders.{ArePathsInOrder};

use crate::description::expect;
use crate::rule_files::{TREE, fault_text, files_of};
use crate::worked::{DIAMOND, net_of};
use byte_sink::SinkFault;
use cut_net::Net;
use cut_rules::{File, Rules, Site, write_verdict};
use std::alloc::{AllocError, Global};
use std::process::Abort;
use std::test::Fail;
use test_doubles::FailingSink;
use texts::LocationStyle;

/// Rules that the tree satisfies.
const KEPT: &[&[u8]] = &[
    b"",
    b"\n",
    b"# a comment\n#\n\n",
    b"#forbid Canvas Net",
    b"set A Canvas\nset A Canvas\n",
    // Imports have a direction, and every path has an import.
    b"forbid Heap Canvas\n",
    b"forbid Canvas Canvas\n",
    b"set A Canvas\nset B Canvas\nforbid A B\n",
    b"set A Net\nset A Canvas\nset B Tool\nforbid A B\n",
    // An allowed import counts for no rule, wherever its line is.
    b"forbid Canvas Net\nallow Canvas Sync",
    b"allow Sync Net\nforbid Canvas Net\nforbid Tool Net\nforbid Sync Net\n",
    b"allow Shapes Heap\nallow Net Heap\nforbid Canvas Heap\nforbid Tool Heap\n",
    b"forbid-import Canvas Sync # never\nmay Canvas Shapes\nallow Canvas Sync # yet\n",
    // A folder includes what is below it.
    b"folder G src/graphics\nforbid Sync G\nforbid G Tool\nforbid Pad G\n",
    b"folder G src/graphics\nset N Net\nallow Canvas Sync\nforbid G N\n",
    // `import` rules concern imports only, and not what these reach.
    b"forbid-import Canvas Net\nforbid-import Tool Heap\n",
    b"may Canvas Sync\nmay Canvas Shapes\nmay Heap Tool\n",
    b"tree T\nmay T Heap\n",
    b"named S S*\nmay S Net\nmay S Heap\nforbid-import S S\n",
];

/// A network, rules that it violates, and the output.
const BROKEN: &[(&[u8], &[u8], &str)] = &[
    // Comments and empty lines count.
    (
        TREE,
        b"# a comment\n\nforbid Canvas Net\n",
        "M.Mod:5:2: no 3 Canvas Sync Net\n",
    ),
    // A line for each last import, whatever the weights.
    (
        TREE,
        b"forbid Tool Heap",
        "M.Mod:2:1: no 1 Tool Canvas Sync Net Heap\nM.Mod:4:1: no 1 Tool Shapes Heap\n",
    ),
    (TREE, b"forbid Net Heap\n", "M.Mod:2:1: no 1 Net Heap\n"),
    // Two imports besides an allowed one, and three besides two.
    (
        TREE,
        b"forbid Tool Shapes\nallow Tool Shapes\n",
        "M.Mod:0:4: no 1 Tool Canvas Shapes\n",
    ),
    (
        TREE,
        b"allow Shapes Heap\nforbid Canvas Heap\n",
        "M.Mod:2:1: no 2 Canvas Sync Net Heap\n",
    ),
    (
        DIAMOND,
        b"forbid A D\n",
        "M.Mod:1:3: no 1 A B D\nM.Mod:2:3: no 1 A C D\n",
    ),
    (
        DIAMOND,
        b"forbid A D\nallow B D\n",
        "M.Mod:2:3: no 1 A C D\n",
    ),
    (
        DIAMOND,
        b"set E C\nset E B\nforbid A E\n",
        "M.Mod:0:1: no 3 A B\nM.Mod:0:2: no 3 A C\n",
    ),
    // C is forbidden, so no path continues from it.
    (
        DIAMOND,
        b"set E D\nset E C\nforbid A E\n",
        "M.Mod:0:2: no 3 A C\nM.Mod:1:3: no 3 A B D\n",
    ),
    // The files of a folder, without those of a folder with a longer name, or of one further below.
    (
        TREE,
        b"folder G src/graphics\nforbid G Heap\n",
        "M.Mod:2:1: no 2 Canvas Sync Net Heap\nM.Mod:4:1: no 2 Shapes Heap\n",
    ),
    (
        TREE,
        b"folder S src\nforbid S Net\n",
        "M.Mod:5:2: no 2 Sync Net\n",
    ),
    (
        TREE,
        b"folder D src/graphics/deep\nforbid Tool D\nforbid Canvas D\n",
        "M.Mod:0:4: no 2 Tool Canvas Shapes\nM.Mod:6:4: no 2 Tool Shapes\nM.Mod:0:4: no 3 Canvas Shapes\n",
    ),
    // A path may have spaces.
    (
        TREE,
        b"folder O src # old/my pad\nforbid O Heap\n",
        "M.Mod:3:1: no 2 Pad Heap\n",
    ),
    // Sets with common modules, in several lines, before and after the rules.
    (
        TREE,
        b"set B Sync\nforbid A Net\nset A Tool\nset A Canvas\nset B Canvas\nforbid B Net\nset A Tool\n",
        "M.Mod:5:2: no 2 Canvas Sync Net\nM.Mod:5:2: no 6 Sync Net\n",
    ),
    (
        TREE,
        b"folder A src/graphics\nset A Net\nfolder A net\nset A Heap\nforbid Sync A\nforbid A Heap\n",
        "M.Mod:5:2: no 5 Sync Net\nM.Mod:2:1: no 6 Net Heap\nM.Mod:4:1: no 6 Shapes Heap\n",
    ),
    // A rule from a set to itself, and a module in both sets.
    (
        TREE,
        b"set A Net\nset A Canvas\nforbid A A\n",
        "M.Mod:5:2: no 3 Canvas Sync Net\n",
    ),
    (
        TREE,
        b"set A Canvas\nset B Canvas\nset B Shapes\nforbid A B\nforbid B A\n",
        "M.Mod:0:4: no 4 Canvas Shapes\n",
    ),
    // A satisfied rule between two violated ones, and a repeated rule.
    (
        TREE,
        b"forbid Sync Net\nforbid Heap Tool\nforbid Canvas Net\nforbid Sync Net\n",
        "M.Mod:5:2: no 1 Sync Net\nM.Mod:5:2: no 3 Canvas Sync Net\nM.Mod:5:2: no 4 Sync Net\n",
    ),
    // Imports only.
    (
        TREE,
        b"forbid-import Tool Net\nforbid-import Canvas Shapes\n",
        "M.Mod:0:4: no 2 Canvas Shapes\n",
    ),
    // The lines of a set together list what it may import.
    (
        TREE,
        b"may Canvas Sync\nmay Tool Canvas\nmay Canvas Net\n",
        "M.Mod:0:4: no 1 Canvas Shapes\nM.Mod:6:4: no 2 Tool Shapes\n",
    ),
    // Stale lines come last, and suffice for a violation.
    (
        TREE,
        b"allow Canvas Net\nforbid Tool Net\n",
        "M.Mod:5:2: no 2 Tool Canvas Sync Net\nstale 1 Canvas Net\n",
    ),
    (
        DIAMOND,
        b"allow D A\n\nallow A D\n",
        "stale 1 D A\nstale 3 A D\n",
    ),
];

/// The number of bytes that a sink takes of a long line, which is written in two pieces, with the result.
const LONG: &[(u64, &str)] = &[
    (66015, "failed true 66015 1 0"),
    (66016, "failed true 66016 1 0"),
    (66018, "failed true 66018 1 0"),
    (66019, "broken true 66019 0 0"),
];

/// Whether the rules are satisfied, or that the sink failed.
fn describe_verdict(kept: Result<bool, SinkFault>) -> Result<&'static str, AllocError> {
    match kept {
        Ok(true) => Ok("kept"),
        Ok(false) => Ok("broken"),
        Err(SinkFault::Device) => Ok("failed"),
        Err(SinkFault::Memory) => Err(AllocError),
    }
}

/// A location for each import: its line and column are the numbers of the importing and of the imported module.
fn sites_of(alloc: Global, net: &Net) -> Result<Vec<Site<'static>>, AllocError>
    ensures { IfOk result (λ sites. length sites.items ≡ length net.now.imports) }
{
    let mut sites = Vec::new(alloc);
    for import in net.imports() {
        sites.push(Site {
            path: "M.Mod",
            line: import.from,
            column: import.to,
        })?;
    }
    Ok(sites)
}

/// A network as that of a tree: the files of its modules, and the locations of its imports.
#[derive(Drop)]
struct RuledNet<'a> {
    net: &'a Net,
    files: &'a [File<'a>],
    sites: &'a [Site<'a>],
}

/// The result of rules for a network, with the output in the sink.
fn verdict_result<'a>(
    alloc: Global,
    tree: &RuledNet<'a>,
    rules: &'a [u8],
    sink: &mut FailingSink,
) -> Result<String, AllocError>
    requires files { ArePathsInOrder tree.now.files.now }
    requires sites { length tree.now.sites.now ≡ length tree.now.net.now.imports }
{
    match Rules::read(alloc, tree.net, tree.files, rules) {
        Ok(rules) => {
            let style = LocationStyle::Plain;
            let kept = write_verdict(alloc, tree.net, &rules, tree.sites, style, sink);
            String::from_str(alloc, describe_verdict(kept)?)
        }
        Err(fault) => fault_text(alloc, fault),
    }
}

/// The result of rules for a network's text.
fn description(
    alloc: Global,
    net: &[u8],
    rules: &[u8],
    sink: &mut FailingSink,
) -> Result<String, AllocError> {
    let net = net_of(alloc, net, b"")?;
    let files = files_of(alloc, &net)?;
    let sites = sites_of(alloc, &net)?;
    let tree = RuledNet {
        net: &net,
        files: files.as_slice(),
        sites: sites.as_slice(),
    };
    verdict_result(alloc, &tree, rules, sink)
}

/// The result and the output to a sink that takes one byte at a time.
fn describe_bytewise(alloc: Global, net: &[u8], rules: &[u8]) -> Result<String, AllocError> {
    let mut sink = FailingSink::new(alloc, 1000);
    let verdict_result = description(alloc, net, rules, &mut sink)?;
    match str::from_utf8(sink.taken.as_slice()) {
        Ok(put) => format!(in alloc; "{verdict_result} {put}"),
        Err(_) => String::from_str(alloc, "no text"),
    }
}

/// The result with a sink that takes this many bytes: whether it has a prefix of the output, its length, the number of failures, and of
/// empty writes.
fn describe_prefix(
    alloc: Global,
    net: &[u8],
    rules: &[u8],
    text: &[u8],
    writes: u64,
) -> Result<String, AllocError> {
    let mut sink = FailingSink::new(alloc, writes);
    let verdict_result = description(alloc, net, rules, &mut sink)?;
    format!(in alloc;
        "{verdict_result} {} {} {} {}",
        text.starts_with(sink.taken.as_slice()),
        sink.taken.len(),
        sink.failures,
        sink.empty
    )
}

/// A name of 66,000 letters between these words.
fn around_long_name(alloc: Global, front: &[u8], behind: &[u8]) -> Result<Vec<u8>, AllocError> {
    let mut text = Vec::from_slice(alloc, front)?;
    for _ in 0..66000u32 {
        text.push(b'L')?;
    }
    text.extend_from_slice(behind)?;
    Ok(text)
}

/// The result of a rule for that module with a sink that takes this many bytes.
fn describe_long_name(alloc: Global, writes: u64) -> Result<String, AllocError> {
    let net = around_long_name(alloc, b"import ", b" B 1\n")?;
    let rules = around_long_name(alloc, b"forbid ", b" B\n")?;
    let text = around_long_name(alloc, b"M.Mod:1:0: no 1 ", b" B\n")?;
    describe_prefix(
        alloc,
        net.as_slice(),
        rules.as_slice(),
        text.as_slice(),
        writes,
    )
}

/// Checks that a sink that takes this many bytes has that prefix of the output for the tree.
fn check_prefix_at<R: Abort + AllocGlobal>(
    rt: &R,
    rules: &[u8],
    text: &[u8],
    bytes: u64,
) -> Result<(), AllocError> {
    for writes in 0..bytes {
        let description = describe_prefix(rt.alloc(), TREE, rules, text, writes)?;
        let want = format!(in rt.alloc(); "failed true {writes} 1 0")?;
        expect(rt, description.as_str(), want.as_str());
    }
    Ok(())
}

#[test]
fn rules_hold(rt: HostRuntime) -> Result<(), Fail> {
    for rules in KEPT {
        expect(
            &rt,
            describe_bytewise(rt.alloc(), TREE, rules)?.as_str(),
            "kept yes\n",
        );
    }
    Ok(())
}

#[test]
fn broken_rules_are_reported_by_import(rt: HostRuntime) -> Result<(), Fail> {
    for (net, rules, lines) in BROKEN {
        let want = format!(in rt.alloc(); "broken {lines}")?;
        let description = describe_bytewise(rt.alloc(), net, rules)?;
        expect(&rt, description.as_str(), want.as_str());
    }
    Ok(())
}

#[test]
fn a_verdict_stops_at_each_write(rt: HostRuntime) -> Result<(), Fail> {
    check_prefix_at(&rt, b"forbid Heap Net", b"yes\n", 4)?;
    check_prefix_at(
        &rt,
        b"forbid Sync Heap",
        b"M.Mod:2:1: no 1 Sync Net Heap\n",
        30,
    )?;
    Ok(())
}

#[test]
fn a_verdict_fills_its_sink(rt: HostRuntime) -> Result<(), Fail> {
    let description = describe_prefix(rt.alloc(), TREE, b"forbid Heap Net", b"yes\n", 4)?;
    expect(&rt, description.as_str(), "kept true 4 0 0");
    let description = describe_prefix(
        rt.alloc(),
        TREE,
        b"forbid Sync Heap",
        b"M.Mod:2:1: no 1 Sync Net Heap\n",
        30,
    )?;
    expect(&rt, description.as_str(), "broken true 30 0 0");
    Ok(())
}

#[test]
fn a_long_line_is_written_in_pieces(rt: HostRuntime) -> Result<(), Fail> {
    for (writes, want) in LONG {
        let description = describe_long_name(rt.alloc(), *writes)?;
        expect(&rt, description.as_str(), want);
    }
    Ok(())
}
