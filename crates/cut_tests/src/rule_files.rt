//! Reading files of rules: their faults and limits.
ghost use Rattle.std.specs.Prelude.{IfOk};
ghost use Rattle.cut_rules.specs.Folders.{ArePathsInOrder};

use crate::description::expect;
use crate::worked::net_of;
use cut_net::Net;
use cut_rules::{File, Rules, RulesFault};
use std::alloc::{AllocError, Global};
use std::process::Abort;
use std::test::Fail;

/// Tool imports Canvas and Shapes, which Canvas imports too; Canvas reaches Heap over Shapes or, by one import more, over Sync and Net.
pub(crate) const TREE: &[u8] =
    b"import Tool Canvas 1\nimport Tool Shapes 1\nimport Canvas Shapes 2\nimport Canvas Sync 1\n\
    import Shapes Heap 3\nimport Sync Net 1\nimport Net Heap 0\nimport Pad Heap 1\n";

/// The files of the tree's modules, sorted by path. Heap has no file.
const FILES: &[(&str, &str)] = &[
    ("Tool", "Tool.Mod"),
    ("Net", "net/src/graphics/Net.Mod"),
    ("Pad", "src # old/my pad/Pad.Mod"),
    ("Canvas", "src/graphics/Canvas.Mod"),
    ("Shapes", "src/graphics/deep/Shapes.Mod"),
    ("Sync", "src/graphicsnet/Sync.Mod"),
];

/// Texts with the fault of each for the tree, or none.
const FAULTS: &[(&[u8], &str)] = &[
    (b"", "none"),
    (b"# a comment\n \t#\n\nforbid Tool Pad # never", "none"),
    (b"forbid  Canvas Net\n", "line 1 breaks the form"),
    (b"forbid Canvas\n", "line 1 breaks the form"),
    (b"forbid Canvas Net# none\n", "line 1 breaks the form"),
    (b"allow\tCanvas Sync\n", "line 1 breaks the form"),
    (b"folder A-B src\n", "line 1 breaks the form"),
    (b"folder A src\xFF\n", "line 1 breaks the form"),
    (b"named A \xFF*\n", "line 1 breaks the form"),
    (b"tree A B\n", "line 1 breaks the form"),
    (b"\n# a comment\n \n", "line 3 breaks the form"),
    (b"set Canvas Net\n", "the set Canvas of line 1 is a module"),
    (b"tree Heap\n", "the set Heap of line 1 is a module"),
    (b"set A Nope\n", "line 1: there is no module Nope"),
    (b"set A B\nset B Net\n", "line 1: there is no module B"),
    (
        b"forbid Canvas canvas\n",
        "line 1: there is no module canvas",
    ),
    (b"may No Nope\n", "line 1: there is no module No"),
    // The tree may lack an allowed import, but the second line for it is a fault.
    (b"allow Canvas Net\nallow Canvas A\n", "none"),
    (
        b"allow Canvas Sync\nallow Canvas Shapes\nallow Canvas Sync\n",
        "line 3 is the second that allows the import of Sync by Canvas",
    ),
    (
        b"allow Canvas Net\nallow Net Canvas\nallow Canvas Net\n",
        "line 3 is the second that allows the import of Net by Canvas",
    ),
    // Folders and patterns have to be complete.
    (
        b"folder A src/graphics/\nfolder A ./src\nfolder A .",
        "none",
    ),
    (b"folder A src/graph\n", "line 1: no module is in src/graph"),
    (b"folder A graphics\n", "line 1: no module is in graphics"),
    (b"folder A /src\n", "line 1: no module is in /src"),
    (b"folder A src # all\n", "line 1: no module is in src # all"),
    (b"named A *a*a*\nnamed A H*p\nnamed A Heap\n", "none"),
    (b"named A *a*a*a*\n", "line 1: no module is in *a*a*a*"),
    (b"named A Canv\n", "line 1: no module is in Canv"),
    (b"named A Canvas*s\n", "line 1: no module is in Canvas*s"),
    // The first line with a fault is reported.
    (
        b"set A Nope\nforbid\nset Net A\n",
        "line 1: there is no module Nope",
    ),
    (
        b"forbid Canvas A\nset A Nope\n",
        "line 2: there is no module Nope",
    ),
    // Of several faults of one line the first is reported.
    (b"set Canvas Nope\n", "the set Canvas of line 1 is a module"),
    (
        b"folder Canvas nowhere\n",
        "the set Canvas of line 1 is a module",
    ),
    (b"set Canvas 1\n", "line 1 breaks the form"),
];

/// Lines after 4,096 rules and 4,096 patterns, with the fault, or none.
const AFTER_MOST: &[(&[u8], &str)] = &[
    (b"# none\nset A Net\nallow Net Heap\n", "none"),
    (
        b"forbid-import Heap Net\n",
        "line 8193 is one line too many",
    ),
    (b"\nmay Canvas Heap", "line 8194 is one line too many"),
    (b"forbid Heap Nope\n", "line 8193: there is no module Nope"),
    (b"named A Heap\nbad\n", "line 8193 is one line too many"),
    (b"named A Nope\n", "line 8193: no module is in Nope"),
];

/// The files of those modules that the network has, sorted by path.
pub(crate) fn files_of(alloc: Global, net: &Net) -> Result<Vec<File<'static>>, AllocError>
    ensures { IfOk result (λ files. ArePathsInOrder files.items) }
{
    let mut files = Vec::new(alloc);
    for (name, path) in FILES {
        if let Some(module) = net.index_of(name) {
            files.push(File { path, module })?;
        }
    }
    files.sort_unstable_by(|first, second| first.path.cmp(second.path));
    Ok(files)
}

/// The fault as text, unless an allocation failed.
pub(crate) fn fault_text(alloc: Global, fault: RulesFault) -> Result<String, AllocError> {
    match fault {
        RulesFault::Memory => Err(AllocError),
        fault => format!(in alloc; "{fault}"),
    }
}

/// The fault of rules for the tree, or none.
fn fault_of(alloc: Global, rules: &[u8]) -> Result<String, AllocError> {
    let net = net_of(alloc, TREE, b"")?;
    let files = files_of(alloc, &net)?;
    match Rules::read(alloc, &net, files.as_slice(), rules) {
        Ok(_) => String::from_str(alloc, "none"),
        Err(fault) => fault_text(alloc, fault),
    }
}

/// 4,096 rules and 4,096 patterns, followed by these lines.
fn text_at_limits(alloc: Global, end: &[u8]) -> Result<Vec<u8>, AllocError> {
    let mut text = Vec::new(alloc);
    for _ in 0..4096u32 {
        text.extend_from_slice(b"forbid Heap Net\nnamed A *e*\n")?;
    }
    text.extend_from_slice(end)?;
    Ok(text)
}

#[test]
fn texts_have_their_first_faults(rt: HostRuntime) -> Result<(), Fail> {
    for (rules, want) in FAULTS {
        expect(&rt, fault_of(rt.alloc(), rules)?.as_str(), want);
    }
    Ok(())
}

#[test]
fn rules_and_patterns_are_limited(rt: HostRuntime) -> Result<(), Fail> {
    for (end, want) in AFTER_MOST {
        let rules = text_at_limits(rt.alloc(), end)?;
        expect(&rt, fault_of(rt.alloc(), rules.as_slice())?.as_str(), want);
    }
    Ok(())
}
