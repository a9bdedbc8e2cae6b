//! Trees that are read by one call: the numbers of the modules that each module of the tree imports. Of each module the numbers of its
//! tokens, of its name's and of the last token after END, of its import items, procedures and statements, and its aliases with the uses
//! that they qualify; or the fault of the tree.
use crate::inputs::{FOUR, ONE, sources};
use ob_imports::Graph;
use ob_parse::{ParsedModule, ParsedTree, read_tree};
use source_tree::tree_fault_text;
use std::alloc::{AllocError, Global};
use std::process::Abort;
use std::test::Fail;
use std::thread::Threads;
use texts::LocationStyle;

/// Files with the description of their tree.
const TREES: &[(&[(&str, &str)], &str)] = &[
    (&[], ""),
    (
        ONE,
        "0 imports; M: 6 tokens, named 1 and 4, 0 imports, 0 procedures; ",
    ),
    (
        FOUR,
        "0 imports 1 2; 1 imports 3; 2 imports 3; 3 imports; \
         A: 23 tokens, named 1 and 21, 2 imports, 0 procedures, a body, B 1, C 2; \
         B: 28 tokens, named 1 and 26, 1 imports, 1 procedures, D 3; \
         C: 20 tokens, named 1 and 18, 1 imports, 1 procedures, D 1; \
         D: 13 tokens, named 1 and 11, 0 imports, 1 procedures; ",
    ),
    // The fault of the first wrong file is reported, whatever its kind.
    (
        &[
            ("A.Mod", "MODULE A; END A."),
            ("B.Mod", "MODULE B; VAR x, x: SET; END B."),
            ("C.Mod", "MODULE C END C."),
        ],
        "B.Mod:0:17: Twice x",
    ),
    (
        &[("A.Mod", "MODULE A;\nEND B."), ("B.Mod", "?")],
        "A.Mod:1:4: EndName",
    ),
    (
        &[
            ("A.Mod", "MODULE A; BEGIN x END A."),
            ("B.Mod", "MODULE B; \""),
        ],
        "B.Mod:0:10: OpenString",
    ),
    // Faults of imports are reported once each file is accepted.
    (
        &[
            ("A.Mod", "MODULE A; IMPORT B; END A."),
            ("B.Mod", "MODULE B; IMPORT A; END B."),
        ],
        "Cycle A B",
    ),
];

/// Appends the imports of each module of the tree.
fn append_imports(description: &mut String, graph: &Graph) -> Result<(), AllocError> {
    graph.invariants();
    for node in 0..graph.modules() {
        write!(description, "{node} imports")?;
        for import in graph.imports_of(node) {
            write!(description, " {import}")?;
        }
        description.push_str("; ")?;
    }
    Ok(())
}

/// Appends the tokens and the syntax tree of a module.
fn append_syntax(description: &mut String, read: &ParsedModule) -> Result<(), AllocError> {
    let tree = &*read.tree;
    let imports = match &tree.imports {
        Some(items) => items.rest.len() + 1,
        None => 0,
    };
    let tokens = read.parts.tokens.len();
    let procedures = tree.declarations.procedures.len();
    write!(
        description,
        ": {tokens} tokens, named {} and {}, {imports} imports, {procedures} procedures",
        tree.name, tree.end_name
    )?;
    match &tree.body {
        Some(_) => description.push_str(", a body"),
        None => Ok(()),
    }
}

/// Appends the data of a module.
fn append_module(description: &mut String, read: &ParsedModule) -> Result<(), AllocError> {
    description.push_str(read.parts.scopes.name())?;
    append_syntax(description, read)?;
    for alias in read.parts.scopes.aliases() {
        let uses = read.parts.scopes.qualified_uses(alias.decl);
        write!(description, ", {} {uses}", alias.module)?;
    }
    description.push_str("; ")
}

fn describe_tree(alloc: Global, tree: &ParsedTree) -> Result<String, AllocError> {
    let mut description = String::new(alloc);
    append_imports(&mut description, &tree.graph)?;
    for read in tree.modules.iter() {
        append_module(&mut description, read)?;
    }
    Ok(description)
}

/// The description of the tree of these files, read by this many workers.
fn describe_reading<R: AllocGlobal + Threads + Sync>(
    rt: &R,
    files: &[(&str, &str)],
    workers: u32,
) -> Result<String, AllocError> {
    let sources = sources(rt.alloc(), files)?;
    match read_tree(rt, rt.alloc(), sources.as_slice(), workers) {
        Ok(tree) => describe_tree(rt.alloc(), &tree),
        Err(fault) => tree_fault_text(rt.alloc(), LocationStyle::Plain, &fault),
    }
}

/// Checks the description.
fn check_rows<R: Abort + AllocGlobal + Threads + Sync>(rt: &R, workers: u32) -> Result<(), Fail> {
    for (files, want) in TREES {
        let description = describe_reading(rt, files, workers)?;
        assert_eq!(rt; description.as_str(), *want);
    }
    Ok(())
}

#[test]
fn trees_are_read(rt: HostRuntime) -> Result<(), Fail> {
    check_rows(&rt, 1)
}

#[test]
fn trees_are_read_by_three_workers(rt: HostRuntime) -> Result<(), Fail> {
    check_rows(&rt, 3)
}
