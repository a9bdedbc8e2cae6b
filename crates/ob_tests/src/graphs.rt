//! The import graphs of files, and the modules that are ready.
use crate::asked::Asked::Files;
use crate::asked::{Row, check_rows};
use ob_imports::{Graph, Parsed, graph};
use std::alloc::{AllocError, Global};
use std::test::Fail;

/// A file: its path, its module's name, and the imported names.
pub(crate) type File = (&'static str, &'static str, &'static [&'static str]);

/// The modules of the tree come first, and external ones follow, sorted by name.
const FOUR: &[File] = &[
    ("D.Mod", "D", &["SYSTEM"]),
    ("B.Mod", "B", &["D", "Texts", "D"]),
    ("A.Mod", "A", &["C", "B", "SYSTEM"]),
    ("C.Mod", "C", &["D"]),
];

const DIAMOND: &[File] = &[
    ("A.Mod", "A", &["B", "C"]),
    ("B.Mod", "B", &["D"]),
    ("C.Mod", "C", &["D"]),
    ("D.Mod", "D", &[]),
];

/// Files and the completed modules, with the expected graph: the number of the tree's modules, each module with its number by name, its
/// imports and importers in ascending order, the number of another name, and the ready modules.
const ROWS: &[Row] = &[
    (
        Files(FOUR, &[true, false, false, false]),
        "4: D Some(0) [4] [1, 3]; B Some(1) [0, 5] [2]; A Some(2) [1, 3, 4] []; C Some(3) [0] [2]; SYSTEM Some(4) [] [0, 2]; \
         Texts Some(5) [] [1]; None [1, 3]",
    ),
    // The last module is ready first.
    (
        Files(DIAMOND, &[false, false, false, false]),
        "4: A Some(0) [1, 2] []; B Some(1) [3] [0]; C Some(2) [3] [0]; D Some(3) [] [1, 2]; None [3]",
    ),
    (
        Files(DIAMOND, &[false, false, false, true]),
        "4: A Some(0) [1, 2] []; B Some(1) [3] [0]; C Some(2) [3] [0]; D Some(3) [] [1, 2]; None [1, 2]",
    ),
    (Files(&[], &[]), "0: None []"),
];

pub(crate) fn texts(alloc: Global, texts: &[&str]) -> Result<Vec<String>, AllocError> {
    let mut copies = Vec::new(alloc);
    for text in texts {
        copies.push(String::from_str(alloc, text)?)?;
    }
    Ok(copies)
}

fn parsed(alloc: Global, files: &[File]) -> Result<Vec<Parsed>, AllocError> {
    let mut all = Vec::new(alloc);
    for (path, name, imports) in files {
        all.push(Parsed {
            path: String::from_str(alloc, path)?,
            name: String::from_str(alloc, name)?,
            imports: texts(alloc, imports)?,
        })?;
    }
    Ok(all)
}

/// Appends a module of a graph.
fn append_node(description: &mut String, graph: &Graph, node: u32) -> Result<(), AllocError> {
    if node >= graph.nodes() {
        return description.push_str("no module");
    }
    let name = graph.name(node);
    let found = graph.node_of(name);
    let (imports, importers) = (graph.imports_of(node), graph.importers_of(node));
    write!(description, "{name} {found:?} {imports:?} {importers:?}; ")
}

fn describe_graph(alloc: Global, graph: &Graph, done: &[bool]) -> Result<String, AllocError> {
    let mut description = format!(in alloc; "{}: ", graph.modules())?;
    if graph.modules() as usize != done.len() {
        return Ok(description);
    }
    for node in 0..graph.nodes() {
        append_node(&mut description, graph, node)?;
    }
    let (another, ready) = (graph.node_of("Files"), graph.ready(done)?);
    write!(description, "{another:?} {ready:?}")?;
    Ok(description)
}

pub(crate) fn describe_files(alloc: Global, files: &[File], done: &[bool]) -> Result<String, Fail> {
    let files = parsed(alloc, files)?;
    let graph = graph(alloc, files.as_slice())?;
    Ok(describe_graph(alloc, &graph, done)?)
}

#[test]
fn files_have_graphs(rt: HostRuntime) -> Result<(), Fail> {
    check_rows(&rt, ROWS)
}
