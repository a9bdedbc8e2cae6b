//! The networks of import graphs, made in two ways from the sources of trees.
ghost use Rattle.std.specs.Prelude.{◌≡◌, true, All};
ghost use Rattle.texts.specs.Fields.{is_name};

use crate::readings::table_by_tokens;
use cut_net::Net;
use ob_imports::{Graph, Parsed, graph};
use ob_scan::laws::tokens_in_text;
use ob_scan::scan;
use ob_scope::{Scopes, scopes_from};
use source_tree::{FromGraph, net_of_graph};
use std::alloc::{AllocError, Global};
use std::test::Fail;
use texts::fields::is_identifier;

/// Sources of modules, and their network: the modules by name, with external ones, and the imports with their weights.
const ROWS: &[(&[&[u8]], &str)] = &[
    (&[], ""),
    (&[b"MODULE M; END M."], "M "),
    // Uses of both aliases of a module count, uses of a hidden alias don't, and an unused import has weight 0.
    (
        &[
            b"MODULE B; IMPORT A, T := Texts, U := Texts; VAR w: T.Writer; PROCEDURE p(T: SET); BEGIN U.x(A.y, A.z, T.v) END p; END B.",
            b"MODULE A; IMPORT SYSTEM, T := Texts; END A.",
        ],
        "A B SYSTEM Texts 0-2 0, 0-3 0, 1-0 2, 1-3 2, ",
    ),
];

fn scopes_of(alloc: Global, text: &[u8]) -> Result<Scopes, Fail> {
    let tokens = scan(alloc, text)?;
    tokens_in_text();
    let table = table_by_tokens(alloc, text, &tokens)?;
    Ok(scopes_from(alloc, &table, tokens.as_slice(), text)?)
}

/// The data of a module for the graph of imports.
fn import_data_of(alloc: Global, scopes: &Scopes) -> Result<Parsed, AllocError> {
    let mut imports = Vec::new(alloc);
    for alias in scopes.aliases() {
        imports.push(String::from_str(alloc, alias.module.as_str())?)?;
    }
    Ok(Parsed {
        path: String::from_str(alloc, scopes.name())?,
        name: String::from_str(alloc, scopes.name())?,
        imports,
    })
}

/// Whether the names of all modules are identifiers.
fn have_identifier_names(graph: &Graph) -> bool
    ensures { result ≡ true → All (λ n. is_name n ≡ true) graph.now.names }
{
    for node in 0..graph.nodes() {
        if !is_identifier(graph.name(node).as_bytes()) {
            return false;
        }
    }
    true
}

fn describe_net(alloc: Global, net: &Net) -> Result<String, AllocError> {
    let mut description = String::new(alloc);
    for node in 0..net.nodes() {
        write!(description, "{} ", net.name(node))?;
    }
    for import in net.imports() {
        write!(
            description,
            "{}-{} {}, ",
            import.from, import.to, import.amount
        )?;
    }
    Ok(description)
}

/// The network of these sources, and the result of the other way to make it.
fn describe_pair(alloc: Global, texts: &[&[u8]]) -> Result<(String, String), Fail> {
    let mut scopes = Vec::new(alloc);
    let mut parsed = Vec::new(alloc);
    for text in texts {
        let module = scopes_of(alloc, text)?;
        parsed.push(import_data_of(alloc, &module)?)?;
        scopes.push(module)?;
    }
    let graph = graph(alloc, parsed.as_slice())?;
    if scopes.len() != graph.modules() as usize || !have_identifier_names(&graph) {
        return Err(Fail::new("the graph has other modules"));
    }
    let first = Net::from_graph(alloc, &graph, scopes.as_slice())?;
    let second = net_of_graph(alloc, &graph, scopes.as_slice())?;
    Ok((describe_net(alloc, &first)?, describe_net(alloc, &second)?))
}

#[test]
fn graphs_have_networks(rt: HostRuntime) -> Result<(), Fail> {
    for (texts, want) in ROWS {
        let (first, second) = describe_pair(rt.alloc(), texts)?;
        assert_eq!(rt; first.as_str(), *want);
        assert_eq!(rt; second.as_str(), *want);
    }
    Ok(())
}
