//! The workloads. Each generates its inputs from a seed, runs frequent jobs on them, and adds the output to the digest.

ghost use Rattle.std.specs.Prelude.{◌≤◌};

use crate::awkward::{inherited_fields, nested};
use crate::digest::Digest;
use crate::indexes::{Style, column_of, empty_records, index_of, path_of};
use crate::jobs;
use crate::jobs::WorkloadFault;
use crate::modules::{Shape, prices_of, tree_of};
use crate::networks::{Topology, network_of};
use crate::random::{Random, name_of, push_number};
use oscip_job::{AskedSymbol, IndexQuestion, Places, Position};
use std::alloc::{AllocError, Global};
use std::sync::Wait;
use std::thread::Threads;

/// Many small modules with common names.
const SMALL: Shape = Shape {
    modules: 4096,
    bytes: 6000,
    imports: 14,
    width: 3,
    suffix: false,
    folders: false,
    undeclared: false,
};

/// Some larger modules in folders, with different names.
const MIDDLE: Shape = Shape {
    modules: 500,
    bytes: 19_000,
    imports: 6,
    width: 9,
    suffix: true,
    folders: true,
    undeclared: false,
};

/// One very large module.
const LARGE: Shape = Shape {
    modules: 1,
    bytes: 16_000_000,
    imports: 0,
    width: 12,
    suffix: false,
    folders: false,
    undeclared: false,
};

/// Small modules, each of which reaches some seven of ten preceding ones.
const DENSE: Shape = Shape {
    modules: 2800,
    bytes: 100,
    imports: 14,
    width: 1,
    suffix: false,
    folders: false,
    undeclared: false,
};

/// The shape with this percentage of the modules.
fn part(shape: Shape, percent: u64) -> Shape {
    let modules = (shape.modules.saturating_mul(percent) / 100).max(1);
    Shape { modules, ..shape }
}

/// The shape with modules of this percentage of the bytes.
fn shorter(shape: Shape, percent: u64) -> Shape {
    let bytes = shape.bytes.saturating_mul(percent as usize) / 100;
    Shape { bytes, ..shape }
}

/// The name of a module as a string.
fn text_of_name(alloc: Global, module: u64) -> Result<String, AllocError> {
    let name = name_of(module);
    String::from_str(alloc, str::from_utf8(name.as_slice()).unwrap_or(""))
}

fn index_tree<R: Threads + Wait + AllocGlobal + Sync>(
    rt: &R,
    seed: u64,
    shape: Shape,
    digest: &mut Digest,
) -> Result<(), WorkloadFault> {
    let sources = tree_of(rt.alloc(), seed, &shape)?;
    jobs::index(rt, sources.as_slice(), digest)
}

/// Indexes of three trees.
pub fn index<R: Threads + Wait + AllocGlobal + Sync>(
    rt: &R,
    seed: u64,
    size: u64,
    digest: &mut Digest,
) -> Result<(), WorkloadFault>
    // The size is at most 100 %.
    requires { size ≤ 100 }
{
    index_tree(rt, seed, part(SMALL, size * 2 / 5), digest)?;
    index_tree(rt, seed, part(MIDDLE, size), digest)?;
    index_tree(rt, seed, shorter(LARGE, size / 2), digest)
}

fn unresolved_in<R: Threads + Wait + AllocGlobal + Sync>(
    rt: &R,
    seed: u64,
    shape: Shape,
    digest: &mut Digest,
) -> Result<(), WorkloadFault> {
    let shape = Shape {
        undeclared: true,
        ..shape
    };
    let sources = tree_of(rt.alloc(), seed, &shape)?;
    jobs::unresolved(rt, sources.as_slice(), digest)
}

/// The unresolved identifiers of three trees.
pub fn unresolved<R: Threads + Wait + AllocGlobal + Sync>(
    rt: &R,
    seed: u64,
    size: u64,
    digest: &mut Digest,
) -> Result<(), WorkloadFault> {
    unresolved_in(rt, seed, part(SMALL, size / 2), digest)?;
    unresolved_in(rt, seed, part(MIDDLE, size / 2), digest)?;
    unresolved_in(rt, seed, shorter(LARGE, size / 3), digest)
}

/// Computes a cut between the last module of a tree and one that most modules reach, and checks the report.
fn cut_tree<R: Threads + Wait + AllocGlobal + Sync>(
    rt: &R,
    seed: u64,
    shape: Shape,
    is_priced: bool,
    digest: &mut Digest,
) -> Result<(), WorkloadFault> {
    let alloc = rt.alloc();
    let sources = tree_of(alloc, seed, &shape)?;
    let prices = prices_of(alloc, seed, &shape)?;
    let from = text_of_name(alloc, shape.modules.saturating_sub(1))?;
    let to = text_of_name(alloc, 1)?;
    let prices = if is_priced {
        Some(prices.as_slice())
    } else {
        None
    };
    jobs::cut_in_tree(
        rt,
        sources.as_slice(),
        from.as_str(),
        to.as_str(),
        prices,
        digest,
    )
}

/// Cuts of two trees, one of them with prices, and checks of their reports.
pub fn cut<R: Threads + Wait + AllocGlobal + Sync>(
    rt: &R,
    seed: u64,
    size: u64,
    digest: &mut Digest,
) -> Result<(), WorkloadFault> {
    cut_tree(rt, seed, part(SMALL, size), false, digest)?;
    cut_tree(rt, seed, part(MIDDLE, size), true, digest)
}

/// The query for these locations of the symbol in a line of a document.
fn question_of(
    alloc: Global,
    places: Places,
    seed: u64,
    style: Style,
    document: u64,
    line: u64,
) -> Result<IndexQuestion, AllocError> {
    let path = path_of(alloc, style, document)?;
    let symbol = AskedSymbol::At(Position {
        path: String::from_str(alloc, str::from_utf8(path.as_slice()).unwrap_or(""))?,
        line: (line % 100_000) as u32,
        column: (column_of(seed, document, line) % 1000) as u32 + 2,
    });
    Ok(IndexQuestion::PlacesOf { places, symbol })
}

/// Queries an index for definitions and for references, each time of the symbol in another line.
fn ask_index(
    alloc: Global,
    seed: u64,
    style: Style,
    documents: u64,
    lines: u64,
    digest: &mut Digest,
) -> Result<(), AllocError> {
    let index = index_of(alloc, seed, style, documents, lines)?;
    let mut random = Random::new(seed);
    for nth in 0..4 {
        let document = random.below(documents.max(1));
        let line = random.below(lines.max(1));
        let question = question_of(alloc, Places::Definitions, seed, style, document, line)?;
        jobs::ask(alloc, &question, index.as_slice(), digest);
        let line = line - line % 10 + nth;
        let question = question_of(alloc, Places::References, seed, style, document, line)?;
        jobs::ask(alloc, &question, index.as_slice(), digest);
    }
    Ok(())
}

/// Queries on indexes in the style of two producers.
pub fn query(alloc: Global, seed: u64, size: u64, digest: &mut Digest) -> Result<(), AllocError>
    // The size is at most 100 %.
    requires { size ≤ 100 }
{
    ask_index(alloc, seed, Style::TypeScript, size * 3, 1000, digest)?;
    ask_index(alloc, seed, Style::Java, (size / 20).max(1), 40_000, digest)
}

fn cut_network<R: Threads + Wait + AllocGlobal + Sync>(
    rt: &R,
    seed: u64,
    topology: Topology,
    size: u64,
    digest: &mut Digest,
) -> Result<(), WorkloadFault>
    requires { size ≤ 100 }
{
    let alloc = rt.alloc();
    let modules = (size * 8192 / 100).max(64);
    let network = network_of(alloc, seed, topology, modules, modules.saturating_mul(7))?;
    let from = text_of_name(alloc, 0)?;
    let to = text_of_name(alloc, modules - 1)?;
    jobs::cut_in_net(rt, network.as_slice(), from.as_str(), to.as_str(), digest);
    Ok(())
}

const TOPOLOGIES: [Topology; 7] = [
    Topology::Banded,
    Topology::Zeros,
    Topology::Layered,
    Topology::Powerlaw,
    Topology::Chain,
    Topology::Wide,
    Topology::Grid,
];

/// Cuts of networks of seven topologies and three sizes, and checks of their reports.
pub fn net<R: Threads + Wait + AllocGlobal + Sync>(
    rt: &R,
    seed: u64,
    size: u64,
    digest: &mut Digest,
) -> Result<(), WorkloadFault>
    // The size is at most 100 %.
    requires { size ≤ 100 }
{
    for topology in TOPOLOGIES {
        cut_network(rt, seed, topology, size, digest)?;
        cut_network(rt, seed.wrapping_add(1), topology, size * 7 / 10, digest)?;
        cut_network(rt, seed.wrapping_add(2), topology, size / 8, digest)?;
    }
    Ok(())
}

/// Deeply nested modules, inherited fields, modules that reach most others, and an index of empty records.
pub fn awkward<R: Threads + Wait + AllocGlobal + Sync>(
    rt: &R,
    seed: u64,
    size: u64,
    digest: &mut Digest,
) -> Result<(), WorkloadFault>
    // The size is at most 100 %.
    requires { size ≤ 100 }
{
    let alloc = rt.alloc();
    let deep = nested(alloc, seed, size as usize * 30_000)?;
    jobs::index(rt, deep.as_slice(), digest)?;
    let fields = inherited_fields(alloc, seed, size * 60, size * 3)?;
    jobs::unresolved(rt, fields.as_slice(), digest)?;
    index_tree(rt, seed, part(DENSE, size), digest)?;
    let empty = empty_records(alloc, size * 50_000)?;
    let symbol = AskedSymbol::At(Position {
        path: String::from_str(alloc, "empty")?,
        line: 0,
        column: 0,
    });
    let question = IndexQuestion::PlacesOf {
        places: Places::Definitions,
        symbol,
    };
    jobs::ask(alloc, &question, empty.as_slice(), digest);
    Ok(())
}
