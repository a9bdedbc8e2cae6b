//! The index of a tree as a message, which no command makes, compared with its parts, which commands write: their bytes are equal.
//! The trees are below and above the sizes from which a document's capacity is estimated, and at which it is shrunk.
ghost use Rattle.std.specs.Prelude.{◌≡◌, false};
ghost use Rattle.std.specs.String.{string_bytes};
ghost use Rattle.source_tree.specs.Sources.{ArePathsInOrder};
ghost use Rattle.scip_symbol.specs.Outcomes.{is_wrong_part};

use crate::inputs::{FOUR, ONE, THREE, TWO, WRONG, sources};
use index_run::{OpenBoardGate, index_to, write_index};
use ob_board::{IndexOptions, index_tree};
use scip_index::Index;
use source_tree::{Source, in_order};
use std::alloc::{AllocError, Global};
use std::process::Abort;
use std::sync::Wait;
use std::test::Fail;
use std::thread::Threads;

/// The number of letters of the package, and of rounds of statements in the module.
const SIZES: &[(usize, usize)] = &[
    (0, 0),
    (0, 1),
    (2_000, 1),
    (2_000, 31),
    (2_000, 32),
    (2_000, 33),
    (2_000, 34),
    (2_000, 300),
    (100, 430),
    (100, 440),
    (100, 1_000),
    (16, 1_500),
    (0, 1_500),
];

/// Trees of files that other tests use too.
const TREES: &[&[(&str, &str)]] = &[ONE, TWO, THREE, FOUR, WRONG];

/// Whether no symbol string can contain this package.
pub(crate) fn is_invalid_package(part: &str) -> bool
    ensures { result ≡ is_wrong_part part.now }
{
    part == "." || part.starts_with(' ')
}

fn package_of(alloc: Global, letters: usize) -> Result<String, AllocError> {
    let mut name = String::new(alloc);
    for _ in 0..letters {
        name.push('p')?;
    }
    Ok(name)
}

pub(crate) fn options_of(alloc: Global, letters: usize) -> Result<IndexOptions, AllocError> {
    let package = package_of(alloc, letters)?;
    let root = String::from_str(alloc, "file:///tree")?;
    Ok(IndexOptions { package, root })
}

/// A module with this many rounds of uses of its own declarations, of another module's, and of a missing module's.
fn module_of(alloc: Global, rounds: usize) -> Result<String, AllocError> {
    let mut text = String::from_str(
        alloc,
        "MODULE M; IMPORT N, X; VAR v: INTEGER; PROCEDURE p*; VAR local: INTEGER; BEGIN ",
    )?;
    for _ in 0..rounds {
        text.push_str("v := local;\nN.w := v; X.y := v; ")?;
    }
    text.push_str("END p; END M.")?;
    Ok(text)
}

/// This module and the other one.
fn tree_of(alloc: Global, rounds: usize) -> Result<Vec<Source>, AllocError> {
    let text = module_of(alloc, rounds)?;
    let other = "MODULE N; VAR w*: INTEGER; END N.";
    sources(alloc, &[("M.Mod", text.as_str()), ("N.Mod", other)])
}

/// The written form of a message.
pub(crate) fn encode_message(alloc: Global, index: Index) -> Result<Vec<u8>, Fail> {
    if index.metadata.is_none() {
        return Err(Fail::new("an index says nothing of itself"));
    }
    let mut bytes = Vec::new(alloc);
    write_index(alloc, index, &mut bytes)?;
    Ok(bytes)
}

/// The index as a message, and its written form.
pub(crate) fn message_bytes<R: AllocGlobal + Threads + Wait + Sync>(
    rt: &R,
    sources: &[Source],
    options: &IndexOptions,
) -> Result<Vec<u8>, Fail>
    requires { is_wrong_part (string_bytes options.now.package) ≡ false }
{
    let index = index_tree(rt, rt.alloc(), sources, options, 2, &OpenBoardGate)?;
    encode_message(rt.alloc(), index)
}

/// The index as its parts, written as they are.
fn write_parts<R: AllocGlobal + Threads + Wait + Sync>(
    rt: &R,
    sources: &[Source],
    options: &IndexOptions,
) -> Result<Vec<u8>, Fail>
    requires order { ArePathsInOrder sources.now }
    requires right { is_wrong_part (string_bytes options.now.package) ≡ false }
{
    let mut bytes = Vec::new(rt.alloc());
    index_to(
        rt,
        rt.alloc(),
        sources,
        options,
        2,
        &OpenBoardGate,
        &mut bytes,
    )?;
    Ok(bytes)
}

/// Whether both write equal bytes.
fn have_equal_bytes<R: AllocGlobal + Threads + Wait + Sync>(
    rt: &R,
    sources: &[Source],
    options: &IndexOptions,
) -> Result<bool, Fail>
    requires order { ArePathsInOrder sources.now }
    requires right { is_wrong_part (string_bytes options.now.package) ≡ false }
{
    let whole = message_bytes(rt, sources, options)?;
    let parts = write_parts(rt, sources, options)?;
    Ok(whole.as_slice() == parts.as_slice())
}

/// Checks that both write equal bytes.
fn check_agreement<R: Abort + AllocGlobal + Threads + Wait + Sync>(
    rt: &R,
    sources: &[Source],
    letters: usize,
) -> Result<(), Fail> {
    let options = options_of(rt.alloc(), letters)?;
    assert!(rt; in_order(sources));
    assert!(rt; !is_invalid_package(options.package.as_str()));
    assert!(rt; have_equal_bytes(rt, sources, &options)?);
    Ok(())
}

#[test]
fn parts_of_an_index_are_its_message_in_bytes(rt: HostRuntime) -> Result<(), Fail> {
    for (letters, rounds) in SIZES {
        let sources = tree_of(rt.alloc(), *rounds)?;
        check_agreement(&rt, sources.as_slice(), *letters)?;
    }
    Ok(())
}

#[test]
fn parts_of_small_indexes_are_their_messages_in_bytes(rt: HostRuntime) -> Result<(), Fail> {
    for files in TREES {
        let sources = sources(rt.alloc(), files)?;
        check_agreement(&rt, sources.as_slice(), 3)?;
    }
    Ok(())
}
