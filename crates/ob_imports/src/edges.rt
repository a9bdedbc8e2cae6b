//! The imports of files as edges between indices of a table of names.
ghost use Rattle.std.specs.Prelude.{◌≡◌, ◌≤◌, ◌↔◌, ◌++◌, ◌∷◌, [], Contains, IfOk, List, OnOk, length, ℕ};
ghost use Rattle.std.specs.List.{IsDistinct};
ghost use Rattle.std.specs.Str.{bytes_eq};
ghost use Rattle.std.specs.String.{string_bytes};
ghost use Rattle.ob_imports.specs.Files.{files_of, Imports, IsNode};
ghost use Rattle.ob_imports.specs.Names.{texts, LeadsBy};
ghost use Rattle.ob_imports.specs.Numbering.{all_pairs, pairs_from};
ghost use Rattle.digraph.specs.Edges.{IsAscending, Leads};

use crate::names::name_index;
use crate::{Edge, Parsed};
use digraph::sort_and_dedup;
use indexmap::IndexSet;
use std::alloc::{AllocError, Global};
use text_hash::Seed;

/// Appends an edge for each import item of the file, from the index of the file's module to that of the imported module.
fn append_edges(
    pairs: &mut Vec<Edge>,
    file: &Parsed,
    table: &IndexSet<String, Seed>,
) -> Result<(), AllocError>
    requires few { length table.now.keys ≤ 8192 }
    // The table has all names that are looked up.
    requires known { (n : List ℕ) → IsNode (files_of (file.now ∷ [])) n → Contains (texts table.now.keys) n }
    ensures { OnOk result (pairs.new.items ≡ pairs.old.items ++ pairs_from (texts table.now.keys) (string_bytes file.now.name) (texts file.now.imports.items)) }
{
    if file.imports.is_empty() {
        return Ok(());
    }
    let from = name_index(table, file.name.as_str());
    for import in &file.imports {
        let to = name_index(table, import.as_str());
        pairs.push(Edge { from, to })?;
    }
    Ok(())
}

/// The import items of all files as edges, in the order of the files, with repeats.
fn all_edges(
    alloc: Global,
    parsed: &[Parsed],
    table: &IndexSet<String, Seed>,
) -> Result<Vec<Edge>, AllocError>
    requires few { length table.now.keys ≤ 8192 }
    // The table has all names that are looked up.
    requires known { (n : List ℕ) → IsNode (files_of parsed.now) n → Contains (texts table.now.keys) n }
    ensures { IfOk result (λ pairs. pairs.items ≡ all_pairs (texts table.now.keys) (files_of parsed.now)) }
{
    let mut pairs = Vec::new(alloc);
    for file in parsed {
        append_edges(&mut pairs, file, table)?;
    }
    Ok(pairs)
}

/// The imports of the files as edges between indices of module names, strictly sorted. The table has all module names.
pub(crate) fn import_edges(
    alloc: Global,
    parsed: &[Parsed],
    table: &IndexSet<String, Seed>,
) -> Result<Vec<Edge>, AllocError>
    requires few { length table.now.keys ≤ 8192 }
    requires once { IsDistinct bytes_eq (texts table.now.keys) }
    // The table has all names that are looked up.
    requires known { (n : List ℕ) → IsNode (files_of parsed.now) n → Contains (texts table.now.keys) n }
    ensures ascending { IfOk result (λ pairs. IsAscending pairs.items) }
    ensures leads { IfOk result (λ pairs. (v w : ℕ) → Leads pairs.items v w ↔ LeadsBy (Imports (files_of parsed.now)) (texts table.now.keys) v w) }
{
    let mut pairs = all_edges(alloc, parsed, table)?;
    sort_and_dedup(&mut pairs);
    Ok(pairs)
}
