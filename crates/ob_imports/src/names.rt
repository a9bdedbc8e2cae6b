//! Tables of module names: first the modules of the files, then the external modules, sorted by name.
ghost use Rattle.std.specs.Prelude.{◌≡◌, ◌≤◌, ◌↔◌, ◌++◌, Contains, IfNone, IfOk, IfSome, List, OnOk, length, ℕ};
ghost use Rattle.std.specs.List.{IsDistinct};
ghost use Rattle.std.specs.Str.{bytes_eq};
ghost use Rattle.ob_imports.specs.Files.{files_of, names_of, AreNodes, DifferInName};
ghost use Rattle.ob_imports.specs.Names.{texts, AreAscending};
ghost use Rattle.ob_imports.specs.Numbering.{all_lacked, lacked, index_or_len};
ghost use Rattle.ob_imports.specs.Outcomes.{AreFiles, ExceedsNodeLimit};

use crate::Parsed;
use crate::seeds::name_table_seed;
use indexmap::IndexSet;
use std::alloc::{AllocError, Global};
use text_hash::Seed;

const MAX_NODES: usize = 8192;

/// The names of the files' modules, in the order of the files.
pub(crate) fn module_names(alloc: Global, parsed: &[Parsed]) -> Result<Vec<String>, AllocError>
    ensures { IfOk result (λ names. texts names.items ≡ names_of (files_of parsed.now)) }
{
    let mut names = Vec::new(alloc);
    for file in parsed {
        names.push(String::from_str(alloc, file.name.as_str())?)?;
    }
    Ok(names)
}

/// Appends the names to the table. They are distinct, and the table has none of them.
pub(crate) fn append_names(
    alloc: Global,
    table: &mut IndexSet<String, Seed>,
    names: &[String],
) -> Result<(), AllocError>
    requires { IsDistinct bytes_eq (texts table.old.keys ++ texts names.now) }
    ensures { OnOk result (texts table.new.keys ≡ texts table.old.keys ++ texts names.now) }
{
    for name in names {
        table.insert(String::from_str(alloc, name.as_str())?)?;
    }
    Ok(())
}

/// Appends to `others` each of `names` that the table lacks.
fn append_missing_names(
    alloc: Global,
    others: &mut Vec<String>,
    names: &[String],
    table: &IndexSet<String, Seed>,
) -> Result<(), AllocError>
    ensures { OnOk result (texts others.new.items ≡ texts others.old.items ++ lacked (texts table.now.keys) (texts names.now)) }
{
    for name in names {
        if !table.contains(name.as_str()) {
            others.push(String::from_str(alloc, name.as_str())?)?;
        }
    }
    Ok(())
}

/// The imported names that the table lacks, in the order of the files, with repeats.
fn missing_names(
    alloc: Global,
    parsed: &[Parsed],
    table: &IndexSet<String, Seed>,
) -> Result<Vec<String>, AllocError>
    ensures { IfOk result (λ others. texts others.items ≡ all_lacked (texts table.now.keys) (files_of parsed.now)) }
{
    let mut others = Vec::new(alloc);
    for file in parsed {
        append_missing_names(alloc, &mut others, file.imports.as_slice(), table)?;
    }
    Ok(others)
}

/// Sorts the names and removes duplicates.
fn sort_and_dedup(names: &mut Vec<String>)
    ensures ascending { AreAscending (texts names.new.items) }
    ensures same { (n : List ℕ) → Contains (texts names.new.items) n ↔ Contains (texts names.old.items) n }
{
    names.sort_unstable();
    names.dedup();
}

/// A hash table of the names of the files' modules, in the order of the files.
fn module_name_table(alloc: Global, parsed: &[Parsed]) -> Result<IndexSet<String, Seed>, AllocError>
    requires { DifferInName (files_of parsed.now) }
    ensures { IfOk result (λ table. texts table.keys ≡ names_of (files_of parsed.now)) }
{
    let names = module_names(alloc, parsed)?;
    let mut table = IndexSet::with_hasher(alloc, name_table_seed(alloc, parsed)?);
    append_names(alloc, &mut table, names.as_slice())?;
    Ok(table)
}

/// The imported names that the table lacks, strictly sorted.
fn sorted_missing_names(
    alloc: Global,
    parsed: &[Parsed],
    table: &IndexSet<String, Seed>,
) -> Result<Vec<String>, AllocError>
    ensures ascending { IfOk result (λ others. AreAscending (texts others.items)) }
    ensures same { IfOk result (λ others. (n : List ℕ) → Contains (texts others.items) n ↔ Contains (all_lacked (texts table.now.keys) (files_of parsed.now)) n) }
{
    let mut others = missing_names(alloc, parsed, table)?;
    sort_and_dedup(&mut others);
    Ok(others)
}

/// The names of all modules by number; none if there are too many. External names are counted before they are added to the table, so that
/// names that were chosen to collide can't slow it down.
pub(crate) fn collect_node_names(
    alloc: Global,
    parsed: &[Parsed],
) -> Result<Option<IndexSet<String, Seed>>, AllocError>
    // There are at most 4,096 files, and their module names are distinct.
    requires { AreFiles (files_of parsed.now) }
    ensures named { IfOk result (λ nodes. IfSome nodes (λ table. AreNodes (files_of parsed.now) (texts table.keys))) }
    ensures few { IfOk result (λ nodes. IfSome nodes (λ table. length table.keys ≤ 8192)) }
    ensures many { IfOk result (λ nodes. IfNone nodes (ExceedsNodeLimit (files_of parsed.now))) }
{
    let mut table = module_name_table(alloc, parsed)?;
    let others = sorted_missing_names(alloc, parsed, &table)?;
    if others.len() > MAX_NODES {
        return Ok(None);
    }
    append_names(alloc, &mut table, others.as_slice())?;
    if table.len() > MAX_NODES {
        return Ok(None);
    }
    Ok(Some(table))
}

/// The index of a name that the table has.
pub(crate) fn name_index(table: &IndexSet<String, Seed>, name: &str) -> u32
    requires few { length table.now.keys ≤ 8192 }
    requires known { Contains (texts table.now.keys) name.now }
    ensures { result ≡ index_or_len (texts table.now.keys) name.now }
{
    table.get_index_of(name).unwrap() as u32
}
