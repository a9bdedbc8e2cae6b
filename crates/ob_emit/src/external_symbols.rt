//! The external symbols of a tree: those of modules that the tree's modules import but that aren't in the tree, and of their names.
//! In the clauses, `named`, `of_name`, `of_names` and `external` say that names are identifiers.
//! `outside.now ≡ prefix_text []`: `outside` is the prefix of symbol strings without a package.
ghost use Rattle.std.specs.Prelude.{◌≡◌, IfOk, map, Some, None, []};
ghost use Rattle.std.specs.Option.{option_and_then, option_map};
ghost use Rattle.std.specs.String.{string_bytes};
ghost use Rattle.ob_view.specs.declared.target.Target.TheVariants.{External};
ghost use Rattle.ob_view.specs.World.{text};
ghost use Rattle.scip_index.specs.Plain.{symbol_model};
ghost use Rattle.ob_emit.specs.Externals.{AreExternalRows, AreExternals, external_module, external_symbol_info, externals_in};
ghost use Rattle.ob_emit.specs.StoredTexts.{prefix_text, external_symbol_info_of_key, CoverExternals};
ghost use Rattle.ob_emit.specs.Named.{NamesAreIdentifiers, ReferencesAreIdentifiers, IsName};
ghost use Rattle.std.specs.Prelude.{ℕ};

use crate::foreign_texts::external_table_seed;
use crate::module_texts::{external_text, module_text};
use crate::own_declarations::import_at;
use crate::path::name_str;
use crate::prefixes::prefix_text;
use indexmap::IndexSet;
use ob_view::{Reference, Target, View};
use scip_index::SymbolInfo;
use std::alloc::{AllocError, Global};

/// Makes symbol information of this symbol string and this display name, which has to be an identifier.
fn symbol_info(alloc: Global, symbol: String, name: &[u8]) -> Result<SymbolInfo, AllocError>
    requires { IsName name.now }
    ensures { IfOk result (λ s. symbol_model s ≡ record { symbol = string_bytes symbol; display_name = name.now }) }
{
    Ok(SymbolInfo {
        symbol,
        display_name: String::from_str(alloc, name_str(name))?,
    })
}

/// The symbol information of the module that the import item at index `item` names. `None` if the module is in the tree, or if there is no
/// such item.
fn external_module(
    alloc: Global,
    view: &View<'_>,
    outside: &str,
    item: u32,
) -> Result<Option<SymbolInfo>, AllocError>
    requires named { NamesAreIdentifiers view.now }
    requires prefix { outside.now ≡ prefix_text [] }
    ensures { IfOk result (λ s. option_map symbol_model s ≡ external_module view.now item) }
{
    if view.module_number(item).is_some() {
        return Ok(None);
    }
    let Some(import) = import_at(view, item) else {
        return Ok(None);
    };
    let name = view.text(import.imported);
    let symbol = module_text(alloc, outside, name)?;
    Ok(Some(symbol_info(alloc, symbol, name)?))
}

/// The symbol information of the name at token `name`, as a name of the module that the import item at index `item` names. `None` if there
/// is no such item.
fn external_name(
    alloc: Global,
    view: &View<'_>,
    outside: &str,
    item: u32,
    name: u32,
) -> Result<Option<SymbolInfo>, AllocError>
    requires named { NamesAreIdentifiers view.now }
    requires of_name { IsName (text view.now name) }
    requires prefix { outside.now ≡ prefix_text [] }
    ensures { IfOk result (λ s. option_map symbol_model s ≡ external_symbol_info view.now (External item name)) }
{
    let name = view.text(name);
    let Some(symbol) = external_text(alloc, view, outside, item, name)? else {
        return Ok(None);
    };
    Ok(Some(symbol_info(alloc, symbol, name)?))
}

/// The symbol information of a target that isn't in the tree; `None` for any other target. `outside` is the prefix of the symbol strings of
/// modules outside of the tree.
fn external_symbol_info(
    alloc: Global,
    view: &View<'_>,
    outside: &str,
    target: Target,
) -> Result<Option<SymbolInfo>, AllocError>
    requires named { NamesAreIdentifiers view.now }
    requires external { (item name : ℕ) → target ≡ External item name → IsName (text view.now name) }
    requires prefix { outside.now ≡ prefix_text [] }
    ensures { IfOk result (λ s. option_map symbol_model s ≡ external_symbol_info view.now target) }
{
    match target {
        Target::External { item, name } => external_name(alloc, view, outside, item, name),
        Target::Module(item) => external_module(alloc, view, outside, item),
        Target::Declared(_) => Ok(None),
        Target::Imported { .. } => Ok(None),
        Target::Own => Ok(None),
        Target::Predeclared => Ok(None),
        Target::Unresolved => Ok(None),
    }
}

/// A key for a target that isn't in the tree: the index of an import item, and a name of the imported module, or `None` for the module
/// itself. Targets with one key have the same symbol information. Any other target has no key.
fn external_key<'a>(view: &View<'a>, target: Target) -> Option<(u32, Option<&'a [u8]>)>
    ensures { option_and_then (external_symbol_info_of_key view.now) result ≡ external_symbol_info view.now target }
{
    match target {
        Target::External { item, name } => Some((item, Some(view.text(name)))),
        Target::Module(item) => match view.module_number(item) {
            Some(_) => None,
            None => Some((item, None)),
        },
        Target::Declared(_) => None,
        Target::Imported { .. } => None,
        Target::Own => None,
        Target::Predeclared => None,
        Target::Unresolved => None,
    }
}

/// The first of the references to each target that isn't in the tree. Targets are compared by `external_key`, so by the import item and the
/// name.
fn first_external_references(
    alloc: Global,
    view: &View<'_>,
    refs: &[Reference],
) -> Result<Vec<Reference>, AllocError>
    // With `Ok` the result contains references among `refs`, and they have the symbol information of all external targets of `refs`.
    ensures { IfOk result (λ v. CoverExternals view.now refs.now v.items) }
{
    let mut seen = IndexSet::with_hasher(alloc, external_table_seed(view, refs));
    let mut found = Vec::new(alloc);
    for reference in refs {
        if let Some(key) = external_key(view, reference.target) {
            if seen.insert(key)? {
                found.push(*reference)?;
            }
        }
    }
    Ok(found)
}

/// The symbol information of the references' targets that aren't in the tree, in the order of the references. A symbol can occur several
/// times.
fn external_symbol_infos(
    alloc: Global,
    view: &View<'_>,
    refs: &[Reference],
) -> Result<Vec<SymbolInfo>, AllocError>
    requires named { NamesAreIdentifiers view.now }
    requires of_names { ReferencesAreIdentifiers view.now refs.now }
    ensures { IfOk result (λ v. map symbol_model v.items ≡ externals_in view.now refs.now) }
{
    let outside = prefix_text(alloc, "")?;
    let mut found = Vec::new(alloc);
    for reference in refs {
        if let Some(row) = external_symbol_info(alloc, view, outside.as_str(), reference.target)? {
            found.push(row)?;
        }
    }
    Ok(found)
}

/// Sorts symbol information by symbol string, and keeps one element of each symbol.
fn sort_and_dedup(rows: &mut Vec<SymbolInfo>)
    // Each element is the symbol information of a module, or of a name of a module. So elements with one symbol string are equal.
    requires { AreExternalRows (map symbol_model rows.old.items) }
    ensures { AreExternals (map symbol_model rows.old.items) (map symbol_model rows.new.items) }
{
    rows.sort_unstable_by(|a, b| a.symbol.cmp(&b.symbol));
    rows.dedup_by(|a, b| a.symbol == b.symbol);
}

/// Finds the external symbols that a module refers to (scip.proto, `Index.external_symbols`): the modules that aren't in the tree, and
/// their names.
/// The result is sorted by symbol string, each symbol once. Fails with `AllocError` if an allocation fails.
pub fn externals(
    alloc: Global,
    view: &View<'_>,
    refs: &[Reference],
) -> Result<Vec<SymbolInfo>, AllocError>
    // The module's own name, what it declares and imports, and the names in the reached interfaces are identifiers.
    requires named { NamesAreIdentifiers view.now }
    // The bytes of each reference's token, and of each external name, are an identifier.
    requires of_names { ReferencesAreIdentifiers view.now refs.now }
    // With `Ok` the list has exactly the external symbols of the references, sorted by symbol string, each once.
    ensures exact { IfOk result (λ v. AreExternals (externals_in view.now refs.now) (map symbol_model v.items)) }
    // With `Ok` each element is the symbol information of a module, or of a name of a module.
    ensures rows { IfOk result (λ v. AreExternalRows (map symbol_model v.items)) }
{
    let uses = first_external_references(alloc, view, refs)?;
    let mut rows = external_symbol_infos(alloc, view, uses.as_slice())?;
    sort_and_dedup(&mut rows);
    Ok(rows)
}

/// Merges the external symbols of several modules, which are given as one list. The result is sorted by symbol string and has each symbol
/// once.
pub fn merge_externals(mut rows: Vec<SymbolInfo>) -> Vec<SymbolInfo>
    // Each element is the symbol information of a module, or of a name of a module.
    requires { AreExternalRows (map symbol_model rows.items) }
    // The result has exactly the elements of the list, sorted by symbol string, each once.
    ensures { AreExternals (map symbol_model rows.items) (map symbol_model result.items) }
{
    sort_and_dedup(&mut rows);
    rows
}
