//! The symbol strings of modules, and of names of modules that aren't in the tree.
ghost use Rattle.std.specs.Prelude.{◌≡◌, ◌++◌, ℕ, List, IfOk, []};
ghost use Rattle.std.specs.Option.{option_map};
ghost use Rattle.std.specs.String.{string_bytes};
ghost use Rattle.scip_symbol.specs.SymbolTexts.{canonical_text};
ghost use Rattle.ob_emit.specs.StoredTexts.{prefix_text, named_symbol, path_text, ArePrefixes};
ghost use Rattle.ob_emit.specs.Named.{NamesAreIdentifiers, IsName};
ghost use Rattle.ob_emit.specs.Symbols.{module_path, module_symbol};

use crate::own_declarations::import_at;
use crate::path::{initial_capacity, name_str};
use crate::prefixes::Prefixes;
use ob_view::View;
use scip_symbol::{DescriptorKind, append_simple_descriptor};
use std::alloc::{AllocError, Global};

/// The symbol string of the module of this name: the prefix, which determines the package, and then the module's descriptor.
pub(crate) fn module_text(alloc: Global, prefix: &str, name: &[u8]) -> Result<String, AllocError>
    requires { IsName name.now }
    ensures { IfOk result (λ text. string_bytes text ≡ prefix.now ++ path_text (module_path name.now)) }
{
    let mut out = String::with_capacity(alloc, initial_capacity(prefix, name))?;
    out.push_str(prefix)?;
    append_simple_descriptor(&mut out, DescriptorKind::Namespace, name_str(name))?;
    Ok(out)
}

/// The symbol string of the module that the import item at index `item` names. `None` if there is no such item.
pub(crate) fn imported_module_text(
    alloc: Global,
    view: &View<'_>,
    prefixes: &Prefixes,
    item: u32,
) -> Result<Option<String>, AllocError>
    requires { NamesAreIdentifiers view.now }
    // If `prefixes` are those of a package, the string with `Ok` is the canonical one of the module's symbol in this package.
    ensures { (package_name : List ℕ) → ArePrefixes package_name prefixes.now →
        IfOk result (λ text. option_map string_bytes text ≡ option_map canonical_text (module_symbol view.now package_name item)) }
{
    let Some(import) = import_at(view, item) else {
        return Ok(None);
    };
    let text = module_text(
        alloc,
        prefixes.prefix_of(view, item),
        view.text(import.imported),
    )?;
    Ok(Some(text))
}

/// The symbol string of the name `name` of a module that isn't in the tree. The import item at index `item` names the module.
/// `None` if there is no such item. `outside` is the prefix of symbol strings without a package.
pub(crate) fn external_text(
    alloc: Global,
    view: &View<'_>,
    outside: &str,
    item: u32,
    name: &[u8],
) -> Result<Option<String>, AllocError>
    requires named { NamesAreIdentifiers view.now }
    requires of_name { IsName name.now }
    ensures { outside.now ≡ prefix_text [] →
        IfOk result (λ text. option_map string_bytes text ≡ option_map canonical_text (named_symbol view.now item name.now)) }
{
    let Some(import) = import_at(view, item) else {
        return Ok(None);
    };
    let mut out = module_text(alloc, outside, view.text(import.imported))?;
    append_simple_descriptor(&mut out, DescriptorKind::Term, name_str(name))?;
    Ok(Some(out))
}
