//! The prefixes of symbol strings: all that comes before the descriptors.
ghost use Rattle.std.specs.Prelude.{◌≡◌, IfOk, List, ℕ};
ghost use Rattle.std.specs.String.{string_bytes};
ghost use Rattle.ob_emit.specs.StoredTexts.{prefix_text, ArePrefixes};
ghost use Rattle.ob_emit.specs.Symbols.{package_of};

use ob_view::View;
use scip_symbol::write_parts;
use std::alloc::{AllocError, Global};

/// The scheme of all symbols of this program.
const SCHEME: &str = "scip-oberon";

/// Two prefixes of symbol strings, up to the descriptors: `tree` for symbols in the tree's package, and `outside` for symbols of modules
/// that aren't in the tree, without a package.
#[derive(Drop)]
pub(crate) struct Prefixes {
    pub(crate) tree: String,
    pub(crate) outside: String,
}

/// The prefix of the symbol strings of a package: the scheme, an empty manager, the package and an empty version.
pub(crate) fn prefix_text(alloc: Global, package_name: &str) -> Result<String, AllocError>
    ensures { IfOk result (λ text. string_bytes text ≡ prefix_text package_name.now) }
{
    write_parts(alloc, SCHEME, "", package_name, "")
}

impl Prefixes {
    /// The prefixes for a tree in this package.
    pub(crate) fn new(alloc: Global, package_name: &str) -> Result<Prefixes, AllocError>
        ensures { IfOk result (ArePrefixes package_name.now) }
    {
        Ok(Prefixes {
            tree: prefix_text(alloc, package_name)?,
            outside: prefix_text(alloc, "")?,
        })
    }

    /// The prefix of the symbol string of the module that the import item at index `item` names: `tree` if the module is in the tree, and
    /// otherwise `outside`.
    pub(crate) fn prefix_of(&self, view: &View<'_>, item: u32) -> &str
        ensures { (package_name : List ℕ) → ArePrefixes package_name self.now → result.now ≡ prefix_text (package_of view.now package_name item) }
    {
        match view.module_number(item) {
            Some(_) => self.tree.as_str(),
            None => self.outside.as_str(),
        }
    }
}
