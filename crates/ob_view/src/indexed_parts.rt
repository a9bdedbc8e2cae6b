//! A module's parts, with the index of the module that each import item names.
#![tactic(auto, unfolding(crate::specs::World::module_number, crate::specs::World::module_of_item))]

ghost use Rattle.std.specs.Prelude.{◌≡◌, IfOk, map};
ghost use Rattle.std.specs.Arc.{arc_value};
ghost use Rattle.ob_scan.specs.Spelling.{AreInText};
ghost use Rattle.ob_view.specs.ModuleNumbers.{AreNumberedModules};
ghost use Rattle.ob_view.specs.WorldOfParts.{module_by_item, world_of, IsBounded};
ghost use Rattle.ob_view.specs.World.{item_of, module_number, module_of_item, text};

use crate::module_numbers::module_number_in;
use crate::parts::Parts;
use std::alloc::{AllocError, Global};

/// A module's parts. For each import item, `imported_modules` has the index of the reached module that the item names, or `None` if that
/// module isn't reached.
#[derive(Drop)]
pub(crate) struct IndexedParts<'a> {
    pub(crate) parts: Parts<'a>,
    pub(crate) imported_modules: Vec<Option<u32>>,
    ghost in_text: { AreInText parts.bytes.now parts.tokens.now },
    ghost bounded: { IsBounded parts },
    ghost imported_modules_exact: { imported_modules.items ≡ map (module_by_item (world_of parts)) (world_of parts).rows.imports },
}

/// Finds for each import item the index of the reached module that the item names; `None` for a module that isn't reached.
fn imported_modules(alloc: Global, parts: &Parts<'_>) -> Result<Vec<Option<u32>>, AllocError>
    requires in_text { AreInText parts.now.bytes.now parts.now.tokens.now }
    requires module_numbers { AreNumberedModules (world_of parts.now).reached }
    ensures { IfOk result (λ indexes. indexes.items ≡ map (module_by_item (world_of parts.now)) (world_of parts.now).rows.imports) }
{
    let mut indexes = Vec::new(alloc);
    for item in parts.table.imports() {
        indexes.push(module_number_in(parts.reached, parts.text(item.imported)))?;
    }
    Ok(indexes)
}

impl<'a> IndexedParts<'a> {
    /// Adds to the parts the index of the module that each import item names. Returns `AllocError` if an allocation fails.
    pub(crate) fn new(alloc: Global, parts: Parts<'a>) -> Result<IndexedParts<'a>, AllocError>
        requires in_text { AreInText parts.bytes.now parts.tokens.now }
        requires module_numbers { AreNumberedModules (map arc_value parts.reached.now) }
        ensures { IfOk result (λ i. i.parts ≡ parts.entry) }
    {
        parts.table.rows_are_bounded();
        let imported_modules = imported_modules(alloc, &parts)?;
        Ok(IndexedParts {
            parts,
            imported_modules,
        })
    }

    /// The bytes of a token; empty if the number is beyond the last token.
    pub(crate) fn text(&self, number: u32) -> &'a [u8]
        ensures { result.now ≡ text (world_of self.now.parts) number }
    {
        self.parts.text(number)
    }

    /// The index of the import item whose alias this token declares; `None` if there is none.
    pub(crate) fn item(&self, declared: u32) -> Option<u32>
        ensures { result ≡ item_of (world_of self.now.parts) declared }
    {
        self.parts.item(declared)
    }

    /// The index of the reached module of this name; `None` if there is none.
    pub(crate) fn module_number(&self, name: &[u8]) -> Option<u32>
        ensures { result ≡ module_number (world_of self.now.parts) name.now }
    {
        module_number_in(self.parts.reached, name)
    }

    /// The index of the reached module that the import item with this index names; `None` if that module isn't reached.
    pub(crate) fn module_of_item(&self, item: u32) -> Option<u32>
        ensures { result ≡ module_of_item (world_of self.now.parts) item }
    {
        match self.imported_modules.as_slice().get(item as usize) {
            Some(module_number) => *module_number,
            None => None,
        }
    }
}
