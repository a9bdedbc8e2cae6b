//! Look-ups in the interfaces of the reached modules. A module is given by its index among the reached modules, and a declaration by its
//! index in the interface. The result is `None` if there is no such entry.
#![tactic(auto, unfolding(crate::specs::World::exported_at, crate::specs::World::exported_index, crate::specs::World::imported_declaration, crate::specs::World::imported_kind, crate::specs::World::imported_part, crate::specs::World::imported_base, crate::specs::World::imported_owner, crate::specs::World::named_declaration, crate::specs::World::aliased_module_name))]

ghost use Rattle.std.specs.Prelude.{◌≡◌, ◌+◌, ◌<◌, ◌^◌, None, Some, OnSome, slice_get};
ghost use Rattle.std.specs.Option.{option_and_then, option_map};
ghost use Rattle.ob_interface.specs.Views.{base_value, declaration_value, part_value};
ghost use Rattle.ob_interface.specs.Interfaces.{ModuleInterface};
ghost use Rattle.ob_view.specs.World.{imported_base, imported_declaration, named_declaration, exported_index, exported_at, aliased_module_name, imported_owner, imported_part, imported_kind};

use crate::view::View;
use module_table::DeclKind;
use ob_interface::{Base, Declaration, Interface, Part};

/// The index of the exported declaration with this name in the record, or in the module's block if `record` is `None`. The result is `None`
/// if there is none.
fn exported_at(interface: &Interface, record: Option<u32>, name: &[u8]) -> Option<u32>
    ensures { result ≡ exported_at interface.now «record» name.now }
{
    let index = interface.index_of(record, name)?;
    if interface.declaration_at(index)?.exported {
        Some(index)
    } else {
        None
    }
}

impl<'a> View<'a> {
    /// The index of the exported declaration with this name in the block of a reached module; `None` if there is none.
    pub fn exported_index(&self, reached: u32, name: &[u8]) -> Option<u32>
        ensures { result ≡ exported_index self.now reached name.now }
    {
        exported_at(self.interface(reached)?, None, name)
    }

    /// The index of the exported field with this name in a record of a reached module; `None` if there is none.
    pub fn exported_field(&self, reached: u32, record: u32, name: &[u8]) -> Option<u32>
        ensures { result ≡ option_and_then (λ (m : ModuleInterface). exported_at m (Some «record») name.now) (slice_get self.now.reached reached) }
    {
        exported_at(self.interface(reached)?, Some(record), name)
    }

    /// The declaration with the index `declaration` in the interface of the reached module `reached`; `None` if there is none.
    pub fn imported_declaration(&self, reached: u32, declaration: u32) -> Option<Declaration<'a>>
        ensures { option_map declaration_value result ≡ imported_declaration self.now reached declaration }
    {
        self.interface(reached)?.declaration_at(declaration)
    }

    /// The kind of the declaration with this index in the interface of a reached module; `None` if there is none.
    pub fn imported_kind(&self, reached: u32, declaration: u32) -> Option<DeclKind>
        ensures { result ≡ imported_kind self.now reached declaration }
    {
        Some(self.imported_declaration(reached, declaration)?.decl_kind)
    }

    /// The component with index `at` of the type expression of a reached module's declaration; `None` if there is none.
    pub fn imported_part(&self, reached: u32, declaration: u32, at: usize) -> Option<Part<'a>>
        ensures part { option_map part_value result ≡ imported_part self.now reached declaration at }
        // The index of a component can be incremented.
        ensures few { OnSome result (at + 1 < 2 ^ 64) }
    {
        self.interface(reached)?.type_part(declaration, at)
    }

    /// The base of a record of a reached module; `None` if the record has no base. `record` is the token number of the RECORD keyword.
    pub fn imported_base(&self, reached: u32, record: u32) -> Option<Base<'a>>
        ensures { option_map base_value result ≡ imported_base self.now reached «record» }
    {
        self.interface(reached)?.base(record)
    }

    /// The index of the declaration of a reached module whose type is this record, or an array or a pointer that leads to the record.
    /// `None` if there is none.
    pub fn imported_owner(&self, reached: u32, record: u32) -> Option<u32>
        ensures { result ≡ imported_owner self.now reached «record» }
    {
        self.interface(reached)?.owner(record)
    }

    /// The index of the declaration with this name in the block of a reached module, exported or not; `None` if there is none.
    pub fn named_declaration(&self, reached: u32, name: &[u8]) -> Option<u32>
        ensures { result ≡ named_declaration self.now reached name.now }
    {
        self.interface(reached)?.index_of(None, name)
    }

    /// The name of the module that `alias` denotes in the source of a reached module; `None` if that module has no such alias.
    pub fn aliased_module_name(&self, reached: u32, alias: &[u8]) -> Option<&'a [u8]>
        ensures { option_map (λ m. m.now) result ≡ aliased_module_name self.now reached alias.now }
    {
        self.interface(reached)?.module_of(alias)
    }
}
