//! Look-ups of declarations of the module itself, which combine several lists of the module table.
#![tactic(auto, unfolding(crate::specs::World::decl_group_of, crate::specs::World::decl_kind_of, crate::specs::World::type_index_of, crate::specs::World::owner_at))]

ghost use Rattle.std.specs.Prelude.{◌≡◌};
ghost use Rattle.ob_view.specs.World.{decl_group_of, decl_kind_of, owner_at, type_index_of};

use crate::view::View;
use module_table::{DeclGroup, DeclKind};

impl View<'_> {
    /// The declaration group of the identifier that this token declares; `None` if it declares none.
    fn decl_group_of(&self, number: u32) -> Option<DeclGroup>
        ensures { result ≡ decl_group_of self.now number }
    {
        let row = self.declared_at(number)?;
        self.decl_group(self.index_hint(number), row.declared_by)
    }

    /// The kind of the declaration at this token; `None` if the token declares nothing.
    pub fn decl_kind(&self, declared: u32) -> Option<DeclKind>
        ensures { result ≡ decl_kind_of self.now declared }
    {
        Some(self.decl_group_of(declared)?.decl_kind)
    }

    /// The index of the outermost component of the type of the identifier that this token declares; `None` if there is no type.
    pub fn type_index_of(&self, declared: u32) -> Option<usize>
        ensures { result ≡ type_index_of self.now declared }
    {
        let row = self.declared_at(declared)?;
        self.type_index_from(self.index_hint(declared), row.declared_by)
    }

    /// The token of the first identifier of the declaration whose type is this record, or an array or a pointer that leads to the record.
    /// `None` if there is no such record.
    pub fn owner(&self, record: u32) -> Option<u32>
        ensures { result ≡ owner_at self.now «record» }
    {
        Some(self.record(record)?.owner)
    }
}
