//! A module with the index of its fields.
#![tactic(auto, unfolding(crate::specs::Shapes::type_node_of, ob_view::specs::World::decl_group_of, ob_view::specs::World::decl_kind_of, ob_view::specs::World::type_index_of, crate::specs::Shapes::imported_type, crate::specs::Shapes::exported_type, crate::specs::Shapes::local_type, crate::specs::Shapes::module_of_alias, crate::specs::Shapes::resolve_type_name))]

ghost use Rattle.std.specs.Prelude.{◌≡◌, Some, None, IfOk, if◌then◌else◌};
ghost use Rattle.std.specs.Option.{option_and_then};
ghost use Rattle.ob_types.specs.declared.nodes.Node.TheVariants as nodes;
ghost use Rattle.ob_types.specs.declared.nodes.Named.TheVariants as named;
ghost use Rattle.type_graph.specs.declared.shape.Shape.TheVariants as shapes;
ghost use Rattle.ob_types.specs.FieldIndex.{AreFields};
ghost use Rattle.type_graph.specs.ListedFields.{AreAllFields};
ghost use Rattle.ob_types.specs.Shapes.{exported_type, field_of, module_of_alias, is_type, shape_or_unknown, resolve_type_name, local_type, imported_type, type_node_of};
ghost use Rattle.ob_view.specs.World.{field_at, meaning, text};

use crate::field_index::index_fields;
use crate::listed::list_fields;
use crate::nodes::{Named, Node, Record};
use indexmap::IndexMap;
use module_table::DeclKind;
use ob_view::View;
use std::alloc::{AllocError, Global};
use text_hash::{Name, Seed};
use type_graph::{RecordField, Shape};

/// A module with the modules that it reaches, and its fields by record and name.
#[derive(Drop)]
pub(crate) struct IndexedModule<'a> {
    pub(crate) view: View<'a>,
    pub(crate) fields: Box<IndexMap<(u32, Name<'a>), u32, Seed>>,
    ghost fields_exact: { AreFields view fields.value },
}

/// Whether a declaration is a type declaration.
pub(crate) fn is_type(decl_kind: DeclKind) -> bool
    ensures { result ≡ is_type decl_kind }
{
    match decl_kind {
        DeclKind::Type => true,
        DeclKind::Import
        | DeclKind::Constant
        | DeclKind::Variable
        | DeclKind::Procedure
        | DeclKind::Parameter
        | DeclKind::Field => false,
    }
}

/// The named type that a declaration of a reached module gives, if it is a type declaration, and otherwise `None`.
pub(crate) fn declared_type_shape(
    reached: u32,
    declaration: u32,
    decl_kind: DeclKind,
) -> Option<Shape<Node, Named, Record>>
    ensures { result ≡ (if is_type decl_kind then Some (shapes.Named (named.Other reached declaration) (nodes.Other reached declaration 0)) else None) }
{
    if is_type(decl_kind) {
        let named = Named::Other {
            reached,
            declaration,
        };
        let type_expr = Node::Other {
            reached,
            declaration,
            part: 0,
        };
        Some(Shape::Named(named, type_expr))
    } else {
        None
    }
}

/// The type in the option, or `Unknown` if there is none.
pub(crate) fn shape_or_unknown(
    shape: Option<Shape<Node, Named, Record>>,
) -> Shape<Node, Named, Record>
    ensures { result ≡ shape_or_unknown shape }
{
    match shape {
        None => Shape::Unknown,
        Some(shape) => shape,
    }
}

impl<'a> IndexedModule<'a> {
    /// Builds the index of a module's fields. Returns `AllocError` if an allocation fails.
    pub(crate) fn new(alloc: Global, view: View<'a>) -> Result<IndexedModule<'a>, AllocError>
        ensures { IfOk result (λ i. i.view ≡ view.entry) }
    {
        let fields = index_fields(alloc, &view)?;
        Ok(IndexedModule { view, fields })
    }

    /// The token of the field of this name in a record of the module itself; `None` if the record declares no such field.
    pub(crate) fn field_at(&self, record: u32, name: &[u8]) -> Option<u32>
        ensures { result ≡ field_at self.now.view «record» name.now }
    {
        self.fields.get(&(record, Name { bytes: name })).copied()
    }

    /// All fields that the records of the module declare themselves, and the exported fields of the records of the reached modules.
    pub(crate) fn all_fields(
        &self,
        alloc: Global,
    ) -> Result<Vec<RecordField<'a, Record>>, AllocError>
        ensures { IfOk result (λ fields. AreAllFields (field_of self.now.view) fields.items) }
    {
        list_fields(alloc, &self.view)
    }

    /// The node of the declared type of the identifier at this token; `None` if the token declares nothing that has a type.
    pub(crate) fn type_expr(&self, declared: u32) -> Option<Node>
        ensures { result ≡ type_node_of self.now.view declared }
    {
        Some(Node::Own(self.view.type_index_of(declared)?))
    }

    /// The named type that a declaration of a reached module gives; `None` if there is no such declaration, or if it isn't a type
    /// declaration.
    pub(crate) fn imported_type(
        &self,
        reached: u32,
        declaration: u32,
    ) -> Option<Shape<Node, Named, Record>>
        ensures { result ≡ imported_type self.now.view reached declaration }
    {
        let external = self.view.imported_declaration(reached, declaration)?;
        declared_type_shape(reached, declaration, external.decl_kind)
    }

    /// The named type that a reached module exports under this name; `None` if it exports no such type.
    pub(crate) fn exported_type(
        &self,
        name: &[u8],
        reached: u32,
    ) -> Option<Shape<Node, Named, Record>>
        ensures { result ≡ exported_type self.now.view name.now reached }
    {
        let declaration = self.view.exported_index(reached, name)?;
        self.imported_type(reached, declaration)
    }

    /// The named type that the module declares at this token; `None` if it declares no type there. The kind of the declaration is tested
    /// first, since finding its type expression costs more.
    fn local_type(&self, declared: u32) -> Option<Shape<Node, Named, Record>>
        ensures { result ≡ local_type self.now.view declared }
    {
        let row = self.view.declared_at(declared)?;
        let index = self.view.index_hint(declared);
        let by = self.view.decl_group(index, row.declared_by)?;
        if is_type(by.decl_kind) {
            let index = self.view.type_index_from(index, row.declared_by)?;
            Some(Shape::Named(Named::Own(declared), Node::Own(index)))
        } else {
            None
        }
    }

    /// The index, among the reached modules, of the module whose alias the use at token `head` means; `None` if it means no alias of one.
    fn module_of_alias(&self, head: u32) -> Option<u32>
        ensures { result ≡ module_of_alias self.now.view head }
    {
        let declared = self.view.meaning(head)?;
        let item = self.view.item(declared)?;
        self.view.module_number(item)
    }

    /// The named type that the unqualified name at token `head` denotes in the module; `None` if it denotes no type of the module.
    fn simple_type(&self, head: u32) -> Option<Shape<Node, Named, Record>>
        ensures { result ≡ option_and_then (local_type self.now.view) (meaning self.now.view head) }
    {
        let declared = self.view.meaning(head)?;
        self.local_type(declared)
    }

    /// The named type that a qualified name denotes in the module; `None` if it denotes none. `head` is the token of the alias, and
    /// `member` that of the name after the dot.
    fn qualified_type(&self, head: u32, member: u32) -> Option<Shape<Node, Named, Record>>
        ensures { result ≡ option_and_then (exported_type self.now.view (text self.now.view member)) (module_of_alias self.now.view head) }
    {
        let reached = self.module_of_alias(head)?;
        self.exported_type(self.view.text(member), reached)
    }

    /// The type that a name denotes in the module, or `Unknown` if it denotes none. `head` is the token of the first identifier, and
    /// `member` that of the name after the dot, if there is one.
    pub(crate) fn resolve_type_name(
        &self,
        head: u32,
        member: Option<u32>,
    ) -> Shape<Node, Named, Record>
        ensures { result ≡ resolve_type_name self.now.view head member }
    {
        match member {
            None => shape_or_unknown(self.simple_type(head)),
            Some(member) => shape_or_unknown(self.qualified_type(head, member)),
        }
    }
}
