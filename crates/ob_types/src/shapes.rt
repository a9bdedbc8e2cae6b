//! Determines the type at a node of the graph, the fields and the base of a record, and the type of a field.
//! `start` is the offset of a name in its source. `is_target` is whether the name is the target of a pointer, which may be declared later.
#![tactic(auto, unfolding(crate::specs::Shapes::visible_type, crate::specs::Shapes::resolve_imported_name, crate::specs::Shapes::is_pointer_target, crate::specs::Shapes::shape, crate::specs::Shapes::field_of, crate::specs::Shapes::base_of, crate::specs::Shapes::type_of_field))]

ghost use Rattle.std.specs.Prelude.{◌≡◌, ◌+◌, ◌<◌, ◌^◌, OnSome, slice_get};
ghost use Rattle.std.specs.Option.{option_and_then, option_map};
ghost use Rattle.ob_interface.specs.Views.{name_value, part_value};
ghost use Rattle.ob_types.specs.Shapes.{base_of, is_pointer_target, exported_type, field_of, is_pointer, resolve_imported_name, local_shape, imported_part_shape, visible_type, shape, type_of_field};
ghost use Rattle.ob_view.specs.World.{named_declaration, module_number, aliased_module_name};
ghost use Rattle.ob_types.specs.declared.nodes.Node.TheVariants as nodes;

use crate::indexed_module::{IndexedModule, declared_type_shape, is_type, shape_or_unknown};
use crate::nodes::{Field, Named, Node, Record};
use module_table::{Part as PartRow, TypePart};
use ob_interface::{Part, TypeName};
use type_graph::Shape;

/// Whether there is a component and it is a pointer.
fn is_pointer(part: Option<Part<'_>>) -> bool
    ensures { result ≡ is_pointer (option_map part_value part.entry) }
{
    match part {
        Some(Part::Pointer) => true,
        Some(Part::Array | Part::Record(_) | Part::Procedure | Part::Named { .. }) | None => false,
    }
}

impl<'a> IndexedModule<'a> {
    /// The type that a declaration of a reached module gives, if a name at offset `start` may mean the declaration: it begins before the
    /// name, or the name is the target of a pointer (`is_target`). Otherwise `None`.
    fn visible_type(
        &self,
        reached: u32,
        start: u32,
        is_target: bool,
        declaration: u32,
    ) -> Option<Shape<Node, Named, Record>>
        ensures { result ≡ visible_type self.now.view reached start is_target declaration }
    {
        let external = self.view.imported_declaration(reached, declaration)?;
        if external.start < start || (is_target && is_type(external.decl_kind)) {
            declared_type_shape(reached, declaration, external.decl_kind)
        } else {
            None
        }
    }

    /// The type that an unqualified name at offset `start` denotes in the source of a reached module; `None` if it denotes none.
    fn imported_simple_type(
        &self,
        reached: u32,
        start: u32,
        is_target: bool,
        name: &[u8],
    ) -> Option<Shape<Node, Named, Record>>
        ensures { result ≡ option_and_then (visible_type self.now.view reached start is_target) (named_declaration self.now.view reached name.now) }
    {
        let declaration = self.view.named_declaration(reached, name)?;
        self.visible_type(reached, start, is_target, declaration)
    }

    /// The type that the qualified name `alias.name` denotes in the source of a reached module; `None` if it denotes none.
    fn imported_qualified_type(
        &self,
        reached: u32,
        alias: &[u8],
        name: &[u8],
    ) -> Option<Shape<Node, Named, Record>>
        ensures { result ≡ option_and_then (exported_type self.now.view name.now) (option_and_then (module_number self.now.view) (aliased_module_name self.now.view reached alias.now)) }
    {
        let imported_name = self.view.aliased_module_name(reached, alias)?;
        let module_number = self.view.module_number_by_name(imported_name)?;
        self.exported_type(name, module_number)
    }

    /// The type that a name at offset `start` denotes in the source of a reached module; `Unknown` if it denotes none.
    fn resolve_imported_name(
        &self,
        reached: u32,
        start: u32,
        is_target: bool,
        name: TypeName<'_>,
    ) -> Shape<Node, Named, Record>
        ensures { result ≡ resolve_imported_name self.now.view reached start is_target (name_value name.entry) }
    {
        match name {
            TypeName::Simple(name) => shape_or_unknown(self.imported_simple_type(
                reached, start, is_target, name,
            )),
            TypeName::Qualified(alias, name) => shape_or_unknown(self.imported_qualified_type(
                reached, alias, name,
            )),
        }
    }

    /// The type at the component `row` of the module itself, which has the index `index`.
    fn local_shape(&self, index: usize, row: TypePart) -> Shape<Node, Named, Record>
        requires { index + 1 < 2 ^ 64 }
        ensures { result ≡ local_shape self.now.view index row }
    {
        match row.part {
            PartRow::Array => Shape::Array(Node::Own(index + 1)),
            PartRow::Pointer => Shape::Pointer(Node::Own(index + 1)),
            PartRow::Record => Shape::Record(Record::Own(row.number)),
            PartRow::Procedure => Shape::Procedure,
            PartRow::Named(member) => self.resolve_type_name(row.number, member),
        }
    }

    /// Whether the component before index `at` is a pointer, so that the component itself is a pointer's target.
    fn is_pointer_target(&self, reached: u32, declaration: u32, at: usize) -> bool
        ensures { result ≡ is_pointer_target self.now.view reached declaration at }
    {
        if at == 0 {
            false
        } else {
            is_pointer(self.view.imported_part(reached, declaration, at - 1))
        }
    }

    /// The type at the component `part`, which has the index `at` in the type expression of a reached module's declaration.
    fn imported_part_shape(
        &self,
        reached: u32,
        declaration: u32,
        at: usize,
        part: Part<'_>,
    ) -> Shape<Node, Named, Record>
        requires { at + 1 < 2 ^ 64 }
        ensures { result ≡ imported_part_shape self.now.view reached declaration at (part_value part.entry) }
    {
        let next = Node::Other {
            reached,
            declaration,
            part: at + 1,
        };
        match part {
            Part::Array => Shape::Array(next),
            Part::Pointer => Shape::Pointer(next),
            Part::Record(record) => Shape::Record(Record::Other { reached, record }),
            Part::Procedure => Shape::Procedure,
            Part::Named { start, name } => {
                let is_target = self.is_pointer_target(reached, declaration, at);
                self.resolve_imported_name(reached, start, is_target, name)
            }
        }
    }

    /// The component at this index of the module table, or `None` if there is none.
    fn part(&self, index: usize) -> Option<TypePart>
        ensures part { result ≡ slice_get self.now.view.rows.parts index }
        // The index of a component can be incremented.
        ensures few { OnSome result (index + 1 < 2 ^ 64) }
    {
        self.view.table().parts().get(index).copied()
    }

    /// The type at the component with this index of the module itself; `Unknown` if there is none.
    fn shape_at(&self, index: usize) -> Shape<Node, Named, Record>
        ensures { result ≡ shape self.now.view (nodes.Own index) }
    {
        match self.part(index) {
            None => Shape::Unknown,
            Some(row) => self.local_shape(index, row),
        }
    }

    /// The type at the component with the index `at` of a reached module's declaration; `Unknown` if there is none.
    fn imported_shape(
        &self,
        reached: u32,
        declaration: u32,
        at: usize,
    ) -> Shape<Node, Named, Record>
        ensures { result ≡ shape self.now.view (nodes.Other reached declaration at) }
    {
        match self.view.imported_part(reached, declaration, at) {
            None => Shape::Unknown,
            Some(part) => self.imported_part_shape(reached, declaration, at, part),
        }
    }

    /// The type that the base of a reached module's record names; `Unknown` if the record has no base, or if the name denotes no type.
    fn base_shape(&self, reached: u32, record: u32) -> Shape<Node, Named, Record>
        ensures { result ≡ shape self.now.view (nodes.OtherBase reached «record») }
    {
        match self.view.imported_base(reached, record) {
            None => Shape::Unknown,
            Some(base) => self.resolve_imported_name(reached, base.start, false, base.name),
        }
    }

    /// The type at a node.
    pub(crate) fn shape(&self, node: Node) -> Shape<Node, Named, Record>
        ensures { result ≡ shape self.now.view node }
    {
        match node {
            Node::Own(index) => self.shape_at(index),
            Node::Name { head, member } => self.resolve_type_name(head, member),
            Node::Other {
                reached,
                declaration,
                part,
            } => self.imported_shape(reached, declaration, part),
            Node::OtherBase { reached, record } => self.base_shape(reached, record),
        }
    }

    /// The field with this name that the record itself declares, not one of its bases; `None` if there is none. Of a reached module only
    /// exported fields count.
    pub(crate) fn field(&self, record: Record, name: &[u8]) -> Option<Field>
        ensures { result ≡ field_of self.now.view «record» name.now }
    {
        match record {
            Record::Own(record) => Some(Field::Own(self.field_at(record, name)?)),
            Record::Other { reached, record } => {
                let declaration = self.view.exported_field(reached, record, name)?;
                Some(Field::Other {
                    reached,
                    declaration,
                })
            }
        }
    }

    /// The node of the name of a record's base; `None` if the record has no base.
    pub(crate) fn base(&self, record: Record) -> Option<Node>
        ensures { result ≡ base_of self.now.view «record» }
    {
        match record {
            Record::Own(record) => {
                let base = self.view.record(record)?.base?;
                Some(Node::Name {
                    head: base.head,
                    member: base.member,
                })
            }
            Record::Other { reached, record } => {
                self.view.imported_base(reached, record)?;
                Some(Node::OtherBase { reached, record })
            }
        }
    }

    /// The node of the declared type of a field; `None` if it has none.
    pub(crate) fn type_of_field(&self, field: Field) -> Option<Node>
        ensures { result ≡ type_of_field self.now.view field }
    {
        match field {
            Field::Own(declared) => self.type_expr(declared),
            Field::Other {
                reached,
                declaration,
            } => Some(Node::Other {
                reached,
                declaration,
                part: 0,
            }),
        }
    }
}
