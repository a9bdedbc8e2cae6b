//! The types of a module and of the modules that it reaches, as a `TypeGraph`.
#![tactic(auto)]

ghost use Rattle.std.specs.Prelude.{◌≡◌, ◌≤◌, ◌^◌, IfOk, IfSome, length, map};
ghost use Rattle.std.specs.Arc.{arc_value};
ghost use Rattle.module_table.specs.Tables.{rows_in};
ghost use Rattle.ob_scan.specs.Spelling.{AreInText};
ghost use Rattle.ob_view.specs.ModuleNumbers.{AreByName};
ghost use Rattle.ob_view.specs.World.{world};
ghost use Rattle.ob_types.specs.Shapes.{resolve_type_name, type_node_of, type_of_field};
ghost use Rattle.ob_types.specs.Within.{AreWithin};

use crate::indexed_module::IndexedModule;
use crate::listed::{list_records, size_estimate};
use crate::nodes::{Field, Named, Node, Record};
use crate::precomputed::PrecomputedTypes;
use module_table::Table;
use ob_interface::Interface;
use ob_scan::Token;
use ob_view::View;
use scopes::Scopes;
use std::alloc::{AllocError, Global};
use std::marker::Model;
use std::sync::Arc;
use type_graph::{Jump, RecordField, Shape, TypeGraph};

/// The types of a module and of the modules of its tree that it imports directly or indirectly. Contracts describe a value by the `World`
/// of the module. A value owns the module's `View` and the hash table of its fields.
///
/// A token is represented by its number; a component of a type expression and a reached module by its index; a declaration of a reached
/// module by its index in the interface; a record by the token number of its RECORD keyword. All count from 0.
#[derive(Drop)]
pub struct Types<'a> {
    pub(crate) indexed_module: IndexedModule<'a>,
    /// Precomputed results for all modules of the tree, which affect only speed; `None` if there are none.
    precomputed: Option<&'a PrecomputedTypes>,
}

impl<'a> Model for Types<'a> {
    ghost use Rattle.std.specs.Prelude.{IfSome};
    ghost use Rattle.ob_types.specs.Within.{AreWithin};
    ghost use Rattle.ob_view.specs.World.{World};

    ghost Value = { World };

    ghost view = { λ t. t.indexed_module.view };

    ghost invariant = { λ t. IfSome t.precomputed (λ s. AreWithin s.now t.indexed_module.view.reached) };
}

impl<'a> Types<'a> {
    /// Builds the types of the module with these tokens, bytes, table and scopes. `reached` must be sorted by name. Returns `AllocError`
    /// if an allocation fails.
    pub fn new(
        alloc: Global,
        bytes: &'a [u8],
        tokens: &'a [Token],
        table: &'a Table,
        scopes: &'a Scopes,
        reached: &'a [Arc<Interface>],
    ) -> Result<Types<'a>, AllocError>
        // Every token is a range of the bytes.
        requires in_text { AreInText bytes.now tokens.now }
        // Indexes of modules fit 32 bits.
        requires few { length reached.now ≤ 2 ^ 32 }
        // The reached modules are sorted by name.
        requires by_name { AreByName (map arc_value reached.now) }
        ensures { IfOk result (λ t. t ≡ world bytes.now tokens.now (rows_in table.now) scopes.now (map arc_value reached.now)) }
    {
        let view = View::new(alloc, bytes, tokens, table, scopes, reached)?;
        let indexed_module = IndexedModule::new(alloc, view)?;
        Ok(Types {
            indexed_module,
            precomputed: None,
        })
    }

    /// Adds precomputed results for all modules of the tree, if there are any. They affect only speed.
    pub fn with_precomputed(mut self, precomputed: Option<&'a PrecomputedTypes>) -> Types<'a>
        // The results are for a tree that has all reached modules; and each module of this tree that a reached module imports is reached.
        requires { IfSome precomputed (λ s. AreWithin s.now self.reached) }
        ensures { result ≡ self.entry }
    {
        self.precomputed = precomputed;
        self
    }

    /// Returns the view of the module: the module and the interfaces of the modules that it reaches, for look-ups of names and
    /// declarations.
    pub fn view(&self) -> &View<'a>
        ensures { result.now ≡ self.now }
    {
        &self.indexed_module.view
    }

    /// Returns the node of the declared type of the identifier at this token; `None` if the token declares nothing that has a type.
    pub fn type_expr(&self, declared: u32) -> Option<Node>
        ensures { result ≡ type_node_of self.now declared }
    {
        self.indexed_module.type_expr(declared)
    }

    /// Returns the node of the declared type of a field; `None` if it has none.
    pub fn type_of_field(&self, field: Field) -> Option<Node>
        ensures { result ≡ type_of_field self.now field }
    {
        self.indexed_module.type_of_field(field)
    }

    /// Returns the type that a name denotes in the module, or `Unknown` if it denotes none. `head` is the token of the first identifier,
    /// and `member` that of the name after the dot, if there is one.
    pub fn resolve_type_name(&self, head: u32, member: Option<u32>) -> Shape<Node, Named, Record>
        ensures { result ≡ resolve_type_name self.now head member }
    {
        self.indexed_module.resolve_type_name(head, member)
    }
}

impl TypeGraph for Types<'_> {
    type Node = Node;

    type Declaration = Named;

    type Record = Record;

    type Field = Field;

    ghost use Rattle.ob_types.specs.Depths.{depth, height};
    ghost use Rattle.ob_types.specs.Shapes.{base_of, field_of, shape};
    ghost use Rattle.ob_types.specs.DepthLaws.{based, deep, pointed};
    ghost use Rattle.ob_types.specs.NameLaws.{named_once, eq_is_identity};

    ghost shape = { shape };

    ghost field_of = { field_of };

    ghost base_of = { base_of };

    ghost depth = { depth };

    ghost height = { height };

    fn shape(&self, node: Node) -> Shape<Node, Named, Record> {
        self.indexed_module.shape(node)
    }

    fn field(&self, record: Record, name: &[u8]) -> Option<Field> {
        self.indexed_module.field(record, name)
    }

    fn base(&self, record: Record) -> Option<Node> {
        self.indexed_module.base(record)
    }

    fn size(&self) -> u64 {
        size_estimate(&self.indexed_module.view)
    }

    fn records(&self, alloc: Global) -> Result<Vec<Record>, AllocError> {
        list_records(alloc, &self.indexed_module.view)
    }

    fn fields(&self, alloc: Global) -> Result<Vec<RecordField<'_, Record>>, AllocError> {
        self.indexed_module.all_fields(alloc)
    }

    fn precomputed_end(&self, pointers: bool, node: Node) -> Option<Option<Node>> {
        self.precomputed?.end(&self.indexed_module, pointers, node)
    }

    fn precomputed_jump(&self, record: Record, name: &[u8]) -> Option<Jump<Record>> {
        self.precomputed?.jump(&self.indexed_module, record, name)
    }

    ghost deep = { deep };

    ghost pointed = { pointed };

    ghost based = { based };

    ghost named = { named_once };

    ghost eq_is_identity = { eq_is_identity };
}
