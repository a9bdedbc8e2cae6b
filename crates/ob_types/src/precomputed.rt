//! Looks up precomputed results about types. They are stored with the indexes of modules in the tree, and translated for a module `here` to
//! the indexes among the modules that it reaches. In the clauses:
//! `AreWithin self reached`: the reached modules are modules of the tree and closed under imports.
//! `IsCommonModule w v i j`: one module has the index `i` in `w` and the index `j` in `v`.
#![tactic(auto, unfolding(ob_view::specs::World::module_number))]

ghost use Rattle.std.specs.Prelude.{◌≡◌, ℕ, None, IfOk, IfSome, map};
ghost use Rattle.std.specs.Arc.{arc_value};
ghost use Rattle.type_graph.specs.Link.{IsTypeEnd};
ghost use Rattle.type_graph.specs.PathOrder.{IsJump};
ghost use Rattle.ob_types.specs.CommonModules.{AreNodesCommon, AreRecordsCommon, IsCommonModule};
ghost use Rattle.ob_types.specs.PrecomputedEnds.{AreEndsOf};
ghost use Rattle.ob_types.specs.Shapes.{base_of, field_of, shape};
ghost use Rattle.ob_types.specs.Within.{AreWithin};
ghost use Rattle.ob_view.specs.World.{World};
ghost use Rattle.ob_types.specs.declared.nodes.Node.TheVariants as nodes;

use crate::indexed_module::IndexedModule;
use crate::nodes::{Field, Named, Node, Record};
use ob_interface::Interface;
use ob_view::module_number_in;
use std::alloc::{AllocError, Global};
use std::collections::BTreeMap;
use std::marker::Model;
use std::sync::Arc;
use type_graph::{HeavyPaths, Jump, jump_along};

/// The two ends of the type that a declaration gives: `by_names` is reached by following names, and `by_pointers` by following names and
/// pointers. `None` if there is no such end.
#[derive(Clone, Copy, Drop)]
pub(crate) struct TypeEnds {
    pub(crate) by_names: Option<Node>,
    pub(crate) by_pointers: Option<Node>,
}

impl TypeEnds {
    /// The end that is reached by following names, and also pointers if `pointers` is true.
    fn select_end(self, pointers: bool) -> Option<Node>
        // If these are the ends of the type that declaration `d` of module `i` gives, the result is the selected end of this type.
        ensures { (w : World) (i d : ℕ) → AreEndsOf w i d self → IsTypeEnd (shape w) pointers (nodes.Other i d 0) result }
    {
        if pointers {
            self.by_pointers
        } else {
            self.by_names
        }
    }
}

/// Precomputed results for searches from any module of a tree, for the declarations at which long type chains arrive: the ends of the types
/// that these declarations give, and the heavy paths of the records with bases in these types. Each result equals what a search would find.
/// Contracts describe a value by the list of the tree's modules.
#[derive(Drop)]
pub struct PrecomputedTypes {
    pub(crate) modules: Vec<Arc<Interface>>,
    pub(crate) paths: Option<Box<HeavyPaths<Record>>>,
    /// The ends of the types that declarations give. A key is the index of a module in `modules` and the index of a declaration in it.
    pub(crate) ends: BTreeMap<(u32, u32), TypeEnds>,
}

impl Model for PrecomputedTypes {
    ghost use Rattle.std.specs.Prelude.{List, map};
    ghost use Rattle.std.specs.Arc.{arc_value};
    ghost use Rattle.ob_interface.specs.Interfaces.{ModuleInterface};
    ghost use Rattle.ob_types.specs.PrecomputedEnds.{ArePrecomputed};

    ghost Value = { List ModuleInterface };

    ghost view = { λ s. map arc_value s.modules.items };

    ghost invariant = { λ s. ArePrecomputed (map arc_value s.modules.items) s.paths s.ends };
}

/// Copies the list of shared pointers to the modules' interfaces.
pub(crate) fn clone_interfaces(
    alloc: Global,
    modules: &[Arc<Interface>],
) -> Result<Vec<Arc<Interface>>, AllocError>
    ensures { IfOk result (λ all. map arc_value all.items ≡ map arc_value modules.now) }
{
    let mut all = Vec::with_capacity(alloc, modules.len())?;
    for interface in modules {
        all.push(Arc::try_clone(interface)?)?;
    }
    Ok(all)
}

impl PrecomputedTypes {
    /// Translates an index among the modules that `here` reaches to the index among all modules of the tree. `None` if there is none.
    fn tree_index(&self, here: &IndexedModule<'_>, reached: u32) -> Option<u32>
        requires { AreWithin self.now here.now.view.reached }
        ensures { (v : World) → v.reached ≡ self.now → IfSome result (IsCommonModule here.now.view v reached) }
    {
        let name = here.view.interface(reached)?.name();
        if here.view.module_number_by_name(name)? == reached {
            module_number_in(self.modules.as_slice(), name)
        } else {
            None
        }
    }

    /// Translates the index `number` among all modules of the tree to the index among the modules that `here` reaches. `None` if `here`
    /// doesn't reach the module.
    fn index_of(&self, here: &IndexedModule<'_>, number: u32) -> Option<u32>
        requires { AreWithin self.now here.now.view.reached }
        ensures { (v : World) → v.reached ≡ self.now → IfSome result (λ i. IsCommonModule here.now.view v i number) }
    {
        let module = self.modules.as_slice().get(number as usize)?;
        here.view.module_number_by_name(module.name())
    }

    /// Translates a node: replaces the index of its module in the tree by the index among the modules that `here` reaches. `None` if `here`
    /// doesn't reach the module, and for a node of no reached module (`Own` or `Name`).
    fn node_in_reached(&self, here: &IndexedModule<'_>, node: Node) -> Option<Node>
        requires { AreWithin self.now here.now.view.reached }
        ensures { (v : World) → v.reached ≡ self.now → IfSome result (λ n. AreNodesCommon here.now.view v n node) }
    {
        match node {
            Node::Own(_) | Node::Name { .. } => None,
            Node::Other {
                reached,
                declaration,
                part,
            } => Some(Node::Other {
                reached: self.index_of(here, reached)?,
                declaration,
                part,
            }),
            Node::OtherBase { reached, record } => Some(Node::OtherBase {
                reached: self.index_of(here, reached)?,
                record,
            }),
        }
    }

    /// Translates a record: replaces the index of its module in the tree by the index among the modules that `here` reaches. `None` if
    /// `here` doesn't reach the module, and for a record of no reached module (`Own`).
    fn record_of(&self, here: &IndexedModule<'_>, record: Record) -> Option<Record>
        requires { AreWithin self.now here.now.view.reached }
        ensures { (v : World) → v.reached ≡ self.now → IfSome result (λ r. AreRecordsCommon here.now.view v r «record») }
    {
        match record {
            Record::Own(_) => None,
            Record::Other { reached, record } => Some(Record::Other {
                reached: self.index_of(here, reached)?,
                record,
            }),
        }
    }

    /// The precomputed end of the type at a node, reached by following names, and also pointers if `pointers` is true. `Some(None)` if the
    /// type has no end; `None` if the end isn't precomputed.
    pub(crate) fn end(
        &self,
        here: &IndexedModule<'_>,
        pointers: bool,
        node: Node,
    ) -> Option<Option<Node>>
        requires { AreWithin self.now here.now.view.reached }
        ensures { IfSome result (IsTypeEnd (shape here.now.view) pointers node) }
    {
        let Node::Other {
            reached,
            declaration,
            part: 0,
        } = node
        else {
            return None;
        };
        let number = self.tree_index(here, reached)?;
        let ends = *self.ends.get(&(number, declaration))?;
        match ends.select_end(pointers) {
            None => Some(None),
            Some(last) => Some(Some(self.node_in_reached(here, last)?)),
        }
    }

    /// Where a search for the field `name` continues from a record that doesn't declare it: farther up its heavy path of bases, or at its
    /// parent if no precomputed path has it. `None` if no paths are precomputed, for a record of the module of `here`, or if the index of a
    /// module can't be translated.
    pub(crate) fn jump(
        &self,
        here: &IndexedModule<'_>,
        record: Record,
        name: &[u8],
    ) -> Option<Jump<Record>>
        requires within { AreWithin self.now here.now.view.reached }
        // The record doesn't declare the field itself.
        requires lacks { field_of here.now.view «record» name.now ≡ None }
        ensures { IfSome result (IsJump (shape here.now.view) (base_of here.now.view) (λ r. field_of here.now.view r name.now) «record») }
    {
        let paths = self.paths.as_ref()?;
        let Record::Other { reached, record } = record else {
            return None;
        };
        let external = Record::Other {
            reached: self.tree_index(here, reached)?,
            record,
        };
        match jump_along::<Node, Named, Record, Field>(paths, external, name) {
            Jump::Onto(above) => Some(Jump::Onto(self.record_of(here, above)?)),
            Jump::From(last) => Some(Jump::From(self.record_of(here, last)?)),
        }
    }
}
