//! Graphs of types.
ghost use Rattle.std.specs.Prelude.{◌≡◌, ◌<◌, ℕ, List, None, Option, Some, IfOk, IfSome, true};
ghost use Rattle.type_graph.specs.Link.{IsTypeEnd};
ghost use Rattle.type_graph.specs.PathOrder.{IsJump};
ghost use Rattle.type_graph.specs.declared.shape.Shape.{Shape};
ghost use Rattle.type_graph.specs.declared.shape.Shape.TheVariants as shapes;
ghost use Rattle.type_graph.specs.ListedFields.{AreAllFields};

use crate::jump::Jump;
use crate::listed::RecordField;
use crate::shape::Shape;
use std::alloc::{AllocError, Global};
use std::hash::Hash;

/// The types of a program, as nodes. A node is a location at which a type is written.
pub trait TypeGraph {
    type Node: Copy + Drop;

    type Declaration: Copy + Eq + Hash + Drop;

    type Record: Copy + Eq + Hash + Drop;

    type Field: Copy + Drop;

    ghost shape: { Self → Self.Node → Shape Self.Node Self.Declaration Self.Record };

    ghost field_of: { Self → Self.Record → List ℕ → Option Self.Field };

    ghost base_of: { Self → Self.Record → Option Self.Node };

    /// The depth of a type, down to the names in it.
    ghost depth: { Self → Self.Node → ℕ };

    /// A bound above all depths.
    ghost height: { Self → ℕ };

    /// The type at a node.
    fn shape(&self, node: Self::Node) -> Shape<Self::Node, Self::Declaration, Self::Record>
        ensures { result ≡ shape self.now node };

    /// The field of this name that a record declares itself.
    fn field(&self, record: Self::Record, name: &[u8]) -> Option<Self::Field>
        ensures { result ≡ field_of self.now «record» name.now };

    /// The type that is a record's base.
    fn base(&self, record: Self::Record) -> Option<Self::Node>
        ensures { result ≡ base_of self.now «record» };

    /// The end of a type, through names, and through pointers if `pointers` is set; `Some(None)` if the steps form a cycle. `None` if the
    /// graph hasn't precomputed it.
    fn precomputed_end(&self, pointers: bool, node: Self::Node) -> Option<Option<Self::Node>>
        ensures { IfSome result (IsTypeEnd (shape self.now) pointers node) };

    /// The jump of a search from a record that lacks the field of this name; `None` if the graph hasn't precomputed it.
    fn precomputed_jump(&self, record: Self::Record, name: &[u8]) -> Option<Jump<Self::Record>>
        requires { field_of self.now «record» name.now ≡ None }
        ensures { IfSome result (IsJump (shape self.now) (base_of self.now) (λ r. field_of self.now r name.now) «record») };

    /// An estimate of the cost of `records` and `fields`. It affects only the running time.
    fn size(&self) -> u64;

    /// Records of the graph, for which heavy paths are built. The list affects only the running time: searches that begin at other records
    /// take longer.
    fn records(&self, alloc: Global) -> Result<Vec<Self::Record>, AllocError>;

    /// All fields that records declare themselves.
    fn fields(&self, alloc: Global) -> Result<Vec<RecordField<'_, Self::Record>>, AllocError>
        ensures { IfOk result (λ fields. AreAllFields (field_of self.now) fields.items) };

    ghost deep: { (g : Self) (n : Self.Node) → depth g n < height g };

    ghost pointed: { (g : Self) (n m : Self.Node) → shape g n ≡ shapes.Pointer m → depth g m < depth g n };

    ghost based: { (g : Self) (n m : Self.Node) (r : Self.Record) → shape g n ≡ shapes.Record r → base_of g r ≡ Some m → depth g m < depth g n };

    /// Names that denote equal declarations lead to one type node.
    ghost named: { (g : Self) (n m x y : Self.Node) (c d : Self.Declaration) → shape g n ≡ shapes.Named c x → shape g m ≡ shapes.Named d y → Self.Declaration.eq c d ≡ true → x ≡ y };

    /// Equal records are identical.
    ghost eq_is_identity: { (r s : Self.Record) → Self.Record.eq r s ≡ true → r ≡ s };
}
