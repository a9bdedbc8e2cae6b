//! The table of a module, and its look-ups.

ghost use Rattle.std.specs.Prelude.{◌≡◌, Contains, IfSome, IfNone, nat_eq};
ghost use Rattle.std.specs.List.{filter};
ghost use Rattle.module_table.specs.Order.{HasBoundedRows, AreRowsSorted};
ghost use Rattle.module_table.specs.declared.rows.Declared.{Declared};
ghost use Rattle.module_table.specs.declared.rows.DeclGroup.{DeclGroup};
ghost use Rattle.module_table.specs.declared.rows.TypePart.{TypePart};
ghost use Rattle.module_table.specs.declared.rows.Record.{Record};
ghost use Rattle.module_table.specs.declared.rows.Selector.{Selector};

use crate::order::{find_entry, group_of, rows_are_bounded};
use crate::rows::{
    Block, DeclGroup, Declared, Designator, End, Import, Record, Selector, TypePart, Used,
};

/// What a module declares and uses in all its blocks. Each list is sorted by token number.
#[derive(Drop)]
pub struct Table {
    pub(crate) decl_groups: Vec<DeclGroup>,
    pub(crate) declared: Vec<Declared>,
    pub(crate) uses: Vec<Used>,
    pub(crate) blocks: Vec<Block>,
    pub(crate) imports: Vec<Import>,
    pub(crate) parts: Vec<TypePart>,
    pub(crate) records: Vec<Record>,
    pub(crate) designators: Vec<Designator>,
    pub(crate) selectors: Vec<Selector>,
    pub(crate) ends: Vec<End>,
    ghost rows_sorted: { AreRowsSorted (record { decl_groups = decl_groups.items; declared = declared.items; uses = uses.items; blocks = blocks.items; imports = imports.items; parts = parts.items; records = records.items; designators = designators.items; selectors = selectors.items; ends = ends.items }) },
}

impl Table {
    ghost use Rattle.module_table.specs.Tables.{module_name_token, rows_in};

    /// States the invariant of every table: each list is sorted by token number, the components of one type expression are adjacent, and
    /// so are the selectors of one designator.
    pub fn invariants(&self)
        ensures { AreRowsSorted (rows_in self.now) }
    {
        // Using a field makes the type's invariant known to the prover here.
        let _ = &self.ends;
    }

    /// States that the lists of declared identifiers, imports and records have at most 2^32 entries each.
    pub fn rows_are_bounded(&self)
        ensures { HasBoundedRows (rows_in self.now) }
    {
        self.invariants();
        rows_are_bounded(self.declared.as_slice());
        rows_are_bounded(self.imports.as_slice());
        rows_are_bounded(self.records.as_slice());
    }

    /// The declaration groups.
    pub fn decl_groups(&self) -> &[DeclGroup]
        ensures { result.now ≡ self.now.decl_groups.items }
    {
        self.decl_groups.as_slice()
    }

    /// The declared identifiers.
    pub fn declared(&self) -> &[Declared]
        ensures { result.now ≡ self.now.declared.items }
    {
        self.declared.as_slice()
    }

    /// The identifiers that the scope rule looks up.
    pub fn uses(&self) -> &[Used]
        ensures { result.now ≡ self.now.uses.items }
    {
        self.uses.as_slice()
    }

    /// The blocks other than the module's.
    pub fn blocks(&self) -> &[Block]
        ensures { result.now ≡ self.now.blocks.items }
    {
        self.blocks.as_slice()
    }

    /// The import items.
    pub fn imports(&self) -> &[Import]
        ensures { result.now ≡ self.now.imports.items }
    {
        self.imports.as_slice()
    }

    /// The components of all type expressions. The components of one declaration group are adjacent.
    pub fn parts(&self) -> &[TypePart]
        ensures { result.now ≡ self.now.parts.items }
    {
        self.parts.as_slice()
    }

    /// The records.
    pub fn records(&self) -> &[Record]
        ensures { result.now ≡ self.now.records.items }
    {
        self.records.as_slice()
    }

    /// The designators of expressions and statements.
    pub fn designators(&self) -> &[Designator]
        ensures { result.now ≡ self.now.designators.items }
    {
        self.designators.as_slice()
    }

    /// The selectors of all designators. The selectors of one designator are in order; the selectors of designators in its indexes and
    /// arguments follow them.
    pub fn selectors(&self) -> &[Selector]
        ensures { result.now ≡ self.now.selectors.items }
    {
        self.selectors.as_slice()
    }

    /// The names after END.
    pub fn ends(&self) -> &[End]
        ensures { result.now ≡ self.now.ends.items }
    {
        self.ends.as_slice()
    }

    /// The declared identifier with this token number, or `None` if the token declares nothing. Takes logarithmic time.
    pub fn declaration(&self, token: u32) -> Option<&Declared>
        // The returned entry is in the table.
        ensures found { IfSome result (λ row. Contains self.now.declared.items row.now) }
        // The returned entry has this token number.
        ensures number { IfSome result (λ row. row.now.number ≡ token) }
        // `None` is returned only if no entry has this token number.
        ensures none { IfNone result ((row : Declared) → Contains self.now.declared.items row → row.number ≡ token → ⊥) }
    {
        find_entry(self.declared.as_slice(), token)
    }

    /// The declaration group that begins with this token, or `None`. Takes logarithmic time.
    pub fn decl_group(&self, first: u32) -> Option<&DeclGroup>
        // The returned entry is in the table.
        ensures found { IfSome result (λ row. Contains self.now.decl_groups.items row.now) }
        // The returned entry begins with this token.
        ensures number { IfSome result (λ row. row.now.first ≡ first) }
        // `None` is returned only if no entry begins with this token.
        ensures none { IfNone result ((row : DeclGroup) → Contains self.now.decl_groups.items row → row.first ≡ first → ⊥) }
    {
        find_entry(self.decl_groups.as_slice(), first)
    }

    /// The record with this RECORD keyword, or `None`. Takes logarithmic time.
    pub fn record(&self, token: u32) -> Option<&Record>
        // The returned entry is in the table.
        ensures found { IfSome result (λ row. Contains self.now.records.items row.now) }
        // The returned entry has this token number.
        ensures number { IfSome result (λ row. row.now.number ≡ token) }
        // `None` is returned only if no entry has this token number.
        ensures none { IfNone result ((row : Record) → Contains self.now.records.items row → row.number ≡ token → ⊥) }
    {
        find_entry(self.records.as_slice(), token)
    }

    /// The components of the type expression of the declaration group that begins with this token, from the outermost to the innermost.
    pub fn type_expr(&self, first: u32) -> &[TypePart]
        ensures { result.now ≡ filter (λ (row : TypePart). nat_eq row.declared_by first) self.now.parts.items }
    {
        group_of(self.parts.as_slice(), first)
    }

    /// The selectors of the designator with this head, in order.
    pub fn selectors_of(&self, head: u32) -> &[Selector]
        ensures { result.now ≡ filter (λ (row : Selector). nat_eq row.of head) self.now.selectors.items }
    {
        group_of(self.selectors.as_slice(), head)
    }

    /// The token number of the module's own name.
    pub fn module_name_token(&self) -> u32
        ensures { result ≡ module_name_token }
    {
        1
    }
}
