//! The builder of a table.

ghost use Rattle.std.specs.Prelude.{◌≡◌, ◌+◌, ◌<◌, ◌^◌, ◌++◌, ◌∷◌, [], false, length};
ghost use Rattle.module_table.specs.Order.{AreRowsSorted};
ghost use Rattle.module_table.specs.Tables.{rows_in};
ghost use Rattle.module_table.specs.Parts.{decl_group, declaring_at, in_block, one_block, one_decl_group, one_declared, one_designator, one_end, one_import, one_part, one_record, one_used, these_selectors};
ghost use Rattle.module_table.specs.TableStages.{added, closed, builder_rows, advanced, with_selector, stage_of, start, PerformsStep};

use crate::rows::{
    Block, DeclGroup, DeclKind, Declared, Designator, End, Import, Record, Selector, TypePart, Used,
};
use crate::table::Table;
use std::alloc::Global;

/// What encloses a fragment of a module: its innermost block, declaration group and record.
#[derive(Clone, Copy)]
pub struct Context {
    /// The first token of the innermost block.
    pub block: u32,
    /// The first token of the innermost declaration group.
    pub decl_group: u32,
    /// The RECORD keyword of the innermost record, or 0.
    pub of_record: u32,
    /// Whether POINTER TO directly precedes the fragment.
    pub is_target: bool,
}

impl Context {
    /// The context of a module.
    pub const OUTERMOST: Context = Context {
        block: 0,
        decl_group: 0,
        of_record: 0,
        is_target: false,
    };
}

/// A table under construction. After an allocation has failed, its lists are meaningless and `failed` stays set.
#[derive(Drop)]
pub struct TableBuilder {
    /// The number of the next token, from 0.
    pub number: u32,
    /// Whether an allocation has failed.
    pub failed: bool,
    /// The declaration groups.
    pub decl_groups: Vec<DeclGroup>,
    /// The identifiers that are declared.
    pub declared: Vec<Declared>,
    /// The identifiers that the scope rule looks up.
    pub uses: Vec<Used>,
    /// The blocks other than the module's.
    pub blocks: Vec<Block>,
    /// The import items.
    pub imports: Vec<Import>,
    /// The components of type expressions.
    pub parts: Vec<TypePart>,
    /// The records.
    pub records: Vec<Record>,
    /// The designators.
    pub designators: Vec<Designator>,
    /// The selectors of the designators.
    pub selectors: Vec<Selector>,
    /// The names after END.
    pub ends: Vec<End>,
}

/// Appends an entry. If the allocation fails, sets `failed` and clears the list, whose entries no longer matter: later entries use its
/// capacity and don't each try to allocate.
fn append_entry<T: Drop>(rows: &mut Vec<T>, row: T, failed: &mut bool)
    ensures { failed.new ≡ false → (failed.old ≡ false) × (rows.new.items ≡ rows.old.items ++ row ∷ []) }
{
    if rows.push(row).is_err() {
        *failed = true;
        rows.clear();
    }
}

impl TableBuilder {
    /// Consumes a token that adds no entry.
    #[tactic(auto, using(crate::proofs::Steps::growing), unfolding(crate::specs::TableStages::stage_of, crate::specs::TableStages::advanced, crate::specs::TableStages::added, crate::specs::TableStages::closed, crate::specs::Parts::joined))]
    pub fn advance(&mut self)
        // Token numbers have 32 bits.
        requires { self.old.number + 1 < 2 ^ 32 }
        // One token is consumed.
        ensures stage { PerformsStep advanced self.old self.new }
        // The next token number grows by one.
        ensures number { self.new.number ≡ self.old.number + 1 }
        // The flag of a failed allocation is unchanged.
        ensures failed { self.new.failed ≡ self.old.failed }
    {
        self.number += 1;
    }

    /// Appends a declared identifier.
    #[tactic(auto, using(crate::proofs::Steps::growing), unfolding(crate::specs::TableStages::stage_of, crate::specs::TableStages::advanced, crate::specs::TableStages::added, crate::specs::TableStages::closed, crate::specs::Parts::joined))]
    pub fn add_declared(&mut self, row: Declared)
        // The entry is appended, unless an allocation fails.
        ensures stage { PerformsStep (added (one_declared row)) self.old self.new }
        // No token is consumed.
        ensures number { self.new.number ≡ self.old.number }
    {
        append_entry(&mut self.declared, row, &mut self.failed);
    }

    /// Appends an identifier that the scope rule looks up.
    #[tactic(auto, using(crate::proofs::Steps::growing), unfolding(crate::specs::TableStages::stage_of, crate::specs::TableStages::advanced, crate::specs::TableStages::added, crate::specs::TableStages::closed, crate::specs::Parts::joined))]
    pub fn add_used(&mut self, row: Used)
        // The entry is appended, unless an allocation fails.
        ensures stage { PerformsStep (added (one_used row)) self.old self.new }
        // No token is consumed.
        ensures number { self.new.number ≡ self.old.number }
    {
        append_entry(&mut self.uses, row, &mut self.failed);
    }

    /// Appends a block.
    #[tactic(auto, using(crate::proofs::Steps::growing), unfolding(crate::specs::TableStages::stage_of, crate::specs::TableStages::advanced, crate::specs::TableStages::added, crate::specs::TableStages::closed, crate::specs::Parts::joined))]
    pub fn add_block(&mut self, row: Block)
        // The entry is appended, unless an allocation fails.
        ensures stage { PerformsStep (added (one_block row)) self.old self.new }
        // No token is consumed.
        ensures number { self.new.number ≡ self.old.number }
    {
        append_entry(&mut self.blocks, row, &mut self.failed);
    }

    /// Appends an import item.
    #[tactic(auto, using(crate::proofs::Steps::growing), unfolding(crate::specs::TableStages::stage_of, crate::specs::TableStages::advanced, crate::specs::TableStages::added, crate::specs::TableStages::closed, crate::specs::Parts::joined))]
    pub fn add_import(&mut self, row: Import)
        // The entry is appended, unless an allocation fails.
        ensures stage { PerformsStep (added (one_import row)) self.old self.new }
        // No token is consumed.
        ensures number { self.new.number ≡ self.old.number }
    {
        append_entry(&mut self.imports, row, &mut self.failed);
    }

    /// Appends a component of a type expression.
    #[tactic(auto, using(crate::proofs::Steps::growing), unfolding(crate::specs::TableStages::stage_of, crate::specs::TableStages::advanced, crate::specs::TableStages::added, crate::specs::TableStages::closed, crate::specs::Parts::joined))]
    pub fn add_part(&mut self, row: TypePart)
        // The entry is appended, unless an allocation fails.
        ensures stage { PerformsStep (added (one_part row)) self.old self.new }
        // No token is consumed.
        ensures number { self.new.number ≡ self.old.number }
    {
        append_entry(&mut self.parts, row, &mut self.failed);
    }

    /// Appends a record.
    #[tactic(auto, using(crate::proofs::Steps::growing), unfolding(crate::specs::TableStages::stage_of, crate::specs::TableStages::advanced, crate::specs::TableStages::added, crate::specs::TableStages::closed, crate::specs::Parts::joined))]
    pub fn add_record(&mut self, row: Record)
        // The entry is appended, unless an allocation fails.
        ensures stage { PerformsStep (added (one_record row)) self.old self.new }
        // No token is consumed.
        ensures number { self.new.number ≡ self.old.number }
    {
        append_entry(&mut self.records, row, &mut self.failed);
    }

    /// Appends a designator.
    #[tactic(auto, using(crate::proofs::Steps::growing), unfolding(crate::specs::TableStages::stage_of, crate::specs::TableStages::advanced, crate::specs::TableStages::added, crate::specs::TableStages::closed, crate::specs::Parts::joined))]
    pub fn add_designator(&mut self, row: Designator)
        // The entry is appended, unless an allocation fails.
        ensures stage { PerformsStep (added (one_designator row)) self.old self.new }
        // No token is consumed.
        ensures number { self.new.number ≡ self.old.number }
    {
        append_entry(&mut self.designators, row, &mut self.failed);
    }

    /// Appends a selector.
    #[tactic(auto, using(crate::proofs::Steps::growing), unfolding(crate::specs::TableStages::stage_of, crate::specs::TableStages::advanced, crate::specs::TableStages::added, crate::specs::TableStages::closed, crate::specs::Parts::joined))]
    pub fn add_selector(&mut self, row: Selector)
        // The entry is appended, unless an allocation fails.
        ensures stage { PerformsStep (added (these_selectors (row ∷ []))) self.old self.new }
        // No token is consumed.
        ensures number { self.new.number ≡ self.old.number }
    {
        append_entry(&mut self.selectors, row, &mut self.failed);
    }

    /// Appends a name after END.
    #[tactic(auto, using(crate::proofs::Steps::growing), unfolding(crate::specs::TableStages::stage_of, crate::specs::TableStages::advanced, crate::specs::TableStages::added, crate::specs::TableStages::closed, crate::specs::Parts::joined))]
    pub fn add_end(&mut self, row: End)
        // The entry is appended, unless an allocation fails.
        ensures stage { PerformsStep (added (one_end row)) self.old self.new }
        // No token is consumed.
        ensures number { self.new.number ≡ self.old.number }
    {
        append_entry(&mut self.ends, row, &mut self.failed);
    }

    /// Replaces the selector at this index. An index out of bounds, which only a failed allocation can cause, is ignored.
    #[tactic(auto, using(crate::proofs::Steps::growing), unfolding(crate::specs::TableStages::stage_of, crate::specs::TableStages::advanced, crate::specs::TableStages::added, crate::specs::TableStages::with_selector, crate::specs::Parts::joined))]
    pub fn set_selector(&mut self, at: usize, row: Selector)
        // The selector is replaced.
        ensures stage { PerformsStep (with_selector at row) self.old self.new }
        // No token is consumed.
        ensures number { self.new.number ≡ self.old.number }
        // The flag of a failed allocation is unchanged.
        ensures failed { self.new.failed ≡ self.old.failed }
    {
        if at < self.selectors.len() {
            self.selectors[at] = row;
        }
    }

    /// Begins a declaration group, whose last token isn't known yet. Returns its index.
    #[tactic(auto, using(crate::proofs::Steps::growing), unfolding(crate::specs::TableStages::stage_of, crate::specs::TableStages::advanced, crate::specs::TableStages::added, crate::specs::TableStages::closed, crate::specs::Parts::joined))]
    pub fn open_decl_group(&mut self, row: DeclGroup) -> usize
        // The entry is appended, unless an allocation fails.
        ensures stage { PerformsStep (added (one_decl_group row)) self.old self.new }
        // No token is consumed.
        ensures number { self.new.number ≡ self.old.number }
        // The result is the index of the new entry.
        ensures slot { result ≡ length self.old.decl_groups.items }
    {
        let at = self.decl_groups.len();
        append_entry(&mut self.decl_groups, row, &mut self.failed);
        at
    }

    /// Ends the declaration group at this index: replaces its entry by `row` with the token before the next one as last token. An index out
    /// of bounds, which only a failed allocation can cause, is ignored.
    #[tactic(auto, using(crate::proofs::Steps::growing), unfolding(crate::specs::TableStages::stage_of, crate::specs::TableStages::advanced, crate::specs::TableStages::added, crate::specs::TableStages::closed, crate::specs::Parts::joined))]
    pub fn close_decl_group(&mut self, at: usize, row: DeclGroup)
        // The last token is set.
        ensures stage { PerformsStep (closed at row) self.old self.new }
        // No token is consumed.
        ensures number { self.new.number ≡ self.old.number }
        // The flag of a failed allocation is unchanged.
        ensures failed { self.new.failed ≡ self.old.failed }
    {
        if at < self.decl_groups.len() {
            self.decl_groups[at] = DeclGroup {
                last: self.number.saturating_sub(1),
                ..row
            };
        }
    }
}

/// The entry of a declaration group of this kind in this context that begins with the token `first`; its last token is unknown and set to
/// 0.
pub fn new_decl_group(decl_kind: DeclKind, context: Context, first: u32) -> DeclGroup
    ensures { result ≡ decl_group decl_kind context first 0 }
{
    let of_record = match decl_kind {
        DeclKind::Field => Some(context.of_record),
        DeclKind::Import
        | DeclKind::Constant
        | DeclKind::Type
        | DeclKind::Variable
        | DeclKind::Procedure
        | DeclKind::Parameter => None,
    };
    DeclGroup {
        decl_kind,
        first,
        last: 0,
        block: context.block,
        of_record,
    }
}

/// The context inside a declaration group that begins with the token `first`.
pub fn decl_group_context(context: Context, first: u32) -> Context
    ensures { result ≡ declaring_at context first }
{
    Context {
        decl_group: first,
        is_target: false,
        ..context
    }
}

/// The context inside a block that begins with the token `first`.
pub fn block_context(context: Context, first: u32) -> Context
    ensures { result ≡ in_block context first }
{
    Context {
        block: first,
        ..context
    }
}

/// The largest number of tokens in a source file of at most 16 MiB.
const MAX_TOKENS: usize = 16_777_216;

/// An empty list with capacity for `rows` entries. If the allocation fails, the list has no capacity and grows later.
fn list_with_capacity<T: Drop>(alloc: Global, rows: usize) -> Vec<T>
    ensures { result.items ≡ [] }
{
    match Vec::with_capacity(alloc, rows) {
        Ok(list) => list,
        Err(_) => Vec::new(alloc),
    }
}

impl TableBuilder {
    /// An empty builder for about this many tokens. The capacities are typical shares of entries per token, so most lists never have to
    /// grow.
    #[tactic(auto, unfolding(crate::specs::TableStages::stage_of, crate::specs::Parts::no_rows))]
    pub fn new(alloc: Global, tokens: u32) -> TableBuilder
        ensures { stage_of result ≡ start }
    {
        let tokens = (tokens as usize).min(MAX_TOKENS);
        TableBuilder {
            number: 0,
            failed: false,
            decl_groups: list_with_capacity(alloc, tokens / 16),
            declared: list_with_capacity(alloc, tokens / 10),
            uses: list_with_capacity(alloc, tokens / 4),
            blocks: Vec::new(alloc),
            imports: Vec::new(alloc),
            parts: list_with_capacity(alloc, tokens / 16),
            records: Vec::new(alloc),
            designators: list_with_capacity(alloc, tokens / 4),
            selectors: list_with_capacity(alloc, tokens / 8),
            ends: Vec::new(alloc),
        }
    }
}

impl TableBuilder {
    /// The finished table.
    pub fn into_table(self) -> Table
        // The lists are sorted as in every table.
        requires { AreRowsSorted (builder_rows self) }
        ensures { rows_in result ≡ builder_rows self }
    {
        Table {
            decl_groups: self.decl_groups,
            declared: self.declared,
            uses: self.uses,
            blocks: self.blocks,
            imports: self.imports,
            parts: self.parts,
            records: self.records,
            designators: self.designators,
            selectors: self.selectors,
            ends: self.ends,
        }
    }
}
