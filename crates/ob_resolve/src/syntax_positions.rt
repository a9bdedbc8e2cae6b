//! Computes the syntactic positions of all identifiers of a module, by token number, from the entries of the module table.
ghost use Rattle.std.specs.Prelude.{◌≡◌, ◌<◌, ℕ, Bool, IfOk, Some, slice_get};
ghost use Rattle.module_table.specs.Tables.{rows_in};
ghost use Rattle.ob_targets.specs.SyntaxPosition.{is_token, is_alias, is_imported_name, is_declared, is_end_name, is_use, is_selected, is_second, name_of, syntax_position, syntax_position_or};
ghost use Rattle.ob_targets.specs.declared.syntax_position.SyntaxPosition.{SyntaxPosition as SyntaxPositionModel};
ghost use Rattle.ob_targets.specs.declared.syntax_position.SyntaxPosition.TheVariants as syntax_positions;
ghost use Rattle.ob_resolve.specs.Positions.{ArePositionsSet};

use module_table::{Declared, End, Import, Selector, Step, Table, Used};
use ob_targets::SyntaxPosition;
use std::alloc::{AllocError, Global};

/// A kind of entry of the module table, each of which contains one identifier of this kind or none. `has k row` is whether token `k` is the
/// identifier of the entry, and `at` gives the syntactic position of the identifier of the entry with an index.
trait IdentifierEntry {
    type Row: Copy + Drop;

    ghost has: { ℕ → Self.Row → Bool };

    ghost at: { ℕ → SyntaxPositionModel };

    /// The token number of the entry's identifier; `None` if the entry has none.
    fn number(row: Self::Row) -> Option<u32>
        ensures { (k : ℕ) → has k row ≡ is_token k result };

    /// The syntactic position of the identifier of the entry with the index `position`.
    fn syntax_position(position: usize) -> SyntaxPosition
        ensures { result ≡ at position };
}

struct Aliases;

impl IdentifierEntry for Aliases {
    type Row = Import;

    ghost has = { is_alias };

    ghost at = { syntax_positions.Item };

    fn number(row: Import) -> Option<u32> {
        Some(row.alias)
    }

    fn syntax_position(position: usize) -> SyntaxPosition {
        SyntaxPosition::Item(position)
    }
}

struct ModuleNames;

impl IdentifierEntry for ModuleNames {
    type Row = Import;

    ghost has = { is_imported_name };

    ghost at = { syntax_positions.Item };

    fn number(row: Import) -> Option<u32> {
        Some(row.imported)
    }

    fn syntax_position(position: usize) -> SyntaxPosition {
        SyntaxPosition::Item(position)
    }
}

struct DeclaredNames;

impl IdentifierEntry for DeclaredNames {
    type Row = Declared;

    ghost has = { is_declared };

    ghost at = { syntax_positions.Declaration };

    fn number(row: Declared) -> Option<u32> {
        Some(row.number)
    }

    fn syntax_position(position: usize) -> SyntaxPosition {
        SyntaxPosition::Declaration(position)
    }
}

struct EndNames;

impl IdentifierEntry for EndNames {
    type Row = End;

    ghost has = { is_end_name };

    ghost at = { syntax_positions.End };

    fn number(row: End) -> Option<u32> {
        Some(row.number)
    }

    fn syntax_position(position: usize) -> SyntaxPosition {
        SyntaxPosition::End(position)
    }
}

struct Uses;

impl IdentifierEntry for Uses {
    type Row = Used;

    ghost has = { is_use };

    ghost at = { syntax_positions.Use };

    fn number(row: Used) -> Option<u32> {
        Some(row.number)
    }

    fn syntax_position(position: usize) -> SyntaxPosition {
        SyntaxPosition::Use(position)
    }
}

struct Selections;

impl IdentifierEntry for Selections {
    type Row = Selector;

    ghost has = { is_selected };

    ghost at = { syntax_positions.Selected };

    fn number(row: Selector) -> Option<u32> {
        name_of(row.step)
    }

    fn syntax_position(position: usize) -> SyntaxPosition {
        SyntaxPosition::Selected(position)
    }
}

struct SecondNames;

impl IdentifierEntry for SecondNames {
    type Row = Used;

    ghost has = { is_second };

    ghost at = { syntax_positions.QualidentMember };

    fn number(row: Used) -> Option<u32> {
        row.member
    }

    fn syntax_position(position: usize) -> SyntaxPosition {
        SyntaxPosition::QualidentMember(position)
    }
}

/// The token number of the name after the dot of a selector; `None` for a selector of another kind.
pub(crate) fn name_of(step: Step) -> Option<u32>
    ensures { result ≡ name_of step }
{
    match step {
        Step::Field(name) => Some(name),
        Step::Elements(_) => None,
        Step::Target => None,
        Step::Arguments(_) => None,
    }
}

/// Stores the syntactic position of the identifier of each entry in `rows`, by token number. The loop runs backward, so if several entries
/// have the same identifier, the position from the first entry remains.
fn set_positions<P: IdentifierEntry>(positions: &mut [SyntaxPosition], rows: &[P::Row])
    ensures { ArePositionsSet P.has P.at rows.now positions.old positions.new }
{
    let mut position = rows.len();
    'rows: while position > 0 {
        position -= 1;
        if let Some(number) = P::number(rows[position]) {
            if (number as usize) < positions.len() {
                positions[number as usize] = P::syntax_position(position);
            }
        }
    }
}

/// Stores the syntactic positions of all identifiers. There is a pass for each kind of entry; a later pass overwrites positions from an
/// earlier one, so the kind with the highest priority is the last.
fn set_all_positions(positions: &mut [SyntaxPosition], table: &Table)
    ensures { (k : ℕ) (s : SyntaxPositionModel) → slice_get positions.old k ≡ Some s → slice_get positions.new k ≡ Some (syntax_position_or (rows_in table.now) k s) }
{
    set_positions::<SecondNames>(positions, table.uses());
    set_positions::<Selections>(positions, table.selectors());
    set_positions::<Uses>(positions, table.uses());
    set_positions::<EndNames>(positions, table.ends());
    set_positions::<DeclaredNames>(positions, table.declared());
    set_positions::<ModuleNames>(positions, table.imports());
    set_positions::<Aliases>(positions, table.imports());
    if positions.len() > 1 {
        positions[1] = SyntaxPosition::OwnName;
    }
}

/// Computes the syntactic positions of the first `count` tokens, by token number; `Nowhere` for a token that no table entry has. Fails with
/// `AllocError` if an allocation fails.
pub(crate) fn syntax_positions(
    alloc: Global,
    table: &Table,
    count: usize,
) -> Result<Vec<SyntaxPosition>, AllocError>
    ensures { IfOk result (λ v. (k : ℕ) → k < count → slice_get v.items k ≡ Some (syntax_position (rows_in table.now) k)) }
{
    let mut positions = vec![in alloc; SyntaxPosition::Nowhere; count]?;
    set_all_positions(positions.as_mut_slice(), table);
    Ok(positions)
}
