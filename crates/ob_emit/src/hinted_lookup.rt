//! Lookups in the module table for a pass over a module in source order. Each lookup begins at the entry that the last one found.
ghost use Rattle.std.specs.Prelude.{◌≡◌, ◌==◌, find, Contains, IfNone, IfSome};
ghost use Rattle.module_table.specs.declared.rows.Declared.{Declared};
ghost use Rattle.module_table.specs.declared.rows.DeclGroup.{DeclGroup};
ghost use Rattle.module_table.specs.Tables.{rows_in};
ghost use Rattle.module_table.specs.Order.{IsIncreasingBy, HasNoneBy, IsIndexBy};
ghost use Rattle.ob_view.specs.World.{decl_group_of};

use module_table::{DeclGroup, Declared, Keyed, Table, index_of};
use ob_view::View;

/// The number of entries that a lookup tries, from the hint on, before it falls back to a binary search.
const MAX_PROBES: usize = 4;

/// What the lookups of a pass found last: a line, the index of a declared identifier, and the index of a declaration group. The values are
/// hints, which make lookups faster and don't affect their results.
#[derive(Clone, Copy, Drop)]
pub(crate) struct Hints {
    pub(crate) line: u32,
    identifier: usize,
    construct: usize,
}

impl Hints {
    /// The hints at the start of a pass: all are 0.
    pub(crate) fn new() -> Hints {
        Hints {
            line: 0,
            identifier: 0,
            construct: 0,
        }
    }
}

/// The index of the entry whose key is this number, or `None` if there is none. Tries some entries from index `hint` on, then searches by a
/// binary search.
fn row_index_by_hint<T: Keyed>(rows: &[T], hint: usize, number: u32) -> Option<usize>
    // The entries are sorted by key, and no two have the same key.
    requires { IsIncreasingBy T.number_in rows.now }
    ensures found { IfSome result (IsIndexBy T.number_in rows.now number) }
    ensures none { IfNone result (HasNoneBy T.number_in rows.now number) }
{
    for at in hint..hint.saturating_add(MAX_PROBES) {
        if let Some(row) = rows.get(at) {
            if row.key() == number {
                return Some(at);
            }
        }
    }
    index_of(rows, number)
}

/// The entry whose key is this number, or `None` if there is none. The search begins at the index in `hint`; if it finds the entry, it
/// stores the entry's index in `hint`.
fn row_by_hint<'r, T: Keyed>(rows: &'r [T], hint: &mut usize, number: u32) -> Option<&'r T>
    // The entries are sorted by key, and no two have the same key.
    requires { IsIncreasingBy T.number_in rows.now }
    ensures found { IfSome result (λ row. Contains rows.now row.now) }
    ensures number { IfSome result (λ row. T.number_in row.now ≡ number) }
    ensures none { IfNone result ((row : T) → Contains rows.now row → T.number_in row ≡ number → ⊥) }
{
    let at = row_index_by_hint(rows, *hint, number)?;
    *hint = at;
    Some(&rows[at])
}

/// The declaration group whose first token is `first`, or `None` if there is none. The search begins at the index in `hint` and updates it.
pub(crate) fn decl_group_by_hint(table: &Table, hint: &mut usize, first: u32) -> Option<DeclGroup>
    ensures { result ≡ find (λ (by : DeclGroup). by.first == first) (rows_in table.now).decl_groups }
{
    table.invariants();
    row_by_hint(table.decl_groups(), hint, first).copied()
}

/// The entry of the identifier that this token declares, or `None` if there is none. The search begins at the index in `hint` and updates
/// it.
fn declared_by_hint(table: &Table, hint: &mut usize, number: u32) -> Option<Declared>
    ensures { result ≡ find (λ (d : Declared). d.number == number) (rows_in table.now).declared }
{
    table.invariants();
    row_by_hint(table.declared(), hint, number).copied()
}

/// The declaration group of the identifier that this token declares, or `None` if it declares none. The searches begin at the indices in
/// `hint` and update them.
pub(crate) fn decl_group_by_hints(
    view: &View<'_>,
    hint: &mut Hints,
    number: u32,
) -> Option<DeclGroup>
    ensures { result ≡ decl_group_of view.now number }
{
    let declared = declared_by_hint(view.table(), &mut hint.identifier, number)?;
    decl_group_by_hint(view.table(), &mut hint.construct, declared.declared_by)
}
