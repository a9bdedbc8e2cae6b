//! Finds the names that are written, by an assignment or as the variable of a FOR statement.
//! `is_written rows k` in the clauses is whether the token with the number `k` is such a name.
ghost use Rattle.std.specs.Prelude.{◌≡◌, ◌<◌, ℕ, IfOk, Some, false, length, replicate, slice_get};
ghost use Rattle.module_table.specs.Tables.{rows_in};
ghost use Rattle.ob_resolve.specs.Positions.{with_flag};
ghost use Rattle.ob_targets.specs.SyntaxPosition.{is_token};
ghost use Rattle.ob_targets.specs.Targets.{is_written, last_name, writes};

use crate::selector_groups::selectors_by_hint;
use crate::syntax_positions::name_of;
use module_table::{Designator, Selector, Table};
use std::alloc::{AllocError, Global};

/// The token number of the last name of the designator with this head and these selectors: the last name after a dot, or else the head.
fn last_name(head: u32, selectors: &[Selector]) -> u32
    ensures { result ≡ last_name head selectors.now }
{
    let mut last = head;
    for selector in selectors {
        if let Some(name) = name_of(selector.step) {
            last = name;
        }
    }
    last
}

/// The token number of the designator's last name, if the designator is written by an assignment or is the variable of a FOR. `None` for
/// any other designator. Fast if it is called for designators in the order of their heads; `hint` is where the search for selectors begins.
fn written_name(table: &Table, hint: &mut usize, designator: Designator) -> Option<u32>
    ensures { (k : ℕ) → writes (rows_in table.now) k designator ≡ is_token k result }
{
    if designator.is_written {
        Some(last_name(
            designator.head,
            selectors_by_hint(table, hint, designator.head),
        ))
    } else {
        None
    }
}

/// Sets the element with the index `name` to true. Does nothing if `name` is `None` or beyond the end of the list.
fn set_flag(written: &mut [bool], name: Option<u32>)
    ensures { written.new ≡ with_flag name written.old }
{
    if let Some(name) = name {
        if (name as usize) < written.len() {
            written[name as usize] = true;
        }
    }
}

/// Sets to true each element whose index is the token number of a name that is written.
fn set_written_flags(written: &mut [bool], table: &Table)
    // All elements are false.
    requires { written.old ≡ replicate (length written.old) false }
    ensures { (k : ℕ) → k < length written.old → slice_get written.new k ≡ Some (is_written (rows_in table.now) k) }
{
    let designators = table.designators();
    let mut hint = 0;
    for designator in designators {
        let name = written_name(table, &mut hint, *designator);
        set_flag(written, name);
    }
}

/// For each of the first `count` tokens, by token number, whether it is a name that is written. Fails with `AllocError` if an allocation
/// fails.
pub(crate) fn written_names(
    alloc: Global,
    table: &Table,
    count: usize,
) -> Result<Vec<bool>, AllocError>
    ensures { IfOk result (λ v. (k : ℕ) → k < count → slice_get v.items k ≡ Some (is_written (rows_in table.now) k)) }
{
    let mut written = vec![in alloc; false; count]?;
    set_written_flags(written.as_mut_slice(), table);
    Ok(written)
}
