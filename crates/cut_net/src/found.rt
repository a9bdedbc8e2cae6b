//! Lookup of an import in a sorted list, by its two modules.
ghost use Rattle.std.specs.Prelude.{◌≡◌, ◌<◌, IfNone, IfSome, None, Some, find, length, slice_index_or};
ghost use Rattle.cut_net.specs.Cuts.{have_equal_ends};
ghost use Rattle.cut_net.specs.Lines.{compare_ends, IsAscending};
ghost use Rattle.cut_net.specs.Network.{missing_item};

use crate::Priced;
use std::cmp::Ordering;

/// Compares two imports by importer, then by imported module; amounts don't count.
fn compare_ends(line: &Priced, import: Priced) -> Ordering
    ensures { result ≡ compare_ends line.now import }
{
    line.from.cmp(&import.from).then(line.to.cmp(&import.to))
}

/// The index of the entry of `lines` with the two modules of `import`, by binary search; `None` if there is none.
pub(crate) fn find_import_index(lines: &[Priced], import: Priced) -> Option<usize>
    // The lines are strictly sorted.
    requires { IsAscending lines.now }
    ensures within { IfSome result (λ k. k < length lines.now) }
    ensures found { IfSome result (λ k. find (have_equal_ends import) lines.now ≡ Some (slice_index_or lines.now k missing_item)) }
    ensures none { IfNone result (find (have_equal_ends import) lines.now ≡ None) }
{
    match lines.binary_search_by(|line| compare_ends(line, import)) {
        Ok(place) => Some(place),
        Err(_) => None,
    }
}

/// The entry of a sorted list of imports with the two modules of `import`, whatever the amounts; `None` if there is none.
pub fn find_import(lines: &[Priced], import: Priced) -> Option<Priced>
    // The list is strictly sorted.
    requires { IsAscending lines.now }
    // It is the entry with the import's two modules, or none.
    ensures { result ≡ find (have_equal_ends import) lines.now }
{
    match find_import_index(lines, import) {
        Some(place) => Some(lines[place]),
        None => None,
    }
}
