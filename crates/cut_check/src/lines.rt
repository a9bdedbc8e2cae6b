//! Matches the lines of a report with the imports of the network. Both are sorted, so one pass suffices.
ghost use Rattle.std.specs.Prelude.{◌≡◌, ℕ, IfOk, Option, is_some, map, not};
ghost use Rattle.cut_net.specs.Cuts.{have_equal_ends};
ghost use Rattle.cut_check.specs.MatchedLines.{AreMatched, IsLineAt};

use cut_net::{Net, Priced};
use std::alloc::{AllocError, Global};

/// Whether the two imports have equal importers and equal imported modules. Their amounts may differ.
fn has_equal_ends(i: Priced, j: Priced) -> bool
    ensures { result ≡ have_equal_ends i j }
{
    i.from == j.from && i.to == j.to
}

/// The amount of the line at index `next`, if there is such a line and it is of the import `i`; otherwise `None`.
fn amount_of_line_at(i: Priced, lines: &[Priced], next: usize) -> Option<u64>
    ensures { IsLineAt i lines.now next result }
{
    if next < lines.len() && has_equal_ends(i, lines[next]) {
        Some(lines[next].amount)
    } else {
        None
    }
}

/// The result of matching lines with imports. `amounts` has for each import the amount of its line, `None` without a line. `count` is the
/// number of lines before the first one that isn't an import of the network or isn't after its predecessor.
#[derive(Drop)]
pub(crate) struct MatchedLines {
    pub(crate) amounts: Vec<Option<u64>>,
    pub(crate) count: usize,
}

/// Matches the lines with the imports of the network, up to the first line that isn't an import of the network or isn't after its
/// predecessor.
pub(crate) fn match_lines(
    alloc: Global,
    net: &Net,
    lines: &[Priced],
) -> Result<MatchedLines, AllocError>
    ensures { IfOk result (λ m. AreMatched net.now lines.now m.count m.amounts.items) }
{
    net.invariants();
    let imports = net.imports();
    let mut amounts = Vec::new(alloc);
    let mut count = 0;
    for i in imports {
        let amount = amount_of_line_at(*i, lines, count);
        amounts.push(amount)?;
        if amount.is_some() {
            count += 1;
        }
    }
    Ok(MatchedLines { amounts, count })
}

/// For each import a flag, whether it has no line. `amounts` has for each import the amount of its line, `None` without a line.
pub(crate) fn imports_without_line(
    alloc: Global,
    amounts: &[Option<u64>],
) -> Result<Vec<bool>, AllocError>
    ensures { IfOk result (λ v. v.items ≡ map (λ (amount : Option ℕ). not (is_some amount)) amounts.now) }
{
    amounts.iter().map(|amount| amount.is_none()).collect(alloc)
}
