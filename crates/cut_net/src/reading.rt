//! The reader of networks.
ghost use Rattle.std.specs.Prelude.{◌≡◌, ◌≤◌, ℕ, IfErr, IfNone, IfOk, IfSome, List, [], OnOk, Result, length, map};
ghost use Rattle.std.specs.List.{slice_index_or};
ghost use Rattle.digraph.specs.Cycle.{IsCanonicalCycle};
ghost use Rattle.cut_net.specs.Lines.{IsAscending};
ghost use Rattle.cut_net.specs.NetText.{IsNetOutcome, NetError, NetText, HasOutcome, UnlessMemory};
ghost use Rattle.cut_net.specs.Network.{Network, texts};
ghost use Rattle.cut_net.specs.NetReading.{net_of, HasLines, HasTextLines};
ghost use Rattle.cut_net.specs.Cuts.{Any, Imports};
ghost use Rattle.cut_net.specs.WellFormed.{AreBetween, IsAcyclic};

use crate::builder::{NetBuilder, seed_of};
use crate::cycle::find_canonical_cycle;
use crate::line_list::lists_in_one_pass;
use crate::numbering::{names_of_nodes, sorted_names_and_imports, total_weight_fits};
use crate::{Net, NetFault, Priced};
use std::alloc::{AllocError, Global};

/// Adds the lines of the text to an empty builder. Fails with the error of the first line that has one.
fn fill_builder(alloc: Global, bytes: &[u8], builder: &mut NetBuilder) -> Result<(), NetFault>
    requires { HasLines [] builder.old }
    ensures built { OnOk result (HasTextLines bytes.now builder.new) }
    ensures fault { IfErr result (λ fault. UnlessMemory fault (λ refusal. IsNetOutcome bytes.now (Err refusal))) }
{
    let mut line = 0;
    for piece in bytes.split(|b| *b == b'\n') {
        line += 1;
        if let Err(fault) = builder.take(alloc, piece) {
            return Err(fault.at(line));
        }
    }
    Ok(())
}

/// The names and imports of the text by the builder, or the error of the first line that has one.
fn lists_by_builder(
    alloc: Global,
    bytes: &[u8],
    builder: &mut NetBuilder,
) -> Result<(Vec<String>, Vec<Priced>), NetFault>
    requires { HasLines [] builder.old }
    ensures text { IfOk result (λ lists. NetText bytes.now (net_of lists.0.items lists.1.items)) }
    ensures few_names { IfOk result (λ lists. length lists.0.items ≤ 8192) }
    ensures few_imports { IfOk result (λ lists. length lists.1.items ≤ 65536) }
    ensures fault { IfErr result (λ fault. UnlessMemory fault (λ refusal. IsNetOutcome bytes.now (Err refusal))) }
{
    fill_builder(alloc, bytes, builder)?;
    Ok(sorted_names_and_imports(alloc, builder)?)
}

/// The names and imports of the text, or its first error: read in one pass if possible, otherwise by a builder. The builder is freed on
/// return, before the cycle search allocates.
fn lists_of_text(alloc: Global, bytes: &[u8]) -> Result<(Vec<String>, Vec<Priced>), NetFault>
    ensures text { IfOk result (λ lists. NetText bytes.now (net_of lists.0.items lists.1.items)) }
    ensures few_names { IfOk result (λ lists. length lists.0.items ≤ 8192) }
    ensures few_imports { IfOk result (λ lists. length lists.1.items ≤ 65536) }
    ensures fault { IfErr result (λ fault. UnlessMemory fault (λ refusal. IsNetOutcome bytes.now (Err refusal))) }
{
    // If an allocation fails here, the builder still finds an error of a line.
    match lists_in_one_pass(alloc, bytes) {
        Ok(Some(lists)) => return Ok(lists),
        Err(NetFault::TwiceImport { line }) => return Err(NetFault::TwiceImport { line }),
        _ => {}
    }
    let mut builder = NetBuilder::new(alloc, seed_of(bytes));
    lists_by_builder(alloc, bytes, &mut builder)
}

/// The names on the canonical cycle of the imports; none if they are acyclic.
fn names_on_cycle(
    alloc: Global,
    names: &[String],
    imports: &[Priced],
) -> Result<Option<Vec<String>>, AllocError>
    requires between { AreBetween imports.now (length names.now) }
    requires ascending { IsAscending imports.now }
    requires few_names { length names.now ≤ 8192 }
    requires few_imports { length imports.now ≤ 65536 }
    ensures named { IfOk result (λ found. IfSome found (λ named. (cycle : List ℕ) × IsCanonicalCycle (Imports imports.now Any) cycle × (texts named.items ≡ map (λ m. slice_index_or (texts names.now) m []) cycle))) }
    ensures none { IfOk result (λ found. IfNone found (IsAcyclic imports.now)) }
{
    match find_canonical_cycle(alloc, imports, names.len())? {
        None => Ok(None),
        Some(cycle) => Ok(Some(names_of_nodes(alloc, names, cycle.as_slice())?)),
    }
}

/// The network of the text, or its first error.
fn read_net(alloc: Global, bytes: &[u8]) -> Result<Net, NetFault>
    ensures { HasOutcome result (IsNetOutcome bytes.now) }
{
    let (names, imports) = lists_of_text(alloc, bytes)?;
    if !total_weight_fits(imports.as_slice()) {
        return Err(NetFault::WeightOverflow);
    }
    match names_on_cycle(alloc, names.as_slice(), imports.as_slice())? {
        None => Ok(Net::from_parts(alloc, names, imports)),
        Some(names) => Err(NetFault::Cycle { names }),
    }
}

impl Net {
    /// The network of a text. Or its error: that of the first line that has one, else `WeightOverflow` if the total weight is above
    /// 2^64 - 1, else `Cycle`.
    ///
    /// Each line is `module M` or `import M N w`: fields separated by one space, identifiers (Oberon-07 report, section 3), and a weight
    /// from 0 to 2^64 - 1 without leading zeros. Empty lines are skipped, and the last line end may be missing.
    pub fn read(alloc: Global, bytes: &[u8]) -> Result<Net, NetFault>
        // The result is an outcome of the text, unless an allocation failed.
        ensures exact { HasOutcome result (IsNetOutcome bytes.now) }
        // Any outcome of the text is the result, unless an allocation failed.
        ensures only { (o : Result Network NetError) → IsNetOutcome bytes.now o → HasOutcome result (λ p. p ≡ o) }
    {
        read_net(alloc, bytes)
    }
}
