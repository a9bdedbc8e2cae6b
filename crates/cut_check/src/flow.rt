//! The check of a flow: its bounds, the inflow and outflow of each module, and its value.
ghost use Rattle.std.specs.Prelude.{ℕ, ◌≡◌, ◌≢◌, ◌≤◌, ◌<◌, ◌+◌, ◌^◌, ◌↔◌, IsTrue, IfOk, MatchOption, length, slice_index, slice_set, vec_len};
ghost use Rattle.cut_net.specs.declared.priced.Priced.{Priced};
ghost use Rattle.cut_net.specs.WellFormed.{AreBetween};
ghost use Rattle.cut_check.specs.Sums.{AreAmounts, AreSums, AreWithin, IsFirstAbove, IsFlowVerdict};

use crate::Verdict;
use crate::pins::is_pinned;
use cut_net::{Net, Priced};
use std::alloc::{AllocError, Global};

/// The first unpinned import whose amount exceeds its weight; `None` if there is none. `amounts` has an amount or none for each import.
fn first_over_weight(net: &Net, amounts: &[Option<u64>]) -> Option<Priced>
    requires { length amounts.now ≡ length net.now.imports }
    // With `None` no unpinned import's amount exceeds its weight; with `Some` the import is the first such import.
    ensures { MatchOption result (AreWithin net.now amounts.now (length net.now.imports)) (λ i. IsFirstAbove net.now amounts.now i) }
{
    for (k, i) in net.imports().iter().enumerate() {
        if amounts[k].unwrap_or(0) > i.amount && !is_pinned(net, *i) {
            return Some(*i);
        }
    }
    None
}

/// Adds this amount to the element of `sums` at this index.
fn add_to_sum(sums: &mut Vec<u128>, index: usize, amount: u64)
    requires index { index < vec_len sums.old }
    requires fits { slice_index sums.old.items index + amount < 2 ^ 128 }
    ensures items { sums.new.items ≡ slice_set sums.old.items index (slice_index sums.old.items index + amount) }
    ensures size { vec_len sums.new ≡ vec_len sums.old }
{
    sums[index] += u128::from(amount);
}

/// For each module, its inflow (`into`) and its outflow (`out`). The flow on a pinned import isn't bounded, so a sum may exceed 64 bits.
#[derive(Drop)]
struct Sums {
    into: Vec<u128>,
    out: Vec<u128>,
}

/// The inflow and the outflow of each module, for a flow with these amounts, one for each import (`None` counts as 0). The sums fit into
/// 128 bits, since there are at most 65,536 imports.
fn sums_of(
    alloc: Global,
    imports: &[Priced],
    amounts: &[Option<u64>],
    modules: u32,
) -> Result<Sums, AllocError>
    requires between { AreBetween imports.now modules }
    requires amounts { length amounts.now ≡ length imports.now }
    requires few { length imports.now ≤ 65536 }
    ensures size { IfOk result (λ s. (vec_len s.into ≡ modules) × (vec_len s.out ≡ modules)) }
    // With `Ok` the sums are those of every flow that has these amounts on the imports.
    ensures sums { IfOk result (λ s. (flow : Priced → ℕ) → AreAmounts imports.now flow amounts.now → AreSums imports.now flow modules s.into.items s.out.items) }
{
    let mut into = vec![in alloc; 0; modules as usize]?;
    let mut out = vec![in alloc; 0; modules as usize]?;
    for (k, i) in imports.iter().enumerate() {
        let amount = amounts[k].unwrap_or(0);
        add_to_sum(&mut into, i.to as usize, amount);
        add_to_sum(&mut out, i.from as usize, amount);
    }
    Ok(Sums { into, out })
}

impl Sums {
    /// The module with the smallest number, other than `from` and `to`, whose inflow differs from its outflow; `None` if there is none.
    fn first_unbalanced(&self, modules: u32, from: u32, to: u32) -> Option<u32>
        requires into { vec_len self.now.into ≡ modules }
        requires out { vec_len self.now.out ≡ modules }
        ensures { MatchOption result
            ((m : ℕ) → m < modules → m ≢ from → m ≢ to → slice_index self.now.into.items m ≡ slice_index self.now.out.items m)
            (λ off. (off < modules) × (off ≢ from) × (off ≢ to) × (slice_index self.now.into.items off ≢ slice_index self.now.out.items off) ×
            ((m : ℕ) → m < off → m ≢ from → m ≢ to → slice_index self.now.into.items m ≡ slice_index self.now.out.items m)) }
    {
        for m in 0..modules {
            if m != from && m != to && self.into[m as usize] != self.out[m as usize] {
                return Some(m);
            }
        }
        None
    }

    /// Whether the outflow of the module `node` minus its inflow is this value.
    fn has_value(&self, node: u32, value: u64) -> bool
        requires into { node < vec_len self.now.into }
        requires out { node < vec_len self.now.out }
        ensures { IsTrue result ↔ (slice_index self.now.into.items node + value ≡ slice_index self.now.out.items node) }
    {
        let into = self.into[node as usize];
        let out = self.out[node as usize];
        into <= out && out - into == u128::from(value)
    }
}

/// The verdict on a flow from `from` to `to` that is claimed to have the value `total`. `amounts` has its amount on each import, `None` for
/// 0.
pub(crate) fn check_flow(
    alloc: Global,
    net: &Net,
    amounts: &[Option<u64>],
    from: u32,
    to: u32,
    total: u64,
) -> Result<Verdict, AllocError>
    requires from { from < length net.now.names }
    requires amounts { length amounts.now ≡ length net.now.imports }
    // With `Ok` the verdict is right for the flow that has these amounts on the imports.
    ensures { IfOk result (λ v. (flow : Priced → ℕ) → AreAmounts net.now.imports flow amounts.now → IsFlowVerdict net.now from to flow total v) }
{
    net.invariants();
    let imports = net.imports();
    if let Some(over) = first_over_weight(net, amounts) {
        return Ok(Verdict::OverWeight {
            from: over.from,
            to: over.to,
        });
    }
    let sums = sums_of(alloc, imports, amounts, net.nodes())?;
    if let Some(module) = sums.first_unbalanced(net.nodes(), from, to) {
        return Ok(Verdict::NotKept { module });
    }
    if !sums.has_value(from, total) {
        return Ok(Verdict::WrongValue);
    }
    Ok(Verdict::Yes)
}
