//! The check of the reported weights.
ghost use Rattle.std.specs.Prelude.{◌≡◌, ◌<◌, ◌^◌, ◌↔◌, Bool, IsTrue, IfSome, length, sum_by};
ghost use Rattle.cut_net.specs.declared.priced.Priced.{Priced};
ghost use Rattle.cut_net.specs.Cuts.{weight};
ghost use Rattle.cut_net.specs.Pins.{IsRemovable};
ghost use Rattle.cut_check.specs.Sums.{HaveAmounts, AreImportWeights};

use crate::pins::is_pinned;
use cut_net::{Net, Priced};

/// Whether the amount equals the weight; true if there is no amount.
fn matches_weight(amount: Option<u64>, weight: u64) -> bool
    ensures { IsTrue result ↔ IfSome amount (λ x. x ≡ weight) }
{
    match amount {
        Some(x) => x == weight,
        None => true,
    }
}

/// Whether each amount equals the weight of its import, and the sum of the amounts is `total`. `amounts` has an amount or none for each
/// import.
fn is_total_of_weights(imports: &[Priced], amounts: &[Option<u64>], total: u64) -> bool
    requires amounts { length amounts.now ≡ length imports.now }
    requires fits { sum_by (λ i. i.amount) imports.now < 2 ^ 64 }
    // For the set x of the imports that have amounts: their amounts are their weights, and `total` is the weight of x.
    ensures { (x : Priced → Bool) → HaveAmounts imports.now x amounts.now →
        (IsTrue result ↔ (AreImportWeights imports.now amounts.now × (total ≡ weight imports.now x))) }
{
    let mut sum = 0;
    for (k, i) in imports.iter().enumerate() {
        if !matches_weight(amounts[k], i.amount) {
            return false;
        }
        sum += amounts[k].unwrap_or(0);
    }
    sum == total
}

/// Whether no import that has an amount is pinned. `amounts` has an amount or none for each import.
fn are_removable(net: &Net, amounts: &[Option<u64>]) -> bool
    requires { length amounts.now ≡ length net.now.imports }
    ensures { (x : Priced → Bool) → HaveAmounts net.now.imports x amounts.now → (IsTrue result ↔ IsRemovable net.now x) }
{
    for (k, i) in net.imports().iter().enumerate() {
        if amounts[k].is_some() && is_pinned(net, *i) {
            return false;
        }
    }
    true
}

/// Whether no import that has an amount is pinned, each amount equals the weight of its import, and the sum of the amounts is `total`.
pub(crate) fn has_right_weights(net: &Net, amounts: &[Option<u64>], total: u64) -> bool
    requires { length amounts.now ≡ length net.now.imports }
    ensures { (x : Priced → Bool) → HaveAmounts net.now.imports x amounts.now →
        (IsTrue result ↔ (IsRemovable net.now x × AreImportWeights net.now.imports amounts.now × (total ≡ weight net.now.imports x))) }
{
    net.invariants();
    are_removable(net, amounts) && is_total_of_weights(net.imports(), amounts, total)
}
