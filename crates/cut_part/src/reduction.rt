//! Capacity reduction: the weights of imports, reduced to what a flow between two modules can use.
ghost use Rattle.std.specs.Prelude.{◌≡◌, ◌≢◌, ◌<◌, ◌≤◌, ◌^◌, ◌+◌, ◌-◌, All, IfOk, length, slice_set, slice_index, sum_by, vec_len};
ghost use Rattle.cut_net.specs.WellFormed.{AreBetween};
ghost use Rattle.cut_part.specs.CapacityReduction.{import_in, weighing};
ghost use Rattle.cut_part.specs.WeightSums.{weight_of, AreWeightSums, IsReducedWeight, ReducesTo};

use cut_net::Priced;
use std::alloc::{AllocError, Global};

/// Imports, with the sums of the incoming and outgoing weights of each module.
#[derive(Drop)]
struct WeightSums {
    imports: Vec<Priced>,
    leaving: Vec<u64>,
    entering: Vec<u64>,
}

/// Adds an amount to the sum at index `place`.
fn add_to_sum(sums: &mut Vec<u64>, place: usize, amount: u64)
    requires place { place < vec_len sums.old }
    requires fits { slice_index sums.old.items place + amount < 2 ^ 64 }
    ensures items { sums.new.items ≡ slice_set sums.old.items place (slice_index sums.old.items place + amount) }
{
    sums[place] += amount;
}

/// Subtracts an amount from the sum at index `place`.
fn subtract_from_sum(sums: &mut Vec<u64>, place: usize, amount: u64)
    requires place { place < vec_len sums.old }
    requires fits { amount ≤ slice_index sums.old.items place }
    ensures items { sums.new.items ≡ slice_set sums.old.items place (slice_index sums.old.items place - amount) }
{
    sums[place] -= amount;
}

/// The minimum of the weight and the sum.
fn reduced_weight(weight: u64, sum: u64) -> u64
    ensures { IsReducedWeight weight result sum }
{
    if sum < weight { sum } else { weight }
}

impl WeightSums {
    /// Sets the weight of an import to a smaller one.
    fn reduce(&mut self, number: usize, amount: u64)
        requires weight_sums { AreWeightSums self.old.imports.items self.old.leaving.items self.old.entering.items }
        requires number { number < length self.old.imports.items }
        requires below { amount ≤ (import_in self.old.imports.items number).amount }
        ensures imports { self.new.imports.items ≡ slice_set self.old.imports.items number (weighing (import_in self.old.imports.items number) amount) }
        ensures weight_sums { AreWeightSums self.new.imports.items self.new.leaving.items self.new.entering.items }
        ensures size { length self.new.leaving.items ≡ length self.old.leaving.items }
    {
        let import = self.imports[number];
        let less = import.amount - amount;
        subtract_from_sum(&mut self.leaving, import.from as usize, less);
        subtract_from_sum(&mut self.entering, import.to as usize, less);
        self.imports[number] = Priced {
            from: import.from,
            to: import.to,
            amount,
        };
    }

    /// Reduces the weight of an import to the outgoing weight of its imported module, unless that is the sink.
    fn reduce_to_outflow(&mut self, number: usize, from: u32, to: u32)
        requires weight_sums { AreWeightSums self.old.imports.items self.old.leaving.items self.old.entering.items }
        requires number { number < length self.old.imports.items }
        requires ends { (from < length self.old.leaving.items) × (from ≢ to) }
        ensures narrows { ReducesTo (length self.old.leaving.items) self.old.imports.items self.new.imports.items from to }
        ensures weight_sums { AreWeightSums self.new.imports.items self.new.leaving.items self.new.entering.items }
        ensures size { (length self.new.leaving.items ≡ length self.old.leaving.items) × (length self.new.imports.items ≡ length self.old.imports.items) }
    {
        let import = self.imports[number];
        if import.to != to {
            let room = reduced_weight(import.amount, self.leaving[import.to as usize]);
            self.reduce(number, room);
        }
    }

    /// Reduces the weight of an import to the incoming weight of its importer, unless that is the source.
    fn reduce_to_inflow(&mut self, number: usize, from: u32, to: u32)
        requires weight_sums { AreWeightSums self.old.imports.items self.old.leaving.items self.old.entering.items }
        requires number { number < length self.old.imports.items }
        requires ends { (from < length self.old.leaving.items) × (from ≢ to) }
        ensures narrows { ReducesTo (length self.old.leaving.items) self.old.imports.items self.new.imports.items from to }
        ensures weight_sums { AreWeightSums self.new.imports.items self.new.leaving.items self.new.entering.items }
        ensures size { (length self.new.leaving.items ≡ length self.old.leaving.items) × (length self.new.imports.items ≡ length self.old.imports.items) }
    {
        let import = self.imports[number];
        if import.from != from {
            let room = reduced_weight(import.amount, self.entering[import.from as usize]);
            self.reduce(number, room);
        }
    }

    /// Reduces the weights of these imports to the outgoing weights of their imported modules, from the last import to the first.
    fn reduce_backward(&mut self, order: &[u32], from: u32, to: u32)
        requires weight_sums { AreWeightSums self.old.imports.items self.old.leaving.items self.old.entering.items }
        requires order { All (λ k. k < length self.old.imports.items) order.now }
        requires ends { (from < length self.old.leaving.items) × (from ≢ to) }
        ensures narrows { ReducesTo (length self.old.leaving.items) self.old.imports.items self.new.imports.items from to }
        ensures weight_sums { AreWeightSums self.new.imports.items self.new.leaving.items self.new.entering.items }
        ensures size { (length self.new.leaving.items ≡ length self.old.leaving.items) × (length self.new.imports.items ≡ length self.old.imports.items) }
    {
        for back in 0..order.len() {
            let number = order[order.len() - 1 - back];
            self.reduce_to_outflow(number as usize, from, to);
        }
    }

    /// Reduces the weights of these imports to the incoming weights of their importers, from the first import to the last.
    fn reduce_forward(&mut self, order: &[u32], from: u32, to: u32)
        requires weight_sums { AreWeightSums self.old.imports.items self.old.leaving.items self.old.entering.items }
        requires order { All (λ k. k < length self.old.imports.items) order.now }
        requires ends { (from < length self.old.leaving.items) × (from ≢ to) }
        ensures narrows { ReducesTo (length self.old.leaving.items) self.old.imports.items self.new.imports.items from to }
        ensures weight_sums { AreWeightSums self.new.imports.items self.new.leaving.items self.new.entering.items }
        ensures size { (length self.new.leaving.items ≡ length self.old.leaving.items) × (length self.new.imports.items ≡ length self.old.imports.items) }
    {
        for number in order {
            self.reduce_to_inflow(*number as usize, from, to);
        }
    }
}

/// A copy of the imports, with the sums of the outgoing and the incoming weights of each module.
fn weight_sums_of(alloc: Global, imports: &[Priced], modules: u32) -> Result<WeightSums, AllocError>
    requires between { AreBetween imports.now modules }
    requires fits { sum_by weight_of imports.now < 2 ^ 64 }
    ensures imports { IfOk result (λ t. t.imports.items ≡ imports.now) }
    ensures size { IfOk result (λ t. length t.leaving.items ≡ modules) }
    ensures weight_sums { IfOk result (λ t. AreWeightSums t.imports.items t.leaving.items t.entering.items) }
{
    let mut leaving = vec![in alloc; 0; modules as usize]?;
    let mut entering = vec![in alloc; 0; modules as usize]?;
    let mut copied = Vec::with_capacity(alloc, imports.len())?;
    for import in imports {
        add_to_sum(&mut leaving, import.from as usize, import.amount);
        add_to_sum(&mut entering, import.to as usize, import.amount);
        copied.push(*import)?;
    }
    Ok(WeightSums {
        imports: copied,
        leaving,
        entering,
    })
}

/// The imports with reduced weights: in reverse `order` each is reduced to the outgoing weight of its imported module, then in `order` to
/// the incoming weight of its importer. In any order no flow from `from` to `to` is lost; a topological order reduces most. Fails if an
/// allocation fails.
pub fn reduced_capacities(
    alloc: Global,
    imports: &[Priced],
    modules: u32,
    order: &[u32],
    from: u32,
    to: u32,
) -> Result<Vec<Priced>, AllocError>
    // The modules of each import are below `modules`.
    requires between { AreBetween imports.now modules }
    // The sum of the weights fits 64 bits.
    requires fits { sum_by weight_of imports.now < 2 ^ 64 }
    // The order has only numbers of imports.
    requires order { All (λ k. k < length imports.now) order.now }
    // `from` is a module, and not `to`.
    requires ends { (from < modules) × (from ≢ to) }
    // The imports are a reduction of the given ones between `from` and `to`.
    ensures { IfOk result (λ v. ReducesTo modules imports.now v.items from to) }
{
    let mut weight_sums = weight_sums_of(alloc, imports, modules)?;
    weight_sums.reduce_backward(order, from, to);
    weight_sums.reduce_forward(order, from, to);
    Ok(weight_sums.imports)
}
