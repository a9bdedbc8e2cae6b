//! Sorted names and imports of a network, from the builder's tables, which are in order of first occurrence.
ghost use Rattle.std.specs.Prelude.{◌≡◌, ◌<◌, ◌≤◌, ◌^◌, ◌↔◌, All, Contains, IfOk, IsPermutation, List, IsTrue, [], length, map, sum_by, vec_len, slice_index, ℕ};
ghost use Rattle.std.specs.List.{slice_index_or, IsDistinct};
ghost use Rattle.std.specs.Str.{bytes_eq};
ghost use Rattle.cut_net.specs.Cuts.{have_equal_ends};
ghost use Rattle.cut_net.specs.Lines.{IsAscending};
ghost use Rattle.cut_net.specs.Network.{texts};
ghost use Rattle.cut_net.specs.NetReading.{entry_line, import_line, net_of, HasLines, IsBuilder};
ghost use Rattle.cut_net.specs.NetText.{IsNetOf, NetLine};
ghost use Rattle.cut_net.specs.WellFormed.{AreBetween, AreNamesInOrder};

use crate::Priced;
use crate::builder::NetBuilder;
use crate::net::name_index;
use crate::ordering::{is_ascending, sorted_by_counting};
use crate::recent::NameCache;
use std::alloc::{AllocError, Global};

/// A copy of the names, in their order.
pub(crate) fn copy_names(alloc: Global, names: &[String]) -> Result<Vec<String>, AllocError>
    ensures { IfOk result (λ copies. texts copies.items ≡ texts names.now) }
{
    let mut copies = Vec::with_capacity(alloc, names.len())?;
    for name in names {
        copies.push(String::from_str(alloc, name.as_str())?)?;
    }
    Ok(copies)
}

/// A sorted copy of the names, which are distinct.
pub(crate) fn sorted_copy(alloc: Global, names: &[String]) -> Result<Vec<String>, AllocError>
    requires once { IsDistinct bytes_eq (texts names.now) }
    ensures ascending { IfOk result (λ sorted. AreNamesInOrder (texts sorted.items)) }
    ensures same { IfOk result (λ sorted. IsPermutation (texts names.now) (texts sorted.items)) }
{
    let mut sorted = copy_names(alloc, names)?;
    sorted.sort_unstable();
    Ok(sorted)
}

/// The index of a name in a strictly sorted list that has it.
fn number_of_name(names: &[String], name: &str) -> u32
    requires ascending { AreNamesInOrder (texts names.now) }
    requires few { length names.now ≤ 8192 }
    requires known { Contains (texts names.now) name.now }
    ensures within { result < length names.now }
    ensures place { slice_index_or (texts names.now) result [] ≡ name.now }
{
    name_index(names, name).unwrap() as u32
}

/// The index of a name in a strictly sorted list that has it. Compares the name at `cached_index` first, to save the binary search.
fn number_by_guess(names: &[String], cached_index: usize, name: &str) -> u32
    requires ascending { AreNamesInOrder (texts names.now) }
    requires few { length names.now ≤ 8192 }
    requires known { Contains (texts names.now) name.now }
    ensures within { result < length names.now }
    ensures place { slice_index_or (texts names.now) result [] ≡ name.now }
{
    if cached_index < names.len() && names[cached_index].as_str() == name {
        cached_index as u32
    } else {
        number_of_name(names, name)
    }
}

/// For each name of `old` its index in `names`, the sorted list of the same names.
pub(crate) fn numbers_of(
    alloc: Global,
    old: &[String],
    names: &[String],
) -> Result<Vec<u32>, AllocError>
    requires ascending { AreNamesInOrder (texts names.now) }
    requires few { length names.now ≤ 8192 }
    requires same { IsPermutation (texts old.now) (texts names.now) }
    ensures size { IfOk result (λ numbers. vec_len numbers ≡ length old.now) }
    ensures numbers { IfOk result (λ numbers. (k : ℕ) → k < length numbers.items → (slice_index numbers.items k < length (texts names.now)) × (slice_index_or (texts names.now) (slice_index numbers.items k) [] ≡ slice_index_or (texts old.now) k [])) }
{
    let slots = NameCache::from_names(alloc, names);
    let mut numbers = Vec::with_capacity(alloc, old.len())?;
    for name in old {
        let name = name.as_str();
        numbers.push(number_by_guess(names, slots.cached_index(name), name))?;
    }
    Ok(numbers)
}

/// The import whose names have the indices `ends`, with these replaced by module numbers: index k by `numbers[k]`.
pub(crate) fn renumbered_import(numbers: &[u32], ends: (usize, usize), amount: u64) -> Priced
    requires placed { (ends.0 < length numbers.now) × (ends.1 < length numbers.now) }
    ensures between { (old names : List (List ℕ)) → ((k : ℕ) → k < length numbers.now → (slice_index numbers.now k < length names) × (slice_index_or names (slice_index numbers.now k) [] ≡ slice_index_or old k [])) → (result.from < length names) × (result.to < length names) }
    ensures line { (old names : List (List ℕ)) → ((k : ℕ) → k < length numbers.now → (slice_index numbers.now k < length names) × (slice_index_or names (slice_index numbers.now k) [] ≡ slice_index_or old k [])) → import_line names result ≡ entry_line old (ends, amount) }
{
    Priced {
        from: numbers[ends.0],
        to: numbers[ends.1],
        amount,
    }
}

/// The builder's imports in the order of their lines, each with the numbers of its modules: the indices of their names in `names`.
fn numbered_imports(
    alloc: Global,
    builder: &NetBuilder,
    names: &[String],
) -> Result<Vec<Priced>, AllocError>
    requires ascending { AreNamesInOrder (texts names.now) }
    requires few { length names.now ≤ 8192 }
    requires built { IsBuilder builder.now }
    requires same { IsPermutation (texts builder.now.names.keys) (texts names.now) }
    ensures between { IfOk result (λ imports. AreBetween imports.items (length names.now)) }
    ensures listed { IfOk result (λ imports. map (import_line (texts names.now)) imports.items ≡ map (entry_line (texts builder.now.names.keys)) builder.now.imports.entries) }
{
    let numbers = numbers_of(alloc, builder.names.as_slice(), names)?;
    let mut imports = Vec::with_capacity(alloc, builder.imports.len())?;
    for (ends, weight) in &builder.imports {
        imports.push(renumbered_import(&numbers, *ends, *weight))?;
    }
    Ok(imports)
}

/// Sorts imports by importer and imported module: in linear time by counting sort if there are enough imports for their modules,
/// otherwise by comparisons.
pub fn sort_imports(imports: &mut Vec<Priced>)
    // The new imports are the old ones in another order.
    ensures same { IsPermutation imports.old.items imports.new.items }
    // The new imports are strictly sorted, if no two of the old ones have equal modules.
    ensures ascending { IsDistinct have_equal_ends imports.old.items → IsAscending imports.new.items }
{
    if is_ascending(imports) {
        return;
    }
    if let Ok(Some(listed)) = sorted_by_counting(*imports.allocator(), imports) {
        *imports = listed;
        return;
    }
    imports.sort_unstable_by_key(|import| (import.from, import.to));
}

/// The names and imports of the builder's lines, both sorted, with module numbers by name.
pub(crate) fn sorted_names_and_imports(
    alloc: Global,
    builder: &NetBuilder,
) -> Result<(Vec<String>, Vec<Priced>), AllocError>
    requires built { IsBuilder builder.now }
    ensures is_net { IfOk result (λ lists. (lines : List NetLine) → HasLines lines builder.now → IsNetOf lines (net_of lists.0.items lists.1.items)) }
    ensures few_names { IfOk result (λ lists. length lists.0.items ≤ 8192) }
    ensures few_imports { IfOk result (λ lists. length lists.1.items ≤ 65536) }
{
    let names = sorted_copy(alloc, builder.names.as_slice())?;
    let mut imports = numbered_imports(alloc, builder, names.as_slice())?;
    sort_imports(&mut imports);
    Ok((names, imports))
}

/// Whether the sum of the weights fits 64 bits.
pub(crate) fn total_weight_fits(imports: &[Priced]) -> bool
    ensures { IsTrue result ↔ (sum_by (λ i. i.amount) imports.now < 2 ^ 64) }
{
    let mut total: u64 = 0;
    for import in imports {
        let Some(sum) = total.checked_add(import.amount) else {
            return false;
        };
        total = sum;
    }
    true
}

/// The names of the modules with these numbers.
pub(crate) fn names_of_nodes(
    alloc: Global,
    names: &[String],
    nodes: &[u32],
) -> Result<Vec<String>, AllocError>
    requires { All (λ m. m < length names.now) nodes.now }
    ensures { IfOk result (λ named. texts named.items ≡ map (λ m. slice_index_or (texts names.now) m []) nodes.now) }
{
    let mut named = Vec::new(alloc);
    for node in nodes {
        named.push(String::from_str(alloc, names[*node as usize].as_str())?)?;
    }
    Ok(named)
}
