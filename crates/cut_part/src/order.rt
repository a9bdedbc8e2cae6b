//! Topological order of imports (Kahn 1962). The contracts promise only that the result consists of import numbers, not their order.
ghost use Rattle.std.specs.Prelude.{◌≡◌, ◌<◌, ◌≤◌, All, IfOk, OnOk, length, vec_len};
ghost use Rattle.cut_net.specs.WellFormed.{AreBetween};

use cut_net::Priced;
use std::alloc::{AllocError, Global};

/// For each module m its in-degree, and the range `begins[m]..ends[m]` of the numbers of the imports by m.
#[derive(Drop)]
struct ImportRanges {
    begins: Vec<u32>,
    ends: Vec<u32>,
    entering: Vec<u32>,
}

/// The ranges and in-degrees of the modules, in one pass over the imports. The imports of a module are adjacent.
fn import_ranges_of(
    alloc: Global,
    imports: &[Priced],
    modules: u32,
) -> Result<ImportRanges, AllocError>
    requires between { AreBetween imports.now modules }
    requires few { length imports.now ≤ 65536 }
    ensures begins { IfOk result (λ c. vec_len c.begins ≡ modules) }
    ensures ends { IfOk result (λ c. (vec_len c.ends ≡ modules) × All (λ end. end ≤ length imports.now) c.ends.items) }
    ensures entering { IfOk result (λ c. vec_len c.entering ≡ modules) }
{
    let mut begins = vec![in alloc; 0u32; modules as usize]?;
    let mut ends = vec![in alloc; 0u32; modules as usize]?;
    let mut entering = vec![in alloc; 0u32; modules as usize]?;
    for number in 0..imports.len() {
        let from = imports[number].from as usize;
        let to = imports[number].to as usize;
        if ends[from] == 0 {
            begins[from] = number as u32;
        }
        ends[from] = number as u32 + 1;
        entering[to] = entering[to].saturating_add(1);
    }
    Ok(ImportRanges {
        begins,
        ends,
        entering,
    })
}

/// The modules with in-degree 0.
fn sources_of(alloc: Global, entering: &[u32]) -> Result<Vec<u32>, AllocError>
    requires { length entering.now ≤ 8192 }
    ensures { IfOk result (λ free. All (λ m. m < length entering.now) free.items) }
{
    let mut free = Vec::new(alloc);
    for module in 0..entering.len() {
        if entering[module] == 0 {
            free.push(module as u32)?;
        }
    }
    Ok(free)
}

/// Appends the import numbers from `begin` up to `end`, which is excluded, to `numbers`. Subtracts these imports from the in-degrees in
/// `entering`, and appends each module whose in-degree becomes 0 to `free`.
fn remove_imports(
    imports: &[Priced],
    begin: u32,
    end: u32,
    entering: &mut Vec<u32>,
    free: &mut Vec<u32>,
    numbers: &mut Vec<u32>,
) -> Result<(), AllocError>
    requires between { AreBetween imports.now (vec_len entering.old) }
    requires end { end ≤ length imports.now }
    requires free { All (λ m. m < vec_len entering.old) free.old.items }
    requires numbers { All (λ k. k < length imports.now) numbers.old.items }
    ensures entering { OnOk result (vec_len entering.new ≡ vec_len entering.old) }
    ensures free { OnOk result (All (λ m. m < vec_len entering.old) free.new.items) }
    ensures numbers { OnOk result (All (λ k. k < length imports.now) numbers.new.items) }
{
    for number in begin..end {
        numbers.push(number)?;
        let to = imports[number as usize].to;
        let left = entering[to as usize].saturating_sub(1);
        entering[to as usize] = left;
        if left == 0 {
            free.push(to)?;
        }
    }
    Ok(())
}

/// The numbers of a network's imports in topological order: the imports by a module are adjacent, and follow all imports of that module,
/// if the imports are acyclic. The imports by each module must be adjacent in `imports`, as they are in a network. Otherwise the numbers
/// between the first and the last import by a module count as its imports. Fails if an allocation fails.
pub fn topological_imports(
    alloc: Global,
    imports: &[Priced],
    modules: u32,
) -> Result<Vec<u32>, AllocError>
    // The modules of each import are below `modules`.
    requires between { AreBetween imports.now modules }
    // There are at most 8,192 modules.
    requires few_modules { modules ≤ 8192 }
    // There are at most 65,536 imports.
    requires few_imports { length imports.now ≤ 65536 }
    // The result has only numbers of imports.
    ensures { IfOk result (λ numbers. All (λ k. k < length imports.now) numbers.items) }
{
    let counted = import_ranges_of(alloc, imports, modules)?;
    let mut entering = counted.entering;
    let mut free = sources_of(alloc, &entering)?;
    let mut numbers = Vec::with_capacity(alloc, imports.len())?;
    for _ in 0..modules {
        let Some(importer) = free.pop() else {
            return Ok(numbers);
        };
        let (begin, end) = (
            counted.begins[importer as usize],
            counted.ends[importer as usize],
        );
        remove_imports(imports, begin, end, &mut entering, &mut free, &mut numbers)?;
    }
    Ok(numbers)
}
