//! Subnetworks: the modules on paths between two modules, with the imports between them.
ghost use Rattle.std.specs.Prelude.{◌≡◌, ◌<◌, ◌≤◌, ◌&&◌, ℕ, IfOk, All, filter, map, length, slice_index};
ghost use Rattle.cut_net.specs.Cuts.{IsSetOf};
ghost use Rattle.cut_net.specs.Network.{name_of, texts};
ghost use Rattle.cut_net.specs.WellFormed.{AreBetween};
ghost use Rattle.residual_graph.specs.Graphs.{is_flagged};
ghost use Rattle.cut_part.specs.Subnetworks.{are_ends_in, IsBetween};
ghost use Rattle.cut_part.specs.Marks.{renumbered_imports, with_ends, IsNumbering, IsSubnetwork};
ghost use Rattle.cut_part.specs.Renumbering.{renumbered};
ghost use Rattle.cut_part.specs.Reversal.{reversed};

use crate::reach::mark_reachable;
use cut_net::{Net, Priced};
use std::alloc::{AllocError, Global};

/// The subnetwork between two modules: the modules on paths from the one to the other, with all imports between these modules. The two
/// modules are in it even if no path leads from the one to the other; then it has no import.
#[derive(Drop)]
pub struct Subnetwork {
    /// The subnetwork, its modules in the order of the whole network.
    pub net: Net,
    /// For each module of the subnetwork its number in the whole network.
    pub numbers: Vec<u32>,
    /// For each module of the whole network its number in the subnetwork; without meaning for a module that isn't in the subnetwork.
    pub new_numbers: Vec<u32>,
    /// For each module of the whole network whether it is on a path from the one module to the other.
    pub marks: Vec<bool>,
}

/// The reversed imports, in the order of the given ones. Fails if an allocation fails.
pub fn reversed_imports(alloc: Global, imports: &[Priced]) -> Result<Vec<Priced>, AllocError>
    // Each import is reversed.
    ensures { IfOk result (λ v. v.items ≡ map reversed imports.now) }
{
    let mut all = Vec::with_capacity(alloc, imports.len())?;
    for i in imports {
        all.push(Priced {
            from: i.to,
            to: i.from,
            amount: i.amount,
        })?;
    }
    Ok(all)
}

/// A flag for each index, set if both lists have it set.
fn flags_in_both(alloc: Global, some: &[bool], others: &[bool]) -> Result<Vec<bool>, AllocError>
    requires { length some.now ≡ length others.now }
    ensures size { IfOk result (λ marks. length marks.items ≡ length some.now) }
    ensures flags_in_both { IfOk result (λ marks. (m : ℕ) → is_flagged marks.items m ≡ (is_flagged some.now m && is_flagged others.now m)) }
{
    let mut marks = Vec::with_capacity(alloc, some.len())?;
    for m in 0..some.len() {
        let mark = some[m] & others[m];
        marks.push(mark)?;
    }
    Ok(marks)
}

/// The numbers of the flagged modules, sorted; and for each module how many flagged ones have smaller numbers, which is the index of a
/// flagged module in the first list.
fn renumbering(alloc: Global, marks: &[bool]) -> Result<(Vec<u32>, Vec<u32>), AllocError>
    requires { length marks.now ≤ 8192 }
    ensures { IfOk result (λ r. IsNumbering marks.now r.0.items r.1.items) }
{
    let mut numbers = Vec::new(alloc);
    let mut new_numbers = Vec::new(alloc);
    for m in 0..marks.len() {
        new_numbers.push(numbers.len() as u32)?;
        if marks[m] {
            numbers.push(m as u32)?;
        }
    }
    Ok((numbers, new_numbers))
}

/// Whether both modules of the import are flagged.
fn is_internal(import: Priced, marks: &[bool]) -> bool
    requires from { import.from < length marks.now }
    requires to { import.to < length marks.now }
    ensures { result ≡ are_ends_in (is_flagged marks.now) import }
{
    marks[import.from as usize] & marks[import.to as usize]
}

/// The imports between flagged modules, with new numbers.
fn imports_between(
    alloc: Global,
    imports: &[Priced],
    marks: &[bool],
    new_numbers: &[u32],
) -> Result<Vec<Priced>, AllocError>
    requires between { AreBetween imports.now (length marks.now) }
    requires new_numbers { length new_numbers.now ≡ length marks.now }
    ensures { IfOk result (λ v. v.items ≡ map (renumbered (slice_index new_numbers.now)) (filter (are_ends_in (is_flagged marks.now)) imports.now)) }
{
    let mut some = Vec::new(alloc);
    for i in imports {
        if is_internal(*i, marks) {
            some.push(Priced {
                from: new_numbers[i.from as usize],
                to: new_numbers[i.to as usize],
                amount: i.amount,
            })?;
        }
    }
    Ok(some)
}

/// Flags the modules on paths from the one module to the other.
fn flag_modules_on_paths(
    alloc: Global,
    net: &Net,
    from: u32,
    to: u32,
) -> Result<Vec<bool>, AllocError>
    requires from { from < length net.now.names }
    requires to { to < length net.now.names }
    ensures size { IfOk result (λ marks. length marks.items ≡ length net.now.names) }
    ensures between { IfOk result (λ marks. IsSetOf (is_flagged marks.items) (IsBetween net.now from to)) }
{
    net.invariants();
    let forth = mark_reachable(alloc, net.imports(), net.nodes(), from)?;
    let reversed = reversed_imports(alloc, net.imports())?;
    let back = mark_reachable(alloc, &reversed, net.nodes(), to)?;
    let marks = flags_in_both(alloc, &forth, &back)?;
    Ok(marks)
}

/// A copy of the flags, with the flags of `from` and `to` set.
fn flags_with_ends(
    alloc: Global,
    marks: &[bool],
    from: u32,
    to: u32,
) -> Result<Vec<bool>, AllocError>
    requires from { from < length marks.now }
    requires to { to < length marks.now }
    ensures { IfOk result (λ all. all.items ≡ with_ends marks.now from to) }
{
    let mut all = marks.to_vec(alloc)?;
    all[from as usize] = true;
    all[to as usize] = true;
    Ok(all)
}

/// As `renumbering`, with `from` and `to` counted as flagged.
fn renumbering_with_ends(
    alloc: Global,
    marks: &[bool],
    from: u32,
    to: u32,
) -> Result<(Vec<u32>, Vec<u32>), AllocError>
    requires few { length marks.now ≤ 8192 }
    requires from { from < length marks.now }
    requires to { to < length marks.now }
    ensures { IfOk result (λ r. IsNumbering (with_ends marks.now from to) r.0.items r.1.items) }
{
    let all = flags_with_ends(alloc, marks, from, to)?;
    renumbering(alloc, &all)
}

/// The imports and the pins between flagged modules, with new numbers.
fn imports_and_pins_between(
    alloc: Global,
    net: &Net,
    marks: &[bool],
    new_numbers: &[u32],
) -> Result<(Vec<Priced>, Vec<Priced>), AllocError>
    requires marks { length marks.now ≡ length net.now.names }
    requires new_numbers { length new_numbers.now ≡ length marks.now }
    ensures imports { IfOk result (λ v. v.0.items ≡ map (renumbered (slice_index new_numbers.now)) (filter (are_ends_in (is_flagged marks.now)) net.now.imports)) }
    ensures pins { IfOk result (λ v. v.1.items ≡ map (renumbered (slice_index new_numbers.now)) (filter (are_ends_in (is_flagged marks.now)) net.now.pins)) }
{
    net.invariants();
    let imports = imports_between(alloc, net.imports(), marks, new_numbers)?;
    let pins = imports_between(alloc, net.pins(), marks, new_numbers)?;
    Ok((imports, pins))
}

/// The names of the modules with these numbers.
fn names_of(alloc: Global, net: &Net, numbers: &[u32]) -> Result<Vec<String>, AllocError>
    requires { All (λ m. m < length net.now.names) numbers.now }
    ensures { IfOk result (λ names. texts names.items ≡ map (name_of net.now) numbers.now) }
{
    let mut names = Vec::new(alloc);
    for number in numbers {
        names.push(String::from_str(alloc, net.name(*number))?)?;
    }
    Ok(names)
}

/// The import of the subnetwork with the module numbers of the whole network, which `numbers` lists.
fn renumbered_import(line: Priced, numbers: &[u32]) -> Priced
    requires from { line.from < length numbers.now }
    requires to { line.to < length numbers.now }
    ensures { result ≡ renumbered (slice_index numbers.now) line }
{
    Priced {
        from: numbers[line.from as usize],
        to: numbers[line.to as usize],
        amount: line.amount,
    }
}

/// Imports of the subnetwork, with the module numbers of the whole network: module k becomes `numbers[k]`. Fails if an allocation fails.
pub fn renumbered_imports(
    alloc: Global,
    lines: &[Priced],
    numbers: &[u32],
) -> Result<Vec<Priced>, AllocError>
    // The lines are between modules of the subnetwork.
    requires { AreBetween lines.now (length numbers.now) }
    // Each line has the numbers of the whole network.
    ensures { IfOk result (λ v. v.items ≡ renumbered_imports numbers.now lines.now) }
{
    let mut all = Vec::with_capacity(alloc, lines.len())?;
    for line in lines {
        all.push(renumbered_import(*line, numbers))?;
    }
    Ok(all)
}

/// The subnetwork between two modules of a network, which are given by their numbers, with its pins. It has equal flows from the one to
/// the other, and its reported imports are those of the whole network. Fails if an allocation fails.
pub fn between(alloc: Global, net: &Net, from: u32, to: u32) -> Result<Subnetwork, AllocError>
    // `from` is a module.
    requires from { from < length net.now.names }
    // `to` is a module.
    requires to { to < length net.now.names }
    // It is the subnetwork of the modules on paths from `from` to `to`.
    ensures { IfOk result (λ part. IsSubnetwork net.now from to part.marks.items part.numbers.items part.new_numbers.items part.net) }
{
    net.invariants();
    let marks = flag_modules_on_paths(alloc, net, from, to)?;
    let (numbers, new_numbers) = renumbering_with_ends(alloc, &marks, from, to)?;
    let (imports, pins) = imports_and_pins_between(alloc, net, &marks, &new_numbers)?;
    let names = names_of(alloc, net, &numbers)?;
    Ok(Subnetwork {
        net: Net::with_pins(names, imports, pins),
        numbers,
        new_numbers,
        marks,
    })
}
