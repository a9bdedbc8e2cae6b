//! Graphs of modules: names, imports, importers, and the order of the names.
ghost use Rattle.std.specs.Prelude.{◌≡◌, ◌↔◌, ◌<◌, ◌≤◌, ◌+◌, ◌==◌, ℕ, cond, IsTrue, length, map, take, All, IfOk, OnOk, OnErr, slice_set, vec_len, [], ◌∷◌, ◌++◌, Vec};
ghost use Rattle.std.specs.List.{range_with_len};
ghost use Rattle.std.specs.String.{string_bytes};
ghost use Rattle.work_board.specs.Graphs.{lists, list_at, occurrences_in, AreImportLists, AreTransposed, IsGraph, IsNameOrder};

use std::alloc::{AllocError, Global};
use std::marker::Model;

/// The largest number of modules of a graph.
const MAX_MODULES: usize = 4096;

/// The largest number of imports of a module, repeated ones counted.
const MAX_IMPORTS: usize = 65536;

/// The modules of a tree by number: their names, what each imports, and what imports each. A graph has at most 4,096 modules, each with at
/// most 65,536 imports, which may repeat.
#[derive(Drop)]
pub struct Graph {
    names: Vec<String>,
    imports: Vec<Vec<u32>>,
    importers: Vec<Vec<u32>>,
    /// The numbers of all modules, sorted by name.
    order: Vec<u32>,
}

impl Model for Graph {
    ghost use Rattle.std.specs.Prelude.{◌≡◌, ◌<◌, ℕ, length, map, All};
    ghost use Rattle.std.specs.String.{string_bytes};
    ghost use Rattle.work_board.specs.Graphs.{lists, list_at, AreTransposed, IsGraph, IsNameOrder, Modules};

    ghost Value = { Modules };

    ghost view = { λ g. record { names = map string_bytes g.names.items; imports = lists g.imports.items } };

    ghost invariant = { λ g. IsGraph (record { names = map string_bytes g.names.items; imports = lists g.imports.items })
        × (length (lists g.importers.items) ≡ length (lists g.imports.items))
        × AreTransposed (lists g.imports.items) (lists g.importers.items)
        × ((n : ℕ) → All (λ m. m < length (lists g.imports.items)) (list_at (lists g.importers.items) n))
        × IsNameOrder (map string_bytes g.names.items) g.order.items };
}

/// `count` empty lists.
fn empty_lists(alloc: Global, count: usize) -> Result<Vec<Vec<u32>>, AllocError>
    ensures size { IfOk result (λ rows. length (lists rows.items) ≡ count) }
    ensures none { IfOk result (λ rows. (n : ℕ) → list_at (lists rows.items) n ≡ []) }
{
    let mut rows = Vec::with_capacity(alloc, count)?;
    for _ in 0..count {
        let none: Vec<u32> = Vec::new(alloc);
        rows.push(none)?;
    }
    Ok(rows)
}

/// Appends the number `by` to the list at index `place`.
fn append_at(rows: &mut Vec<Vec<u32>>, place: usize, by: u32) -> Result<(), AllocError>
    requires { place < vec_len rows.old }
    ensures size { OnOk result (length (lists rows.new.items) ≡ length (lists rows.old.items)) }
    ensures rows { OnOk result (lists rows.new.items ≡ slice_set (lists rows.old.items) place (list_at (lists rows.old.items) place ++ by ∷ [])) }
{
    rows[place].push(by)?;
    Ok(())
}

/// Appends the module `by` to the list of importers of each module in the list `row`. `rows` has for each module its importers.
fn add_importer(rows: &mut Vec<Vec<u32>>, row: &[u32], by: u32) -> Result<(), AllocError>
    requires { All (λ w. w < length (lists rows.old.items)) row.now }
    ensures size { OnOk result (length (lists rows.new.items) ≡ length (lists rows.old.items)) }
    ensures more { OnOk result ((n : ℕ) → occurrences_in by (list_at (lists rows.new.items) n) ≡ occurrences_in by (list_at (lists rows.old.items) n) + occurrences_in n row.now) }
    ensures others { OnOk result ((n x : ℕ) → (x ≡ by → ⊥) → occurrences_in x (list_at (lists rows.new.items) n) ≡ occurrences_in x (list_at (lists rows.old.items) n)) }
    ensures within { OnOk result ((k : ℕ) → by < k → ((n : ℕ) → All (λ w. w < k) (list_at (lists rows.old.items) n)) → (n : ℕ) → All (λ w. w < k) (list_at (lists rows.new.items) n)) }
{
    for imported in row {
        append_at(rows, *imported as usize, by)?;
    }
    Ok(())
}

/// For each module the list of the modules that import it, each as often as it does so. `imports` has for each module its imports.
fn importer_lists(alloc: Global, imports: &[Vec<u32>]) -> Result<Vec<Vec<u32>>, AllocError>
    requires few { length imports.now ≤ 4096 }
    requires within { (m : ℕ) → All (λ w. w < length imports.now) (list_at (lists imports.now) m) }
    ensures size { IfOk result (λ rows. length (lists rows.items) ≡ length (lists imports.now)) }
    ensures transposed { IfOk result (λ rows. AreTransposed (lists imports.now) (lists rows.items)) }
    ensures within { IfOk result (λ rows. (n : ℕ) → All (λ m. m < length (lists imports.now)) (list_at (lists rows.items) n)) }
{
    let mut rows = empty_lists(alloc, imports.len())?;
    for place in 0..imports.len() {
        add_importer(&mut rows, list_at(imports, place), place as u32)?;
    }
    Ok(rows)
}

/// The list at index `place`.
fn list_at(rows: &[Vec<u32>], place: usize) -> &[u32]
    requires { place < length rows.now }
    ensures { result.now ≡ list_at (lists rows.now) place }
{
    rows[place].as_slice()
}

/// Whether each number of the list `row` is less than `count`.
fn all_below(row: &[u32], count: usize) -> bool
    ensures { IsTrue result ↔ All (λ w. w < count) row.now }
{
    row.iter().all(|number| (*number as usize) < count)
}

/// Whether each list has at most `MAX_IMPORTS` numbers, all of them less than `count`.
fn are_valid_imports(rows: &[Vec<u32>], count: usize) -> bool
    ensures { IsTrue result ↔ AreImportLists (lists rows.now) count }
{
    for row in rows {
        if row.len() > MAX_IMPORTS || !all_below(row.as_slice(), count) {
            return false;
        }
    }
    true
}

/// The name of a module, empty if there is no such module.
fn name_of(names: &[String], number: u32) -> &str
    ensures { result.now ≡ list_at (map string_bytes names.now) number }
{
    match names.get(number as usize) {
        None => "",
        Some(name) => name.as_str(),
    }
}

/// The numbers from 0 up to `count`, which is excluded.
fn numbers_below(alloc: Global, count: u32) -> Result<Vec<u32>, AllocError>
    ensures { IfOk result (λ v. v.items ≡ range_with_len 0 count) }
{
    (0..count).collect(alloc)
}

/// The numbers of the names, sorted by name. Sorting takes one pass if the names are sorted.
fn order_by_name(alloc: Global, names: &[String]) -> Result<Vec<u32>, AllocError>
    requires { length names.now ≤ 4096 }
    ensures { IfOk result (λ order. IsNameOrder (map string_bytes names.now) order.items) }
{
    let mut order = numbers_below(alloc, names.len() as u32)?;
    order.sort_unstable_by(|a, b| name_of(names, *a).cmp(&name_of(names, *b)));
    Ok(order)
}

impl Graph {
    /// Whether these names and imports are a graph, as `new` requires: both lists are equally long and within the limits, and each import
    /// is the number of a module.
    pub fn is_graph(names: &[String], imports: &[Vec<u32>]) -> bool
        // There are as many lists as names, at most 4,096, each of at most 65,536 numbers of modules.
        ensures { IsTrue result ↔ IsGraph (record { names = map string_bytes names.now; imports = lists imports.now }) }
    {
        let count = names.len();
        count <= MAX_MODULES && imports.len() == count && are_valid_imports(imports, count)
    }

    /// The graph of these names and imports, both by module number. Fails if an allocation fails.
    pub fn new(
        alloc: Global,
        names: Vec<String>,
        imports: Vec<Vec<u32>>,
    ) -> Result<Graph, AllocError>
        // `is_graph` is true of these names and imports.
        requires { IsGraph (record { names = map string_bytes names.items; imports = lists imports.items }) }
        // The graph has exactly these names and imports.
        ensures { IfOk result (λ graph. graph ≡ record { names = map string_bytes names.items; imports = lists imports.items }) }
    {
        let importers = importer_lists(alloc, imports.as_slice())?;
        let order = order_by_name(alloc, names.as_slice())?;
        Ok(Graph {
            names,
            imports,
            importers,
            order,
        })
    }

    /// The invariant of a graph.
    pub fn invariants(&self)
        // `is_graph` is true of its names and imports.
        ensures { IsGraph self.now }
    {
        let _ = &self.names;
    }

    /// The number of modules.
    pub fn modules(&self) -> u32
        // It is the number of names.
        ensures { result ≡ length self.now.names }
    {
        self.names.len() as u32
    }

    /// The name of a module.
    pub fn name(&self, number: u32) -> &str
        // The graph has a module of this number.
        requires { number < length self.now.names }
        // It is the module's name.
        ensures { result.now ≡ list_at self.now.names number }
    {
        self.names[number as usize].as_str()
    }

    /// The numbers of the modules that a module imports.
    pub fn imports_of(&self, number: u32) -> &[u32]
        // The graph has a module of this number.
        requires { number < length self.now.names }
        // They are the module's imports, repeated ones included.
        ensures { result.now ≡ list_at self.now.imports number }
    {
        self.imports[number as usize].as_slice()
    }

    /// The numbers of the modules that import a module.
    pub fn importers_of(&self, number: u32) -> &[u32]
        // The graph has a module of this number.
        requires { number < length self.now.names }
        // A module m occurs in the result as often as the module `number` in the imports of m.
        ensures transposed { (m : ℕ) → occurrences_in m result.now ≡ occurrences_in number (list_at self.now.imports m) }
        // All are modules of the graph.
        ensures within { All (λ m. m < length self.now.names) result.now }
    {
        list_at(self.importers.as_slice(), number as usize)
    }

    /// The numbers of all modules, sorted by name.
    pub(crate) fn by_name(&self) -> &[u32]
        ensures { IsNameOrder self.now.names result.now }
    {
        self.order.as_slice()
    }
}
