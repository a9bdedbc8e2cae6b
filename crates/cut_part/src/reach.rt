//! Reachability by paths of imports.
ghost use Rattle.std.specs.Prelude.{◌≡◌, ◌<◌, ◌≤◌, ◌+◌, ◌++◌, ◌∷◌, [], ℕ, IfOk, OnOk, length, vec_len};
ghost use Rattle.digraph.specs.Spreading.{left_over};
ghost use Rattle.cut_net.specs.WellFormed.{AreBetween};
ghost use Rattle.cut_part.specs.Marks.{AreReachable};
ghost use Rattle.cut_part.specs.Reach.{AreImportLists, IsSpreading};

use cut_net::Priced;
use digraph::{LinkedLists, link_by_key};
use std::alloc::{AllocError, Global};

/// Flags the modules that a module imports; a newly flagged one joins the worklist.
fn flag_imported(
    imports: &[Priced],
    linked: &LinkedLists,
    importer: u32,
    marks: &mut Vec<bool>,
    waiting: &mut Vec<u32>,
) -> Result<(), AllocError>
    requires between { AreBetween imports.now (vec_len marks.old) }
    requires linked { AreImportLists imports.now (vec_len marks.old) linked.now.last.items linked.now.before.items (length imports.now) }
    requires importer { importer < vec_len marks.old }
    ensures size { OnOk result (vec_len marks.new ≡ vec_len marks.old) }
    ensures spreading { OnOk result ((start : ℕ) → IsSpreading imports.now start marks.old.items (waiting.old.items ++ importer ∷ []) →
        IsSpreading imports.now start marks.new.items waiting.new.items) }
    ensures less { OnOk result (left_over marks.new.items waiting.new.items ≡ left_over marks.old.items waiting.old.items) }
{
    let mut next = linked.last[importer as usize];
    while next > 0 {
        let number = (next - 1) as usize;
        let to = imports[number].to;
        if !marks[to as usize] {
            marks[to as usize] = true;
            waiting.push(to)?;
        }
        next = linked.before[number];
    }
    Ok(())
}

/// Flags the modules that paths of imports from the start reach. Takes time linear in modules and imports, which isn't proved.
pub(crate) fn mark_reachable(
    alloc: Global,
    imports: &[Priced],
    modules: u32,
    start: u32,
) -> Result<Vec<bool>, AllocError>
    requires between { AreBetween imports.now modules }
    requires few { length imports.now ≤ 65536 }
    requires start { start < modules }
    ensures size { IfOk result (λ marks. length marks.items ≡ modules) }
    ensures mark_reachable { IfOk result (λ marks. AreReachable imports.now start marks.items) }
{
    let linked = link_by_key(
        alloc,
        imports,
        modules as usize,
        |import: &Priced| import.from,
    )?;
    let mut marks = vec![in alloc; false; modules as usize]?;
    let mut waiting = Vec::new(alloc);
    marks[start as usize] = true;
    waiting.push(start)?;
    while let Some(importer) = waiting.pop() {
        flag_imported(imports, &linked, importer, &mut marks, &mut waiting)?;
    }
    Ok(marks)
}
