//! The imports that a report removes or gives flow, and the modules at their ends.
ghost use Rattle.std.specs.Prelude.{◌≡◌, IfOk, filter, length};
ghost use Rattle.cut_net.specs.Cuts.{IsSetOf};
ghost use Rattle.cut_net.specs.Lines.{IsAscending};
ghost use Rattle.cut_net.specs.WellFormed.{AreBetween};
ghost use Rattle.residual_graph.specs.Graphs.{is_flagged};
ghost use Rattle.cut_dot.specs.Pictures.{is_reported, IsImportEnd};

use crate::lines::{flow_on, is_removed};
use cut_net::Priced;
use std::alloc::{AllocError, Global};

/// Whether the report removes the import, or gives it a flow above 0.
fn is_reported(removed: &[Priced], flow: &[Priced], import: Priced) -> bool
    // The removed imports are strictly sorted.
    requires removed { IsAscending removed.now }
    // The imports with flow are strictly sorted.
    requires flow { IsAscending flow.now }
    ensures { result ≡ is_reported removed.now flow.now import }
{
    is_removed(removed, import) || flow_on(flow, import) > 0
}

/// Those of `imports` that the report removes or gives flow, in the order of `imports`. Each is looked up in the report's lists by binary
/// search.
pub(crate) fn filter_reported(
    alloc: Global,
    imports: &[Priced],
    removed: &[Priced],
    flow: &[Priced],
) -> Result<Vec<Priced>, AllocError>
    // The removed imports are strictly sorted.
    requires removed { IsAscending removed.now }
    // The imports with flow are strictly sorted.
    requires flow { IsAscending flow.now }
    // With `Ok` the result has exactly the imports that the report removes or gives flow.
    ensures { IfOk result (λ reported. reported.items ≡ filter (is_reported removed.now flow.now) imports.now) }
{
    let mut reported = Vec::new(alloc);
    for import in imports {
        if is_reported(removed, flow, *import) {
            reported.push(*import)?;
        }
    }
    Ok(reported)
}

/// For each of the module numbers below `modules`, whether an import leads from or to that module.
pub(crate) fn flag_ends(
    alloc: Global,
    imports: &[Priced],
    modules: u32,
) -> Result<Vec<bool>, AllocError>
    // The imports are between modules with numbers below `modules`.
    requires { AreBetween imports.now modules }
    // With `Ok` there are as many flags as `modules`.
    ensures size { IfOk result (λ marks. length marks.items ≡ modules) }
    // With `Ok` a module is flagged if and only if it is at an end of an import.
    ensures ends { IfOk result (λ marks. IsSetOf (is_flagged marks.items) (IsImportEnd imports.now)) }
{
    let mut marks = vec![in alloc; false; modules as usize]?;
    for import in imports {
        marks[import.from as usize] = true;
        marks[import.to as usize] = true;
    }
    Ok(marks)
}
