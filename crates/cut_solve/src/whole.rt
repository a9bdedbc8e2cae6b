//! The cut of a subnetwork as a cut of the whole network.
ghost use Rattle.std.specs.Prelude.{◌≡◌, IfOk, length};
ghost use Rattle.cut_net.specs.Answers.{cut_claim};
ghost use Rattle.cut_net.specs.WellFormed.{AreBetween};
ghost use Rattle.cut_part.specs.Marks.{claim_in_net};

use cut_net::Cut;
use cut_part::renumbered_imports;
use std::alloc::{AllocError, Global};

/// The cut of a subnetwork as a cut of the whole network: `numbers` has for each module of the subnetwork its number in the whole network.
pub(crate) fn renumbered_cut(alloc: Global, cut: &Cut, numbers: &[u32]) -> Result<Cut, AllocError>
    requires imports { AreBetween cut.now.imports.items (length numbers.now) }
    requires flow { AreBetween cut.now.flow.items (length numbers.now) }
    ensures { IfOk result (λ whole. cut_claim whole ≡ claim_in_net numbers.now (cut_claim cut.now)) }
{
    let imports = renumbered_imports(alloc, &cut.imports, numbers)?;
    let flow = renumbered_imports(alloc, &cut.flow, numbers)?;
    Ok(Cut {
        imports,
        weight: cut.weight,
        flow,
    })
}
