//! Collects the names after END. Only procedure declarations and modules have one, so expressions and statements aren't visited.

ghost use Rattle.std.specs.Prelude.{◌≡◌, ◌++◌, IfOk};
ghost use Rattle.ob_tree.specs.Declaring.{declarations_events, module_events, procedure_events};
ghost use Rattle.ob_tree.specs.Derives.{end_names_in};

use crate::declaration::{Declarations, Module, ProcDecl};
use std::alloc::AllocError;

/// Appends the names after END of all procedures in these declarations, as pairs of the declared name and the name after END.
#[cycle(end_names)]
#[tactic(auto, using(crate::proofs::EndNames::end_walks))]
fn append_declaration_end_names(
    out: &mut Vec<(u32, u32)>,
    declarations: &Declarations,
) -> Result<(), AllocError>
    ensures { IfOk result (λ _. out.new.items ≡ out.old.items ++ end_names_in (declarations_events declarations.now)) }
{
    for procedure in &declarations.procedures {
        append_procedure_end_names(out, procedure)?;
    }
    Ok(())
}

/// Appends the names after END of the procedures in a procedure, then the name after END of the procedure itself.
#[cycle(end_names)]
#[tactic(auto, using(crate::proofs::EndNames::end_walks))]
fn append_procedure_end_names(
    out: &mut Vec<(u32, u32)>,
    procedure: &ProcDecl,
) -> Result<(), AllocError>
    ensures { IfOk result (λ _. out.new.items ≡ out.old.items ++ end_names_in (procedure_events procedure.now)) }
{
    append_declaration_end_names(out, &procedure.declarations)?;
    out.push((procedure.name.name, procedure.end_name))?;
    Ok(())
}

/// Appends the names after END of all procedures of a module, then the name after END of the module itself.
#[tactic(auto, using(crate::proofs::EndNames::end_walks))]
pub(crate) fn append_module_end_names(
    out: &mut Vec<(u32, u32)>,
    module: &Module,
) -> Result<(), AllocError>
    ensures { IfOk result (λ _. out.new.items ≡ out.old.items ++ end_names_in (module_events «module».now)) }
{
    append_declaration_end_names(out, &module.declarations)?;
    out.push((module.name, module.end_name))?;
    Ok(())
}
