//! The last path steps of the declarations of another module. A declaration is identified by its index in that module's interface.
ghost use Rattle.std.specs.Prelude.{◌≡◌};
ghost use Rattle.std.specs.Option.{option_map};
ghost use Rattle.ob_interface.specs.Views.{declaration_value};
ghost use Rattle.ob_emit.specs.StoredTexts.{step_model};
ghost use Rattle.ob_emit.specs.Symbols.{interface_step, interface_steps};

use crate::steps::{LastStep, NumberedDeclarations, step_in_block, step_in_record};
use ob_interface::{Declaration, Interface};

/// The last path step of the declaration `it` at index `place` of an interface. `None` for an import item, and for a field whose owner
/// doesn't have a smaller index.
fn interface_step<'a>(
    interface: &'a Interface,
    place: u32,
    it: &Declaration<'a>,
) -> Option<LastStep<'a>>
    ensures { option_map step_model result ≡ interface_step interface.now place (declaration_value it.now) }
{
    match it.record {
        None => step_in_block(it.decl_kind, it.name),
        Some(record) => step_in_record(place, it.name, interface.owner(record)),
    }
}

impl NumberedDeclarations for Interface {
    ghost use Rattle.ob_emit.specs.Symbols.{interface_steps};

    ghost steps_in = { λ m. interface_steps m };

    fn step(&self, number: u32) -> Option<LastStep<'_>> {
        let it = self.declaration_at(number)?;
        interface_step(self, number, &it)
    }
}
