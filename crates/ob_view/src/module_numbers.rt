//! Look-up of modules by name.
ghost use Rattle.std.specs.Prelude.{◌≡◌, map};
ghost use Rattle.std.specs.Arc.{arc_value};
ghost use Rattle.ob_view.specs.ModuleNumbers.{module_number_in, AreNumberedModules};

use ob_interface::Interface;
use std::sync::Arc;

/// The index of the module of this name among modules sorted by name, by binary search; `None` if there is none.
pub fn module_number_in(modules: &[Arc<Interface>], name: &[u8]) -> Option<u32>
    // The modules are sorted by name, and their indexes fit 32 bits.
    requires { AreNumberedModules (map arc_value modules.now) }
    ensures { result ≡ module_number_in (map arc_value modules.now) name.now }
{
    match modules.binary_search_by(|module| module.name().cmp(&name)) {
        Ok(index) => Some(index as u32),
        Err(_) => None,
    }
}
