//! Look-up of a module by its name.
ghost use Rattle.cut_solve.specs.Solving.{IsModuleLookup};

use crate::SolveFault;
use cut_net::Net;
use std::alloc::Global;

/// The number of the module with this name. Fails with `NoSuchModule` if the network has no such module, and with `Memory` if an allocation
/// fails.
pub fn module_number(alloc: Global, net: &Net, name: &str) -> Result<u32, SolveFault>
    // The result is the number of the module with this name; or `NoSuchModule` with the name, and the network has no such module; or
    // `Memory`.
    ensures { IsModuleLookup net.now name.now result }
{
    match net.index_of(name) {
        Some(module) => Ok(module),
        None => Err(SolveFault::NoSuchModule {
            name: String::from_str(alloc, name)?,
        }),
    }
}
