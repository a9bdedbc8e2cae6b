//! Reads the names after END from a tree. The walker recurses once for each level of nested procedures; lists are loops.

ghost use Rattle.std.specs.Prelude.{◌≡◌, IfOk};
ghost use Rattle.ob_tree.specs.Declaring.{module_events};
ghost use Rattle.ob_tree.specs.Derives.{end_names_in};

use crate::declaration::Module;
use crate::end_names::append_module_end_names;
use std::alloc::{AllocError, Global};

/// The names after END in order, as pairs of token numbers: the identifier that must be repeated (the module's or the procedure's name),
/// and the name after END. Returns `AllocError` if an allocation fails. A stack of 2 MiB suffices for a tree of 200 levels; the need
/// grows linearly with the depth.
pub fn collect_end_names(alloc: Global, module: &Module) -> Result<Vec<(u32, u32)>, AllocError>
    ensures { IfOk result (λ v. v.items ≡ end_names_in (module_events «module».now)) }
{
    let mut pairs = Vec::new(alloc);
    append_module_end_names(&mut pairs, module)?;
    Ok(pairs)
}
