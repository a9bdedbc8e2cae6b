//! The symbol string of a declaration, from its path: the descriptors of the module, of the owner if it is a field, and its own.
//! In the clauses, `S.steps_in source` is the function from a declaration's number to its last path step.
//! `named`: the names in the steps are identifiers. `before`: each owner has a smaller number than its field.
ghost use Rattle.std.specs.Prelude.{◌≡◌, ◌++◌, IfOk};
ghost use Rattle.std.specs.Option.{option_map};
ghost use Rattle.std.specs.String.{string_bytes};
ghost use Rattle.scip_symbol.specs.SymbolTexts.{DescriptorModel};
ghost use Rattle.ob_emit.specs.StoredTexts.{path_text, OwnersPrecede, AreStepNames, IsAppended};
ghost use Rattle.ob_emit.specs.Named.{IsName};
ghost use Rattle.ob_emit.specs.Symbols.{path};
ghost use Rattle.std.specs.Prelude.{List};

use crate::steps::NumberedDeclarations;
use scip_symbol::{DescriptorKind, append_simple_descriptor};
use std::alloc::{AllocError, Global};

/// The bytes of a name as a string. An identifier is ASCII, so the conversion can't fail.
pub(crate) fn name_str(bytes: &[u8]) -> &str
    requires { IsName bytes.now }
    ensures { result.now ≡ bytes.now }
{
    match str::from_utf8(bytes) {
        Ok(name) => name,
        Err(_) => "",
    }
}

/// The initial capacity for the symbol string of a declaration of this module, with this prefix. It is large enough for most names, so the
/// string rarely has to grow.
pub(crate) fn initial_capacity(prefix: &str, module_name: &[u8]) -> usize {
    const NAME: usize = 24;
    prefix
        .len()
        .saturating_add(module_name.len())
        .saturating_add(NAME)
}

/// Appends the path of the declaration with this number: the path of its owner, or the module's descriptor if it has no owner, and then
/// its own descriptor. With `Ok(false)` the declaration has no path.
pub(crate) fn append_path<S: NumberedDeclarations>(
    out: &mut String,
    module_name: &[u8],
    source: &S,
    number: u32,
) -> Result<bool, AllocError>
    requires module_named { IsName module_name.now }
    requires named { AreStepNames (S.steps_in source.now) }
    requires before { OwnersPrecede (S.steps_in source.now) }
    ensures { IfOk result (IsAppended (string_bytes out.old) (string_bytes out.new) (path module_name.now (S.steps_in source.now) number)) }
{
    let Some(step) = source.step(number) else {
        return Ok(false);
    };
    let found = match step.owner {
        None => {
            append_simple_descriptor(out, DescriptorKind::Namespace, name_str(module_name))?;
            true
        }
        Some(owner) => append_path(out, module_name, source, owner)?,
    };
    if found {
        append_simple_descriptor(out, step.kind, name_str(step.name))?;
    }
    Ok(found)
}

/// The symbol string of the declaration with this number: the prefix and then the declaration's path. `None` if the declaration has no
/// path.
pub(crate) fn path_text<S: NumberedDeclarations>(
    alloc: Global,
    prefix: &str,
    module_name: &[u8],
    source: &S,
    number: u32,
) -> Result<Option<String>, AllocError>
    requires module_named { IsName module_name.now }
    requires named { AreStepNames (S.steps_in source.now) }
    requires before { OwnersPrecede (S.steps_in source.now) }
    ensures { IfOk result (λ text. option_map string_bytes text ≡ option_map (λ (ds : List DescriptorModel). prefix.now ++ path_text ds) (path module_name.now (S.steps_in source.now) number)) }
{
    let mut out = String::with_capacity(alloc, initial_capacity(prefix, module_name))?;
    out.push_str(prefix)?;
    if append_path(&mut out, module_name, source, number)? {
        Ok(Some(out))
    } else {
        Ok(None)
    }
}
