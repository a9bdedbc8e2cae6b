//! Sorting the indices of names by name.
ghost use Rattle.std.specs.Prelude.{◌≡◌, ◌≤◌, ◌<◌, All, IfOk, length, map};
ghost use Rattle.std.specs.List.{IsDistinct};
ghost use Rattle.std.specs.Str.{bytes_eq};
ghost use Rattle.ob_imports.specs.Names.{texts, IsByName};
ghost use Rattle.ob_imports.specs.Numbering.{IsNumbered};

use std::alloc::{AllocError, Global};

/// Each name with its index.
fn number_names<'a>(alloc: Global, names: &'a [String]) -> Result<Vec<(&'a str, u32)>, AllocError>
    requires few { length names.now ≤ 8192 }
    ensures names { IfOk result (λ pairs. map (λ p. p.0.now) pairs.items ≡ texts names.now) }
    ensures numbers { IfOk result (λ pairs. All (IsNumbered (texts names.now)) pairs.items) }
{
    let mut pairs = Vec::new(alloc);
    for number in 0..names.len() {
        pairs.push((names[number].as_str(), number as u32))?;
    }
    Ok(pairs)
}

/// The second elements of the pairs.
fn pair_numbers(alloc: Global, pairs: &[(&str, u32)]) -> Result<Vec<u32>, AllocError>
    ensures { IfOk result (λ numbers. numbers.items ≡ map (λ p. p.1) pairs.now) }
{
    let mut numbers = Vec::new(alloc);
    for pair in pairs {
        numbers.push(pair.1)?;
    }
    Ok(numbers)
}

/// The indices of the names, sorted by name.
pub(crate) fn order_by_name(alloc: Global, names: &[String]) -> Result<Vec<u32>, AllocError>
    requires few { length names.now ≤ 8192 }
    requires once { IsDistinct bytes_eq (texts names.now) }
    ensures { IfOk result (λ order. IsByName (texts names.now) order.items) }
{
    let mut pairs = number_names(alloc, names)?;
    pairs.sort_unstable();
    pair_numbers(alloc, pairs.as_slice())
}
