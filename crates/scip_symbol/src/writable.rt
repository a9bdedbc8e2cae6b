//! Tests for the errors because of which a symbol can't be written.
ghost use Rattle.std.specs.Prelude.{◌≡◌, ◌↔◌, ◌||◌, IfErr, IsTrue, OnOk};
ghost use Rattle.std.specs.List.{list_any, position, position_from};
ghost use Rattle.scip_symbol.specs.Views.{descriptor_model, descriptor_models, symbol_model};
ghost use Rattle.scip_symbol.specs.Outcomes.{begins_with_space, has_empty, is_empty, is_wrong_descriptor, is_wrong_part, wrong_descriptor_of, wrong_part_of, HasLocalScheme, IsWritable, IsWriteError};

use crate::cuts::{is_simple_text, strip_char, strip_word};
use crate::{Descriptor, Symbol, SymbolFault};

/// Whether the string is empty.
fn is_empty_text(text: &str) -> bool
    ensures { result ≡ is_empty text.now }
{
    text.is_empty()
}

/// Whether the name of the descriptor is empty.
fn has_no_name(descriptor: &Descriptor) -> bool
    ensures { result ≡ is_empty (descriptor_model descriptor.now).name }
{
    is_empty_text(descriptor.name())
}

/// Whether the name of any of the descriptors is empty.
fn has_unnamed_descriptor(descriptors: &[Descriptor]) -> bool
    ensures { result ≡ list_any (λ d. is_empty (descriptor_model d).name) descriptors.now }
{
    descriptors.iter().any(|d| has_no_name(d))
}

/// Whether the list of descriptors is empty, or a descriptor has an empty name.
fn lacks_descriptor_or_name(descriptors: &[Descriptor]) -> bool
    ensures { result ≡ (is_empty (descriptor_models descriptors.now) || list_any (λ d. is_empty d.name) (descriptor_models descriptors.now)) }
{
    descriptors.is_empty() || has_unnamed_descriptor(descriptors)
}

/// Whether the scheme, the local id, the name of a descriptor or the list of descriptors is empty.
fn has_empty_field(symbol: &Symbol) -> bool
    ensures { result ≡ has_empty (symbol_model symbol.now) }
{
    match symbol {
        Symbol::Local(id) => is_empty_text(id.as_str()),
        Symbol::Global {
            scheme,
            descriptors,
            ..
        } => is_empty_text(scheme.as_str()) || lacks_descriptor_or_name(descriptors.as_slice()),
    }
}

/// Whether the symbol is global and its scheme begins with `local`.
fn has_local_scheme(symbol: &Symbol) -> bool
    ensures { IsTrue result ↔ HasLocalScheme (symbol_model symbol.now) }
{
    match symbol {
        Symbol::Local(_) => false,
        Symbol::Global { scheme, .. } => strip_word(scheme.as_str(), "local").is_some(),
    }
}

/// Whether the first byte of the string is a space.
fn starts_with_space(text: &str) -> bool
    ensures { result ≡ begins_with_space text.now }
{
    strip_char(text, ' ').is_some()
}

/// Whether a manager, package name or version can't be written: it begins with a space, or is `.`, the placeholder of an empty part.
fn is_unwritable_part(part: &str) -> bool
    ensures { result ≡ is_wrong_part part.now }
{
    starts_with_space(part) || part == "."
}

/// The number of the first part of a global symbol that can't be written: 0 is the scheme, 1 the manager, 2 the package name, 3 the
/// version. `None` if each part can be written, or the symbol is local.
fn find_unwritable_part(symbol: &Symbol) -> Option<usize>
    ensures { result ≡ wrong_part_of (symbol_model symbol.now) }
{
    let Symbol::Global {
        scheme,
        manager,
        package,
        version,
        ..
    } = symbol
    else {
        return None;
    };
    if starts_with_space(scheme.as_str()) {
        Some(0)
    } else if is_unwritable_part(manager.as_str()) {
        Some(1)
    } else if is_unwritable_part(package.as_str()) {
        Some(2)
    } else if is_unwritable_part(version.as_str()) {
        Some(3)
    } else {
        None
    }
}

/// Whether the disambiguator has a byte that isn't an identifier character.
fn has_invalid_disambiguator(descriptor: &Descriptor) -> bool
    ensures { result ≡ is_wrong_descriptor (descriptor_model descriptor.now) }
{
    !is_simple_text(descriptor.disambiguator())
}

/// The index of the first descriptor whose disambiguator has a byte that isn't an identifier character; `None` if there is none.
fn find_invalid_disambiguator(descriptors: &[Descriptor]) -> Option<usize>
    ensures { result ≡ position (λ d. is_wrong_descriptor (descriptor_model d)) descriptors.now }
{
    descriptors
        .iter()
        .position(|d| has_invalid_disambiguator(d))
}

/// As `find_invalid_disambiguator`, with a contract about the models of the descriptors.
fn find_invalid_descriptor(descriptors: &[Descriptor]) -> Option<usize>
    ensures { result ≡ position_from is_wrong_descriptor 0 (descriptor_models descriptors.now) }
{
    find_invalid_disambiguator(descriptors)
}

/// The index of the first descriptor whose disambiguator has a byte that isn't an identifier character; 0 for a local id that has such a
/// byte. `None` if there is no such byte.
fn find_unwritable_descriptor(symbol: &Symbol) -> Option<usize>
    ensures { result ≡ wrong_descriptor_of (symbol_model symbol.now) }
{
    match symbol {
        Symbol::Local(id) if is_simple_text(id.as_str()) => None,
        Symbol::Local(_) => Some(0),
        Symbol::Global { descriptors, .. } => find_invalid_descriptor(descriptors.as_slice()),
    }
}

/// Fails with the first error because of which the symbol can't be written, if there is one.
pub(crate) fn check_writable(symbol: &Symbol) -> Result<(), SymbolFault>
    // With `Err` the symbol has the returned error; with `Ok` it has none.
    ensures refused { IfErr result (IsWriteError (symbol_model symbol.now)) }
    ensures fits { OnOk result (IsWritable (symbol_model symbol.now)) }
{
    if has_empty_field(symbol) {
        return Err(SymbolFault::Empty);
    }
    if has_local_scheme(symbol) {
        return Err(SymbolFault::LocalScheme);
    }
    if let Some(part) = find_unwritable_part(symbol) {
        return Err(SymbolFault::BadPart { part });
    }
    match find_unwritable_descriptor(symbol) {
        Some(at) => Err(SymbolFault::BadDescriptor { at }),
        None => Ok(()),
    }
}
