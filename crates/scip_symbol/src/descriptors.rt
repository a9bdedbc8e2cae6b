//! The reader of descriptors. The argument `at` is the offset of the descriptor, in bytes from the start of the symbol string.
//! Clauses `MatchesUnlessMemory`: unless an allocation failed, the result is that of the specification's function that the clause cites.
ghost use Rattle.std.specs.Prelude.{◌≡◌, ◌≤◌, ◌<◌, length, option_map};
ghost use Rattle.std.specs.String.{string_bytes};
ghost use Rattle.scip_symbol.specs.Faults.{MatchesUnlessMemory, HasOutcome};
ghost use Rattle.scip_symbol.specs.Views.{descriptor_model, descriptor_models};
ghost use Rattle.scip_symbol.specs.Reading.{bare_descriptor_at, enclosed_descriptor_at, descriptor_at, kind_of_suffix, method_suffix_at, suffix_at, descriptor_suffix_at, one_byte_suffix_at, IsDescriptorsOutcome};

use crate::cuts::{split_simple_prefix, strip_char, strip_word};
use crate::name::read_name;
use crate::{Descriptor, DescriptorKind, SymbolFault};
use std::alloc::Global;

/// Reads a descriptor `[name]` or `(name)` after its opening character: the name and the character `close`. Returns the descriptor, which
/// has this kind, and the rest of the string.
#[tactic(auto, unfolding(crate::specs::Reading::enclosed_descriptor_at))]
fn read_enclosed_descriptor(
    alloc: Global,
    at: usize,
    kind: DescriptorKind,
    close: char,
    inside: &str,
) -> Result<(Descriptor, &str), SymbolFault>
    requires { close < 128 }
    ensures { MatchesUnlessMemory (λ x. (descriptor_model x.0, x.1.now)) result (enclosed_descriptor_at at kind close inside.now) }
{
    let (name, rest) = read_name(alloc, at, inside)?;
    let rest = strip_char(rest, close).ok_or(SymbolFault::BadDescriptor { at })?;
    Ok((Descriptor::new(kind, name), rest))
}

/// Reads a method's descriptor after its name and `(`: the disambiguator, `)` and `.`. Returns the descriptor and the rest of the string.
#[tactic(auto, unfolding(crate::specs::Reading::method_suffix_at))]
fn read_method_suffix(
    alloc: Global,
    at: usize,
    name: String,
    inside: &str,
) -> Result<(Descriptor, &str), SymbolFault>
    ensures { MatchesUnlessMemory (λ x. (descriptor_model x.0, x.1.now)) result (method_suffix_at at (string_bytes name) inside.now) }
{
    let (disambiguator, rest) = split_simple_prefix(inside);
    let rest = strip_word(rest, ").").ok_or(SymbolFault::BadDescriptor { at })?;
    let disambiguator = String::from_str(alloc, disambiguator)?;
    Ok((Descriptor::method(name, disambiguator), rest))
}

/// The kind of a descriptor that consists of a name and the byte `b`; `None` if `b` is none of `/`, `#`, `.`, `:` and `!`.
fn suffix_kind(b: u8) -> Option<DescriptorKind>
    ensures { result ≡ kind_of_suffix b }
{
    match b {
        b'/' => Some(DescriptorKind::Namespace),
        b'#' => Some(DescriptorKind::TypeName),
        b'.' => Some(DescriptorKind::Term),
        b':' => Some(DescriptorKind::Meta),
        b'!' => Some(DescriptorKind::Macro),
        _ => None,
    }
}

/// The kind of a descriptor that consists of a name and the first byte of `text`, and the rest of `text` after this byte. `None` if no kind
/// has this form, or `text` is empty.
fn read_suffix(text: &str) -> Option<(DescriptorKind, &str)>
    ensures { option_map (λ x. (x.0, x.1.now)) result ≡ suffix_at text.now }
{
    let first = *text.as_bytes().first()?;
    let kind = suffix_kind(first)?;
    let (_, rest) = text.split_at(1);
    Some((kind, rest))
}

/// Reads a descriptor after its name, if it ends with one byte. Returns the descriptor and the rest of the string.
#[tactic(auto, unfolding(crate::specs::Reading::one_byte_suffix_at))]
fn read_one_byte_suffix(
    at: usize,
    name: String,
    text: &str,
) -> Result<(Descriptor, &str), SymbolFault>
    ensures { MatchesUnlessMemory (λ x. (descriptor_model x.0, x.1.now)) result (one_byte_suffix_at at (string_bytes name) text.now) }
{
    let (kind, rest) = read_suffix(text).ok_or(SymbolFault::BadDescriptor { at })?;
    Ok((Descriptor::new(kind, name), rest))
}

/// Reads a descriptor after its name: one byte; or for a method `(`, the disambiguator and `).`. Returns the descriptor and the rest of the
/// string.
#[tactic(auto, unfolding(crate::specs::Reading::descriptor_suffix_at))]
fn read_descriptor_suffix(
    alloc: Global,
    at: usize,
    name: String,
    text: &str,
) -> Result<(Descriptor, &str), SymbolFault>
    ensures { MatchesUnlessMemory (λ x. (descriptor_model x.0, x.1.now)) result (descriptor_suffix_at at (string_bytes name) text.now) }
{
    match strip_char(text, '(') {
        None => read_one_byte_suffix(at, name, text),
        Some(inside) => read_method_suffix(alloc, at, name, inside),
    }
}

/// Reads a descriptor that begins with its name. Returns it and the rest of the string.
#[tactic(auto, unfolding(crate::specs::Reading::bare_descriptor_at))]
fn read_bare_descriptor(
    alloc: Global,
    at: usize,
    text: &str,
) -> Result<(Descriptor, &str), SymbolFault>
    ensures { MatchesUnlessMemory (λ x. (descriptor_model x.0, x.1.now)) result (bare_descriptor_at at text.now) }
{
    let (name, rest) = read_name(alloc, at, text)?;
    read_descriptor_suffix(alloc, at, name, rest)
}

/// Reads the descriptor with which `text` begins; `at` is its offset in the symbol string. Returns it and the rest of `text`.
#[tactic(auto, unfolding(crate::specs::Reading::descriptor_at))]
fn read_descriptor(alloc: Global, at: usize, text: &str) -> Result<(Descriptor, &str), SymbolFault>
    ensures { MatchesUnlessMemory (λ x. (descriptor_model x.0, x.1.now)) result (descriptor_at at text.now) }
{
    if let Some(inside) = strip_char(text, '[') {
        return read_enclosed_descriptor(alloc, at, DescriptorKind::TypeParameter, ']', inside);
    }
    match strip_char(text, '(') {
        None => read_bare_descriptor(alloc, at, text),
        Some(inside) => read_enclosed_descriptor(alloc, at, DescriptorKind::Parameter, ')', inside),
    }
}

/// Reads all descriptors of `text`, which is the end of a symbol string of `whole` bytes. Fails with the error of the first wrong
/// descriptor.
pub(crate) fn read_descriptors(
    alloc: Global,
    whole: usize,
    text: &str,
) -> Result<Vec<Descriptor>, SymbolFault>
    requires { length text.now ≤ whole }
    ensures { HasOutcome (λ ds. descriptor_models ds.items) result (IsDescriptorsOutcome whole text.now) }
{
    let mut descriptors = Vec::new(alloc);
    let mut rest = text;
    while !rest.is_empty() {
        let (descriptor, after) = read_descriptor(alloc, whole - rest.len(), rest)?;
        descriptors.push(descriptor)?;
        rest = after;
    }
    Ok(descriptors)
}
