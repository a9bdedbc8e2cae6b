//! The reader of names. The argument `at` is the offset of the name's descriptor, in bytes from the start of the symbol string.
//! Clauses `MatchesUnlessMemory`: unless an allocation failed, the result is that of the specification's function that the clause cites.
ghost use Rattle.std.specs.String.{string_bytes};
ghost use Rattle.scip_symbol.specs.Faults.{MatchesUnlessMemory};
ghost use Rattle.scip_symbol.specs.Reading.{first_name_at, quoted_name_at, simple_name_at};

use crate::SymbolFault;
use crate::cuts::{read_delimited, split_simple_prefix, strip_char};
use std::alloc::Global;

/// Reads a name that is a simple identifier. Returns it and the rest of the string. `at` is the offset of its descriptor.
#[tactic(auto, unfolding(crate::specs::Reading::simple_name_at))]
fn read_simple_name(alloc: Global, at: usize, text: &str) -> Result<(String, &str), SymbolFault>
    ensures { MatchesUnlessMemory (λ x. (string_bytes x.0, x.1.now)) result (simple_name_at at text.now) }
{
    let (name, rest) = split_simple_prefix(text);
    if name.is_empty() {
        return Err(SymbolFault::BadDescriptor { at });
    }
    Ok((String::from_str(alloc, name)?, rest))
}

/// Reads an escaped name after its first backtick. Returns it unescaped, and the rest of the string after its last backtick. `at` is the
/// offset of its descriptor.
#[tactic(auto, unfolding(crate::specs::Reading::quoted_name_at))]
fn read_escaped_name(alloc: Global, at: usize, inside: &str) -> Result<(String, &str), SymbolFault>
    ensures { MatchesUnlessMemory (λ x. (string_bytes x.0, x.1.now)) result (quoted_name_at at inside.now) }
{
    let (name, rest) = read_delimited(alloc, inside, '`')?.ok_or(SymbolFault::OpenQuote)?;
    if name.is_empty() {
        return Err(SymbolFault::BadDescriptor { at });
    }
    Ok((name, rest))
}

/// Reads the name with which the string begins: a simple identifier, or any name in backticks. Returns it unescaped, and the rest of the
/// string. `at` is the offset of its descriptor.
#[tactic(auto, unfolding(crate::specs::Reading::first_name_at))]
pub(crate) fn read_name(alloc: Global, at: usize, text: &str) -> Result<(String, &str), SymbolFault>
    ensures { MatchesUnlessMemory (λ x. (string_bytes x.0, x.1.now)) result (first_name_at at text.now) }
{
    match strip_char(text, '`') {
        None => read_simple_name(alloc, at, text),
        Some(inside) => read_escaped_name(alloc, at, inside),
    }
}
