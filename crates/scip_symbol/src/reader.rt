//! The reader of symbol strings.
ghost use Rattle.std.specs.Prelude.{◌≡◌, ◌+◌, ◌<◌, ◌^◌, length, Result};
ghost use Rattle.scip_symbol.specs.declared.fault.SymbolFault.{SymbolFault};
ghost use Rattle.scip_symbol.specs.Faults.{MatchesUnlessMemory, HasOutcome};
ghost use Rattle.scip_symbol.specs.SymbolTexts.{BeginsLocal, IsPackagePart, SymbolModel};
ghost use Rattle.scip_symbol.specs.Views.{symbol_model};
ghost use Rattle.scip_symbol.specs.Outcomes.{IsReadOutcome};
ghost use Rattle.scip_symbol.specs.Reading.{local_symbol_of};

use crate::cuts::{split_simple_prefix, strip_char, strip_word};
use crate::descriptors::read_descriptors;
use crate::parts::read_parts;
use crate::{Symbol, SymbolFault};
use std::alloc::Global;

/// The local symbol with this id. Fails with `Empty` if the id is empty, and with `BadDescriptor` if a byte isn't an identifier character.
/// In the symbol string the id follows the six bytes `local `.
#[tactic(auto, unfolding(crate::specs::Reading::local_symbol_of))]
fn parse_local_id(alloc: Global, id: &str) -> Result<Symbol, SymbolFault>
    requires { 6 + length id.now < 2 ^ 64 }
    ensures { MatchesUnlessMemory symbol_model result (local_symbol_of id.now) }
{
    if id.is_empty() {
        return Err(SymbolFault::Empty);
    }
    let (front, rest) = split_simple_prefix(id);
    if !rest.is_empty() {
        let at = 6 + front.len();
        return Err(SymbolFault::BadDescriptor { at });
    }
    Ok(Symbol::Local(String::from_str(alloc, id)?))
}

/// Reads a global symbol. The string isn't empty, and begins neither with a space nor with `local`.
fn read_global_symbol(alloc: Global, text: &str) -> Result<Symbol, SymbolFault>
    requires part { IsPackagePart text.now }
    requires not_local { BeginsLocal text.now → ⊥ }
    ensures { HasOutcome symbol_model result (IsReadOutcome text.now) }
{
    let (parts, rest) = read_parts(alloc, text)?;
    if rest.is_empty() {
        return Err(SymbolFault::Empty);
    }
    let descriptors = read_descriptors(alloc, text.len(), rest)?;
    Ok(Symbol::Global {
        scheme: parts.scheme,
        manager: parts.manager,
        package: parts.package,
        version: parts.version,
        descriptors,
    })
}

/// Returns the symbol that has this string, or the string's first error. Does all the work of `read`.
fn read_symbol(alloc: Global, text: &str) -> Result<Symbol, SymbolFault>
    ensures { HasOutcome symbol_model result (IsReadOutcome text.now) }
{
    if text.is_empty() {
        return Err(SymbolFault::Empty);
    }
    if let Some(id) = strip_word(text, "local ") {
        return parse_local_id(alloc, id);
    }
    if strip_word(text, "local").is_some() {
        return Err(SymbolFault::LocalScheme);
    }
    if strip_char(text, ' ').is_some() {
        return Err(SymbolFault::BadPart { part: 0 });
    }
    read_global_symbol(alloc, text)
}

/// Returns the symbol that has this string (scip.proto, the grammar of `Symbol`), or the first error. Offsets are in bytes from 0.
/// An empty string fails with `Empty`.
/// A string that begins with `local ` fails with `Empty` if nothing follows, and with `BadDescriptor` if a later byte isn't an identifier
/// character; the error has the offset of the first such byte.
/// Any other string that begins with `local` fails with `LocalScheme`.
/// A string that begins with a space fails with `BadPart` and 0. If a part isn't ended by an odd number of spaces, the error is `BadPart`
/// with the number of the first one.
/// If nothing follows the four parts, the error is `Empty`.
/// The first wrong descriptor fails with `OpenQuote` if its name begins with a backtick that isn't closed, and otherwise with
/// `BadDescriptor` and its offset.
/// Fails with `Memory` if an allocation fails.
pub fn read(alloc: Global, text: &str) -> Result<Symbol, SymbolFault>
    // The result is the symbol that has the string, or the error of the string, or `Memory`.
    ensures exact { HasOutcome symbol_model result (IsReadOutcome text.now) }
    // Each outcome of the string, a symbol or an error, equals the result, unless the result is `Memory`.
    ensures only { (o : Result SymbolModel SymbolFault) → IsReadOutcome text.now o → HasOutcome symbol_model result (λ p. p ≡ o) }
{
    read_symbol(alloc, text)
}
