//! The writer of symbol strings.
ghost use Rattle.std.specs.Prelude.{◌≡◌, ◌<◌, ◌++◌, [], IfOk, List, OnOk, Result, ℕ};
ghost use Rattle.std.specs.List.{flat_map};
ghost use Rattle.std.specs.String.{string_bytes};
ghost use Rattle.scip_symbol.specs.declared.fault.SymbolFault.{SymbolFault};
ghost use Rattle.scip_symbol.specs.Faults.{HasOutcome};
ghost use Rattle.scip_symbol.specs.Bytes.{doubled};
ghost use Rattle.scip_symbol.specs.SymbolTexts.{closing, ended_part, before_name, part_shown, parts_text, canonical_descriptor_text, canonical_name, canonical_text};
ghost use Rattle.scip_symbol.specs.Views.{descriptor_model, descriptor_models, symbol_model};
ghost use Rattle.scip_symbol.specs.Outcomes.{IsWriteOutcome};

use crate::cuts::{is_simple_text, split_at_char};
use crate::writable::check_writable;
use crate::{Descriptor, DescriptorKind, Symbol, SymbolFault};
use std::alloc::{AllocError, Global};

/// Appends `text` to `out`, with each ASCII character `delimiter` doubled.
fn append_doubled(out: &mut String, text: &str, delimiter: char) -> Result<(), AllocError>
    requires { delimiter < 128 }
    ensures { OnOk result (string_bytes out.new ≡ string_bytes out.old ++ doubled delimiter text.now) }
{
    let mut rest = text;
    while let Some((front, after)) = split_at_char(rest, delimiter) {
        out.push_str(front)?;
        out.push(delimiter)?;
        out.push(delimiter)?;
        rest = after;
    }
    out.push_str(rest)
}

/// Appends a name to `out`, escaped with backticks if it isn't a simple identifier.
fn append_name(out: &mut String, name: &str) -> Result<(), AllocError>
    ensures { OnOk result (string_bytes out.new ≡ string_bytes out.old ++ canonical_name name.now) }
{
    if is_simple_text(name) {
        return out.push_str(name);
    }
    out.push_str("`")?;
    append_doubled(out, name, '`')?;
    out.push_str("`")
}

/// The string before the name in a descriptor of this kind: `[` for a type parameter, `(` for a parameter, otherwise the empty string.
fn opening_delimiter(kind: DescriptorKind) -> &'static str
    ensures { result.now ≡ before_name kind }
{
    match kind {
        DescriptorKind::TypeParameter => "[",
        DescriptorKind::Parameter => "(",
        DescriptorKind::Namespace
        | DescriptorKind::TypeName
        | DescriptorKind::Term
        | DescriptorKind::Method
        | DescriptorKind::Meta
        | DescriptorKind::Macro => "",
    }
}

/// Appends the characters after the name in a descriptor of this kind. Writes the disambiguator, in parentheses, only for a method.
fn append_closing_delimiter(
    out: &mut String,
    kind: DescriptorKind,
    disambiguator: &str,
) -> Result<(), AllocError>
    ensures { OnOk result (string_bytes out.new ≡ string_bytes out.old ++ closing kind disambiguator.now) }
{
    match kind {
        DescriptorKind::Namespace => out.push_str("/"),
        DescriptorKind::TypeName => out.push_str("#"),
        DescriptorKind::Term => out.push_str("."),
        DescriptorKind::Method => {
            out.push_str("(")?;
            out.push_str(disambiguator)?;
            out.push_str(").")
        }
        DescriptorKind::Meta => out.push_str(":"),
        DescriptorKind::Macro => out.push_str("!"),
        DescriptorKind::TypeParameter => out.push_str("]"),
        DescriptorKind::Parameter => out.push_str(")"),
    }
}

/// Appends the canonical string of a descriptor to `out`.
fn append_descriptor(out: &mut String, descriptor: &Descriptor) -> Result<(), AllocError>
    ensures { OnOk result (string_bytes out.new ≡ string_bytes out.old ++ canonical_descriptor_text (descriptor_model descriptor.now)) }
{
    let kind = descriptor.kind();
    out.push_str(opening_delimiter(kind))?;
    append_name(out, descriptor.name())?;
    append_closing_delimiter(out, kind, descriptor.disambiguator())
}

/// Appends the canonical strings of the descriptors to `out`, in order.
fn append_descriptors(out: &mut String, descriptors: &[Descriptor]) -> Result<(), AllocError>
    ensures { OnOk result (string_bytes out.new ≡ string_bytes out.old ++ flat_map canonical_descriptor_text (descriptor_models descriptors.now)) }
{
    for descriptor in descriptors {
        append_descriptor(out, descriptor)?;
    }
    Ok(())
}

/// Appends a part of a symbol to `out`, with its spaces doubled, and then a single space.
fn append_part(out: &mut String, part: &str) -> Result<(), AllocError>
    ensures { OnOk result (string_bytes out.new ≡ string_bytes out.old ++ ended_part part.now) }
{
    append_doubled(out, part, ' ')?;
    out.push_str(" ")
}

/// Appends a part of a symbol to `out`, with its spaces doubled, or `.` if it is empty; then a single space.
fn append_optional_part(out: &mut String, part: &str) -> Result<(), AllocError>
    ensures { OnOk result (string_bytes out.new ≡ string_bytes out.old ++ ended_part (part_shown part.now)) }
{
    if part.is_empty() {
        append_part(out, ".")
    } else {
        append_part(out, part)
    }
}

/// Returns the string of the four parts of a symbol, which precedes the descriptors in a symbol string (scip.proto, the grammar of
/// `Symbol`). Doesn't check whether the parts can be written.
/// Fails with `AllocError` if an allocation fails.
pub fn write_parts(
    alloc: Global,
    scheme: &str,
    manager: &str,
    package_name: &str,
    version: &str,
) -> Result<String, AllocError>
    // With `Ok` the string is exactly the four parts, each with its spaces doubled and a single space after it. `.` denotes an empty
    // manager, package name or version.
    ensures { IfOk result (λ text. string_bytes text ≡ parts_text scheme.now manager.now package_name.now version.now) }
{
    let mut out = String::new(alloc);
    append_part(&mut out, scheme)?;
    append_optional_part(&mut out, manager)?;
    append_optional_part(&mut out, package_name)?;
    append_optional_part(&mut out, version)?;
    Ok(out)
}

/// Appends a descriptor without a disambiguator, as `write` writes it (scip.proto, the grammar of `Symbol`). So the string of a symbol
/// becomes the string of the symbol with one more descriptor.
/// Fails with `AllocError` if an allocation fails.
pub fn append_simple_descriptor(
    out: &mut String,
    kind: DescriptorKind,
    name: &str,
) -> Result<(), AllocError>
    // With `Ok` the string has grown by the canonical string of a descriptor of this kind and name, without a disambiguator.
    ensures { OnOk result (string_bytes out.new ≡ string_bytes out.old ++ canonical_descriptor_text (record { kind = kind; name = name.now; disambiguator = [] })) }
{
    out.push_str(opening_delimiter(kind))?;
    append_name(out, name)?;
    append_closing_delimiter(out, kind, "")
}

/// The canonical string of a symbol. Doesn't check whether the symbol can be written.
fn canonical_symbol_text(alloc: Global, symbol: &Symbol) -> Result<String, AllocError>
    ensures { IfOk result (λ text. string_bytes text ≡ canonical_text (symbol_model symbol.now)) }
{
    match symbol {
        Symbol::Local(id) => {
            let mut out = String::new(alloc);
            out.push_str("local ")?;
            out.push_str(id.as_str())?;
            Ok(out)
        }
        Symbol::Global {
            scheme,
            manager,
            package,
            version,
            descriptors,
        } => {
            let mut out = write_parts(
                alloc,
                scheme.as_str(),
                manager.as_str(),
                package.as_str(),
                version.as_str(),
            )?;
            append_descriptors(&mut out, descriptors.as_slice())?;
            Ok(out)
        }
    }
}

/// Returns the canonical string of a symbol, or its first error. Does all the work of `write`.
fn check_and_write(alloc: Global, symbol: &Symbol) -> Result<String, SymbolFault>
    ensures { HasOutcome string_bytes result (IsWriteOutcome (symbol_model symbol.now)) }
{
    check_writable(symbol)?;
    Ok(canonical_symbol_text(alloc, symbol)?)
}

/// Returns the canonical string of a symbol (scip.proto, the grammar of `Symbol`), or the first error. In a canonical string a name is
/// escaped with backticks only if it isn't a simple identifier.
/// An empty scheme, local id, name or list of descriptors fails with `Empty`.
/// A scheme that begins with `local` fails with `LocalScheme`.
/// A part that begins with a space, or is `.` and isn't the scheme, fails with `BadPart` and the number of the first one.
/// A disambiguator with a byte that isn't an identifier character fails with `BadDescriptor` and the index of the first descriptor that has
/// one. A local id that isn't a simple identifier fails with `BadDescriptor` and 0.
/// Fails with `Memory` if an allocation fails.
pub fn write(alloc: Global, symbol: &Symbol) -> Result<String, SymbolFault>
    // The result is the symbol's canonical string, or the error of the symbol, or `Memory`.
    ensures exact { HasOutcome string_bytes result (IsWriteOutcome (symbol_model symbol.now)) }
    // Each outcome of writing the symbol, its canonical string or an error, is the result, unless the result is `Memory`.
    ensures only { (o : Result (List ℕ) SymbolFault) → IsWriteOutcome (symbol_model symbol.now) o → HasOutcome string_bytes result (λ p. p ≡ o) }
{
    check_and_write(alloc, symbol)
}
