//! Makes the document of a module, as a message in memory. In the clauses of this file:
//! - `in_text`: the tokens are nonempty ranges of the bytes, each before the next. `short`: there are fewer than 2^31 bytes.
//! - `lined`: `lines` has the offsets of the line starts. `named`, `of_names`, `external`, `own`: the names in question are identifiers.
//! - `AreSymbolTexts view package_name texts`: the strings in `texts` are those of the targets' symbols in this package.
ghost use Rattle.std.specs.Prelude.{◌≡◌, ◌<◌, ◌^◌, ◌↔◌, ℕ, List, IfOk, Err, length, map, true};
ghost use Rattle.std.specs.List.{filter_map};
ghost use Rattle.std.specs.Option.{option_map};
ghost use Rattle.ob_scan.specs.Position.{line_starts};
ghost use Rattle.ob_scan.specs.Spelling.{AreInText};
ghost use Rattle.ob_view.specs.declared.target.Target.TheVariants.{External};
ghost use Rattle.ob_view.specs.World.{text};
ghost use Rattle.scip_index.specs.Plain.{document_model, occurrence_model, symbol_model};
ghost use Rattle.scip_symbol.specs.Outcomes.{is_wrong_part};
ghost use Rattle.ob_emit.specs.declared.fault.EmitFault.TheVariants.{BadPackage};
ghost use Rattle.ob_emit.specs.Documents.{document_of, document_at, occurrence, declared_symbol_info};
ghost use Rattle.ob_emit.specs.StoredTexts.{AreSymbolTexts};
ghost use Rattle.ob_emit.specs.Named.{NamesAreIdentifiers, ReferencesAreIdentifiers, IsName};

use crate::EmitFault;
use crate::path::name_str;
use crate::ranges::{enclosing_range, token_range};
use crate::target_texts::Texts;
use ob_scan::{Lines, lines};
use ob_view::{Reference, View};
use scip_index::{Document, Occurrence, SymbolInfo};
use std::alloc::{AllocError, Global};

/// Whether a symbol string can't contain this package name, because the name is `.` or begins with a space.
pub(crate) fn is_bad_package(package_name: &str) -> bool
    ensures { result ≡ is_wrong_part package_name.now }
{
    package_name == "." || package_name.starts_with(' ')
}

/// The occurrence of a reference: its range, symbol string and role, and for a declaration the range of the whole declaration. `None` if
/// the reference's target has no symbol.
fn occurrence_of(
    alloc: Global,
    view: &View<'_>,
    texts: &Texts<'_>,
    lines: &Lines,
    reference: &Reference,
) -> Result<Option<Occurrence>, AllocError>
    requires in_text { AreInText view.now.bytes view.now.tokens }
    requires short { length view.now.bytes < 2 ^ 31 }
    requires lined { lines.now ≡ line_starts view.now.bytes }
    requires named { NamesAreIdentifiers view.now }
    requires external { (item name : ℕ) → reference.now.target ≡ External item name → IsName (text view.now name) }
    ensures { (package_name : List ℕ) → AreSymbolTexts view.now package_name texts.now → IfOk result (λ o. option_map occurrence_model o ≡ occurrence view.now package_name reference.now) }
{
    let Some(symbol) = texts.symbol(alloc, view, reference.target)? else {
        return Ok(None);
    };
    Ok(Some(Occurrence {
        range: token_range(alloc, view, lines, reference.number)?,
        symbol,
        symbol_roles: i32::from(reference.role),
        enclosing_range: enclosing_range(alloc, view, lines, reference)?,
    }))
}

/// The occurrences of the references whose targets have symbols, in the order of the references.
fn occurrences(
    alloc: Global,
    view: &View<'_>,
    texts: &Texts<'_>,
    refs: &[Reference],
) -> Result<Vec<Occurrence>, AllocError>
    requires in_text { AreInText view.now.bytes view.now.tokens }
    requires short { length view.now.bytes < 2 ^ 31 }
    requires named { NamesAreIdentifiers view.now }
    requires of_names { ReferencesAreIdentifiers view.now refs.now }
    ensures { (package_name : List ℕ) → AreSymbolTexts view.now package_name texts.now → IfOk result (λ v. map occurrence_model v.items ≡ filter_map (occurrence view.now package_name) refs.now) }
{
    let lines = lines(alloc, view.bytes())?;
    let mut found = Vec::with_capacity(alloc, refs.len())?;
    for reference in refs {
        if let Some(occurrence) = occurrence_of(alloc, view, texts, &lines, reference)? {
            found.push(occurrence)?;
        }
    }
    Ok(found)
}

/// The symbol string and the display name of the identifier that a reference declares. `None` if the reference isn't a declaration, or if
/// its target has no symbol.
fn declared_symbol_info(
    alloc: Global,
    view: &View<'_>,
    texts: &Texts<'_>,
    reference: &Reference,
) -> Result<Option<SymbolInfo>, AllocError>
    requires named { NamesAreIdentifiers view.now }
    requires own { IsName (text view.now reference.now.number) }
    requires external { (item name : ℕ) → reference.now.target ≡ External item name → IsName (text view.now name) }
    ensures { (package_name : List ℕ) → AreSymbolTexts view.now package_name texts.now → IfOk result (λ s. option_map symbol_model s ≡ declared_symbol_info view.now package_name reference.now) }
{
    if reference.role != 1 {
        return Ok(None);
    }
    let Some(symbol) = texts.symbol(alloc, view, reference.target)? else {
        return Ok(None);
    };
    let display_name = String::from_str(alloc, name_str(view.text(reference.number)))?;
    Ok(Some(SymbolInfo {
        symbol,
        display_name,
    }))
}

/// The symbol information of the references that are declarations with a symbol, in the order of the references.
fn symbols(
    alloc: Global,
    view: &View<'_>,
    texts: &Texts<'_>,
    refs: &[Reference],
) -> Result<Vec<SymbolInfo>, AllocError>
    requires named { NamesAreIdentifiers view.now }
    requires of_names { ReferencesAreIdentifiers view.now refs.now }
    ensures { (package_name : List ℕ) → AreSymbolTexts view.now package_name texts.now → IfOk result (λ v. map symbol_model v.items ≡ filter_map (declared_symbol_info view.now package_name) refs.now) }
{
    let mut found = Vec::new(alloc);
    for reference in refs {
        if let Some(row) = declared_symbol_info(alloc, view, texts, reference)? {
            found.push(row)?;
        }
    }
    Ok(found)
}

/// The document with this path, these occurrences and these symbols. Its language is `Oberon`, and its columns count bytes.
fn document_at(
    alloc: Global,
    path: &str,
    occurrences: Vec<Occurrence>,
    symbols: Vec<SymbolInfo>,
) -> Result<Document, AllocError>
    ensures { IfOk result (λ d. document_model d ≡ document_at path.now (map occurrence_model occurrences.items) (map symbol_model symbols.items)) }
{
    let relative_path = String::from_str(alloc, path)?;
    let language = String::from_str(alloc, "Oberon")?;
    Ok(Document {
        relative_path,
        occurrences,
        symbols,
        language,
        position_encoding: 1,
    })
}

/// Makes the document of the module at this path, from the module's references and the symbol strings of their targets.
fn document_from_texts(
    alloc: Global,
    path: &str,
    view: &View<'_>,
    refs: &[Reference],
    texts: &Texts<'_>,
) -> Result<Document, AllocError>
    requires in_text { AreInText view.now.bytes view.now.tokens }
    requires short { length view.now.bytes < 2 ^ 31 }
    requires named { NamesAreIdentifiers view.now }
    requires of_names { ReferencesAreIdentifiers view.now refs.now }
    ensures { (package_name : List ℕ) → AreSymbolTexts view.now package_name texts.now → IfOk result (λ d. document_model d ≡ document_of view.now path.now package_name refs.now) }
{
    let occurrences = occurrences(alloc, view, texts, refs)?;
    let symbols = symbols(alloc, view, texts, refs)?;
    document_at(alloc, path, occurrences, symbols)
}

/// Makes the document of the module at this path. Its caller has already checked that symbol strings can contain the package.
fn document_in_package(
    alloc: Global,
    path: &str,
    view: &View<'_>,
    refs: &[Reference],
    package_name: &str,
) -> Result<Document, AllocError>
    requires in_text { AreInText view.now.bytes view.now.tokens }
    requires short { length view.now.bytes < 2 ^ 31 }
    requires named { NamesAreIdentifiers view.now }
    requires of_names { ReferencesAreIdentifiers view.now refs.now }
    ensures { IfOk result (λ d. document_model d ≡ document_of view.now path.now package_name.now refs.now) }
{
    let texts = Texts::new(alloc, view, refs, package_name)?;
    document_from_texts(alloc, path, view, refs, &texts)
}

/// Makes the document of a module at this path from its references (scip.proto, `Document`): its occurrences, and the symbols that it
/// declares.
/// An occurrence has its range, its symbol string, its role, and for a declaration the range of the whole declaration.
/// Lines and columns count from 0, columns in bytes.
/// Fails with `BadPackage` if the package is `.` or begins with a space, and with `Memory` if an allocation fails.
pub fn document(
    alloc: Global,
    path: &str,
    view: &View<'_>,
    refs: &[Reference],
    package_name: &str,
) -> Result<Document, EmitFault>
    // The tokens are ranges of the bytes: none is empty, and each ends before the next begins.
    requires in_text { AreInText view.now.bytes view.now.tokens }
    // The module has fewer than 2^31 bytes.
    requires short { length view.now.bytes < 2 ^ 31 }
    // The module's own name, what it declares and imports, and the names in the reached interfaces are identifiers.
    requires named { NamesAreIdentifiers view.now }
    // The bytes of each reference's token, and of each external name, are an identifier.
    requires of_names { ReferencesAreIdentifiers view.now refs.now }
    // With `Ok` the document is exactly the module's: it has the path, an occurrence for each reference whose target has a symbol, and the
    // symbols that the references declare.
    ensures exact { IfOk result (λ d. document_model d ≡ document_of view.now path.now package_name.now refs.now) }
    // The result is `BadPackage` if and only if the package is `.` or begins with a space.
    ensures bad_package { (result ≡ Err BadPackage) ↔ (is_wrong_part package_name.now ≡ true) }
{
    if is_bad_package(package_name) {
        return Err(EmitFault::BadPackage);
    }
    Ok(document_in_package(alloc, path, view, refs, package_name)?)
}
