//! Writes the document of a module as the bytes of its record, without making a message in memory. In the clauses of this file:
//! - `in_text`: the tokens are nonempty ranges of the bytes, each before the next. `short`: there are fewer than 2^31 bytes.
//! - `lined`: `lines` has the offsets of the line starts. `named`, `of_names`, `external`: the names in question are identifiers.
//! - `AreSymbolTexts view package_name texts`: the strings in `texts` are those of the targets' symbols in this package.
//! - `payload_field 2 bytes`, `payload_field 3 bytes`: the record of an occurrence, or of symbol information, with this content.
ghost use Rattle.std.specs.Prelude.{◌≡◌, ◌++◌, ◌<◌, ◌^◌, ◌↔◌, ℕ, List, IfOk, OnOk, Err, length, map, pos, replicate, true};
ghost use Rattle.std.specs.List.{filter_map};
ghost use Rattle.std.specs.Option.{option_to_list};
ghost use Rattle.ob_scan.specs.Position.{line_starts};
ghost use Rattle.ob_scan.specs.Spelling.{AreInText};
ghost use Rattle.ob_view.specs.declared.target.Target.TheVariants.{External};
ghost use Rattle.ob_view.specs.World.{text};
ghost use Rattle.proto_wire.specs.Writing.{payload_field, payload_fields, spelled, spelled_fields};
ghost use Rattle.scip_index.specs.Written.{document_part, written_document, written_occurrence, written_symbol};
ghost use Rattle.scip_symbol.specs.Outcomes.{is_wrong_part};
ghost use Rattle.ob_emit.specs.declared.fault.EmitFault.TheVariants.{BadPackage};
ghost use Rattle.ob_emit.specs.Documents.{document_of, enclosing_range, occurrence, token_range, declared_symbol_info};
ghost use Rattle.ob_emit.specs.StoredTexts.{AreSymbolTexts};
ghost use Rattle.ob_emit.specs.Named.{ReferencesAreIdentifiers, NamesAreIdentifiers, IsName};

use crate::EmitFault;
use crate::capacity::{CapacityPlan, reserve_symbols};
use crate::documents::is_bad_package;
use crate::hinted_lookup::Hints;
use crate::locations::{enclosing_range, token_span};
use crate::target_texts::Texts;
use ob_scan::{Lines, lines};
use ob_view::{Reference, View};
use proto_wire::{Scratch, append_number, append_text};
use scip_index::{
    BorrowedOccurrence, BorrowedSymbol, append_compact_occurrence, append_message_in_place,
    head_capacity, is_compact, prepend_record_head,
};
use std::alloc::{AllocError, Global};

/// Appends the record of a reference's occurrence; `symbol` is the symbol string of the reference's target.
fn append_occurrence_record(
    scratch: &mut Scratch,
    out: &mut Vec<u8>,
    view: &View<'_>,
    lines: &Lines,
    hint: &mut Hints,
    reference: &Reference,
    symbol: &str,
) -> Result<(), AllocError>
    requires in_text { AreInText view.now.bytes view.now.tokens }
    requires short { length view.now.bytes < 2 ^ 31 }
    requires lined { lines.now ≡ line_starts view.now.bytes }
    ensures { OnOk result (out.new.items ≡ out.old.items ++ spelled (payload_field 2 (written_occurrence
        (record { range = token_range view.now reference.now.number; symbol = symbol.now; symbol_roles = pos reference.now.role; enclosing_range = enclosing_range view.now reference.now })))) }
{
    let span = token_span(view, lines, &mut hint.line, reference.number);
    if is_compact(&span, symbol, reference.role) {
        return append_compact_occurrence(out, &span, symbol, reference.role);
    }
    let place = BorrowedOccurrence {
        range: span.range(),
        symbol,
        symbol_roles: i32::from(reference.role),
        enclosing_range: enclosing_range(view, lines, hint, reference),
    };
    append_message_in_place(scratch, out, 2, &place)
}

/// Appends the record of a reference's occurrence, or nothing if the reference's target has no symbol. Makes the symbol string anew if
/// `texts` hasn't stored it.
fn append_unstored_occurrence(
    alloc: Global,
    scratch: &mut Scratch,
    out: &mut Vec<u8>,
    view: &View<'_>,
    texts: &Texts<'_>,
    lines: &Lines,
    hint: &mut Hints,
    reference: &Reference,
) -> Result<(), AllocError>
    requires in_text { AreInText view.now.bytes view.now.tokens }
    requires short { length view.now.bytes < 2 ^ 31 }
    requires lined { lines.now ≡ line_starts view.now.bytes }
    requires named { NamesAreIdentifiers view.now }
    requires external { (item name : ℕ) → reference.now.target ≡ External item name → IsName (text view.now name) }
    ensures { (package_name : List ℕ) → AreSymbolTexts view.now package_name texts.now →
        OnOk result (out.new.items ≡ out.old.items ++ spelled_fields (payload_fields 2 (map written_occurrence (option_to_list (occurrence view.now package_name reference.now))))) }
{
    match texts.symbol(alloc, view, reference.target)? {
        None => Ok(()),
        Some(symbol) => append_occurrence_record(
            scratch,
            out,
            view,
            lines,
            hint,
            reference,
            symbol.as_str(),
        ),
    }
}

/// Appends the record of a reference's occurrence, or nothing if the reference's target has no symbol. Borrows the symbol string from
/// `texts`, where `slot` is the hint for its lookup, or makes it anew if it isn't found.
fn append_stored_occurrence(
    alloc: Global,
    scratch: &mut Scratch,
    out: &mut Vec<u8>,
    view: &View<'_>,
    texts: &Texts<'_>,
    lines: &Lines,
    hint: &mut Hints,
    reference: &Reference,
    slot: usize,
) -> Result<(), AllocError>
    requires in_text { AreInText view.now.bytes view.now.tokens }
    requires short { length view.now.bytes < 2 ^ 31 }
    requires lined { lines.now ≡ line_starts view.now.bytes }
    requires named { NamesAreIdentifiers view.now }
    requires external { (item name : ℕ) → reference.now.target ≡ External item name → IsName (text view.now name) }
    ensures { (package_name : List ℕ) → AreSymbolTexts view.now package_name texts.now →
        OnOk result (out.new.items ≡ out.old.items ++ spelled_fields (payload_fields 2 (map written_occurrence (option_to_list (occurrence view.now package_name reference.now))))) }
{
    match texts.stored_symbol(view, reference.target, slot) {
        Some(Some(symbol)) => append_occurrence_record(
            scratch, out, view, lines, hint, reference, symbol,
        ),
        Some(None) => Ok(()),
        None => append_unstored_occurrence(
            alloc, scratch, out, view, texts, lines, hint, reference,
        ),
    }
}

/// Appends the record of a reference's occurrence, or nothing if the reference's target has no symbol. Makes and stores the symbol string
/// in `texts` if the target is outside of the module and its string isn't stored yet.
fn append_occurrence<'a>(
    alloc: Global,
    scratch: &mut Scratch,
    out: &mut Vec<u8>,
    view: &View<'a>,
    texts: &mut Texts<'a>,
    lines: &Lines,
    hint: &mut Hints,
    reference: &Reference,
) -> Result<(), AllocError>
    requires in_text { AreInText view.now.bytes view.now.tokens }
    requires short { length view.now.bytes < 2 ^ 31 }
    requires lined { lines.now ≡ line_starts view.now.bytes }
    requires named { NamesAreIdentifiers view.now }
    requires external { (item name : ℕ) → reference.now.target ≡ External item name → IsName (text view.now name) }
    ensures texts { (package_name : List ℕ) → AreSymbolTexts view.now package_name texts.old → OnOk result (AreSymbolTexts view.now package_name texts.new) }
    ensures bytes { (package_name : List ℕ) → AreSymbolTexts view.now package_name texts.old →
        OnOk result (out.new.items ≡ out.old.items ++ spelled_fields (payload_fields 2 (map written_occurrence (option_to_list (occurrence view.now package_name reference.now))))) }
{
    let slot = texts.intern(alloc, view, reference.target)?;
    append_stored_occurrence(
        alloc, scratch, out, view, texts, lines, hint, reference, slot,
    )
}

/// Appends the records of the occurrences, in the order of the references. A reference whose target has no symbol has no occurrence.
fn append_occurrences<'a>(
    alloc: Global,
    scratch: &mut Scratch,
    out: &mut Vec<u8>,
    view: &View<'a>,
    texts: &mut Texts<'a>,
    refs: &[Reference],
) -> Result<(), AllocError>
    requires in_text { AreInText view.now.bytes view.now.tokens }
    requires short { length view.now.bytes < 2 ^ 31 }
    requires named { NamesAreIdentifiers view.now }
    requires of_names { ReferencesAreIdentifiers view.now refs.now }
    ensures texts { (package_name : List ℕ) → AreSymbolTexts view.now package_name texts.old → OnOk result (AreSymbolTexts view.now package_name texts.new) }
    ensures bytes { (package_name : List ℕ) → AreSymbolTexts view.now package_name texts.old →
        OnOk result (out.new.items ≡ out.old.items ++ spelled_fields (payload_fields 2 (map written_occurrence (filter_map (occurrence view.now package_name) refs.now)))) }
{
    let lines = lines(alloc, view.bytes())?;
    let mut hint = Hints::new();
    let mut capacity_plan = CapacityPlan::new();
    for reference in refs {
        let start = out.len();
        append_occurrence(
            alloc, scratch, out, view, texts, &lines, &mut hint, reference,
        )?;
        capacity_plan.count_record(out, start, view, texts, refs);
    }
    Ok(())
}

/// Appends the record of symbol information, with this symbol string and with the reference's token as the display name.
fn append_symbol_info(
    scratch: &mut Scratch,
    out: &mut Vec<u8>,
    view: &View<'_>,
    reference: &Reference,
    symbol: &str,
) -> Result<(), AllocError>
    ensures { OnOk result (out.new.items ≡ out.old.items ++ spelled (payload_field 3 (written_symbol (record { symbol = symbol.now; display_name = text view.now reference.now.number })))) }
{
    let symbol_info = BorrowedSymbol {
        symbol,
        display_name: view.text(reference.number),
    };
    append_message_in_place(scratch, out, 3, &symbol_info)
}

/// Appends the record of the symbol information of a reference that is a declaration, or nothing if its target has no symbol. Makes the
/// symbol string anew if `texts` hasn't stored it.
fn append_unstored_symbol(
    alloc: Global,
    scratch: &mut Scratch,
    out: &mut Vec<u8>,
    view: &View<'_>,
    texts: &Texts<'_>,
    reference: &Reference,
) -> Result<(), AllocError>
    requires named { NamesAreIdentifiers view.now }
    // The reference is a declaration.
    requires declares { reference.now.role ≡ 1 }
    requires external { (item name : ℕ) → reference.now.target ≡ External item name → IsName (text view.now name) }
    ensures { (package_name : List ℕ) → AreSymbolTexts view.now package_name texts.now →
        OnOk result (out.new.items ≡ out.old.items ++ spelled_fields (payload_fields 3 (map written_symbol (option_to_list (declared_symbol_info view.now package_name reference.now))))) }
{
    match texts.symbol(alloc, view, reference.target)? {
        None => Ok(()),
        Some(symbol) => append_symbol_info(scratch, out, view, reference, symbol.as_str()),
    }
}

/// Appends the record of the symbol information of a reference. Appends nothing if the reference isn't a declaration, or if its target has
/// no symbol.
fn append_symbol(
    alloc: Global,
    scratch: &mut Scratch,
    out: &mut Vec<u8>,
    view: &View<'_>,
    texts: &Texts<'_>,
    reference: &Reference,
) -> Result<(), AllocError>
    requires named { NamesAreIdentifiers view.now }
    requires external { (item name : ℕ) → reference.now.target ≡ External item name → IsName (text view.now name) }
    ensures { (package_name : List ℕ) → AreSymbolTexts view.now package_name texts.now →
        OnOk result (out.new.items ≡ out.old.items ++ spelled_fields (payload_fields 3 (map written_symbol (option_to_list (declared_symbol_info view.now package_name reference.now))))) }
{
    if reference.role != 1 {
        return Ok(());
    }
    match texts.stored_symbol(view, reference.target, 0) {
        Some(Some(symbol)) => append_symbol_info(scratch, out, view, reference, symbol),
        Some(None) => Ok(()),
        None => append_unstored_symbol(alloc, scratch, out, view, texts, reference),
    }
}

/// Appends the records of the symbol information of the references that are declarations with a symbol, in the order of the references.
fn append_symbols(
    alloc: Global,
    scratch: &mut Scratch,
    out: &mut Vec<u8>,
    view: &View<'_>,
    texts: &Texts<'_>,
    refs: &[Reference],
) -> Result<(), AllocError>
    requires named { NamesAreIdentifiers view.now }
    requires of_names { ReferencesAreIdentifiers view.now refs.now }
    ensures { (package_name : List ℕ) → AreSymbolTexts view.now package_name texts.now →
        OnOk result (out.new.items ≡ out.old.items ++ spelled_fields (payload_fields 3 (map written_symbol (filter_map (declared_symbol_info view.now package_name) refs.now)))) }
{
    for reference in refs {
        append_symbol(alloc, scratch, out, view, texts, reference)?;
    }
    Ok(())
}

/// Appends the encoded document of the module at this path: the path, the occurrences, the declared symbols, the language and the encoding
/// of positions.
fn append_document<'a>(
    alloc: Global,
    out: &mut Vec<u8>,
    path: &str,
    view: &View<'a>,
    texts: &mut Texts<'a>,
    refs: &[Reference],
) -> Result<(), AllocError>
    requires in_text { AreInText view.now.bytes view.now.tokens }
    requires short { length view.now.bytes < 2 ^ 31 }
    requires named { NamesAreIdentifiers view.now }
    requires of_names { ReferencesAreIdentifiers view.now refs.now }
    ensures { (package_name : List ℕ) → AreSymbolTexts view.now package_name texts.old →
        OnOk result (out.new.items ≡ out.old.items ++ written_document (document_of view.now path.now package_name refs.now)) }
{
    let mut scratch = Scratch::new(alloc);
    append_text(out, 1, path)?;
    append_occurrences(alloc, &mut scratch, out, view, texts, refs)?;
    reserve_symbols(out, view, texts, refs);
    append_symbols(alloc, &mut scratch, out, view, texts, refs)?;
    append_text(out, 4, "Oberon")?;
    append_number(out, 6, 1)
}

/// The estimated number of bytes of the record of an occurrence. With this capacity for each, a document's buffer is rarely reallocated.
const OCCURRENCE_SIZE: usize = 48;

/// Returns `capacity` zero bytes, in which the record's head will be written, and then the encoded document of the module at this path.
/// The caller has already checked that symbol strings can contain the package.
fn padded_document_bytes(
    alloc: Global,
    path: &str,
    view: &View<'_>,
    refs: &[Reference],
    package_name: &str,
    capacity: usize,
) -> Result<Vec<u8>, AllocError>
    requires in_text { AreInText view.now.bytes view.now.tokens }
    requires short { length view.now.bytes < 2 ^ 31 }
    requires named { NamesAreIdentifiers view.now }
    requires of_names { ReferencesAreIdentifiers view.now refs.now }
    ensures { IfOk result (λ v. v.items ≡ replicate capacity 0 ++ written_document (document_of view.now path.now package_name.now refs.now)) }
{
    let mut texts = Texts::from_declarations(alloc, view, refs, package_name)?;
    let most = refs
        .len()
        .saturating_mul(OCCURRENCE_SIZE)
        .saturating_add(capacity);
    let mut bytes = Vec::with_capacity(alloc, most)?;
    bytes.resize(capacity, 0)?;
    append_document(alloc, &mut bytes, path, view, &mut texts, refs)?;
    Ok(bytes)
}

/// Makes the record of the module's document at this path. Its caller has already checked that symbol strings can contain the package.
fn document_record_in_package(
    alloc: Global,
    path: &str,
    view: &View<'_>,
    refs: &[Reference],
    package_name: &str,
) -> Result<Vec<u8>, AllocError>
    requires in_text { AreInText view.now.bytes view.now.tokens }
    requires short { length view.now.bytes < 2 ^ 31 }
    requires named { NamesAreIdentifiers view.now }
    requires of_names { ReferencesAreIdentifiers view.now refs.now }
    ensures { IfOk result (λ v. v.items ≡ document_part (document_of view.now path.now package_name.now refs.now)) }
{
    let each = OCCURRENCE_SIZE.saturating_add(package_name.len());
    let capacity = head_capacity(refs.len().saturating_mul(each));
    let bytes = padded_document_bytes(alloc, path, view, refs, package_name, capacity)?;
    prepend_record_head(alloc, bytes, capacity)
}

/// Makes the record of a module's document as an index contains it (scip.proto, `Index.documents`): its key, its length and its bytes.
/// Equals the encoding of what `document` returns, but encodes each occurrence directly, without building the message.
/// Fails with `BadPackage` if the package is `.` or begins with a space, and with `Memory` if an allocation fails.
pub fn document_record(
    alloc: Global,
    path: &str,
    view: &View<'_>,
    refs: &[Reference],
    package_name: &str,
) -> Result<Vec<u8>, EmitFault>
    // The tokens are ranges of the bytes: none is empty, and each ends before the next begins.
    requires in_text { AreInText view.now.bytes view.now.tokens }
    // The module has fewer than 2^31 bytes.
    requires short { length view.now.bytes < 2 ^ 31 }
    // The module's own name, what it declares and imports, and the names in the reached interfaces are identifiers.
    requires named { NamesAreIdentifiers view.now }
    // The bytes of each reference's token, and of each external name, are an identifier.
    requires of_names { ReferencesAreIdentifiers view.now refs.now }
    // With `Ok` the bytes are exactly the record of the module's document: its key, its length and its written form.
    ensures exact { IfOk result (λ v. v.items ≡ document_part (document_of view.now path.now package_name.now refs.now)) }
    // The result is `BadPackage` if and only if the package is `.` or begins with a space.
    ensures bad_package { (result ≡ Err BadPackage) ↔ (is_wrong_part package_name.now ≡ true) }
{
    if is_bad_package(package_name) {
        return Err(EmitFault::BadPackage);
    }
    Ok(document_record_in_package(alloc, path, view, refs, package_name)?)
}
