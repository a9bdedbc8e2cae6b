//! Collects declarations, bases and import items, with their names in the buffer.
ghost use Rattle.std.specs.Prelude.{◌≡◌, ℕ, List, map, IfOk};
ghost use Rattle.std.specs.Option.{option_map};
ghost use Rattle.module_table.specs.Order.{IsIncreasingBy};
ghost use Rattle.module_table.specs.declared.rows.DeclGroup.{DeclGroup as DeclGroupRow};
ghost use Rattle.module_table.specs.declared.rows.TypePart.{TypePart as TypePartRow};
ghost use Rattle.ob_scan.specs.declared.token.Token.{Token};
ghost use Rattle.std.specs.List.{filter_map};
ghost use Rattle.std.specs.List.Sorted.{IsNonDecreasingBy};
ghost use Rattle.ob_scan.specs.Spelling.{AreInText};
ghost use Rattle.ob_interface.specs.Interfaces.{base, base_by, declaration, declaration_by, imported_of, is_exportable, module_level_by};
ghost use Rattle.ob_interface.specs.Texts.{base_in, declaration_in, type_expr_at, import_in, AllDecodeTo, IsGrown, DecodesTo};

use crate::buffer::{append_name, append_text};
use crate::module_level::find_module_level_group;
use crate::rows::{BaseRow, DeclarationRow, ImportRow};
use crate::type_exprs::part_range;
use module_table::{DeclGroup, DeclKind, Declared, Import, Record, TypeName, TypePart};
use ob_scan::TokenTexts;
use std::alloc::{AllocError, Global};

/// Whether other modules can refer to a declaration of this kind.
fn is_exportable(decl_kind: DeclKind) -> bool
    ensures { result ≡ is_exportable decl_kind }
{
    match decl_kind {
        DeclKind::Import | DeclKind::Parameter => false,
        DeclKind::Constant
        | DeclKind::Type
        | DeclKind::Variable
        | DeclKind::Procedure
        | DeclKind::Field => true,
    }
}

/// The declaration group of an identifier, if the group is in the module's block and other modules can refer to its kind. The search
/// starts at index `cursor`, which is set to the index found.
fn exportable_decl_group(
    decl_groups: &[DeclGroup],
    cursor: &mut usize,
    declared: Declared,
) -> Option<DeclGroup>
    // The declaration groups are sorted by their first tokens.
    requires { IsIncreasingBy (λ (d : DeclGroupRow). d.first) decl_groups.now }
    ensures { (bytes : List ℕ) (ts : List Token) (ps : List TypePartRow) → option_map (declaration bytes ts ps declared) result ≡ declaration_by bytes ts ps declared (module_level_by decl_groups.now declared.declared_by) }
{
    let decl_group = find_module_level_group(decl_groups, cursor, declared.declared_by)?;
    if is_exportable(decl_group.decl_kind) {
        Some(decl_group)
    } else {
        None
    }
}

/// The base of a record, if the record belongs to a declaration group of the module's block. The search starts at index `cursor`, which is
/// set to the index found.
fn module_level_base(
    decl_groups: &[DeclGroup],
    cursor: &mut usize,
    record: Record,
) -> Option<TypeName>
    // The declaration groups are sorted by their first tokens.
    requires { IsIncreasingBy (λ (d : DeclGroupRow). d.first) decl_groups.now }
    ensures { (bytes : List ℕ) (ts : List Token) → option_map (base bytes ts «record».number) result ≡ base_by bytes ts «record» (module_level_by decl_groups.now «record».owner) }
{
    if find_module_level_group(decl_groups, cursor, record.owner).is_some() {
        record.base
    } else {
        None
    }
}

/// Appends the name of a declaration to the buffer. Returns the declaration's entry.
fn append_declaration(
    text: &mut Vec<u8>,
    source: &TokenTexts,
    parts: &[TypePart],
    declared: Declared,
    decl_group: DeclGroup,
) -> Result<DeclarationRow, AllocError>
    // The tokens are ranges of the bytes.
    requires in_text { AreInText source.now.bytes.now source.now.tokens.now }
    // The components of each declaration group are adjacent.
    requires together { IsNonDecreasingBy (λ p. p.declared_by) parts.now }
    // With `Ok` the buffer was only appended to.
    ensures grown { IfOk result (λ _. IsGrown text.old.items text.new.items) }
    // In the buffer and in every extension of it the result decodes to the specified value.
    ensures decoded { IfOk result (λ d. DecodesTo (declaration_in (type_expr_at source.now.bytes.now source.now.tokens.now parts.now)) text.new.items d
        (declaration source.now.bytes.now source.now.tokens.now parts.now declared decl_group)) }
{
    let name = append_text(text, source.token_text(declared.number))?;
    let (first_part, parts_end) = part_range(parts, declared.declared_by);
    Ok(DeclarationRow {
        name,
        start: source.start(declared.number),
        decl_kind: decl_group.decl_kind,
        exported: declared.exported,
        record: decl_group.of_record,
        declared_by: declared.declared_by,
        first_part,
        parts_end,
    })
}

/// Collects the declarations of the identifiers in the module's block.
pub(crate) fn collect_declarations(
    alloc: Global,
    text: &mut Vec<u8>,
    source: &TokenTexts,
    decl_groups: &[DeclGroup],
    parts: &[TypePart],
    declared: &[Declared],
) -> Result<Vec<DeclarationRow>, AllocError>
    // The tokens are ranges of the bytes.
    requires in_text { AreInText source.now.bytes.now source.now.tokens.now }
    // The declaration groups are sorted by their first tokens.
    requires order { IsIncreasingBy (λ (d : DeclGroupRow). d.first) decl_groups.now }
    // The components of each declaration group are adjacent.
    requires together { IsNonDecreasingBy (λ p. p.declared_by) parts.now }
    // With `Ok` the buffer was only appended to.
    ensures grown { IfOk result (λ _. IsGrown text.old.items text.new.items) }
    // In the buffer and in every extension of it the entries decode to the specified values.
    ensures decode { IfOk result (λ rows. AllDecodeTo (declaration_in (type_expr_at source.now.bytes.now source.now.tokens.now parts.now)) text.new.items rows.items
        (filter_map (λ r. declaration_by source.now.bytes.now source.now.tokens.now parts.now r (module_level_by decl_groups.now r.declared_by)) declared.now)) }
{
    let mut rows = Vec::new(alloc);
    // Identifiers are in the order of their declaration groups, so the hint is right for most.
    let mut cursor = 0;
    for i in 0..declared.len() {
        let identifier = declared[i];
        match exportable_decl_group(decl_groups, &mut cursor, identifier) {
            Some(decl_group) => {
                let row = append_declaration(text, source, parts, identifier, decl_group)?;
                rows.push(row)?;
            }
            None => {}
        }
    }
    Ok(rows)
}

/// Appends the name of a base to the buffer. Returns the base's entry.
fn append_base(
    text: &mut Vec<u8>,
    source: &TokenTexts,
    record: u32,
    name: TypeName,
) -> Result<BaseRow, AllocError>
    // The tokens are ranges of the bytes.
    requires { AreInText source.now.bytes.now source.now.tokens.now }
    // With `Ok` the buffer was only appended to.
    ensures grown { IfOk result (λ _. IsGrown text.old.items text.new.items) }
    // In the buffer and in every extension of it the result decodes to the specified value.
    ensures decoded { IfOk result (λ b. DecodesTo base_in text.new.items b (base source.now.bytes.now source.now.tokens.now «record» name)) }
{
    let start = source.start(name.head);
    let name = append_name(text, source, name.head, name.member)?;
    Ok(BaseRow {
        record,
        start,
        name,
    })
}

/// Collects the bases of the records in the module's block.
pub(crate) fn collect_bases(
    alloc: Global,
    text: &mut Vec<u8>,
    source: &TokenTexts,
    decl_groups: &[DeclGroup],
    records: &[Record],
) -> Result<Vec<BaseRow>, AllocError>
    // The tokens are ranges of the bytes.
    requires in_text { AreInText source.now.bytes.now source.now.tokens.now }
    // The declaration groups are sorted by their first tokens.
    requires order { IsIncreasingBy (λ (d : DeclGroupRow). d.first) decl_groups.now }
    // With `Ok` the buffer was only appended to.
    ensures grown { IfOk result (λ _. IsGrown text.old.items text.new.items) }
    // In the buffer and in every extension of it the entries decode to the specified values.
    ensures decode { IfOk result (λ rows. AllDecodeTo base_in text.new.items rows.items
        (filter_map (λ r. base_by source.now.bytes.now source.now.tokens.now r (module_level_by decl_groups.now r.owner)) records.now)) }
{
    let mut rows = Vec::new(alloc);
    let mut cursor = 0;
    for i in 0..records.len() {
        let record = records[i];
        match module_level_base(decl_groups, &mut cursor, record) {
            Some(base) => {
                let row = append_base(text, source, record.number, base)?;
                rows.push(row)?;
            }
            None => {}
        }
    }
    Ok(rows)
}

/// Appends the names of an import item to the buffer. Returns the item's entry.
fn append_import(
    text: &mut Vec<u8>,
    source: &TokenTexts,
    import: Import,
) -> Result<ImportRow, AllocError>
    // The tokens are ranges of the bytes.
    requires { AreInText source.now.bytes.now source.now.tokens.now }
    // With `Ok` the buffer was only appended to.
    ensures grown { IfOk result (λ _. IsGrown text.old.items text.new.items) }
    // In the buffer and in every extension of it the result decodes to the specified value.
    ensures decoded { IfOk result (λ i. DecodesTo import_in text.new.items i (imported_of source.now.bytes.now source.now.tokens.now import)) }
{
    let alias = append_text(text, source.token_text(import.alias))?;
    let imported = append_text(text, source.token_text(import.imported))?;
    Ok(ImportRow {
        alias,
        start: source.start(import.alias),
        imported,
    })
}

/// Collects the import items.
pub(crate) fn collect_imports(
    alloc: Global,
    text: &mut Vec<u8>,
    source: &TokenTexts,
    imports: &[Import],
) -> Result<Vec<ImportRow>, AllocError>
    // The tokens are ranges of the bytes.
    requires { AreInText source.now.bytes.now source.now.tokens.now }
    // With `Ok` the buffer was only appended to.
    ensures grown { IfOk result (λ _. IsGrown text.old.items text.new.items) }
    // In the buffer and in every extension of it the entries decode to the specified values.
    ensures decode { IfOk result (λ rows. AllDecodeTo import_in text.new.items rows.items (map (imported_of source.now.bytes.now source.now.tokens.now) imports.now)) }
{
    let mut rows = Vec::new(alloc);
    for i in 0..imports.len() {
        let row = append_import(text, source, imports[i])?;
        rows.push(row)?;
    }
    Ok(rows)
}
