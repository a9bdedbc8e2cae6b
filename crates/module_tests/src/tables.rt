//! Sources with the tables of what they declare and use, computed by hand.
use crate::asked::Asked::{ByToken, Forms, Names, Steps};
use crate::asked::{Row, check_rows};
use crate::readings::table_in;
use std::alloc::Global;
use std::test::Fail;

const TEXT: &[u8] = b"MODULE M; IMPORT A, T := Texts; \
    TYPE R* = RECORD (A.B) f*, g: ARRAY 3, 4 OF POINTER TO S END; VAR v: R; \
    PROCEDURE P*(VAR x, y: ARRAY OF T.W): R; VAR z: PROCEDURE (q: R): S; \
    BEGIN z.f := v; FOR z := A.n TO 2 DO END END P; END M.";

const STEPS: &[u8] =
    b"MODULE M; PROCEDURE P; BEGIN a.b[x.y, 2](T.U).c(z)^ := q(w[i], 1); END P; END M.";

/// Type expressions of lists of names, of several lengths, of open arrays, of nested records, and of a name that is declared in its
/// pointer's own list.
const FORMS: &[u8] =
    b"MODULE M; TYPE A = ARRAY a, b OF SET; VAR a, T: POINTER TO T; r: RECORD x, y: RECORD (B.C) z: A END END; \
    PROCEDURE p(s, t: ARRAY OF ARRAY OF A; VAR u: B.C); END p; END M.";

/// Each list of the first two sources' tables, the type expressions of the third, and the lookups of tokens: the declared identifier, the
/// construct that begins there and declares, the record, the type expression, and the selectors.
const ROWS: &[Row] = &[
    (
        Names(TEXT),
        "[DeclGroup { decl_kind: Import, first: 4, last: 4, block: 0, of_record: None }, \
         DeclGroup { decl_kind: Import, first: 6, last: 8, block: 0, of_record: None }, \
         DeclGroup { decl_kind: Type, first: 11, last: 33, block: 0, of_record: None }, \
         DeclGroup { decl_kind: Field, first: 20, last: 32, block: 0, of_record: Some(14) }, \
         DeclGroup { decl_kind: Variable, first: 36, last: 38, block: 0, of_record: None }, \
         DeclGroup { decl_kind: Procedure, first: 40, last: 88, block: 0, of_record: None }, \
         DeclGroup { decl_kind: Parameter, first: 44, last: 53, block: 40, of_record: None }, \
         DeclGroup { decl_kind: Variable, first: 59, last: 68, block: 40, of_record: None }, \
         DeclGroup { decl_kind: Parameter, first: 63, last: 65, block: 61, of_record: None }] \
         [Declared { number: 4, exported: false, declared_by: 4 }, Declared { number: 6, exported: false, declared_by: 6 }, \
         Declared { number: 11, exported: true, declared_by: 11 }, Declared { number: 20, exported: true, declared_by: 20 }, \
         Declared { number: 23, exported: false, declared_by: 20 }, Declared { number: 36, exported: false, declared_by: 36 }, \
         Declared { number: 41, exported: true, declared_by: 40 }, Declared { number: 45, exported: false, declared_by: 44 }, \
         Declared { number: 47, exported: false, declared_by: 44 }, Declared { number: 59, exported: false, declared_by: 59 }, \
         Declared { number: 63, exported: false, declared_by: 63 }] \
         [Used { number: 16, block: 0, is_target: false, member: Some(18) }, \
         Used { number: 32, block: 0, is_target: true, member: None }, \
         Used { number: 38, block: 0, is_target: false, member: None }, \
         Used { number: 51, block: 40, is_target: false, member: Some(53) }, \
         Used { number: 56, block: 40, is_target: false, member: None }, \
         Used { number: 65, block: 61, is_target: false, member: None }, \
         Used { number: 68, block: 61, is_target: false, member: None }, \
         Used { number: 71, block: 40, is_target: false, member: Some(73) }, \
         Used { number: 75, block: 40, is_target: false, member: None }, \
         Used { number: 78, block: 40, is_target: false, member: None }, \
         Used { number: 80, block: 40, is_target: false, member: Some(82) }]",
    ),
    (
        Forms(TEXT),
        "[TypePart { declared_by: 11, number: 14, part: Record }, TypePart { declared_by: 20, number: 25, part: Array }, \
         TypePart { declared_by: 20, number: 27, part: Array }, TypePart { declared_by: 20, number: 30, part: Pointer }, \
         TypePart { declared_by: 20, number: 32, part: Named(None) }, \
         TypePart { declared_by: 36, number: 38, part: Named(None) }, TypePart { declared_by: 44, number: 49, part: Array }, \
         TypePart { declared_by: 44, number: 51, part: Named(Some(53)) }, \
         TypePart { declared_by: 59, number: 61, part: Procedure }, TypePart { declared_by: 63, number: 65, part: Named(None) }] \
         [Block { first: 40, outer: 0 }, Block { first: 61, outer: 40 }] [Import { alias: 4, imported: 4 }, Import { alias: 6, imported: 8 }] \
         [Record { number: 14, owner: 11, base: Some(TypeName { head: 16, member: Some(18) }) }] \
         [End { number: 88, of: Some(41) }, End { number: 91, of: None }] 1",
    ),
    (
        Forms(FORMS),
        "[TypePart { declared_by: 4, number: 6, part: Array }, TypePart { declared_by: 4, number: 8, part: Array }, \
         TypePart { declared_by: 4, number: 11, part: Named(None) }, TypePart { declared_by: 14, number: 18, part: Pointer }, \
         TypePart { declared_by: 14, number: 20, part: Named(None) }, TypePart { declared_by: 22, number: 24, part: Record }, \
         TypePart { declared_by: 25, number: 29, part: Record }, TypePart { declared_by: 35, number: 37, part: Named(None) }, \
         TypePart { declared_by: 44, number: 48, part: Array }, TypePart { declared_by: 44, number: 50, part: Array }, \
         TypePart { declared_by: 44, number: 52, part: Named(None) }, TypePart { declared_by: 54, number: 57, part: Named(Some(59)) }] \
         [Block { first: 41, outer: 0 }] [] \
         [Record { number: 24, owner: 22, base: None }, Record { number: 29, owner: 25, base: Some(TypeName { head: 31, member: Some(33) }) }] \
         [End { number: 63, of: Some(42) }, End { number: 66, of: None }] 1",
    ),
    (
        Steps(STEPS),
        "[Designator { head: 7, block: 3, is_written: true }, Designator { head: 11, block: 3, is_written: false }, \
         Designator { head: 18, block: 3, is_written: false }, Designator { head: 25, block: 3, is_written: false }, \
         Designator { head: 29, block: 3, is_written: false }, Designator { head: 31, block: 3, is_written: false }, \
         Designator { head: 33, block: 3, is_written: false }] \
         [Selector { of: 7, step: Field(9) }, Selector { of: 7, step: Elements(2) }, \
         Selector { of: 7, step: Arguments(Some(TypeName { head: 18, member: Some(20) })) }, \
         Selector { of: 7, step: Field(23) }, Selector { of: 7, step: Arguments(Some(TypeName { head: 25, member: None })) }, \
         Selector { of: 7, step: Target }, Selector { of: 11, step: Field(13) }, Selector { of: 18, step: Field(20) }, \
         Selector { of: 29, step: Arguments(None) }, Selector { of: 31, step: Elements(1) }]",
    ),
    (ByToken(STEPS, 6), "None None None [] []"),
    (
        ByToken(STEPS, 3),
        "None Some(DeclGroup { decl_kind: Procedure, first: 3, last: 40, block: 0, of_record: None }) None [] []",
    ),
    (
        ByToken(STEPS, 18),
        "None None None [] [Selector { of: 18, step: Field(20) }]",
    ),
    (ByToken(STEPS, 4294967295), "None None None [] []"),
];

pub(crate) fn describe_names(alloc: Global, text: &[u8]) -> Result<String, Fail> {
    let table = table_in(alloc, text)?;
    let (decl_groups, declared, uses) = (table.decl_groups(), table.declared(), table.uses());
    Ok(format!(in alloc; "{decl_groups:?} {declared:?} {uses:?}")?)
}

pub(crate) fn describe_type_exprs(alloc: Global, text: &[u8]) -> Result<String, Fail> {
    let table = table_in(alloc, text)?;
    let (parts, blocks, imports, records) = (
        table.parts(),
        table.blocks(),
        table.imports(),
        table.records(),
    );
    let (ends, name) = (table.ends(), table.module_name_token());
    Ok(format!(in alloc; "{parts:?} {blocks:?} {imports:?} {records:?} {ends:?} {name}")?)
}

pub(crate) fn describe_steps(alloc: Global, text: &[u8]) -> Result<String, Fail> {
    let table = table_in(alloc, text)?;
    let (designators, selectors) = (table.designators(), table.selectors());
    Ok(format!(in alloc; "{designators:?} {selectors:?}")?)
}

pub(crate) fn describe_token(alloc: Global, text: &[u8], token: u32) -> Result<String, Fail> {
    let table = table_in(alloc, text)?;
    let (declaration, decl_group) = (table.declaration(token), table.decl_group(token));
    let (record, type_expr, selectors) = (
        table.record(token),
        table.type_expr(token),
        table.selectors_of(token),
    );
    Ok(format!(in alloc; "{declaration:?} {decl_group:?} {record:?} {type_expr:?} {selectors:?}")?)
}

#[test]
fn tables_have_their_rows(rt: HostRuntime) -> Result<(), Fail> {
    check_rows(&rt, ROWS)
}
