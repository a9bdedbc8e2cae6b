//! The interface of a module. Offsets and numbers of tokens are counted by hand.
use crate::asked::Asked::{Found, Seen};
use crate::asked::{Row, check_rows};
use crate::readings::table_in;
use ob_interface::{Interface, Part, TypeExpr, TypeName, read_interface};
use ob_scan::laws::tokens_in_text;
use ob_scan::scan;
use std::alloc::{AllocError, Global};
use std::test::Fail;

/// A record that extends one of another module through a pointer.
const M: &[u8] = b"MODULE M; IMPORT B; TYPE T = POINTER TO R; R = RECORD (B.S) f*: INTEGER END; \
    VAR p: T; BEGIN p.f := p.g END M.";

/// The extended record.
const B: &[u8] = b"MODULE B; TYPE S* = RECORD g*: INTEGER END; END B.";

/// An alias, a list of names, a nested record, a procedure type, and local declarations of a procedure.
const EACH: &[u8] =
    b"MODULE E; IMPORT X := B; CONST c* = 1; VAR a, b*: ARRAY 2, 3 OF RECORD f: RECORD (X.S) g*: SET END END; \
    h: PROCEDURE (q: SET); PROCEDURE p*(r: SET); VAR v: RECORD w: SET END; END p; END E.";

/// The declarations of a module's interface: kind, name, export mark, offset, record and type expression of each. Then lookups of a field
/// by a record and a name: the indices of the field, the declaration and the owner, the base, and the module of the name.
const ROWS: &[Row] = &[
    (
        Seen(M),
        "M: Type T false 25 None pointer R at 40; Type R false 43 None record 15; Field f true 60 Some(15) INTEGER at 64; \
         Variable p false 81 None T at 84; ",
    ),
    (
        Seen(B),
        "B: Type S true 15 None record 7; Field g true 27 Some(7) INTEGER at 31; ",
    ),
    // Aliases, parameters and local declarations aren't in the interface.
    (
        Seen(EACH),
        "E: Constant c true 31 None; Variable a false 43 None array array record 25; Variable b true 46 None array array record 25; \
         Field f false 71 Some(25) record 28; Field g true 87 Some(28) SET at 91; Variable h false 104 None procedure; \
         Procedure p true 137 None; ",
    ),
    (Found(M, 15, "f"), "Some(2) None Some(1) B.S no module"),
    (Found(M, 15, "B"), "None None Some(1) B.S B"),
    (Found(B, 7, "S"), "None Some(0) Some(0) no base no module"),
    (Found(EACH, 28, "g"), "Some(4) None Some(3) X.S no module"),
    // A record in the declaration of several names belongs to the first one, and an alias is no declaration.
    (Found(EACH, 25, "X"), "None None Some(1) no base B"),
    (
        Found(EACH, 25, "c"),
        "None Some(0) Some(1) no base no module",
    ),
    // A local record has no exported owner.
    (Found(EACH, 62, "w"), "None None None no base no module"),
    (
        Found(M, 4294967295, "f"),
        "None None None no base no module",
    ),
];

fn interface_of(alloc: Global, text: &[u8]) -> Result<Interface, Fail> {
    let tokens = scan(alloc, text)?;
    tokens_in_text();
    let table = table_in(alloc, text, &tokens)?;
    let exports = read_interface(alloc, &table, tokens.as_slice(), text)?;
    Ok(Interface::new(alloc, exports)?)
}

fn append_bytes(alloc: Global, description: &mut String, bytes: &[u8]) -> Result<(), AllocError> {
    description.push_str(String::from_utf8_lossy(alloc, bytes)?.as_str())
}

fn append_name(
    alloc: Global,
    description: &mut String,
    name: TypeName<'_>,
) -> Result<(), AllocError> {
    match name {
        TypeName::Simple(name) => append_bytes(alloc, description, name),
        TypeName::Qualified(alias, name) => {
            append_bytes(alloc, description, alias)?;
            description.push_str(".")?;
            append_bytes(alloc, description, name)
        }
    }
}

fn append_part(alloc: Global, description: &mut String, part: Part<'_>) -> Result<(), AllocError> {
    match part {
        Part::Array => description.push_str(" array"),
        Part::Pointer => description.push_str(" pointer"),
        Part::Record(number) => write!(description, " record {number}"),
        Part::Procedure => description.push_str(" procedure"),
        Part::Named { start, name } => {
            description.push_str(" ")?;
            append_name(alloc, description, name)?;
            write!(description, " at {start}")
        }
    }
}

/// The type expression of the declaration at an index, component by component.
fn describe_parts(alloc: Global, interface: &Interface, place: u32) -> Result<String, AllocError> {
    let mut description = String::new(alloc);
    for at in 0..4 {
        if let Some(part) = interface.type_part(place, at) {
            append_part(alloc, &mut description, part)?;
        }
    }
    Ok(description)
}

/// The components of a type expression, from the outermost inwards.
fn describe_type_expr(alloc: Global, type_expr: TypeExpr<'_>) -> Result<String, AllocError> {
    let mut description = String::new(alloc);
    let mut rest = type_expr;
    for _ in 0..4 {
        if let Some(part) = rest.first() {
            append_part(alloc, &mut description, part)?;
        }
        rest = rest.rest();
    }
    Ok(description)
}

fn append_declaration(
    alloc: Global,
    description: &mut String,
    interface: &Interface,
    place: u32,
) -> Result<(), AllocError> {
    let Some(it) = interface.declaration_at(place) else {
        return Ok(());
    };
    write!(description, "{:?} ", it.decl_kind)?;
    append_bytes(alloc, description, it.name)?;
    write!(description, " {} {} {:?}", it.exported, it.start, it.record)?;
    let parts = describe_parts(alloc, interface, place)?;
    let type_expr = describe_type_expr(alloc, it.type_expr)?;
    description.push_str(parts.as_str())?;
    description.push_str(if type_expr == parts {
        "; "
    } else {
        " by place alone; "
    })
}

fn describe_declarations(alloc: Global, interface: &Interface) -> Result<String, AllocError> {
    let mut description = String::from_utf8_lossy(alloc, interface.name())?;
    description.push_str(": ")?;
    for place in 0..8 {
        append_declaration(alloc, &mut description, interface, place)?;
    }
    Ok(description)
}

pub(crate) fn describe_exports(alloc: Global, text: &[u8]) -> Result<String, Fail> {
    let interface = interface_of(alloc, text)?;
    Ok(describe_declarations(alloc, &interface)?)
}

fn append_base(
    alloc: Global,
    description: &mut String,
    interface: &Interface,
    record: u32,
) -> Result<(), AllocError> {
    match interface.base(record) {
        Some(base) => append_name(alloc, description, base.name),
        None => description.push_str("no base"),
    }
}

fn describe_name(
    alloc: Global,
    interface: &Interface,
    record: u32,
    name: &[u8],
) -> Result<String, AllocError> {
    let (field, declared) = (
        interface.index_of(Some(record), name),
        interface.index_of(None, name),
    );
    let owner = interface.owner(record);
    let mut description = format!(in alloc; "{field:?} {declared:?} {owner:?} ")?;
    append_base(alloc, &mut description, interface, record)?;
    description.push_str(" ")?;
    let module = interface.module_of(name).unwrap_or(b"no module");
    append_bytes(alloc, &mut description, module)?;
    Ok(description)
}

pub(crate) fn describe_lookup(
    alloc: Global,
    text: &[u8],
    record: u32,
    name: &[u8],
) -> Result<String, Fail> {
    let interface = interface_of(alloc, text)?;
    Ok(describe_name(alloc, &interface, record, name)?)
}

#[test]
fn other_modules_see_and_find_declarations(rt: HostRuntime) -> Result<(), Fail> {
    check_rows(&rt, ROWS)
}
