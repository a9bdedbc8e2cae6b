//! Lookups of inherited fields, compared with the generated source: in seeded forests of records, and in cycles of bases.

use crate::readings::table_in;
use ob_interface::{Interface, read_interface};
use ob_scan::laws::tokens_in_text;
use ob_scan::{Token, scan};
use ob_scope::scopes_from;
use ob_types::{Field, Node, Types};
use std::alloc::{AllocError, Global};
use std::process::Abort;
use std::sync::Arc;
use std::test::Fail;
use type_graph::Finder;

/// The numbers of records, of field names, of names that no record has, and of trees of each shape.
const RECORDS: u32 = 48;

const NAMES: u32 = 9;

const ABSENT: u32 = 2_000;

const TREES: u32 = 4;

/// How the base of a record is chosen.
#[derive(Clone, Copy)]
enum Shape {
    /// One of the preceding records.
    Tree,
    /// The preceding record.
    Chain,
    /// Any record, so there are cycles.
    Any,
    /// The preceding record, and the last one for the first.
    Cycle,
}

const SHAPES: [Shape; 4] = [Shape::Tree, Shape::Chain, Shape::Any, Shape::Cycle];

/// A field of a record: the number of its name, the offset of its identifier, and whether it is exported.
#[derive(Clone, Copy, Drop)]
struct DrawnField {
    name: u32,
    at: u32,
    exported: bool,
}

/// A record: the offset of its type's identifier, its base record, and its fields.
#[derive(Drop)]
struct DrawnRecord {
    at: u32,
    base_of_record: Option<u32>,
    fields: Vec<DrawnField>,
}

#[derive(Drop)]
struct Seed {
    state: u64,
}

impl Seed {
    fn below(&mut self, count: u32) -> u32 {
        self.state = self
            .state
            .wrapping_mul(6364136223846793005)
            .wrapping_add(1442695040888963407);
        ((self.state >> 33) % u64::from(count.max(1))) as u32
    }
}

/// The record that is the base of a record.
fn base_of_record(seed: &mut Seed, shape: Shape, record: u32) -> Option<u32> {
    match shape {
        Shape::Tree => record
            .checked_sub(1)
            .map(|last| seed.below(last.saturating_add(1))),
        Shape::Chain => record.checked_sub(1),
        Shape::Any => Some(seed.below(RECORDS)),
        Shape::Cycle => Some(record.checked_sub(1).unwrap_or(RECORDS - 1)),
    }
}

/// The offset of what is written next.
fn end_offset(text: &String) -> u32 {
    u32::try_from(text.len()).unwrap_or(u32::MAX)
}

/// Writes the fields of a record, some of them exported.
fn draw_fields(
    alloc: Global,
    text: &mut String,
    seed: &mut Seed,
) -> Result<Vec<DrawnField>, AllocError> {
    let mut fields = Vec::new(alloc);
    for name in 0..NAMES {
        if seed.below(16) == 0 {
            if !fields.is_empty() {
                text.push_str("; ")?;
            }
            let exported = seed.below(3) > 0;
            fields.push(DrawnField {
                name,
                at: end_offset(text),
                exported,
            })?;
            let mark = if exported { "*" } else { "" };
            write!(text, "f{name}{mark}: SET")?;
        }
    }
    Ok(fields)
}

/// Writes a record.
fn draw_record(
    alloc: Global,
    text: &mut String,
    seed: &mut Seed,
    shape: Shape,
    record: u32,
) -> Result<DrawnRecord, AllocError> {
    let at = end_offset(text);
    write!(text, "T{record}* = RECORD ")?;
    let base_of_record = base_of_record(seed, shape, record);
    if let Some(base) = base_of_record {
        write!(text, "(P{base}) ")?;
    }
    let fields = draw_fields(alloc, text, seed)?;
    text.push_str(" END; ")?;
    Ok(DrawnRecord {
        at,
        base_of_record,
        fields,
    })
}

/// Writes a module with records, whose bases are pointers to others.
fn draw(
    alloc: Global,
    text: &mut String,
    seed: &mut Seed,
    shape: Shape,
) -> Result<Vec<DrawnRecord>, AllocError> {
    text.push_str("MODULE N; TYPE ")?;
    for record in 0..RECORDS {
        write!(text, "P{record} = POINTER TO T{record}; ")?;
    }
    let mut drawn = Vec::new(alloc);
    for record in 0..RECORDS {
        drawn.push(draw_record(alloc, text, seed, shape, record)?)?;
    }
    text.push_str("END N.")?;
    Ok(drawn)
}

/// Writes a module with a variable of each of these types, and returns the offsets of their identifiers.
fn draw_variables(alloc: Global, text: &mut String) -> Result<Vec<u32>, AllocError> {
    text.push_str("MODULE M; IMPORT N; VAR ")?;
    let mut places = Vec::new(alloc);
    for record in 0..RECORDS {
        places.push(end_offset(text))?;
        write!(text, "x{record}: N.T{record}; ")?;
    }
    text.push_str("END M.")?;
    Ok(places)
}

/// This many names that begin with this letter.
fn names(alloc: Global, letter: &str, count: u32) -> Result<Vec<String>, AllocError> {
    let mut names = Vec::new(alloc);
    for name in 0..count {
        names.push(format!(in alloc; "{letter}{name}")?)?;
    }
    Ok(names)
}

/// The offset of a record's own field of this name; of an exported one if only exported fields are visible.
fn declared_field(record: &DrawnRecord, name: u32, from_outside: bool) -> Option<u32> {
    record
        .fields
        .iter()
        .find(|field| field.name == name && (field.exported || !from_outside))
        .map(|field| field.at)
}

/// The offset of the field that a name denotes in a record, by the source: its own, or else that of a base record.
fn expected_field(
    drawn: &[DrawnRecord],
    record: u32,
    name: u32,
    from_outside: bool,
) -> Option<u32> {
    let mut record = record;
    for _ in 0..RECORDS {
        let it = drawn.get(record as usize)?;
        if let Some(at) = declared_field(it, name, from_outside) {
            return Some(at);
        }
        record = it.base_of_record?;
    }
    None
}

/// The offset of the identifier of the field that a lookup finds.
fn field_offset(types: &Types, field: Field) -> Option<u32> {
    match field {
        Field::Own(token) => Some(types.view().tokens().get(token as usize)?.start),
        Field::Other {
            reached,
            declaration,
        } => Some(
            types
                .view()
                .interface(reached)?
                .declaration_at(declaration)?
                .start,
        ),
    }
}

/// The type of the declaration at an offset.
fn type_at(types: &Types, at: u32) -> Option<Node> {
    let token = types.view().tokens().iter().position(|it| it.start == at)?;
    types.type_expr(u32::try_from(token).ok()?)
}

/// The types of the declarations at these offsets.
fn types_at(alloc: Global, types: &Types, places: &[u32]) -> Result<Vec<Option<Node>>, AllocError> {
    let mut nodes = Vec::new(alloc);
    for at in places {
        nodes.push(type_at(types, *at))?;
    }
    Ok(nodes)
}

/// Compares the lookup of a name at a type with the field at this offset, or none.
fn compare_name<'a, R: Abort>(
    rt: &R,
    finder: &mut Finder<'a, Types<'_>>,
    node: Option<&Option<Node>>,
    name: &'a String,
    want: Option<u32>,
) -> Result<(), Fail> {
    let node = node.copied().flatten().ok_or("no type")?;
    let at = match finder.find_field(node, name.as_bytes())? {
        Some(field) => field_offset(finder.graph(), field),
        None => None,
    };
    assert_eq!(rt; at, want, "{name}");
    Ok(())
}

/// The compared records, the types that denote them, and whether these are in another module.
#[derive(Drop)]
struct Compared<'a> {
    drawn: &'a [DrawnRecord],
    nodes: &'a [Option<Node>],
    from_outside: bool,
}

/// Compares the lookups of all field names in a record.
fn compare_record<'a, R: Abort>(
    rt: &R,
    finder: &mut Finder<'a, Types<'_>>,
    compared: &Compared<'_>,
    names: &'a [String],
    record: u32,
) -> Result<(), Fail> {
    for (at, name) in names.iter().enumerate() {
        let node = compared.nodes.get(record as usize);
        let want = expected_field(
            compared.drawn,
            record,
            u32::try_from(at)?,
            compared.from_outside,
        );
        compare_name(rt, finder, node, name, want)?;
    }
    Ok(())
}

/// Compares the lookups of all field names in all records.
fn compare_records<'a, R: Abort>(
    rt: &R,
    finder: &mut Finder<'a, Types<'_>>,
    compared: &Compared<'_>,
    names: &'a [String],
) -> Result<(), Fail> {
    for record in 0..RECORDS {
        compare_record(rt, finder, compared, names, record)?;
    }
    Ok(())
}

/// Looks up names that no record has.
fn compare_absent<'a, R: Abort>(
    rt: &R,
    finder: &mut Finder<'a, Types<'_>>,
    compared: &Compared<'_>,
    names: &'a [String],
) -> Result<(), Fail> {
    for (at, name) in names.iter().enumerate() {
        let node = compared.nodes.get(at % RECORDS as usize);
        compare_name(rt, finder, node, name, None)?;
    }
    Ok(())
}

/// Compares the lookups of all names in all records: first when lookups climb from base to base, then when so many climbed that they use
/// jumps.
fn compare<R: Abort + AllocGlobal>(
    rt: &R,
    types: &Types,
    drawn: &[DrawnRecord],
    places: &[u32],
    from_outside: bool,
) -> Result<(), Fail> {
    let alloc = rt.alloc();
    let nodes = types_at(alloc, types, places)?;
    let compared = Compared {
        drawn,
        nodes: nodes.as_slice(),
        from_outside,
    };
    let (fields, absent) = (names(alloc, "f", NAMES)?, names(alloc, "w", ABSENT)?);
    let mut climbing = Finder::new(alloc, types, types.view().bytes(), 0);
    compare_records(rt, &mut climbing, &compared, fields.as_slice())?;
    let mut hopping = Finder::new(alloc, types, types.view().bytes(), usize::MAX);
    compare_absent(rt, &mut hopping, &compared, absent.as_slice())?;
    compare_records(rt, &mut hopping, &compared, fields.as_slice())
}

/// Compares the fields of a module's own records.
fn compare_local<R: Abort + AllocGlobal>(rt: &R, shape: Shape, state: u64) -> Result<(), Fail> {
    let alloc = rt.alloc();
    let mut text = String::new(alloc);
    let drawn = draw(alloc, &mut text, &mut Seed { state }, shape)?;
    let places = drawn.iter().map(|it| it.at).collect::<Vec<u32>>(alloc)?;
    tokens_in_text();
    let tokens = scan(alloc, text.as_bytes())?;
    let table = table_in(alloc, text.as_bytes(), &tokens)?;
    let scopes = scopes_from(alloc, &table, tokens.as_slice(), text.as_bytes())?;
    let types = Types::new(
        alloc,
        text.as_bytes(),
        tokens.as_slice(),
        &table,
        &scopes,
        &[],
    )?;
    compare(rt, &types, drawn.as_slice(), places.as_slice(), false)
}

/// The interface of a module.
pub(crate) fn exports(alloc: Global, text: &[u8]) -> Result<Arc<Interface>, Fail> {
    tokens_in_text();
    let tokens = scan(alloc, text)?;
    let table = table_in(alloc, text, &tokens)?;
    let exports = read_interface(alloc, &table, tokens.as_slice(), text)?;
    Ok(Arc::new(alloc, Interface::new(alloc, exports)?)?)
}

/// Compares the fields of records of another module.
fn compare_reached<R: Abort + AllocGlobal>(rt: &R, shape: Shape, state: u64) -> Result<(), Fail> {
    let alloc = rt.alloc();
    let (mut other, mut text) = (String::new(alloc), String::new(alloc));
    let drawn = draw(alloc, &mut other, &mut Seed { state }, shape)?;
    let places = draw_variables(alloc, &mut text)?;
    let reached = vec![in alloc; exports(alloc, other.as_bytes())?]?;
    tokens_in_text();
    let tokens = scan(alloc, text.as_bytes())?;
    let table = table_in(alloc, text.as_bytes(), &tokens)?;
    let scopes = scopes_from(alloc, &table, tokens.as_slice(), text.as_bytes())?;
    let types = Types::new(
        alloc,
        text.as_bytes(),
        tokens.as_slice(),
        &table,
        &scopes,
        reached.as_slice(),
    )?;
    compare(rt, &types, drawn.as_slice(), places.as_slice(), true)
}

/// Compares both kinds of lookups in trees of a shape.
fn compare_shape<R: Abort + AllocGlobal>(rt: &R, shape: Shape) -> Result<(), Fail> {
    for tree in 0..TREES {
        compare_local(rt, shape, u64::from(tree))?;
        compare_reached(rt, shape, u64::from(tree))?;
    }
    Ok(())
}

#[test]
fn inherited_fields_are_those_of_the_source(rt: HostRuntime) -> Result<(), Fail> {
    for shape in SHAPES {
        compare_shape(&rt, shape)?;
    }
    Ok(())
}
