//! Lookups of a field and of a record's owner, called directly, with indices counted by hand in two modules.
use crate::bases::exports;
use crate::readings::table_in;
use ob_scan::laws::tokens_in_text;
use ob_scan::scan;
use ob_scope::scopes_from;
use ob_types::{Field, Node, Types};
use ob_view::View;
use std::process::Abort;
use std::test::Fail;

/// Token 7, counted from 0, is RECORD. Of the declarations `T` is the first, `x` the second.
const OTHER: &[u8] = b"MODULE B; TYPE T* = RECORD x*: INTEGER END; END B.";

/// Token 10, counted from 0, is `y`. Its type expressions have two components: the record, and the type of `y`.
const OWN: &[u8] = b"MODULE M; IMPORT B; TYPE R = RECORD y: CHAR END; END M.";

fn compare_owners(rt: &impl Abort, view: &View) {
    assert_eq!(rt; view.reached().len(), 1);
    assert_eq!(rt; view.imported_owner(0, 7), Some(0));
    assert_eq!(rt; view.imported_owner(0, 8), None);
    assert_eq!(rt; view.imported_owner(1, 7), None);
}

/// Whether it is the first component of the second declaration of the other module.
fn is_first_component(node: Option<Node>) -> bool {
    match node {
        Some(
            Node::Other {
                reached,
                declaration,
                part,
            },
        ) => (reached, declaration, part) == (0, 1, 0),
        _ => false,
    }
}

/// Whether it is the second component of the module's own type expressions.
fn is_second_component(node: Option<Node>) -> bool {
    match node {
        Some(Node::Own(part)) => part == 1,
        _ => false,
    }
}

fn compare_fields(rt: &impl Abort, types: &Types) {
    let there = Field::Other {
        reached: 0,
        declaration: 1,
    };
    assert!(rt; is_first_component(types.type_of_field(there)));
    assert!(rt; is_second_component(types.type_of_field(Field::Own(10))));
    assert!(rt; types.type_of_field(Field::Own(9)).is_none());
}

fn compare<R: Abort + AllocGlobal>(rt: &R) -> Result<(), Fail> {
    let alloc = rt.alloc();
    let reached = vec![in alloc; exports(alloc, OTHER)?]?;
    tokens_in_text();
    let tokens = scan(alloc, OWN)?;
    let table = table_in(alloc, OWN, &tokens)?;
    let scopes = scopes_from(alloc, &table, tokens.as_slice(), OWN)?;
    let types = Types::new(
        alloc,
        OWN,
        tokens.as_slice(),
        &table,
        &scopes,
        reached.as_slice(),
    )?;
    compare_owners(rt, types.view());
    compare_fields(rt, &types);
    Ok(())
}

#[test]
fn fields_and_owners_are_those_of_the_text(rt: HostRuntime) -> Result<(), Fail> {
    compare(&rt)
}
