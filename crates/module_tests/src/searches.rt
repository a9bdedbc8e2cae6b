//! Lookups from a hint, compared with binary searches: they agree, whatever the order of the tokens.

use crate::asked::Asked::Meanings;
use crate::asked::{Row, check_rows};
use crate::module_scopes::{describe_by_tree, describe_scopes};
use crate::readings::table_by_tokens;
use ob_scan::laws::tokens_in_text;
use ob_scan::scan;
use ob_scope::scopes_from;
use ob_types::{Node, Types};
use ob_view::View;
use std::alloc::{AllocError, Global};
use std::process::Abort;
use std::test::Fail;

/// Valid modules. In some a name is declared in an outer block or record after an inner one, so the indices of its declarations aren't
/// sorted: first, in the middle and last among other names, and in the last member.
const TEXTS: &[&[u8]] = &[
    b"MODULE M; END M.",
    b"MODULE M; IMPORT T := Texts, U; TYPE R = RECORD (T.B) a*, b: U.X END; P = POINTER TO R; PROCEDURE p*(VAR x: T.W): R; \
    VAR y: PROCEDURE (z: P); BEGIN y(x); RETURN z END p; BEGIN p(T.a) END M.",
    b"MODULE M; VAR a, b: SET; PROCEDURE p; VAR q, r: SET; BEGIN q := a; r := b; c := r END p; PROCEDURE q; VAR a: SET; BEGIN \
    a := b; q; r END q; PROCEDURE r; BEGIN p; q; r END r; BEGIN a := b; p; q; r END M.",
    b"MODULE M; PROCEDURE p; VAR s: SET; PROCEDURE q; VAR r, p: SET; BEGIN r := p END q; BEGIN q; r; s := s END p; PROCEDURE r; BEGIN \
    p; q; r END r; PROCEDURE s; BEGIN p; r; s END s; BEGIN s END M.",
    b"MODULE M; TYPE P = POINTER TO R; R = RECORD a: RECORD b, c: P END; b: POINTER TO Q; a1, c: Q END; Q = RECORD (R) d: P END; \
    PROCEDURE p; TYPE S = POINTER TO T; T = RECORD t: S; T: R END; VAR x: T; v: S; BEGIN x.t := v END p; END M.",
    b"MODULE M; PROCEDURE p; TYPE A = POINTER TO B; B = RECORD f: A END; VAR q: A; BEGIN q.f := q END p; PROCEDURE o; PROCEDURE q; \
    END q; PROCEDURE i; TYPE A = POINTER TO B; B = RECORD g: A END; VAR v: B; BEGIN v.g := q END i; BEGIN q; i END o; PROCEDURE q; \
    END q; END M.",
];

/// Compares the meanings of all tokens, looked up in ascending or descending order, beginning with this hint.
fn compare_from_hint<R: Abort + AllocGlobal>(
    rt: &R,
    view: &View,
    tokens: u32,
    begin: usize,
    falls: bool,
) {
    let (mut near, mut near_view) = (begin, begin);
    for at in 0..tokens {
        let token = if falls { tokens - 1 - at } else { at };
        let want = view.scopes().resolve(token);
        assert_eq!(rt; view.scopes().resolve_by_hint(&mut near, token), want);
        assert_eq!(rt; view.meaning(token), want);
        assert_eq!(rt; view.meaning_by_hint(&mut near_view, token), want);
    }
}

/// Compares the meanings for each first hint, also for one beyond the table.
fn compare_meanings<R: Abort + AllocGlobal>(rt: &R, text: &[u8]) -> Result<(), Fail> {
    let alloc = rt.alloc();
    tokens_in_text();
    let tokens = scan(alloc, text)?;
    let table = table_by_tokens(alloc, text, &tokens)?;
    let scopes = scopes_from(alloc, &table, tokens.as_slice(), text)?;
    let view = View::new(alloc, text, tokens.as_slice(), &table, &scopes, &[])?;
    let count = tokens.len() as u32;
    for begin in 0..count {
        compare_from_hint(rt, &view, count, begin as usize, false);
        compare_from_hint(rt, &view, count, begin as usize, true);
    }
    Ok(())
}

#[test]
fn a_use_resolves_equally_with_each_hint(rt: HostRuntime) -> Result<(), Fail> {
    for text in TEXTS {
        compare_meanings(&rt, text)?;
    }
    Ok(())
}

#[test]
fn scopes_of_a_tree_are_those_of_its_table(rt: HostRuntime) -> Result<(), Fail> {
    for text in TEXTS {
        let want = describe_by_tree(rt.alloc(), text)?;
        let description = describe_scopes(rt.alloc(), text)?;
        assert_eq!(rt; description.as_str(), want.as_str());
    }
    Ok(())
}

/// The location of a type that the module itself declares.
fn append_node(description: &mut String, node: Option<Node>) -> Result<(), AllocError> {
    match node {
        Some(Node::Own(place)) => write!(description, " {place}"),
        Some(_) => description.push_str(" elsewhere"),
        None => description.push_str(" -"),
    }
}

/// The lookups of each of the first tokens: what it declares and means, and the locations of its type and of its owner.
fn describe_types(alloc: Global, types: &Types, tokens: u32) -> Result<String, AllocError> {
    let view = types.view();
    let mut description = String::new(alloc);
    for token in 0..tokens {
        let (decl_kind, item) = (view.decl_kind(token), view.item(token));
        let (owner, meaning) = (view.owner(token), view.meaning(token));
        write!(
            &mut description,
            "{decl_kind:?} {item:?} {owner:?} {meaning:?}"
        )?;
        append_node(&mut description, types.type_expr(token))?;
        description.push_str("; ")?;
    }
    Ok(description)
}

/// The lookups of the first tokens of a source.
fn describe_source_types(alloc: Global, text: &[u8], first: u32) -> Result<String, Fail> {
    tokens_in_text();
    let tokens = scan(alloc, text)?;
    let table = table_by_tokens(alloc, text, &tokens)?;
    let scopes = scopes_from(alloc, &table, tokens.as_slice(), text)?;
    let types = Types::new(alloc, text, tokens.as_slice(), &table, &scopes, &[])?;
    Ok(describe_types(alloc, &types, first)?)
}

/// A module with these declarations and this many semicolons.
fn module_with_semicolons(
    alloc: Global,
    declarations: &[u8],
    count: usize,
) -> Result<Vec<u8>, AllocError> {
    let mut text = Vec::new(alloc);
    text.extend_from_slice(b"MODULE M; ")?;
    text.extend_from_slice(declarations)?;
    text.extend_from_slice(b" BEGIN ")?;
    for _ in 0..count {
        text.push(b';')?;
    }
    text.extend_from_slice(b" END M.")?;
    Ok(text)
}

/// Declarations of few identifiers, with the number of their tokens and those before them.
const FEW: &[(&[u8], u32)] = &[
    (b"IMPORT T; VAR v: T.W; w: RECORD f: SET END;", 22),
    (
        b"TYPE P = POINTER TO R; R = RECORD (P) a, b: ARRAY 3 OF P END;",
        26,
    ),
    (b"VAR x: ARRAY 1, 2, 3, 4, 5, 6, 7, 8 OF SET;", 24),
];

/// Tokens on both sides of the limit up to which an index of rows is stored: at most 256 for each declared identifier.
const SEMICOLONS: [usize; 10] = [0, 200, 220, 240, 260, 900, 980, 1000, 1100, 3000];

#[test]
fn types_of_few_declared_names(rt: HostRuntime) -> Result<(), Fail> {
    for (declarations, first) in FEW {
        let text = module_with_semicolons(rt.alloc(), declarations, 0)?;
        let want = describe_source_types(rt.alloc(), text.as_slice(), *first)?;
        for count in SEMICOLONS {
            let text = module_with_semicolons(rt.alloc(), declarations, count)?;
            let description = describe_source_types(rt.alloc(), text.as_slice(), *first)?;
            assert_eq!(rt; description.as_str(), want.as_str());
        }
    }
    Ok(())
}

/// Modules with the first repeated name. Before, at or after its second declaration a name is declared in an outer block after an inner
/// one.
const TWICE: &[Row] = &[
    (
        Meanings(
            b"MODULE M; PROCEDURE p; VAR q: SET; END p; PROCEDURE q; END q; PROCEDURE r; VAR x, x: SET; END r; END M.",
        ),
        "Twice { name: \"x\", first: 79, second: 82 }",
    ),
    (
        Meanings(
            b"MODULE M; PROCEDURE p; VAR q: SET; END p; PROCEDURE q; END q; PROCEDURE q; END q; END M.",
        ),
        "Twice { name: \"q\", first: 52, second: 72 }",
    ),
    (
        Meanings(b"MODULE M; TYPE R = RECORD a: RECORD b: SET END; b: SET; c, b: SET END; END M."),
        "TwiceField { name: \"b\", first: 48, second: 59 }",
    ),
    (
        Meanings(
            b"MODULE M; VAR x, x: SET; PROCEDURE p; VAR q: SET; END p; PROCEDURE q; END q; END M.",
        ),
        "Twice { name: \"x\", first: 14, second: 17 }",
    ),
    (
        Meanings(b"MODULE M; PROCEDURE p; VAR q, x, x: SET; END p; PROCEDURE q; END q; END M."),
        "Twice { name: \"x\", first: 30, second: 33 }",
    ),
    (
        Meanings(
            b"MODULE M; TYPE R = RECORD x: SET END; VAR q: SET; PROCEDURE p; VAR R: SET; END p; PROCEDURE x; VAR p: RECORD p: RECORD x, p: SET END; x, p: SET END; END x; END M.",
        ),
        "TwiceField { name: \"p\", first: 109, second: 137 }",
    ),
];

#[test]
fn the_first_two_of_one_name_are_reported(rt: HostRuntime) -> Result<(), Fail> {
    check_rows(&rt, TWICE)
}
