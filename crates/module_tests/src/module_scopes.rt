//! Sources with their modules' scopes, or with the first repeated name.
use crate::asked::Asked::{ByTree, Meanings};
use crate::asked::{Row, check_rows};
use crate::readings::{parsed, table_by_tokens};
use ob_scan::laws::tokens_in_text;
use ob_scan::scan;
use ob_scope::{Scopes, scopes_from};
use std::alloc::{AllocError, Global};
use std::test::Fail;

/// Modules with their name, their aliases with the imported modules, the meaning of each use, and the number of names that each alias
/// qualifies; or with the two declarations of one name and their offsets.
const ROWS: &[Row] = &[
    (Meanings(b"MODULE Empty; END Empty."), "Empty"),
    (
        Meanings(b"MODULE M; VAR x, x: INTEGER; END M."),
        "Twice { name: \"x\", first: 14, second: 17 }",
    ),
    (
        Meanings(b"MODULE M; VAR r: RECORD a, a: SET END; END M."),
        "TwiceField { name: \"a\", first: 24, second: 27 }",
    ),
    // The first repetition is reported.
    (
        Meanings(b"MODULE M; VAR x, y, y, x: INTEGER; END M."),
        "Twice { name: \"y\", first: 17, second: 20 }",
    ),
    // A parameter is in the block of its procedure, with the variables there.
    (
        Meanings(b"MODULE M; PROCEDURE p(x: SET); VAR x: SET; END p; END M."),
        "Twice { name: \"x\", first: 22, second: 35 }",
    ),
    (
        Meanings(b"MODULE M; VAR x: SET; PROCEDURE p(x: SET); END p; END M."),
        "M",
    ),
    // The parameters of a procedure type are in a block of their own.
    (
        Meanings(b"MODULE M; PROCEDURE p; VAR y: PROCEDURE (z: SET; z: SET); END p; END M."),
        "Twice { name: \"z\", first: 41, second: 49 }",
    ),
    (
        Meanings(b"MODULE M; PROCEDURE p; VAR y: PROCEDURE (y: SET); END p; END M."),
        "M",
    ),
    // The fields of a record are in no block, and a nested record is another record.
    (
        Meanings(b"MODULE M; TYPE R = RECORD R: RECORD R: SET END END; END M."),
        "M",
    ),
    // A procedure is in the enclosing block, and a nested procedure is in its block.
    (
        Meanings(b"MODULE M; VAR p: SET; PROCEDURE p; END p; END M."),
        "Twice { name: \"p\", first: 14, second: 32 }",
    ),
    (
        Meanings(b"MODULE M; PROCEDURE p; PROCEDURE p; END p; END p; END M."),
        "M",
    ),
    // An alias is declared, and the imported module's own name and the module's name are not.
    (
        Meanings(b"MODULE M; IMPORT T := U; VAR T: SET; END M."),
        "Twice { name: \"T\", first: 17, second: 29 }",
    ),
    (
        Meanings(b"MODULE M; IMPORT T := U; VAR U, M: SET; END M."),
        "M, 4 U",
    ),
    // Two aliases of one module, and the module's own name, which isn't an alias.
    (
        Meanings(
            b"MODULE M; IMPORT T := Texts, U := Texts; VAR a: T.Writer; b: U.Writer; c: Texts.Reader; END M.",
        ),
        "M, 4 Texts, 8 Texts; 4 qualifies 1; 8 qualifies 1; 15 means 4; 21 means 8",
    ),
    // A variable hides an alias.
    (
        Meanings(
            b"MODULE M; IMPORT B; PROCEDURE p; VAR B: RECORD x: INTEGER END; BEGIN B.x := 1 END p; END M.",
        ),
        "M, 4 B; 19 means 10",
    ),
    // The later declaration of d in the procedure comes after its use.
    (
        Meanings(b"MODULE M; CONST d = 2; PROCEDURE p; CONST c = d; d = 1; END p; END M."),
        "M; 14 means 4",
    ),
    (
        Meanings(
            b"MODULE M; VAR x: INTEGER; PROCEDURE p; VAR x: INTEGER; BEGIN x := 1 END p; BEGIN x := 2 END M.",
        ),
        "M; 17 means 12; 24 means 4",
    ),
    // A pointer means the later type.
    (
        Meanings(b"MODULE M; TYPE P = POINTER TO R; R = RECORD a: SET END; END M."),
        "M; 8 means 10",
    ),
    // A pointer's target resolves outwards first.
    (
        Meanings(
            b"MODULE M; TYPE R = SET; PROCEDURE p; TYPE P = POINTER TO R; R = RECORD a: SET END; END p; END M.",
        ),
        "M; 16 means 4",
    ),
    // In the module, in the procedure, and in the parameters of the procedure type.
    (
        Meanings(
            b"MODULE M; IMPORT T := Texts, U; TYPE R = RECORD (T.B) a*, b: U.X END; P = POINTER TO R; PROCEDURE p*(VAR x: T.W): R; VAR y: PROCEDURE (z: P); BEGIN y(x) END p; END M.",
        ),
        "M, 4 Texts, 8 U; 4 qualifies 2; 8 qualifies 1; 15 means 4; 24 means 8; 33 means 11; 42 means 4; 47 means 11; \
         56 means 29; 60 means 50; 62 means 40",
    ),
    (
        ByTree(b"MODULE M; IMPORT B; BEGIN B.x END M."),
        "M, 4 B; 4 qualifies 1; 7 means 4",
    ),
];

/// Appends the meaning of a token, and the number of names that it qualifies.
fn append_token(description: &mut String, scopes: &Scopes, token: u32) -> Result<(), AllocError> {
    if let Some(declared) = scopes.resolve(token) {
        write!(description, "; {token} means {declared}")?;
    }
    match scopes.qualified_uses(token) {
        0 => Ok(()),
        uses => write!(description, "; {token} qualifies {uses}"),
    }
}

fn describe_tokens(alloc: Global, scopes: &Scopes, tokens: u32) -> Result<String, AllocError> {
    let mut description = String::from_str(alloc, scopes.name())?;
    for alias in scopes.aliases() {
        write!(description, ", {} {}", alias.decl, alias.module)?;
    }
    for token in 0..tokens {
        append_token(&mut description, scopes, token)?;
    }
    // No token has the number.
    append_token(&mut description, scopes, 4294967295)?;
    Ok(description)
}

pub(crate) fn describe_scopes(alloc: Global, text: &[u8]) -> Result<String, Fail> {
    let tokens = scan(alloc, text)?;
    tokens_in_text();
    let table = table_by_tokens(alloc, text, &tokens)?;
    match scopes_from(alloc, &table, tokens.as_slice(), text) {
        Ok(scopes) => Ok(describe_tokens(alloc, &scopes, tokens.len() as u32)?),
        Err(fault) => Ok(format!(in alloc; "{fault:?}")?),
    }
}

pub(crate) fn describe_by_tree(alloc: Global, text: &[u8]) -> Result<String, Fail> {
    let tokens = scan(alloc, text)?;
    tokens_in_text();
    let tree = parsed(alloc, text, &tokens)?;
    let scopes = source_tree::scopes(alloc, &tree, &tokens, text)?;
    Ok(describe_tokens(alloc, &scopes, tokens.len() as u32)?)
}

#[test]
fn scopes_have_one_of_a_name(rt: HostRuntime) -> Result<(), Fail> {
    check_rows(&rt, ROWS)
}
