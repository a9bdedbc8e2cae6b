//! Sources with the results of the tree walkers.
ghost use Rattle.std.specs.Prelude.{◌<◌, ◌^◌, length};
ghost use Rattle.ob_tree.specs.Derives.{spelling};

use crate::asked::Asked::Walks;
use crate::asked::{Row, check_rows};
use crate::readings::parsed;
use ob_scan::scan;
use ob_tree::declaration::Module;
use ob_tree::walkers::collect_end_names;
use ob_walk::{declarations, uses, yield_of};
use std::alloc::{AllocError, Global};
use std::test::Fail;

/// Sources with their tokens, the declared ones, the used ones, and the names after END with the names that they repeat.
const ROWS: &[Row] = &[
    (
        Walks(b"MODULE M; END M."),
        "[0, 1, 2, 3, 4, 5] [] [] [(1, 4)]",
    ),
    (
        Walks(b"MODULE M; BEGIN (* (* *) *) END M."),
        "[0, 1, 2, 3, 4, 5, 6] [] [] [(1, 5)]",
    ),
    (
        Walks(b"MODULE M; IMPORT A, B := C; CONST TYPE VAR END M."),
        "[0, 1, 2, 3, 4, 5, 6, 7, 8, 9, 10, 11, 12, 13, 14, 15] [4, 6] [] [(1, 14)]",
    ),
    (
        Walks(b"MODULE M; BEGIN CASE x OF || 1: y END END M."),
        "[0, 1, 2, 3, 4, 5, 6, 7, 8, 9, 10, 11, 12, 13, 14, 15] [] [5, 11] [(1, 14)]",
    ),
    (
        Walks(b"MODULE M; TYPE T = RECORD (M.T) a, b*: SET; END; END M."),
        "[0, 1, 2, 3, 4, 5, 6, 7, 8, 9, 10, 11, 12, 13, 14, 15, 16, 17, 18, 19, 20, 21, 22, 23] [4, 12, 14] [8, 17] [(1, 22)]",
    ),
    (
        Walks(b"MODULE M; PROCEDURE f(x: INTEGER); VAR y: INTEGER; BEGIN y := x END f; END M."),
        "[0, 1, 2, 3, 4, 5, 6, 7, 8, 9, 10, 11, 12, 13, 14, 15, 16, 17, 18, 19, 20, 21, 22, 23, 24, 25] [4, 6, 12] [8, 14, 17, 19] [(4, 21), (1, 24)]",
    ),
    (
        Walks(b"MODULE M; IMPORT T := Texts; VAR r: RECORD a: T.B END; BEGIN r.a.b := T.c END M."),
        "[0, 1, 2, 3, 4, 5, 6, 7, 8, 9, 10, 11, 12, 13, 14, 15, 16, 17, 18, 19, 20, 21, 22, 23, 24, 25, 26, 27, 28, 29, 30, 31] [4, 9, 12] [14, 20, 26] [(1, 30)]",
    ),
    // Names in every syntactic position.
    (
        Walks(
            b"MODULE M; IMPORT A := B; TYPE R = RECORD (A.S) f*, g: A.T END; PROCEDURE p(VAR a, b: ARRAY OF A.U): A.V; BEGIN FOR i := 0 TO A.n DO CASE a.f OF A.c .. d, 1: b^.g[i] := A.q(i).h END END RETURN a END p; END M.",
        ),
        "[0, 1, 2, 3, 4, 5, 6, 7, 8, 9, 10, 11, 12, 13, 14, 15, 16, 17, 18, 19, 20, 21, 22, 23, 24, 25, 26, 27, 28, 29, 30, 31, 32, 33, 34, 35, 36, 37, 38, 39, 40, 41, 42, 43, 44, 45, 46, 47, 48, 49, 50, 51, 52, 53, 54, 55, 56, 57, 58, 59, 60, 61, 62, 63, 64, 65, 66, 67, 68, 69, 70, 71, 72, 73, 74, 75, 76, 77, 78, 79, 80, 81, 82, 83, 84, 85, 86, 87, 88, 89, 90, 91, 92, 93, 94] [4, 9, 17, 20, 28, 31, 33] [13, 22, 37, 42, 48, 52, 57, 61, 65, 69, 74, 77, 81, 88] [(28, 90), (1, 93)]",
    ),
    // Declarations in blocks, records, procedures and procedure types.
    (
        Walks(
            b"MODULE M; IMPORT T := Texts, U; TYPE R = RECORD (T.B) a*, b: U.X END; P = POINTER TO R; PROCEDURE p*(VAR x: T.W): R; VAR y: PROCEDURE (z: P); BEGIN y(x) END p; END M.",
        ),
        "[0, 1, 2, 3, 4, 5, 6, 7, 8, 9, 10, 11, 12, 13, 14, 15, 16, 17, 18, 19, 20, 21, 22, 23, 24, 25, 26, 27, 28, 29, 30, 31, 32, 33, 34, 35, 36, 37, 38, 39, 40, 41, 42, 43, 44, 45, 46, 47, 48, 49, 50, 51, 52, 53, 54, 55, 56, 57, 58, 59, 60, 61, 62, 63, 64, 65, 66, 67, 68, 69] [4, 8, 11, 19, 22, 29, 36, 40, 50, 54] [15, 24, 33, 42, 47, 56, 60, 62] [(36, 65), (1, 68)]",
    ),
    // Sources without a tree.
    (
        Walks(b"MODULE M; BEGIN x := END M."),
        "the token at 21 is wrong",
    ),
    (
        Walks(b"MODULE M; END N."),
        "the name at 14 is not that of its module or procedure",
    ),
];

fn describe_syntax(alloc: Global, tree: &Module) -> Result<String, AllocError>
    requires { length (spelling tree.now) < 2 ^ 32 }
{
    let (numbers, declared) = (yield_of(alloc, tree)?, declarations(alloc, tree)?);
    let (used, pairs) = (uses(alloc, tree)?, collect_end_names(alloc, tree)?);
    format!(in alloc; "{numbers:?} {declared:?} {used:?} {pairs:?}")
}

pub(crate) fn describe_walks(alloc: Global, text: &[u8]) -> Result<String, Fail> {
    let tokens = scan(alloc, text)?;
    match parsed(alloc, text, &tokens) {
        Ok(tree) => Ok(describe_syntax(alloc, &tree)?),
        Err(fault) => Ok(format!(in alloc; "{fault}")?),
    }
}

#[test]
fn trees_have_their_tokens_and_names(rt: HostRuntime) -> Result<(), Fail> {
    check_rows(&rt, ROWS)
}
