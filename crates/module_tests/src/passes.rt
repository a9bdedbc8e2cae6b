//! The one-pass reader of tables, compared with the parser. It makes a table if and only if the source has a tree, and otherwise returns
//! the parser's fault, unless an allocation fails.
//! The sources are written by hand, or made of these by replacing one token with another word. The contents of tables are tested elsewhere.

use crate::readings::parsed;
use ob_parse::ParseFault;
use ob_scan::{ScanFault, Token, scan};
use std::alloc::{AllocError, Global};
use std::process::Abort;
use std::test::Fail;
use table_reader::read_table;

/// Every form of declaration, of type and of statement, and all selectors; then cases for look-ahead.
const TEXTS: &[&[u8]] = &[
    b"MODULE M; IMPORT A, T := Texts; CONST c* = {1, 2 .. a} + 1.5; TYPE R* = RECORD (A.B) f*, g: ARRAY 3, n + 1 OF \
    POINTER TO RECORD h: S END; END; P = PROCEDURE (VAR a: ARRAY OF T.W; b: R): A.B; VAR u, v*: R; END M.",
    b"MODULE M; PROCEDURE p*(VAR x: R; y, z: ARRAY OF T.W): A.B; CONST d = 1; TYPE Q = POINTER TO R; VAR w: Q; \
    PROCEDURE q; END q; BEGIN RETURN x.f(A.R).g END p; BEGIN p; p(a.b) END M.",
    b"MODULE M; BEGIN a.b[x.y, 2](T.U).c(z)^ := q(w[i], 1); IF a = b THEN c ELSIF ~d & (e OR NIL) THEN g := -1 ELSE h END; \
    CASE a[1] OF 1, A.c .. 3: b | \"x\": c | END END M.",
    b"MODULE M; BEGIN CASE a OF 1: b | 22X .. 24X: c; d END; WHILE a DO b ELSIF c IN {} DO d END; \
    REPEAT a(); b UNTIL c # d; FOR i := 0 TO n - 1 BY 2 DO a[i](x)(y) := a(x.y)^ END END M.",
    b"MODULE M; BEGIN a := b * c / d DIV e MOD f; a := b < c; a := b <= c; a := b > c; a := b >= c; a := b IS T.U; \
    a := +b - c OR d + e END M.",
    // Nested calls in indexes.
    b"MODULE M; BEGIN f(a[g(b[h(c[1], 2)].d, e[3, i(j)])])[k(l)](m).n(o[p[q(r)]]) END M.",
    // Nested brackets, and sets.
    b"MODULE M; BEGIN a := ((b[(c[((d))])])) * {(e), f[g] .. (h(i)), j^ .. k} - ~(l(m)) END M.",
    // Type guards and tests.
    b"MODULE M; BEGIN a(T)(U.V)^.b(W).c := d(T).e(U.V)^; IF (f IS T.U) & (g(V).h IS W) THEN i(T).j END END M.",
    // Long designators, with or without `:=` after them.
    b"MODULE M; BEGIN a.b.c.d[1, 2].e^^.f(T.U).g[h[i.j].k(l), m].n := o.p.q; r(s)[t](u)^ := v[w](x); y^.z END M.",
    // Case labels.
    b"MODULE M; BEGIN CASE a.b[c](d) OF 1 .. 2, A.b: e[f(g)] := h(i) | \"x\", 22X: j(k) | A.c .. A.d: l.m[n] | END END M.",
    // Comments between tokens.
    b"MODULE M; BEGIN a(* ( [ *).(* ] ) *)b(* := *)[(* ) *)c(* ] *)](* ( *) := (* [ *)d(* ] *)((* ( *)e(* ) *)) END M.",
    // Conditions, bounds, and designators before keywords.
    b"MODULE M; BEGIN IF a(b) = c[d] THEN e ELSIF f.g(h) IN {i(j) .. k[l]} THEN m.n(o) := p END; WHILE q(r)[s] DO t^ ELSIF u DO \
    v(w)^.x END; REPEAT y(z[a](b)) UNTIL c(d).e; FOR i := f(a[i]) TO g[b(c)] BY 2 DO h[i] := i END END M.",
    // Lengths, parameters, results, and designators before END.
    b"MODULE M; CONST a = b.c; d = e(f).g; TYPE T = RECORD (A.B) a: ARRAY f(b[1]), c[d(2)].e OF POINTER TO RECORD g: U END END; \
    VAR v: ARRAY (h(i)) OF PROCEDURE (VAR j: ARRAY OF A.B; k: T): A.C; PROCEDURE p*(q: T): A.C; BEGIN r(s)[t] \
    RETURN u.v(w)[x].y END p; BEGIN a.b; c[d].e END M.",
];

/// The words that replace a token, also the empty one.
const WORDS: &[&[u8]] = &[
    b"", b"x", b"1", b"END", b";", b",", b".", b":", b":=", b"(", b")", b"[", b"]", b"^", b"IF",
    b"RECORD", b"x.y", b"x(y)",
];

/// The source with this word instead of a token.
fn replace_token(
    alloc: Global,
    text: &[u8],
    token: Token,
    word: &[u8],
) -> Result<Vec<u8>, AllocError> {
    let mut made = Vec::new(alloc);
    made.extend_from_slice(text.get(..token.start as usize).unwrap_or(&[]))?;
    made.extend_from_slice(word)?;
    made.push(b' ')?;
    made.extend_from_slice(text.get(token.end as usize..).unwrap_or(&[]))?;
    Ok(made)
}

/// The fault, if there is one. A failed allocation ends the test.
fn description<T: Drop>(read: Result<T, ParseFault>) -> Result<Option<ParseFault>, Fail> {
    match read {
        Ok(_) => Ok(None),
        Err(ParseFault::Memory) => Err(ParseFault::Memory)?,
        Err(fault) => Ok(Some(fault)),
    }
}

/// Compares the two readers if the source has tokens.
fn compare<R: Abort + AllocGlobal>(rt: &R, text: &[u8]) -> Result<(), Fail> {
    let alloc = rt.alloc();
    match scan(alloc, text) {
        Err(ScanFault::Memory) => Err(ScanFault::Memory)?,
        Err(_) => Ok(()),
        Ok(tokens) => {
            let one_pass = description(read_table(alloc, text, &tokens))?;
            let want = description(parsed(alloc, text, &tokens))?;
            assert_eq!(rt; one_pass, want);
            Ok(())
        }
    }
}

/// Compares the two readers on a source that has a table, and on it with each token replaced by each word.
fn compare_all<R: Abort + AllocGlobal>(rt: &R, text: &[u8]) -> Result<(), Fail> {
    let tokens = scan(rt.alloc(), text)?;
    let _table = read_table(rt.alloc(), text, &tokens)?;
    compare(rt, text)?;
    for token in tokens.as_slice() {
        for word in WORDS {
            let made = replace_token(rt.alloc(), text, *token, word)?;
            compare(rt, &made)?;
        }
    }
    Ok(())
}

#[test]
fn one_pass_reads_the_table_of_each_tree(rt: HostRuntime) -> Result<(), Fail> {
    for text in TEXTS {
        compare_all(&rt, text)?;
    }
    Ok(())
}
