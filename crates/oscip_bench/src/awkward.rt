//! Modules of unusual shapes: deeply nested ones, and ones whose fields are inherited through long chains of bases.

use crate::random::{Random, push_number};
use source_tree::Source;
use std::alloc::{AllocError, Global};

/// The nesting depth of procedures, of statements and of expressions. Their sum is below the limit of 200.
const LEVELS: u64 = 60;

const OPENS: &[&[u8]] = &[b"(", b"y * (", b"a[", b"F(x, ", b"(~"];

const CLOSES: &[&[u8]] = &[b") + x", b")", b"] - z", b")", b") DIV 3"];

const PREFIXES: &[&[u8]] = &[b"IF x > 0 THEN\n", b"WHILE y # x DO\n", b"REPEAT\n"];

const SUFFIXES: &[&[u8]] = &[b"ELSE x := 0 END;\n", b"y := z END;\n", b"UNTIL x < z;\n"];

/// The element at this index, or an empty string beyond the end.
fn nth(texts: &[&'static [u8]], at: u64) -> &'static [u8] {
    texts.get(at as usize).copied().unwrap_or(b"")
}

#[derive(Drop)]
struct Nest {
    alloc: Global,
    random: Random,
    text: Vec<u8>,
    procedures: u64,
}

impl Nest {
    /// Appends one prefix for each level, the middle, and the matching suffixes.
    fn around(
        &mut self,
        prefixes: &[&'static [u8]],
        suffixes: &[&'static [u8]],
        middle: &[u8],
    ) -> Result<(), AllocError> {
        let depth = self.random.below(LEVELS);
        let mut open = Vec::new(self.alloc);
        for _ in 0..depth {
            let kind = if prefixes.is_empty() {
                0
            } else {
                self.random.below(prefixes.len() as u64)
            };
            self.text.extend_from_slice(nth(prefixes, kind))?;
            open.push(kind)?;
        }
        self.text.extend_from_slice(middle)?;
        for kind in open.iter().rev() {
            self.text.extend_from_slice(nth(suffixes, *kind))?;
        }
        Ok(())
    }

    fn expression(&mut self) -> Result<(), AllocError> {
        self.around(OPENS, CLOSES, b"x")
    }

    /// Appends the end of a procedure: nested statements, two of them with deep expressions, and its result.
    fn body(&mut self, number: u64) -> Result<(), AllocError> {
        self.text.extend_from_slice(b"BEGIN\n")?;
        self.around(PREFIXES, SUFFIXES, b"a[x] := y;\n")?;
        self.text.extend_from_slice(b"x := ")?;
        self.expression()?;
        self.text.extend_from_slice(b";\na[z] := ")?;
        self.expression()?;
        self.text.extend_from_slice(b"\nRETURN ")?;
        self.expression()?;
        self.text.extend_from_slice(b"\nEND P")?;
        push_number(&mut self.text, number)?;
        self.text.extend_from_slice(b";\n")
    }

    /// Appends nested procedures.
    fn procedures(&mut self) -> Result<(), AllocError> {
        let (first, depth) = (self.procedures, 1 + self.random.below(LEVELS));
        for level in 0..depth {
            self.text.extend_from_slice(b"PROCEDURE P")?;
            push_number(&mut self.text, first.saturating_add(level))?;
            self.text.extend_from_slice(
                b"(z: INTEGER): INTEGER;\nVAR x, y: INTEGER; a: ARRAY 8 OF INTEGER;\n",
            )?;
        }
        for level in 1..=depth {
            self.body(first.saturating_add(depth - level))?;
        }
        self.procedures = first.saturating_add(depth);
        Ok(())
    }
}

/// A tree with this one file.
fn single_file(alloc: Global, path: &str, bytes: Vec<u8>) -> Result<Vec<Source>, AllocError> {
    let mut sources = Vec::new(alloc);
    let path = String::from_str(alloc, path)?;
    sources.push(Source { path, bytes })?;
    Ok(sources)
}

/// A module of about this many bytes with nested procedures, statements and expressions.
pub fn nested(alloc: Global, seed: u64, bytes: usize) -> Result<Vec<Source>, AllocError> {
    let mut nest = Nest {
        alloc,
        random: Random::new(seed),
        text: Vec::new(alloc),
        procedures: 0,
    };
    nest.text.extend_from_slice(
        b"MODULE Nested;\nPROCEDURE F(x, y: INTEGER): INTEGER; RETURN x + y END F;\n",
    )?;
    for _ in 0..bytes {
        if nest.text.len() >= bytes {
            break;
        }
        nest.procedures()?;
    }
    nest.text.extend_from_slice(b"END Nested.\n")?;
    single_file(alloc, "Nested.Mod", nest.text)
}

/// Appends a word, a number, and what follows them.
fn numbered(text: &mut Vec<u8>, word: &[u8], number: u64, after: &[u8]) -> Result<(), AllocError> {
    text.extend_from_slice(word)?;
    push_number(text, number)?;
    text.extend_from_slice(after)
}

/// Appends this many fields, and uses of them through this many bases.
fn write_fields(text: &mut Vec<u8>, seed: u64, fields: u64, bases: u64) -> Result<(), AllocError> {
    text.extend_from_slice(b"MODULE Fields;\nTYPE\n  T0 = RECORD first")?;
    for field in 0..fields {
        numbered(text, b", f", field, b"")?;
    }
    text.extend_from_slice(b": INTEGER END;\n")?;
    for base in 0..bases {
        numbered(text, b"  T", base.saturating_add(1), b" = RECORD (T")?;
        numbered(text, b"", base, b") g")?;
        numbered(text, b"", base, b": INTEGER END;\n")?;
    }
    numbered(text, b"VAR x: T", bases, b";\nBEGIN\n")?;
    let mut random = Random::new(seed);
    for field in 0..fields {
        let other = random.below(field.saturating_add(1).max(1));
        numbered(text, b"  x.f", field, b" := x.f")?;
        numbered(text, b"", other, b";\n")?;
    }
    text.extend_from_slice(b"END Fields.\n")
}

/// A module with this many fields of one record, each used through this many bases.
pub fn inherited_fields(
    alloc: Global,
    seed: u64,
    fields: u64,
    bases: u64,
) -> Result<Vec<Source>, AllocError> {
    let mut text = Vec::new(alloc);
    write_fields(&mut text, seed, fields, bases)?;
    single_file(alloc, "Fields.Mod", text)
}
