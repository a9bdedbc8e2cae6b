//! Encoded indexes in the style of two other producers (Protocol Buffers encoding).

use crate::random::{Random, push_number};
use std::alloc::{AllocError, Global};

/// The style of an index.
#[derive(Clone, Copy, PartialEq, Eq)]
pub enum Style {
    /// Columns in UTF-16 code units, symbols with backticks.
    TypeScript,
    /// Columns in bytes, long symbols with disambiguators.
    Java,
}

/// Appends a number as a varint.
fn push_varint(bytes: &mut Vec<u8>, number: u64) -> Result<(), AllocError> {
    let mut rest = number;
    for _ in 0..10 {
        if rest < 128 {
            break;
        }
        bytes.push((rest % 128) as u8 | 128)?;
        rest /= 128;
    }
    bytes.push((rest % 128) as u8)?;
    Ok(())
}

/// Appends a length-delimited field.
fn push_field(bytes: &mut Vec<u8>, field: u64, payload: &[u8]) -> Result<(), AllocError> {
    push_varint(bytes, (field % 1000) * 8 + 2)?;
    push_varint(bytes, payload.len() as u64)?;
    bytes.extend_from_slice(payload)
}

/// Appends a field with a number.
fn push_value(bytes: &mut Vec<u8>, field: u64, value: u64) -> Result<(), AllocError> {
    push_varint(bytes, (field % 1000) * 8)?;
    push_varint(bytes, value)
}

/// The path of a document.
pub fn path_of(alloc: Global, style: Style, document: u64) -> Result<Vec<u8>, AllocError> {
    let mut path = Vec::new(alloc);
    let (front, back): (&[u8], &[u8]) = match style {
        Style::TypeScript => (b"src/part", b".ts"),
        Style::Java => (b"src/main/java/com/example/Part", b".java"),
    };
    path.extend_from_slice(front)?;
    push_number(&mut path, document)?;
    path.extend_from_slice(back)?;
    Ok(path)
}

/// The start column of the occurrence in a line of a document.
pub fn column_of(seed: u64, document: u64, line: u64) -> u64 {
    let mut random = Random::new(seed ^ (document << 24) ^ (line << 4));
    random.below(60)
}

/// A producer of an index, record by record, with reused buffers.
#[derive(Drop)]
struct Producer {
    style: Style,
    seed: u64,
    random: Random,
    index: Vec<u8>,
    document: Vec<u8>,
    part: Vec<u8>,
    range: Vec<u8>,
    symbol: Vec<u8>,
}

impl Producer {
    /// Makes the symbol string: every fifth number gives a local symbol.
    fn make_symbol(&mut self, document: u64, number: u64) -> Result<(), AllocError> {
        self.symbol.clear();
        if number % 5 == 4 {
            self.symbol.extend_from_slice(b"local ")?;
            return push_number(&mut self.symbol, number);
        }
        match self.style {
            Style::TypeScript => {
                self.symbol
                    .extend_from_slice(b"scip-typescript npm pages 1.4.0 src/`part")?;
                push_number(&mut self.symbol, document)?;
                self.symbol.extend_from_slice(b".ts`/Line#field")?;
                push_number(&mut self.symbol, number)?;
                self.symbol.extend_from_slice(b".")
            }
            Style::Java => self.make_java(document, number),
        }
    }

    fn make_java(&mut self, document: u64, number: u64) -> Result<(), AllocError> {
        self.symbol.extend_from_slice(
            b"scip-java maven com.example/pages 2.0-beta com/example/part",
        )?;
        push_number(&mut self.symbol, document)?;
        self.symbol.extend_from_slice(b"/Page#method")?;
        push_number(&mut self.symbol, number)?;
        self.symbol.extend_from_slice(b"(+")?;
        push_number(&mut self.symbol, number % 7)?;
        self.symbol.extend_from_slice(b").")
    }

    /// Appends an occurrence of the current symbol in a line, five columns wide.
    fn push_occurrence(&mut self, line: u64, column: u64, defines: bool) -> Result<(), AllocError> {
        self.range.clear();
        push_varint(&mut self.range, line)?;
        push_varint(&mut self.range, column)?;
        push_varint(&mut self.range, column.saturating_add(5))?;
        self.part.clear();
        push_field(&mut self.part, 1, self.range.as_slice())?;
        push_field(&mut self.part, 2, self.symbol.as_slice())?;
        push_value(&mut self.part, 3, if defines { 1 } else { 8 })?;
        push_value(&mut self.part, 5, 12)?;
        push_field(&mut self.document, 2, self.part.as_slice())
    }

    /// Appends the symbol information of the current symbol.
    fn push_information(&mut self, number: u64) -> Result<(), AllocError> {
        self.part.clear();
        push_field(&mut self.part, 1, self.symbol.as_slice())?;
        push_field(&mut self.part, 3, b"What this one is for.")?;
        push_value(&mut self.part, 5, 26)?;
        self.range.clear();
        self.range.extend_from_slice(b"name")?;
        push_number(&mut self.range, number)?;
        push_field(&mut self.part, 6, self.range.as_slice())?;
        push_field(&mut self.document, 3, self.part.as_slice())
    }

    /// Appends the occurrence of a line. Each tenth defines a symbol.
    fn push_line(&mut self, at: u64, lines: u64, line: u64) -> Result<(), AllocError> {
        let column = column_of(self.seed, at, line);
        let symbols = lines / 10 + 1;
        if line % 10 == 0 {
            self.make_symbol(at, line / 10)?;
            self.push_occurrence(line, column, true)?;
            return self.push_information(line / 10);
        }
        let document = if at == 0 { 0 } else { self.random.below(at) };
        let number = self.random.below(symbols);
        self.make_symbol(document, number)?;
        self.push_occurrence(line, column, false)
    }

    fn push_document(&mut self, alloc: Global, at: u64, lines: u64) -> Result<(), AllocError> {
        let path = path_of(alloc, self.style, at)?;
        self.document.clear();
        push_field(&mut self.document, 1, path.as_slice())?;
        for line in 0..lines {
            self.push_line(at, lines, line)?;
        }
        let language: &[u8] = match self.style {
            Style::TypeScript => b"TypeScript",
            Style::Java => b"java",
        };
        push_field(&mut self.document, 4, language)?;
        push_value(&mut self.document, 6, 2)?;
        push_field(&mut self.index, 2, self.document.as_slice())
    }
}

/// An index of this many documents, each with this many occurrences, one in a line.
pub fn index_of(
    alloc: Global,
    seed: u64,
    style: Style,
    documents: u64,
    lines: u64,
) -> Result<Vec<u8>, AllocError> {
    let mut producer = Producer {
        style,
        seed,
        random: Random::new(seed),
        index: Vec::new(alloc),
        document: Vec::new(alloc),
        part: Vec::new(alloc),
        range: Vec::new(alloc),
        symbol: Vec::new(alloc),
    };
    push_field(
        &mut producer.index,
        1,
        b"\x12\x08\x0a\x06maker1\x1a\x0dfile:///pages \x01",
    )?;
    for at in 0..documents {
        producer.push_document(alloc, at, lines)?;
    }
    // an unknown field, as a later version of the format may have
    push_value(&mut producer.index, 99, 7)?;
    Ok(producer.index)
}

/// An index with one document that has a path and this many empty occurrences, between empty documents.
pub fn empty_records(alloc: Global, records: u64) -> Result<Vec<u8>, AllocError> {
    let (mut index, mut document) = (Vec::new(alloc), Vec::new(alloc));
    push_field(&mut document, 1, b"empty")?;
    for _ in 0..records {
        document.extend_from_slice(b"\x12\x00")?;
        index.extend_from_slice(b"\x12\x00")?;
    }
    push_field(&mut index, 2, document.as_slice())?;
    Ok(index)
}
