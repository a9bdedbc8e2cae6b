//! Trees of ordinary modules: many small ones, some larger ones, or one very large one.

use crate::grammar::{NOUNS, SourceBuilder, VARIABLES};
use crate::random::{Random, name_of, push_number};
use source_tree::Source;
use std::alloc::{AllocError, Global};

/// The shape of a tree's modules.
#[derive(Clone, Copy)]
pub struct Shape {
    pub modules: u64,
    /// The maximum number of bytes of a module.
    pub bytes: usize,
    /// The number of imports of a module, if that many modules precede it.
    pub imports: u64,
    /// The number of constants, of types and of variables that a module declares.
    pub width: u64,
    /// Whether the declared names of different modules differ.
    pub suffix: bool,
    /// Whether each file is in a folder, so that modules sorted by path aren't sorted by name.
    pub folders: bool,
    /// Whether every sixteenth procedure uses an undeclared field and an undeclared name.
    pub undeclared: bool,
}

/// The number of an imported module. Each import is from another part of the preceding modules.
pub fn imported(seed: u64, module: u64, count: u64, nth: u64) -> u64 {
    if count == 0 || module <= count {
        return nth;
    }
    let part = module / count;
    let mut random = Random::new(
        seed.wrapping_add(module.wrapping_mul(8191))
            .wrapping_add(nth),
    );
    if part == 0 {
        return nth;
    }
    (nth % count)
        .wrapping_mul(part)
        .wrapping_add(random.below(part))
}

fn write_imports(builder: &mut SourceBuilder) -> Result<(), AllocError> {
    let count = builder.imports.len();
    for at in 0..count {
        builder.put(if at == 0 { b"  IMPORT " } else { b", " })?;
        if at >= builder.imports.len() {
            break;
        }
        let module = builder.imports[at];
        if module % 5 == 0 {
            builder.alias(module)?;
            builder.put(b" := ")?;
        }
        builder.put(name_of(module).as_slice())?;
    }
    if count > 0 {
        builder.put(b";\n")?;
    }
    Ok(())
}

fn write_constants(builder: &mut SourceBuilder) -> Result<(), AllocError> {
    builder.put(
        b"\n  CONST\n    Limit* = 640; Size* = 3 * Limit; Title = \"A title\"; Tab = 9X;\n",
    )?;
    for number in 0..builder.width {
        builder.put(b"    ")?;
        builder.constant(number)?;
        builder.put(if number % 3 == 0 { b"* = " } else { b" = " })?;
        builder.number(number)?;
        builder.put(b" + Limit;\n")?;
    }
    Ok(())
}

fn write_fields(builder: &mut SourceBuilder, of: u64) -> Result<(), AllocError> {
    for number in 0..4 {
        builder.field(of, number)?;
        builder.put(if number < 3 { b"*, " } else { b"*: INTEGER;\n" })?;
    }
    Ok(())
}

fn write_types(builder: &mut SourceBuilder) -> Result<(), AllocError> {
    builder.put(b"\n  TYPE\n")?;
    for number in 0..builder.width {
        builder.put(b"    ")?;
        builder.type_name(number)?;
        builder.put(b"* = POINTER TO ")?;
        builder.type_name(number)?;
        builder.put(b"Desc;\n    ")?;
        builder.type_name(number)?;
        builder.put(b"Desc* = RECORD\n      next*: ")?;
        builder.type_name(number)?;
        builder.put(b"; ")?;
        write_fields(builder, number)?;
        builder.put(b"      data*: ARRAY 32 OF INTEGER; name: ARRAY 32 OF CHAR\n    END;\n")?;
    }
    Ok(())
}

fn write_variables(builder: &mut SourceBuilder) -> Result<(), AllocError> {
    builder.put(b"\n  VAR\n    total*")?;
    for number in 0..builder.width {
        builder.put(b", ")?;
        builder.variable(number)?;
    }
    builder.put(b": INTEGER;\n    table, grid: ARRAY 64, 8 OF INTEGER;\n")
}

/// The parameters and variables of a procedure.
fn overwrite_header(builder: &mut SourceBuilder) -> Result<(), AllocError> {
    builder.own = builder.random.below(22) as usize;
    if builder.width > 0 {
        builder.at = builder.random.below(builder.width);
    }
    builder.put(b"(VAR ")?;
    for number in 0..VARIABLES {
        builder.local(number)?;
        builder.put(match number {
            0 => b": INTEGER; ",
            1 => b": INTEGER);\n    VAR ",
            4 => b": INTEGER; done: BOOLEAN; p, q: ",
            _ => b", ",
        })?;
    }
    builder.type_name(builder.at)?;
    builder.put(b";\n  BEGIN\n")
}

fn write_statements(builder: &mut SourceBuilder) -> Result<(), AllocError> {
    let count = 3 + builder.random.below(6);
    for _ in 0..count {
        builder.statement()?;
    }
    Ok(())
}

/// Appends an exported procedure of this name.
fn write_exported(builder: &mut SourceBuilder, name: &[u8]) -> Result<(), AllocError> {
    builder.put(b"\n  PROCEDURE ")?;
    builder.put(name)?;
    builder.put(b"*")?;
    overwrite_header(builder)?;
    write_statements(builder)?;
    builder.put(b"  END ")?;
    builder.put(name)?;
    builder.put(b";\n")
}

fn write_procedure(builder: &mut SourceBuilder) -> Result<(), AllocError> {
    let number = builder.procedures;
    builder.put(b"\n  PROCEDURE ")?;
    builder.procedure(number)?;
    overwrite_header(builder)?;
    if builder.undeclared && number % 16 == 0 {
        builder.expand(b"    $v := $p.missing + absent;\n")?;
    }
    write_statements(builder)?;
    builder.put(b"  END ")?;
    builder.procedure(number)?;
    builder.put(b";\n")?;
    builder.procedures = number.saturating_add(1);
    Ok(())
}

fn write_declarations(builder: &mut SourceBuilder) -> Result<(), AllocError> {
    write_imports(builder)?;
    write_constants(builder)?;
    write_types(builder)?;
    write_variables(builder)?;
    write_exported(builder, b"Put")?;
    write_exported(builder, b"Mark")?;
    write_exported(builder, b"Measure")
}

/// Appends a module of about this many bytes.
fn write_module(builder: &mut SourceBuilder, name: &[u8], bytes: usize) -> Result<(), AllocError> {
    builder.put(b"MODULE ")?;
    builder.put(name)?;
    builder.put(b";\n")?;
    write_declarations(builder)?;
    for _ in 0..bytes {
        if builder.text.len() >= bytes.saturating_sub(1500) {
            break;
        }
        write_procedure(builder)?;
    }
    builder.put(b"\nBEGIN\n  total := 0\nEND ")?;
    builder.put(name)?;
    builder.put(b".\n")
}

/// The path of a module: its name, or a folder and its name.
fn path_of(alloc: Global, module: u64, folders: bool) -> Result<String, AllocError> {
    let mut path = Vec::new(alloc);
    if folders {
        path.extend_from_slice(b"part")?;
        push_number(&mut path, 1000 + module % 1000)?;
        path.extend_from_slice(b"/")?;
    }
    path.extend_from_slice(name_of(module).as_slice())?;
    path.extend_from_slice(b".Mod")?;
    let text = str::from_utf8(path.as_slice()).unwrap_or("");
    String::from_str(alloc, text)
}

fn source_of(alloc: Global, seed: u64, shape: &Shape, module: u64) -> Result<Source, AllocError> {
    let suffix = if shape.suffix {
        100 + module % 10_000
    } else {
        0
    };
    let mut builder = SourceBuilder::new(
        alloc,
        seed.wrapping_mul(4099) ^ module,
        shape.width,
        suffix,
    );
    builder.undeclared = shape.undeclared;
    for nth in 0..shape.imports.min(module) {
        let other = imported(seed, module, shape.imports, nth);
        builder.imports.push(other)?;
    }
    write_module(&mut builder, name_of(module).as_slice(), shape.bytes)?;
    Ok(Source {
        path: path_of(alloc, module, shape.folders)?,
        bytes: builder.text,
    })
}

/// A tree of this shape, its files sorted by path.
pub fn tree_of(alloc: Global, seed: u64, shape: &Shape) -> Result<Vec<Source>, AllocError> {
    let mut sources = Vec::new(alloc);
    for module in 0..shape.modules {
        sources.push(source_of(alloc, seed, shape, module)?)?;
    }
    sources.sort_unstable_by(|first, second| first.path.cmp(&second.path));
    Ok(sources)
}

/// Prices for a tree of this shape: every third module has one pinned import and one with a high price.
pub fn prices_of(alloc: Global, seed: u64, shape: &Shape) -> Result<Vec<u8>, AllocError> {
    let mut text = Vec::new(alloc);
    for module in shape.imports..shape.modules {
        if module % 3 != 0 || shape.imports < 2 {
            continue;
        }
        text.extend_from_slice(b"pin ")?;
        push_pair(&mut text, module, imported(seed, module, shape.imports, 1))?;
        text.extend_from_slice(b"\nprice ")?;
        push_pair(&mut text, module, imported(seed, module, shape.imports, 0))?;
        text.extend_from_slice(b" ")?;
        push_number(&mut text, 10 + module % 90)?;
        text.extend_from_slice(b"\n")?;
    }
    Ok(text)
}

/// Appends the names of two modules.
fn push_pair(text: &mut Vec<u8>, from: u64, to: u64) -> Result<(), AllocError> {
    text.extend_from_slice(name_of(from).as_slice())?;
    text.extend_from_slice(b" ")?;
    text.extend_from_slice(name_of(to).as_slice())
}
