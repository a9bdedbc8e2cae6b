//! Symbols and their strings.
use crate::description::expect;
use scip_symbol::{Descriptor, DescriptorKind, Symbol, SymbolFault, read, write};
use std::alloc::{AllocError, Global};
use std::test::Fail;

/// The scheme, the manager, the package and the version of a symbol.
type Parts = [&'static str; 4];

/// A descriptor: its kind, its name, and its disambiguator.
type Step = (DescriptorKind, &'static str, &'static str);

/// Symbols with their strings or errors.
const SYMBOLS: &[(Parts, &[Step], &str)] = &[
    (
        ["x y", "", "", ""],
        &[(DescriptorKind::TypeName, "a`b", "")],
        "x  y . . . `a``b`#",
    ),
    (
        ["x", "m", "p", "v"],
        &[
            (DescriptorKind::Namespace, "n", ""),
            (DescriptorKind::TypeName, "t", ""),
            (DescriptorKind::Term, "v", ""),
            (DescriptorKind::Method, "p", ""),
            (DescriptorKind::Method, "q", "+1"),
            (DescriptorKind::Meta, "m", ""),
            (DescriptorKind::Macro, "c", ""),
            (DescriptorKind::TypeParameter, "a", ""),
            (DescriptorKind::Parameter, "b", ""),
        ],
        "x m p v n/t#v.p().q(+1).m:c![a](b)",
    ),
    // The first error is reported.
    (
        ["local", ".", "", ""],
        &[(DescriptorKind::TypeName, "", "")],
        "something is empty",
    ),
    (
        ["locale", ".", "", ""],
        &[(DescriptorKind::Term, "t", "")],
        "the scheme begins with local",
    ),
    (
        ["x", "..", "p", "."],
        &[(DescriptorKind::Method, "p", ".")],
        "part 3 is wrong",
    ),
    (
        ["x", "", "", ""],
        &[
            (DescriptorKind::Term, "a b", ""),
            (DescriptorKind::Method, "p", "1 2"),
        ],
        "the descriptor at 1 is wrong",
    ),
];

/// Strings with the canonical strings of their symbols, or their errors.
const TEXTS: &[(&str, &str)] = &[
    ("local 0", "local 0"),
    ("local a_+-$9", "local a_+-$9"),
    (
        "scip-oberon . editor . M/R#f.",
        "scip-oberon . editor . M/R#f.",
    ),
    // A simple name may be in backticks, and any other has to be.
    ("x . . . `a`#", "x . . . a#"),
    (
        "x . . . `a/b`/`a.b`.`a()`(1).`a:b`:`a!b`![`[a]`](`(a)`)",
        "x . . . `a/b`/`a.b`.`a()`(1).`a:b`:`a!b`![`[a]`](`(a)`)",
    ),
    (
        "x . . . `a b`#` `#`.`#````#`````a`````#`größe`#`\u{1f600}`#_+-$Az09#",
        "x . . . `a b`#` `#`.`#````#`````a`````#`größe`#`\u{1f600}`#_+-$Az09#",
    ),
    // Parts with spaces and full stops, and with letters beyond ASCII.
    ("x . a    b 1   t#", "x . a    b 1   t#"),
    ("x   .   .. .a t#", "x   .   .. .a t#"),
    (". . . . t#", ". . . . t#"),
    ("схема m ü  é . t#", "схема m ü  é . t#"),
    ("loca local local  a ` t#", "loca local local  a ` t#"),
    // Strings of no symbol. Something is empty.
    ("", "something is empty"),
    ("local ", "something is empty"),
    ("x . . . ", "something is empty"),
    // An id is wrong.
    ("local  0", "the descriptor at 6 is wrong"),
    ("local ab.c.", "the descriptor at 8 is wrong"),
    // The scheme begins with `local`.
    ("local", "the scheme begins with local"),
    ("localx . . . a#", "the scheme begins with local"),
    ("local. ", "the scheme begins with local"),
    // A part is missing.
    (" ", "part 0 is wrong"),
    (" x . . . a#", "part 0 is wrong"),
    ("x", "part 0 is wrong"),
    ("x ", "part 1 is wrong"),
    ("x . .", "part 2 is wrong"),
    ("x . . .", "part 3 is wrong"),
    ("x  . . . a#", "part 3 is wrong"),
    ("x y . z  M/T#", "part 3 is wrong"),
    // A descriptor is wrong.
    ("x . . . a", "the descriptor at 8 is wrong"),
    ("x . . . /", "the descriptor at 8 is wrong"),
    ("x . . . ``#", "the descriptor at 8 is wrong"),
    ("x . . . [a)", "the descriptor at 8 is wrong"),
    ("x . . . a()", "the descriptor at 8 is wrong"),
    ("x . . . a(b c).", "the descriptor at 8 is wrong"),
    ("x . . . a b#", "the descriptor at 8 is wrong"),
    ("x . . . M/ü#", "the descriptor at 10 is wrong"),
    ("x . . . `ü`/a", "the descriptor at 13 is wrong"),
    ("x y . z  . M/T#f", "the descriptor at 15 is wrong"),
    // A backtick isn't closed.
    ("x . . . `a#", "a backtick is open"),
    ("x . . . ```", "a backtick is open"),
    ("x . . . M/(`a)", "a backtick is open"),
    // The first error is reported.
    ("x . . . a/b c/`d", "the descriptor at 10 is wrong"),
    ("x . . . `a/b c/", "a backtick is open"),
    ("local a#`b", "the descriptor at 7 is wrong"),
    ("x . `a ", "part 3 is wrong"),
];

fn step(alloc: Global, (kind, name, disambiguator): Step) -> Result<Descriptor, AllocError> {
    let name = String::from_str(alloc, name)?;
    if disambiguator.is_empty() {
        return Ok(Descriptor::new(kind, name));
    }
    let disambiguator = String::from_str(alloc, disambiguator)?;
    Ok(Descriptor::method(name, disambiguator))
}

fn path(alloc: Global, steps: &[Step]) -> Result<Vec<Descriptor>, AllocError> {
    let mut descriptors = Vec::new(alloc);
    for given in steps {
        descriptors.push(step(alloc, *given)?)?;
    }
    Ok(descriptors)
}

fn global_symbol(alloc: Global, parts: Parts, steps: &[Step]) -> Result<Symbol, AllocError> {
    let [scheme, manager, package, version] = parts;
    Ok(Symbol::Global {
        scheme: String::from_str(alloc, scheme)?,
        manager: String::from_str(alloc, manager)?,
        package: String::from_str(alloc, package)?,
        version: String::from_str(alloc, version)?,
        descriptors: path(alloc, steps)?,
    })
}

fn describe_fault(alloc: Global, fault: SymbolFault) -> Result<String, AllocError> {
    match fault {
        SymbolFault::Memory => Err(AllocError),
        _ => format!(in alloc; "{fault}"),
    }
}

/// Whether a string is read as this symbol.
fn is_read_as(alloc: Global, text: &str, symbol: &Symbol) -> Result<bool, AllocError> {
    match read(alloc, text) {
        Ok(found) => Ok(found == *symbol),
        Err(SymbolFault::Memory) => Err(AllocError),
        Err(_) => Ok(false),
    }
}

/// The string, if it is read as this symbol.
fn describe_reread(alloc: Global, text: String, symbol: &Symbol) -> Result<String, AllocError> {
    if is_read_as(alloc, text.as_str(), symbol)? {
        Ok(text)
    } else {
        String::from_str(alloc, "another symbol")
    }
}

/// The string of a symbol, which is read as the symbol again, or the error.
fn describe_written(alloc: Global, symbol: &Symbol) -> Result<String, AllocError> {
    match write(alloc, symbol) {
        Ok(text) => describe_reread(alloc, text, symbol),
        Err(fault) => describe_fault(alloc, fault),
    }
}

fn describe_global(alloc: Global, parts: Parts, steps: &[Step]) -> Result<String, AllocError> {
    describe_written(alloc, &global_symbol(alloc, parts, steps)?)
}

/// The canonical string of the symbol that has a string, or the error.
fn describe_read(alloc: Global, text: &str) -> Result<String, AllocError> {
    match read(alloc, text) {
        Ok(symbol) => describe_written(alloc, &symbol),
        Err(fault) => describe_fault(alloc, fault),
    }
}

#[test]
fn symbols_have_texts(rt: HostRuntime) -> Result<(), Fail> {
    for (parts, steps, want) in SYMBOLS {
        let description = describe_global(rt.alloc(), *parts, steps)?;
        expect(&rt, description.as_str(), want);
    }
    Ok(())
}

#[test]
fn texts_are_read(rt: HostRuntime) -> Result<(), Fail> {
    for (text, want) in TEXTS {
        let description = describe_read(rt.alloc(), text)?;
        expect(&rt, description.as_str(), want);
    }
    Ok(())
}
