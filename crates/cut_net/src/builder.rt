//! The builder of a network: a hash table of names in order of first occurrence, and one of imports by the indices of their names.
ghost use Rattle.std.specs.Prelude.{◌≡◌, ◌<◌, ◌++◌, ◌∷◌, true, false, Contains, IfErr, IfOk, List, [], OnOk, length};
ghost use Rattle.std.specs.Map.{keys_of};
ghost use Rattle.cut_net.specs.declared.builder.NetLineFault.TheVariants.{Memory};
ghost use Rattle.std.specs.List.{slice_index_or};
ghost use Rattle.cut_net.specs.Network.{texts};
ghost use Rattle.cut_net.specs.NetText.{IsNetLine, NetLine, Module, Import};
ghost use Rattle.cut_net.specs.NetReading.{line_content, with_name, AddsLine, HasLines, TakesPiece};

use crate::NetFault;
use crate::lines::{Line, parse_line};
use indexmap::{IndexMap, IndexSet};
use std::alloc::{AllocError, AllocFailed, Global};
use text_hash::Seed;
use texts::fields::split_at_byte;

/// The largest number of names of a network.
pub(crate) const MOST_NAMES: usize = 8192;

pub(crate) const MOST_IMPORTS: usize = 65536;

/// A divisor to estimate the number of hash keys of a text: it has at most one name for each 6 bytes.
const BYTES_A_NAME: usize = 6;

/// The error of one line.
pub(crate) enum NetLineFault {
    BadLine,
    TwiceImport,
    TooMany,
    Memory,
}

impl NetLineFault {
    ghost use Rattle.std.specs.Prelude.{◌≡◌};
    ghost use Rattle.cut_net.specs.NetReading.{net_fault_in_line};

    /// The error with the number of its line.
    pub(crate) fn at(self, line: u64) -> NetFault
        ensures { result ≡ net_fault_in_line line self }
    {
        match self {
            NetLineFault::BadLine => NetFault::BadLine { line },
            NetLineFault::TwiceImport => NetFault::TwiceImport { line },
            NetLineFault::TooMany => NetFault::TooMany { line },
            NetLineFault::Memory => NetFault::Memory,
        }
    }
}

impl From<AllocError> for NetLineFault {
    ghost use Rattle.std.specs.Prelude.{◌≡◌};
    ghost use Rattle.cut_net.specs.declared.builder.NetLineFault.TheVariants.{Memory};

    ghost from_gives = { λ _ fault. fault ≡ Memory };

    fn from(_error: AllocError) -> NetLineFault {
        NetLineFault::Memory
    }
}

impl<T: Drop> From<AllocFailed<T>> for NetLineFault {
    ghost use Rattle.std.specs.Prelude.{◌≡◌};
    ghost use Rattle.cut_net.specs.declared.builder.NetLineFault.TheVariants.{Memory};

    ghost from_gives = { λ _ fault. fault ≡ Memory };

    fn from(_error: AllocFailed<T>) -> NetLineFault {
        NetLineFault::Memory
    }
}

/// The names of the lines read so far, and their imports with weights.
#[derive(Drop)]
pub(crate) struct NetBuilder {
    pub(crate) names: IndexSet<String, Seed>,
    pub(crate) imports: IndexMap<(usize, usize), u64, Seed>,
}

/// The text that determines the size of tables and the hash seed: empty if the first line is invalid. So no digest is computed and no
/// slot allocated for a text that is rejected at once.
pub(crate) fn text_for_sizing(bytes: &[u8]) -> &[u8] {
    let first = match split_at_byte(bytes, b'\n') {
        Some((piece, _)) => piece,
        None => bytes,
    };
    if first.is_empty() || parse_line(first).is_some() {
        return bytes;
    }
    &bytes[..0]
}

/// The hash seed for a text. It depends on the text, so names or imports that were chosen to collide under one seed get another.
pub(crate) fn seed_of(bytes: &[u8]) -> Seed {
    let text = text_for_sizing(bytes);
    Seed::for_keys(text, text.len() / BYTES_A_NAME)
}

/// The index of the name in `names`, to which a new name is appended.
pub(crate) fn intern_name(
    alloc: Global,
    names: &mut IndexSet<String, Seed>,
    name: &str,
) -> Result<usize, AllocError>
    ensures names { OnOk result (texts names.new.keys ≡ with_name (texts names.old.keys) name.now) }
    ensures within { IfOk result (λ at. at < length (texts names.new.keys)) }
    ensures place { IfOk result (λ at. slice_index_or (texts names.new.keys) at [] ≡ name.now) }
{
    if let Some(at) = names.get_index_of(name) {
        return Ok(at);
    }
    let (at, _) = names.insert_full(String::from_str(alloc, name)?)?;
    Ok(at)
}

/// Adds an import, given by the indices of its two names. Returns whether the table had an import of these names before.
fn insert_import(
    imports: &mut IndexMap<(usize, usize), u64, Seed>,
    ends: (usize, usize),
    weight: u64,
) -> Result<bool, NetLineFault>
    ensures present { IfOk result (λ present. present ≡ true → Contains (keys_of imports.old.entries) ends) }
    ensures absent { IfOk result (λ present. present ≡ false → Contains (keys_of imports.old.entries) ends → ⊥) }
    ensures last { IfOk result (λ present. present ≡ false → imports.new.entries ≡ imports.old.entries ++ (ends, weight) ∷ []) }
    ensures fault { IfErr result (λ fault. fault ≡ Memory) }
{
    let before = imports.insert(ends, weight)?;
    Ok(before.is_some())
}

impl NetBuilder {
    /// The builder of no lines, with this hash seed.
    pub(crate) fn new(alloc: Global, seed: Seed) -> NetBuilder
        ensures { HasLines [] result }
    {
        NetBuilder {
            names: IndexSet::with_hasher(alloc, seed),
            imports: IndexMap::with_hasher(alloc, seed),
        }
    }

    /// Adds the name of a `module` line. Fails with `TooMany` if the builder then has more than 8,192 names.
    fn add_module(&mut self, alloc: Global, name: &str) -> Result<(), NetLineFault>
        ensures { (before : List NetLine) → HasLines before self.old → IsNetLine (Module name.now) → AddsLine before (Module name.now) result self.new }
    {
        intern_name(alloc, &mut self.names, name)?;
        if self.names.len() > MOST_NAMES {
            return Err(NetLineFault::TooMany);
        }
        Ok(())
    }

    /// Adds the names and the import of an `import` line. Fails with `TwiceImport` if an earlier line has the import, and with `TooMany`
    /// if the builder then has more than 8,192 names or 65,536 imports.
    fn add_import(
        &mut self,
        alloc: Global,
        importer: &str,
        imported: &str,
        weight: u64,
    ) -> Result<(), NetLineFault>
        ensures { (before : List NetLine) → HasLines before self.old → IsNetLine (Import importer.now imported.now weight) → AddsLine before (Import importer.now imported.now weight) result self.new }
    {
        let from = intern_name(alloc, &mut self.names, importer)?;
        let to = intern_name(alloc, &mut self.names, imported)?;
        if insert_import(&mut self.imports, (from, to), weight)? {
            return Err(NetLineFault::TwiceImport);
        }
        if self.names.len() > MOST_NAMES || self.imports.len() > MOST_IMPORTS {
            return Err(NetLineFault::TooMany);
        }
        Ok(())
    }

    /// Adds a parsed line.
    fn add(&mut self, alloc: Global, line: Line<'_>) -> Result<(), NetLineFault>
        ensures { (before : List NetLine) → HasLines before self.old → IsNetLine (line_content line.entry) → AddsLine before (line_content line.entry) result self.new }
    {
        match line {
            Line::Module(name) => self.add_module(alloc, name),
            Line::Import(importer, imported, weight) => {
                self.add_import(alloc, importer, imported, weight)
            }
        }
    }

    /// Parses the bytes between two line ends, and adds their line. Empty bytes add nothing.
    pub(crate) fn take(&mut self, alloc: Global, piece: &[u8]) -> Result<(), NetLineFault>
        ensures { (before : List NetLine) → HasLines before self.old → TakesPiece before piece.now result self.new }
    {
        if piece.is_empty() {
            return Ok(());
        }
        let Some(line) = parse_line(piece) else {
            return Err(NetLineFault::BadLine);
        };
        self.add(alloc, line)
    }
}
