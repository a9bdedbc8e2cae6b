//! Makes the entries of a tree's modules. An entry contains the encoded record of the module's document, so each worker also encodes.
//! In the clauses: `input`: the parts are those of a file of the tree, with the interfaces of the modules that its module reaches.
//! `named`: the names in these interfaces are identifiers. `precomputed_chains`: the chains are those of the tree's modules.
//! `package`: the type `F` names this package. `right`: the package isn't `.` and doesn't begin with a space.
ghost use Rattle.std.specs.Prelude.{◌≡◌, false, map, IfOk};
ghost use Rattle.scip_index.specs.Plain.{symbol_model};
ghost use Rattle.std.specs.Arc.{arc_value};
ghost use Rattle.ob_scan.specs.Texts.{text_at};
ghost use Rattle.scip_symbol.specs.Outcomes.{is_wrong_part};
ghost use Rattle.ob_board.specs.PrecomputedChains.{ServesModule};
ghost use Rattle.ob_board.specs.Entries.{AreAllNamed};
ghost use Rattle.ob_board.specs.UnresolvedEntry.{IsModuleInput};

use crate::built::EntryBuilder;
use crate::laws::reach_by_names_agrees;
use crate::named_index::NamedIndex;
use crate::precomputed_chains::PrecomputedChains;
use crate::written::{EncodedDocument, encode_module};
use board_workers::Work;
use ob_interface::Interface;
use scip_index::SymbolInfo;
use source_tree::{ModuleParts, Source};
use std::alloc::{AllocError, Global};
use std::marker::{Model, PhantomData};
use std::sync::Arc;
use work_board::WorkEntry;

/// The entry of a module of a tree, with the encoded record of the module's document in `bytes`. The type parameter `F` names the tree and
/// the package.
#[derive(Drop)]
pub(crate) struct EncodedEntry<F: NamedIndex> {
    name: String,
    bytes: Vec<u8>,
    interface: Arc<Interface>,
    externals: Vec<SymbolInfo>,
    of: PhantomData<F>,
}

impl<F: NamedIndex> Model for EncodedEntry<F> {
    ghost use Rattle.std.specs.Prelude.{map};
    ghost use Rattle.std.specs.Arc.{arc_value};
    ghost use Rattle.std.specs.String.{string_bytes};
    ghost use Rattle.scip_index.specs.Plain.{symbol_model};
    ghost use Rattle.ob_board.specs.Records.{IsEncodedEntryOf, EncodedEntryModel};

    ghost Value = { EncodedEntryModel };

    ghost view = { λ r. record { name = string_bytes r.name; bytes = r.bytes.items; interface = arc_value r.interface; externals = map symbol_model r.externals.items } };

    ghost invariant = { λ r. IsEncodedEntryOf F.files F.package_name (string_bytes r.name)
        (record { name = string_bytes r.name; bytes = r.bytes.items; interface = arc_value r.interface; externals = map symbol_model r.externals.items }) };
}

impl<F: NamedIndex> EncodedEntry<F> {
    /// Moves the record of the document and the external symbols out of the entry.
    pub(crate) fn into_record(self) -> EncodedDocument
        ensures bytes { result.bytes.items ≡ self.bytes }
        ensures externals { map symbol_model result.externals.items ≡ self.externals }
    {
        let EncodedEntry {
            name: _,
            bytes,
            interface: _,
            externals,
            of: _,
        } = self;
        EncodedDocument { bytes, externals }
    }
}

impl<F: NamedIndex> WorkEntry for EncodedEntry<F> {
    ghost use Rattle.ob_board.specs.Records.{IsEncodedEntryOf};

    type Shared = Interface;

    ghost name_of = { λ r. r.name };

    ghost is_of = { λ name r. IsEncodedEntryOf F.files F.package_name name r };

    ghost shared_of = { λ r. r.interface };

    fn name(&self) -> &str {
        self.name.as_str()
    }

    fn shared(&self) -> &Arc<Interface> {
        &self.interface
    }
}

/// Makes the entry of a module from the module's parts, the interfaces of the modules that it reaches, and the tree's precomputed type
/// chains.
fn encode_entry<F: NamedIndex>(
    alloc: Global,
    source: &Source,
    parts: &ModuleParts,
    reached: &[Arc<Interface>],
    precomputed_chains: &PrecomputedChains,
    package_name: &str,
) -> Result<EncodedEntry<F>, AllocError>
    requires input { IsModuleInput F.files source.now parts.now (map arc_value reached.now) }
    requires named { AreAllNamed (map arc_value reached.now) }
    requires precomputed_chains { ServesModule (map arc_value reached.now) precomputed_chains.now }
    requires package { package_name.now ≡ F.package_name }
    requires right { is_wrong_part F.package_name ≡ false }
    // With `Ok` the entry has the name of the module, which is token 1.
    ensures { IfOk result (λ r. r.name ≡ text_at source.now.bytes.items parts.now.tokens 1) }
{
    let EncodedDocument { bytes, externals } = encode_module(
        alloc,
        source,
        parts,
        reached,
        precomputed_chains,
        package_name,
    )?;
    let name = String::from_str(alloc, parts.scopes.name())?;
    let interface = Arc::try_clone(&parts.interface)?;
    Ok(EncodedEntry {
        name,
        bytes,
        interface,
        externals,
        of: PhantomData,
    })
}

impl<F: NamedIndex> Work for EntryBuilder<'_, F, EncodedEntry<F>> {
    ghost use Rattle.ob_board.specs.BoardGraphs.{modules_of};

    type Entry = EncodedEntry<F>;

    ghost graph = { λ w. modules_of w };

    fn make(&self, number: u32, parts: &[Arc<Interface>]) -> Result<EncodedEntry<F>, AllocError> {
        reach_by_names_agrees();
        let place = number as usize;
        let encoded = encode_entry(
            self.alloc,
            &self.sources[place],
            &self.modules[place],
            parts,
            &self.precomputed_chains,
            self.package_name,
        )?;
        Ok(encoded)
    }
}
