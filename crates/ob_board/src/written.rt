//! Makes the document and the external symbols of one module, as a message in memory or as an encoded record. In the clauses:
//! - `spelled`: the bytes spell the tokens. `short`: there are fewer than 2^31 bytes.
//! - `scoped`: the scopes are those of the module's table. `named`: the names in question are identifiers.
//! - `few`: indices of reached modules fit 32 bits. `precomputed_chains`: the chains are for a tree that has the reached modules.
//! - `package`: the package isn't `.` and doesn't begin with a space.
ghost use Rattle.std.specs.Prelude.{◌≡◌, ◌<◌, ◌≤◌, ◌^◌, false, length, map, IfOk, Ok};
ghost use Rattle.std.specs.Arc.{arc_value};
ghost use Rattle.module_table.specs.Tables.{rows_in};
ghost use Rattle.ob_emit.specs.Named.{NamesAreIdentifiers};
ghost use Rattle.ob_scan.specs.Spelling.{IsOutcome, Spells};
ghost use Rattle.scopes.specs.Scoped.{AreScopes};
ghost use Rattle.scip_index.specs.Plain.{document_model, symbol_model};
ghost use Rattle.scip_symbol.specs.Outcomes.{is_wrong_part};
ghost use Rattle.ob_board.specs.PrecomputedChains.{ServesModule};
ghost use Rattle.ob_board.specs.Entries.{AreAllNamed, IsWritten, IsDocumentBy};
ghost use Rattle.ob_board.specs.Records.{IsEncoded, IsEncodedBy};

use crate::module_types::module_types;
use crate::precomputed_chains::PrecomputedChains;
use crate::reference_laws::reference_names_are_identifiers;
use ob_emit::laws::scoped_names_are_identifiers;
use ob_emit::{EmitFault, document, document_record, externals};
use ob_interface::Interface;
use ob_resolve::references;
use ob_scan::laws::tokens_in_text;
use ob_types::Types;
use scip_index::{Document, SymbolInfo};
use source_tree::{ModuleParts, Source};
use std::alloc::{AllocError, Global};
use std::sync::Arc;

/// A module's document, and the external symbols that the module uses.
#[derive(Drop)]
pub(crate) struct EmittedDocument {
    pub(crate) document: Document,
    pub(crate) externals: Vec<SymbolInfo>,
}

/// Makes the document of the module at this path, and the list of its external symbols, from the types of the module.
fn emit_document(
    alloc: Global,
    path: &str,
    types: &Types<'_>,
    package_name: &str,
) -> Result<EmittedDocument, AllocError>
    requires short { length types.now.bytes < 2 ^ 31 }
    requires spelled { Spells types.now.bytes types.now.tokens }
    requires named { NamesAreIdentifiers types.now }
    requires package { is_wrong_part package_name.now ≡ false }
    ensures { IfOk result (λ w. IsDocumentBy types.now path.now package_name.now (document_model w.document) (map symbol_model w.externals.items)) }
{
    reference_names_are_identifiers();
    let view = types.view();
    view.invariants();
    let refs = references(alloc, types)?;
    match document(alloc, path, view, refs.as_slice(), package_name) {
        Ok(document) => {
            let externals = externals(alloc, view, refs.as_slice())?;
            Ok(EmittedDocument {
                document,
                externals,
            })
        }
        Err(EmitFault::Memory) => Err(AllocError),
        Err(EmitFault::BadPackage) => unreachable!(),
    }
}

/// Makes the document and the list of external symbols of a module, from the module's parts, the interfaces of the modules that it reaches,
/// and the tree's precomputed type chains.
pub(crate) fn emit_module(
    alloc: Global,
    source: &Source,
    parts: &ModuleParts,
    reached: &[Arc<Interface>],
    precomputed_chains: &PrecomputedChains,
    package_name: &str,
) -> Result<EmittedDocument, AllocError>
    requires spelled { IsOutcome source.now.bytes.items (Ok parts.now.tokens) }
    requires scoped { AreScopes source.now.bytes.items parts.now.tokens (rows_in parts.now.table) parts.now.scopes }
    requires named { AreAllNamed (map arc_value reached.now) }
    requires few { length (map arc_value reached.now) ≤ 2 ^ 32 }
    requires precomputed_chains { ServesModule (map arc_value reached.now) precomputed_chains.now }
    requires package { is_wrong_part package_name.now ≡ false }
    ensures { IfOk result (λ w. IsWritten source.now parts.now (map arc_value reached.now) package_name.now (document_model w.document) (map symbol_model w.externals.items)) }
{
    tokens_in_text();
    scoped_names_are_identifiers();
    let types = module_types(alloc, source, parts, reached, precomputed_chains)?;
    let written = emit_document(alloc, source.path.as_str(), &types, package_name);
    drop(types);
    written
}

/// The encoded record of a module's document (`bytes`), and the external symbols that the module uses.
#[derive(Drop)]
pub(crate) struct EncodedDocument {
    pub(crate) bytes: Vec<u8>,
    pub(crate) externals: Vec<SymbolInfo>,
}

/// Makes the encoded record of the document of the module at this path, and the list of its external symbols, from the types of the module.
fn encode_document(
    alloc: Global,
    path: &str,
    types: &Types<'_>,
    package_name: &str,
) -> Result<EncodedDocument, AllocError>
    requires short { length types.now.bytes < 2 ^ 31 }
    requires spelled { Spells types.now.bytes types.now.tokens }
    requires named { NamesAreIdentifiers types.now }
    requires package { is_wrong_part package_name.now ≡ false }
    ensures { IfOk result (λ w. IsEncodedBy types.now path.now package_name.now w.bytes.items (map symbol_model w.externals.items)) }
{
    reference_names_are_identifiers();
    let view = types.view();
    view.invariants();
    let refs = references(alloc, types)?;
    match document_record(alloc, path, view, refs.as_slice(), package_name) {
        Ok(bytes) => {
            let externals = externals(alloc, view, refs.as_slice())?;
            Ok(EncodedDocument { bytes, externals })
        }
        Err(EmitFault::Memory) => Err(AllocError),
        Err(EmitFault::BadPackage) => unreachable!(),
    }
}

/// Makes the encoded record of a module's document and the list of the module's external symbols, as `emit_module` does, but without making
/// the document as a message in memory.
pub(crate) fn encode_module(
    alloc: Global,
    source: &Source,
    parts: &ModuleParts,
    reached: &[Arc<Interface>],
    precomputed_chains: &PrecomputedChains,
    package_name: &str,
) -> Result<EncodedDocument, AllocError>
    requires spelled { IsOutcome source.now.bytes.items (Ok parts.now.tokens) }
    requires scoped { AreScopes source.now.bytes.items parts.now.tokens (rows_in parts.now.table) parts.now.scopes }
    requires named { AreAllNamed (map arc_value reached.now) }
    requires few { length (map arc_value reached.now) ≤ 2 ^ 32 }
    requires precomputed_chains { ServesModule (map arc_value reached.now) precomputed_chains.now }
    requires package { is_wrong_part package_name.now ≡ false }
    ensures { IfOk result (λ w. IsEncoded source.now parts.now (map arc_value reached.now) package_name.now w.bytes.items (map symbol_model w.externals.items)) }
{
    tokens_in_text();
    scoped_names_are_identifiers();
    let types = module_types(alloc, source, parts, reached, precomputed_chains)?;
    let encoded = encode_document(alloc, source.path.as_str(), &types, package_name);
    drop(types);
    encoded
}
