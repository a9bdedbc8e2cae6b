//! The encoding of the messages of an index: fields in ascending order of their numbers, and none that is zero or empty.
ghost use Rattle.std.specs.Prelude.{◌≡◌, IfOk, IsOkUnless, OnOk};
ghost use Rattle.proto_wire.specs.declared.fault.WireFault.TheVariants.{Memory};
ghost use Rattle.scip_index.specs.Plain.{document_model, index_model, metadata_model, occurrence_model, symbol_model, tool_model, IndexModel};
ghost use Rattle.scip_index.specs.Meaning.{Means};
ghost use Rattle.scip_index.specs.Fits.{DocumentFits, IndexFits, MetadataFits, OccurrenceFits, SymbolFits, ToolFits};
ghost use Rattle.scip_index.specs.Written.{written, written_document, written_metadata, written_occurrence, written_symbol, written_tool};

use crate::{Document, Index, Metadata, Occurrence, SymbolInfo, ToolInfo};
use proto_wire::{
    Scratch, WireFault, Written, append_messages, append_number, append_optional_message,
    append_packed, append_text, append_texts,
};
use std::alloc::{AllocError, Global};

impl Written for Occurrence {
    ghost written = { λ o. written_occurrence (occurrence_model o) };

    ghost fits = { λ o. OccurrenceFits (occurrence_model o) };

    #[tactic(auto, unfolding(crate::specs::Written::written_occurrence))]
    fn encode_into(&self, scratch: &mut Scratch, out: &mut Vec<u8>) -> Result<(), AllocError> {
        append_packed(scratch, out, 1, &self.range)?;
        append_text(out, 2, self.symbol.as_str())?;
        append_number(out, 3, self.symbol_roles)?;
        append_packed(scratch, out, 7, &self.enclosing_range)
    }
}

impl Written for SymbolInfo {
    ghost written = { λ s. written_symbol (symbol_model s) };

    ghost fits = { λ s. SymbolFits (symbol_model s) };

    #[tactic(auto, unfolding(crate::specs::Written::written_symbol))]
    fn encode_into(&self, _scratch: &mut Scratch, out: &mut Vec<u8>) -> Result<(), AllocError> {
        append_text(out, 1, self.symbol.as_str())?;
        append_text(out, 6, self.display_name.as_str())
    }
}

impl Written for Document {
    ghost written = { λ d. written_document (document_model d) };

    ghost fits = { λ d. DocumentFits (document_model d) };

    fn encode_into(&self, scratch: &mut Scratch, out: &mut Vec<u8>) -> Result<(), AllocError> {
        append_text(out, 1, self.relative_path.as_str())?;
        append_messages(scratch, out, 2, &self.occurrences)?;
        append_messages(scratch, out, 3, &self.symbols)?;
        append_text(out, 4, self.language.as_str())?;
        append_number(out, 6, self.position_encoding)
    }
}

impl Written for ToolInfo {
    ghost written = { λ t. written_tool (tool_model t) };

    ghost fits = { λ t. ToolFits (tool_model t) };

    #[tactic(auto, using(crate::proofs::WritingSteps::steps), unfolding(crate::specs::Written::written_tool))]
    fn encode_into(&self, _scratch: &mut Scratch, out: &mut Vec<u8>) -> Result<(), AllocError> {
        append_text(out, 1, self.name.as_str())?;
        append_text(out, 2, self.version.as_str())?;
        append_texts(out, 3, &self.arguments)
    }
}

impl Written for Metadata {
    ghost written = { λ m. written_metadata (metadata_model m) };

    ghost fits = { λ m. MetadataFits (metadata_model m) };

    fn encode_into(&self, scratch: &mut Scratch, out: &mut Vec<u8>) -> Result<(), AllocError> {
        append_number(out, 1, self.version)?;
        append_optional_message(scratch, out, 2, &self.tool_info)?;
        append_text(out, 3, self.project_root.as_str())?;
        append_number(out, 4, self.text_document_encoding)
    }
}

/// The written form of an index.
fn encode_index(alloc: Global, index: &Index) -> Result<Vec<u8>, AllocError>
    ensures bytes { IfOk result (λ v. v.items ≡ written (index_model index.now)) }
    ensures fits { OnOk result (IndexFits (index_model index.now)) }
{
    let mut scratch = Scratch::new(alloc);
    let mut out = Vec::new(alloc);
    append_optional_message(&mut scratch, &mut out, 1, &index.metadata)?;
    append_messages(&mut scratch, &mut out, 2, &index.documents)?;
    append_messages(&mut scratch, &mut out, 3, &index.external_symbols)?;
    Ok(out)
}

/// Encodes an index in its one written form (scip.proto; Protocol Buffers encoding): fields in ascending order of their numbers, minimal
/// varints and packed ranges.
/// Zeros, empty strings and empty lists are left out. A message that is present and each argument are written even if empty.
/// Fails with `Memory` if an allocation fails.
pub fn to_bytes(alloc: Global, index: &Index) -> Result<Vec<u8>, WireFault>
    // With `Ok` the bytes are the written form of the index.
    ensures exact { IfOk result (λ v. v.items ≡ written (index_model index.now)) }
    // With `Ok` the bytes encode the index.
    ensures means { IfOk result (λ v. Means v.items (index_model index.now)) }
    // With `Ok` the bytes encode no other index.
    ensures only { IfOk result (λ v. (other : IndexModel) → Means v.items other → other ≡ index_model index.now) }
    // `Memory` is the only error.
    ensures memory { IsOkUnless result Memory }
{
    Ok(encode_index(alloc, index)?)
}
