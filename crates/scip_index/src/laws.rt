//! Laws of indexes and their bytes, proved as contracts of functions with an empty body.
ghost use Rattle.std.specs.Prelude.{◌≡◌, ◌++◌, ◌<◌, ◌^◌, ℕ, List, Ok, Result, length};
ghost use Rattle.proto_wire.specs.declared.fault.WireFault.{WireFault};
ghost use Rattle.scip_index.specs.Plain.{IndexModel};
ghost use Rattle.scip_index.specs.Meaning.{IsIndexOutcome, Means};
ghost use Rattle.scip_index.specs.Fits.{IndexFits};
ghost use Rattle.scip_index.specs.Written.{documents_part, externals_part, metadata_part, written};

/// Bytes have at most one outcome: they encode one index, or have one first fault, and never both.
pub fn outcome_is_unique()
    // Two outcomes of one list of bytes are equal.
    ensures { (bytes : List ℕ) (o p : Result IndexModel WireFault) → IsIndexOutcome bytes o → IsIndexOutcome bytes p → o ≡ p }
{}

/// Any bytes encode an index or have a first fault.
pub fn outcome_exists()
    // Each list of bytes has an outcome.
    ensures { (bytes : List ℕ) → (o : Result IndexModel WireFault) × IsIndexOutcome bytes o }
{}

/// The written form of an index encodes this index, and has no other outcome. So `from_bytes` returns the index, unless memory runs out.
/// This holds if the numbers of the index fit their types, its strings are UTF-8, and the written form has fewer than 2^64 bytes.
pub fn what_is_written_is_read()
    // If an index fits its types and its written form has fewer than 2^64 bytes, the written form encodes the index.
    ensures means { (i : IndexModel) → IndexFits i → length (written i) < 2 ^ 64 → Means (written i) i }
    // If an index fits its types and its written form has fewer than 2^64 bytes, each outcome of the written form is this index.
    ensures only { (i : IndexModel) (o : Result IndexModel WireFault) → IndexFits i → length (written i) < 2 ^ 64 → IsIndexOutcome (written i) o → o ≡ Ok i }
{}

/// The written form of an index is the concatenation of what `metadata`, `document` and `end` of an `IndexWriter` write, in order.
pub fn written_form_is_concatenation()
    // The written form is the metadata's record, then the documents' records, then the external symbols' records.
    ensures { (i : IndexModel) → written i ≡ metadata_part i.metadata ++ documents_part i.documents ++ externals_part i.external_symbols }
{}
