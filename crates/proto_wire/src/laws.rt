//! Laws of varints, records and fields, proved as contracts of functions with an empty body.
ghost use Rattle.std.specs.Prelude.{◌≡◌, ◌↔◌, ◌<◌, ◌≤◌, ◌^◌, ◌++◌, [], ℕ, ℤ, pos, FitsSigned, List, None, Option, Some, Result, length};
ghost use Rattle.std.specs.Int.{w32};
ghost use Rattle.std.specs.List.{AllByRecursion};
ghost use Rattle.proto_wire.specs.declared.fault.WireFault.{WireFault};
ghost use Rattle.proto_wire.specs.declared.record.WireRecord.{WireRecord};
ghost use Rattle.proto_wire.specs.Varints.{IsVarint, varint};
ghost use Rattle.proto_wire.specs.Records.{AreRecords, IsFirst, IsOutcome, IsRecord, IsStopped, PayloadRecord};
ghost use Rattle.proto_wire.specs.Packed.{ArePacked, IsPackedOutcome, packed};
ghost use Rattle.proto_wire.specs.Readings.{payload_records, record_in};
ghost use Rattle.proto_wire.specs.Messages.{bytes_in, field_values, fault_of, latest, number_in, numbers_in, IsClean, IsFirstFault};
ghost use Rattle.proto_wire.specs.Writing.{CarryAll, Field, FieldFits, number_fields, packed_fields, packed_payload, payload_fields, piece_at, pieces_at, spelled, spelled_fields, text_fields};

/// Bytes begin with at most one varint, and it encodes one number.
pub fn varint_is_unique()
    // If bytes begin with two varints, these encode one number and are followed by the same bytes.
    ensures { (first rest other after : List ℕ) (n m : ℕ) → IsVarint first n → IsVarint other m → first ++ rest ≡ other ++ after → (n ≡ m) × (rest ≡ after) }
{}

/// The varint that is written for a number encodes this number, and none of its varints is shorter.
pub fn written_varint_is_shortest()
    // The varint of a number below 2^64 encodes this number.
    ensures varint { (n : ℕ) → n < 2 ^ 64 → IsVarint (varint n) n }
    // Each varint of a number has at least as many bytes as the minimal one.
    ensures shortest { (n : ℕ) (bytes : List ℕ) → IsVarint bytes n → length (varint n) ≤ length bytes }
{}

/// Bytes have at most one outcome: they are one list of records, or have one first fault, and never both.
pub fn outcome_is_unique()
    // Two outcomes of one list of bytes are equal.
    ensures { (bytes : List ℕ) (o p : Result (List WireRecord) WireFault) → IsOutcome bytes o → IsOutcome bytes p → o ≡ p }
{}

/// Any bytes have an outcome: they are a sequence of records, or have a first fault.
pub fn outcome_exists()
    // Each list of bytes has an outcome.
    ensures { (bytes : List ℕ) → (o : Result (List WireRecord) WireFault) × IsOutcome bytes o }
{}

/// A packed payload has at most one outcome: one list of numbers, or one fault, and never both.
pub fn packed_outcome_is_unique()
    // Two outcomes of one payload are equal.
    ensures { (at : ℕ) (payload : List ℕ) (o p : Result (List ℤ) WireFault) → IsPackedOutcome at payload o → IsPackedOutcome at payload p → o ≡ p }
{}

/// Any packed payload has an outcome: a list of numbers or a fault.
pub fn packed_outcome_exists()
    // Each payload has an outcome.
    ensures { (at : ℕ) (payload : List ℕ) → (o : Result (List ℤ) WireFault) × IsPackedOutcome at payload o }
{}

/// The functions that contracts of messages cite agree with the relations: the first record, the records up to the first fault, and the
/// numbers of a payload.
pub fn record_functions_match_relations()
    // `record_in` gives exactly the first record or its fault.
    ensures first { (at : ℕ) (bytes : List ℕ) (o : Result (PayloadRecord × List ℕ) WireFault) → (record_in at bytes ≡ o) ↔ IsFirst at bytes o }
    // `payload_records` gives records without a fault if and only if the bytes are these records.
    ensures records { (at : ℕ) (bytes : List ℕ) (pieces : List PayloadRecord) → (payload_records at bytes ≡ (pieces, None)) ↔ AreRecords at bytes pieces }
    // `payload_records` gives records and a fault if and only if the bytes are these records up to a record with this fault.
    ensures stopped { (at : ℕ) (bytes : List ℕ) (before : List PayloadRecord) (fault : WireFault) → (payload_records at bytes ≡ (before, Some fault)) ↔ IsStopped at bytes before fault }
    // `packed` gives exactly the outcome of the payload.
    ensures numbers { (at : ℕ) (payload : List ℕ) (o : Result (List ℤ) WireFault) → (packed at payload ≡ o) ↔ IsPackedOutcome at payload o }
{}

/// The function that contracts of messages cite for the first fault agrees with the relations, whatever faults are looked for inside the
/// records.
/// It is `None` if and only if the bytes are records without a fault, and a fault if and only if this fault is the first, after records
/// without one.
pub fn fault_of_matches_relations()
    // `fault_of` is `None` if and only if the bytes are records without a fault inside.
    ensures none { (inside : PayloadRecord → Option WireFault) (start : ℕ) (bytes : List ℕ) → (fault_of inside start bytes ≡ None) ↔ ((pieces : List PayloadRecord) × AreRecords start bytes pieces × IsClean inside pieces) }
    // `fault_of` is a fault if and only if it is the first fault of the bytes.
    ensures first { (inside : PayloadRecord → Option WireFault) (start : ℕ) (bytes : List ℕ) (fault : WireFault) → (fault_of inside start bytes ≡ Some fault) ↔ IsFirstFault inside start bytes fault }
{}

/// The bytes that are written for a field are its record and nothing else, whatever follows. The same holds for sequences of fields and for
/// packed numbers.
pub fn what_is_written_is_read()
    // The bytes of a field are its record.
    ensures one { (at : ℕ) (f : Field) → FieldFits f → IsRecord at (spelled f) (piece_at at f) }
    // The first record of the bytes of a field and further bytes is the field's record, followed by these bytes.
    ensures followed { (at : ℕ) (f : Field) (rest : List ℕ) → FieldFits f → record_in at (spelled f ++ rest) ≡ Ok (piece_at at f, rest) }
    // The bytes of a sequence of fields are their records.
    ensures records { (at : ℕ) (fs : List Field) → AllByRecursion FieldFits fs → AreRecords at (spelled_fields fs) (pieces_at at fs) }
    // These records have the contents of the fields.
    ensures carried { (at : ℕ) (fs : List Field) → CarryAll (pieces_at at fs) fs }
    // The bytes of packed numbers decode to these numbers.
    ensures numbers { (zs : List ℤ) → AllByRecursion (FitsSigned w32) zs → ArePacked (packed_payload zs) zs }
{}

/// Records that have the content of a written field decode to this content.
pub fn written_fields_are_decoded()
    // Records of a written number decode to this number.
    ensures number { (k : ℕ) (z : ℤ) (ps : List PayloadRecord) → FitsSigned w32 z → CarryAll ps (number_fields k z) → latest (pos 0) (field_values k number_in ps) ≡ z }
    // Records of a written string decode to this string.
    ensures text { (k : ℕ) (text : List ℕ) (ps : List PayloadRecord) → CarryAll ps (text_fields k text) → latest [] (field_values k bytes_in ps) ≡ text }
    // Records of written packed numbers decode to these numbers.
    ensures numbers { (k : ℕ) (zs : List ℤ) (ps : List PayloadRecord) → AllByRecursion (FitsSigned w32) zs → CarryAll ps (packed_fields k zs) → field_values k numbers_in ps ≡ zs }
    // Records of written payloads decode to these payloads.
    ensures payloads { (k : ℕ) (payloads : List (List ℕ)) (ps : List PayloadRecord) → CarryAll ps (payload_fields k payloads) → field_values k bytes_in ps ≡ payloads }
{}
