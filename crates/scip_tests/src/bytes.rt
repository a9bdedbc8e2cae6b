//! Bytes as records, as packed numbers and as indexes. They are computed by hand, or are examples of the encoding's description.
ghost use Rattle.scip_index.specs.Meaning.{Means};
ghost use Rattle.scip_index.specs.Plain.{IndexModel};

use crate::description::expect;
use index_store::{
    Position, Store, StoreFault, definitions_in_bytes, references_in_bytes, symbol_in_bytes,
};
use proto_wire::{WireFault, WireRecord, WireValue, packed_values, records};
use scip_index::{Index, IndexReader, check, from_bytes, to_bytes};
use std::alloc::{AllocError, Global};
use std::test::Fail;

/// How bytes are decoded, and the expected result.
#[derive(Clone, Copy)]
pub(crate) enum As {
    /// Records: the field number, the value and the offsets of the key and of the payload of each.
    Records,
    /// A packed payload, whose record has offset 5: its numbers.
    Packed,
    /// An index: its written form in hexadecimal digits.
    Index,
    /// An index without its documents: whether it has metadata, and its number of external symbols.
    Rest,
    /// A store: the symbol at the eighth column of the first line of document `a`.
    Store,
    /// Queries without a store: the numbers of definitions and of references of that symbol.
    Checked,
}

/// An index of another producer: a document with an unpacked range and an unknown field 99, and then metadata.
pub(crate) const FOREIGN: &[u8] =
    b"\x12\x19\x0a\x01a\x12\x11\x08\x00\x08\x07\x08\x08\x12\x07local 0\x18\x01\x98\x06\x01\x0a\x02\x20\x01";

/// The index of `MODULE M; END M.`.
pub(crate) const MODULE: &[u8] =
    b"\x0a\x0e\x12\x0a\x0a\x05oscip\x12\x011\x20\x01\x12\x6d\x0a\x05M.Mod\x12\x22\x0a\x03\x00\x07\x08\x12\x14scip-oberon . . . M/\x18\x01\x3a\x03\x00\x00\x10\x12\x1b\x0a\x03\x00\x0e\x0f\x12\x14scip-oberon . . . M/\x1a\x19\x0a\x14scip-oberon . . . M/\x32\x01M\x22\x06Oberon\x30\x01";

/// An index of two documents that have only paths, and of two external symbols.
const TWO: &[u8] =
    b"\x0a\x05\x1a\x01r\x20\x01\x12\x03\x0a\x01a\x12\x03\x0a\x01b\x1a\x06\x0a\x01x\x32\x01X\x1a\x03\x0a\x01y";

pub(crate) const ROWS: &[(As, &[u8], &str)] = &[
    // Each wire type.
    (As::Records, b"\x08\x96\x01", "1 varint 150 at 0, 1; "),
    (
        As::Records,
        b"\x09\x01\x02\x03\x04\x05\x06\x07\x08",
        "1 eight at 0, 1; ",
    ),
    (As::Records, b"\x12\x07testing", "2 bytes 7 at 0, 2; "),
    (As::Records, b"\x0d\x01\x02\x03\x04", "1 four at 0, 1; "),
    (
        As::Records,
        b"\xf8\xff\xff\xff\x0f\x00",
        "536870911 varint 0 at 0, 5; ",
    ),
    // Varints needn't be minimal.
    (As::Records, b"\x08\x85\x00", "1 varint 5 at 0, 1; "),
    (
        As::Records,
        b"\x88\x80\x80\x80\x80\x80\x80\x80\x80\x02\x05",
        "1 varint 5 at 0, 10; ",
    ),
    (
        As::Records,
        b"\x08\xff\xff\xff\xff\xff\xff\xff\xff\xff\x01",
        "1 varint 18446744073709551615 at 0, 1; ",
    ),
    (
        As::Records,
        b"\x08\xff\xff\xff\xff\xff\xff\xff\xff\xff\x7f",
        "1 varint 18446744073709551615 at 0, 1; ",
    ),
    (
        As::Records,
        b"\x08\x81\x80\x80\x80\x80\x80\x80\x80\x80\x02",
        "1 varint 1 at 0, 1; ",
    ),
    // Numbers of three to six bytes, truncated ones, and numbers of eleven bytes.
    (
        As::Records,
        b"\x08\x81\x82\x03\x08\x81\x82\x83\x04\x08\x81\x82\x83\x84\x05\x08\x81\x82\x83\x84\x85\x06",
        "1 varint 49409 at 0, 1; 1 varint 8438017 at 4, 5; 1 varint 1350615297 at 9, 10; 1 varint 207509045505 at 15, 16; ",
    ),
    (
        As::Records,
        b"\x88\x80\x80\x00\x81\x82\x83\x84\x85\x86\x87\x88\x09",
        "1 varint 653052939803345153 at 0, 4; ",
    ),
    (As::Records, b"\x08\x81\x82", "the record at 0 is cut off"),
    (
        As::Records,
        b"\x08\x81\x82\x83\x84",
        "the record at 0 is cut off",
    ),
    (
        As::Records,
        b"\x08\x81\x82\x83\x84\x85",
        "the record at 0 is cut off",
    ),
    (
        As::Records,
        b"\x08\x81\x82\x83\x84\x85\x86\x87\x88\x89",
        "the record at 0 is cut off",
    ),
    (
        As::Records,
        b"\x08\x81\x82\x83\x84\x85\x86\x87\x88\x89\x80\x00",
        "the record at 0 has a varint of more than ten bytes",
    ),
    // An index, its document, and the content of that document's range.
    (
        As::Records,
        FOREIGN,
        "2 bytes 25 at 0, 2; 1 bytes 2 at 27, 29; ",
    ),
    (
        As::Records,
        b"\x0a\x01a\x12\x11\x08\x00\x08\x07\x08\x08\x12\x07local 0\x18\x01\x98\x06\x01",
        "1 bytes 1 at 0, 2; 2 bytes 17 at 3, 5; 99 varint 1 at 22, 24; ",
    ),
    (
        As::Records,
        b"\x08\x00\x08\x07\x08\x08\x12\x07local 0\x18\x01",
        "1 varint 0 at 0, 1; 1 varint 7 at 2, 3; 1 varint 8 at 4, 5; 2 bytes 7 at 6, 8; 3 varint 1 at 15, 16; ",
    ),
    // A document whose path isn't UTF-8 is still a record.
    (As::Records, b"\x12\x03\x0a\x01\xff", "2 bytes 3 at 0, 2; "),
    // The first wrong record is reported.
    (As::Records, b"\x00", "the record at 0 has no field number"),
    (As::Records, b"\x03", "the record at 0 has no field number"),
    (As::Records, b"\x0b", "the record at 0 is a group"),
    (As::Records, b"\x0e", "the record at 0 is a group"),
    (As::Records, b"\x0f", "the record at 0 is a group"),
    (
        As::Records,
        b"\x08\xff\xff\xff\xff\xff\xff\xff\xff\xff\xff",
        "the record at 0 has a varint of more than ten bytes",
    ),
    (
        As::Records,
        b"\x80\x80\x80\x80\x10\x00",
        "the record at 0 has no field number",
    ),
    (
        As::Records,
        b"\x12\xff\xff\xff\xff\xff\xff\xff\xff\xff\x01",
        "the record at 0 is cut off",
    ),
    (As::Records, b"\x08", "the record at 0 is cut off"),
    (
        As::Records,
        b"\x09\x01\x02\x03\x04\x05\x06\x07",
        "the record at 0 is cut off",
    ),
    (
        As::Records,
        b"\x08\x01\x00\x0b",
        "the record at 2 has no field number",
    ),
    (
        As::Records,
        b"\x12\x01a\x0b\x00",
        "the record at 3 is a group",
    ),
    // Packed numbers.
    (As::Packed, b"", "[]"),
    (As::Packed, b"\x00\x07", "[0, 7]"),
    (As::Packed, b"\x03\x8e\x02\x9e\xa7\x05", "[3, 270, 86942]"),
    (
        As::Packed,
        b"\xfe\xff\xff\xff\xff\xff\xff\xff\xff\x01",
        "[-2]",
    ),
    (As::Packed, b"\xff\xff\xff\xff\x0f\x01", "[-1, 1]"),
    (As::Packed, b"\x80\x80\x80\x80\x10", "[0]"),
    (
        As::Packed,
        b"\xff\xff\xff\xff\x07\x80\x80\x80\x80\xf8\xff\xff\xff\xff\x01\x80\x80\x80\x80\x08",
        "[2147483647, -2147483648, -2147483648]",
    ),
    (As::Packed, b"\x80", "the record at 5 is cut off"),
    (As::Packed, b"\x00\x07\xff", "the record at 5 is cut off"),
    (
        As::Packed,
        b"\x01\xff\xff\xff\xff\xff\xff\xff\xff\xff\xff",
        "the record at 5 has a varint of more than ten bytes",
    ),
    // An index has one written form, whichever form it was decoded from.
    (As::Index, b"", ""),
    (
        As::Index,
        b"\x0a\x0e\x12\x0a\x0a\x05oscip\x12\x011\x20\x01",
        "0a0e120a0a056f736369701201312001",
    ),
    (
        As::Index,
        MODULE,
        "0a0e120a0a056f736369701201312001\
        126d0a054d2e4d6f64\
        12220a030007081214736369702d6f6265726f6e202e202e202e204d2f18013a03000010\
        121b0a03000e0f1214736369702d6f6265726f6e202e202e202e204d2f\
        1a190a14736369702d6f6265726f6e202e202e202e204d2f32014d\
        22064f6265726f6e3001",
    ),
    (
        As::Index,
        TWO,
        "0a051a0172200112030a016112030a01621a060a01783201581a030a0179",
    ),
    (
        As::Index,
        FOREIGN,
        "0a02200112150a016112100a0300070812076c6f63616c20301801",
    ),
    // An empty argument, an empty tool and an empty document are written; other zeros and empty strings are left out.
    (
        As::Index,
        b"\x0a\x10\x12\x0c\x0a\x05oscip\x12\x011\x1a\x00\x20\x01",
        "0a10120c0a056f736369701201311a002001",
    ),
    (
        As::Index,
        b"\x12\x02\x30\x00\x0a\x06\x08\x00\x12\x00\x1a\x00",
        "0a0212001200",
    ),
    // A negative number takes ten bytes.
    (
        As::Index,
        b"\x0a\x06\x20\xff\xff\xff\xff\x0f",
        "0a0b20ffffffffffffffffff01",
    ),
    // The minimum of an int32 too, and its maximum takes five.
    (
        As::Index,
        b"\x12\x13\x12\x11\x0a\x0f\xff\xff\xff\xff\x07\x80\x80\x80\x80\xf8\xff\xff\xff\xff\x01",
        "121312110a0fffffffff0780808080f8ffffffff01",
    ),
    // A range that is packed and unpacked, negative numbers, and repeated strings and numbers, of which the last counts.
    (
        As::Index,
        b"\x12\x1c\x12\x1a\x08\x01\x0a\x01\x02\x08\xff\xff\xff\xff\xff\xff\xff\xff\xff\x01\x12\x01a\x12\x01b\x18\x04\x18\x08",
        "121512130a0c0102ffffffffffffffffff011201621808",
    ),
    // Metadata and the tool are merged, and arguments are appended.
    (
        As::Index,
        b"\x0a\x06\x12\x04\x0a\x02ab\x0a\x06\x12\x04\x12\x02cd\x0a\x07\x12\x05\x1a\x00\x1a\x01x\x1a\x05\x0a\x01s\x32\x00",
        "0a0f120d0a02616212026364\
        1a001a01781a030a0173",
    ),
    (
        As::Index,
        b"\x12\x03\x0a\x01\xff\x12\x05",
        "the text of the record at 2 is no UTF-8",
    ),
    // The data besides the documents.
    (As::Rest, b"", "none, 0"),
    (As::Rest, TWO, "some, 2"),
    (
        As::Rest,
        b"\x12\x05\x12\x03\x0a\x01\x80",
        "the record at 4 is cut off",
    ),
    (As::Store, FOREIGN, "local 0"),
    // The range 0, -2147483648, 2147483647.
    (
        As::Store,
        b"\x12\x1a\x0a\x01a\x12\x15\x0a\x10\x00\x80\x80\x80\x80\xf8\xff\xff\xff\xff\x01\xff\xff\xff\xff\x07\x12\x01s",
        "no symbol",
    ),
    (As::Checked, FOREIGN, "1 defined, 0 used"),
    // Two documents of one path with two occurrences, neither a definition, and an occurrence in a document of another path.
    (
        As::Checked,
        b"\x12\x0f\x0a\x01a\x12\x0a\x0a\x03\x00\x07\x08\x12\x01s\x18\x00\x12\x0d\x12\x08\x0a\x03\x01\x00\x02\x12\x01s\x0a\x01a\x12\x0f\x12\x0a\x0a\x03\x02\x00\x02\x12\x01s\x18\x03\x0a\x01b",
        "1 defined, 2 used",
    ),
    (As::Checked, b"\x12\x03\x0a\x01a", "no symbol"),
    (As::Checked, TWO, "no symbol"),
    (As::Checked, b"", "no document"),
    (
        As::Checked,
        b"\x12\x05\x12\x03\x0a\x01\x80",
        "the record at 4 is cut off",
    ),
];

pub(crate) fn describe_fault(alloc: Global, fault: WireFault) -> Result<String, AllocError> {
    match fault {
        WireFault::Memory => Err(AllocError),
        _ => format!(in alloc; "{fault}"),
    }
}

fn describe_value(alloc: Global, value: WireValue) -> Result<String, AllocError> {
    match value {
        WireValue::Varint(number) => format!(in alloc; "varint {number}"),
        WireValue::Eight => String::from_str(alloc, "eight"),
        WireValue::Bytes(count) => format!(in alloc; "bytes {count}"),
        WireValue::Four => String::from_str(alloc, "four"),
    }
}

fn describe_records(alloc: Global, found: &[WireRecord]) -> Result<String, AllocError> {
    let mut text = String::new(alloc);
    for record in found {
        let value = describe_value(alloc, record.value)?;
        write!(
            text,
            "{} {value} at {}, {}; ",
            record.field, record.at, record.body
        )?;
    }
    Ok(text)
}

fn describe_packed(alloc: Global, payload: &[u8]) -> Result<String, AllocError> {
    match packed_values(alloc, payload, 5) {
        Ok(numbers) => format!(in alloc; "{:?}", numbers.as_slice()),
        Err(fault) => describe_fault(alloc, fault),
    }
}

fn describe_written(alloc: Global, index: &Index) -> Result<String, AllocError> {
    match to_bytes(alloc, index) {
        Ok(bytes) => hex::encode(alloc, bytes.as_slice()),
        Err(_) => Err(AllocError),
    }
}

pub(crate) fn describe_rest(alloc: Global, reader: IndexReader) -> Result<String, AllocError> {
    match &reader.rest() {
        Ok((metadata, externals)) => {
            let word = if metadata.is_some() { "some" } else { "none" };
            format!(in alloc; "{word}, {}", externals.len())
        }
        Err(fault) => describe_fault(alloc, *fault),
    }
}

fn describe_symbol(alloc: Global, store: &Store) -> Result<String, AllocError> {
    match store.symbol_at("a", Position { line: 0, column: 7 }) {
        Ok(symbol) => String::from_str(alloc, symbol.unwrap_or("no symbol")),
        Err(_) => Err(AllocError),
    }
}

fn describe_store(alloc: Global, index: Index) -> Result<String, AllocError> {
    match Store::new(alloc, index) {
        Ok(store) => describe_symbol(alloc, &store),
        Err(_) => Err(AllocError),
    }
}

fn describe_occurrences(alloc: Global, bytes: &[u8], symbol: &[u8]) -> Result<String, AllocError>
    requires { (index : IndexModel) × Means bytes.now index }
{
    let defined = definitions_in_bytes(alloc, bytes, "a", symbol)?;
    let used = references_in_bytes(alloc, bytes, "a", symbol)?;
    format!(in alloc; "{} defined, {} used", defined.len(), used.len())
}

fn describe_checked(alloc: Global, bytes: &[u8]) -> Result<String, AllocError>
    requires { (index : IndexModel) × Means bytes.now index }
{
    match symbol_in_bytes(alloc, bytes, "a", Position { line: 0, column: 7 }) {
        Ok(Some(symbol)) => describe_occurrences(alloc, bytes, symbol),
        Ok(None) => String::from_str(alloc, "no symbol"),
        Err(StoreFault::NoDocument) => String::from_str(alloc, "no document"),
        Err(StoreFault::Memory) => Err(AllocError),
    }
}

fn description(alloc: Global, way: As, bytes: &[u8]) -> Result<String, AllocError> {
    match way {
        As::Records => match records(alloc, bytes) {
            Ok(found) => describe_records(alloc, found.as_slice()),
            Err(fault) => describe_fault(alloc, fault),
        },
        As::Packed => describe_packed(alloc, bytes),
        As::Rest => describe_rest(alloc, IndexReader::new(alloc, bytes)),
        As::Index => match from_bytes(alloc, bytes) {
            Ok(index) => describe_written(alloc, &index),
            Err(fault) => describe_fault(alloc, fault),
        },
        As::Store => match from_bytes(alloc, bytes) {
            Ok(index) => describe_store(alloc, index),
            Err(fault) => describe_fault(alloc, fault),
        },
        As::Checked => match check(alloc, bytes) {
            Ok(()) => describe_checked(alloc, bytes),
            Err(fault) => describe_fault(alloc, fault),
        },
    }
}

#[test]
fn bytes_are_read_and_written_back(rt: HostRuntime) -> Result<(), Fail> {
    for (way, bytes, want) in ROWS {
        let description = description(rt.alloc(), *way, bytes)?;
        expect(&rt, description.as_str(), want);
    }
    Ok(())
}
