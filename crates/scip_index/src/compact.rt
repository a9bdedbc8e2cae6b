//! Appends compact occurrences: those on one line that declare nothing, as most do. The bytes are those that `BorrowedOccurrence` has, but
//! no buffer is needed.
ghost use Rattle.std.specs.Prelude.{◌≡◌, ◌++◌, ◌<◌, ◌==◌, ◌+◌, ◌∷◌, [], OnOk, length, pos, if◌then◌else◌};
ghost use Rattle.std.specs.Bool.{OnTrue};
ghost use Rattle.proto_wire.specs.Writing.{number_fields, payload_field, spelled, spelled_fields};
ghost use Rattle.scip_index.specs.Written.{written_occurrence};
ghost use Rattle.scip_index.specs.Ranges.{prefix_of, compact_occurrence, IsCompact};

use crate::range::TokenSpan;
use std::alloc::AllocError;

/// Whether an occurrence is compact: it is on one line, declares nothing, and its line, columns, symbol string and role take few bytes.
/// The length of a compact occurrence's record is known before the record is written.
pub fn is_compact(span: &TokenSpan, symbol: &str, role: u8) -> bool
    ensures { OnTrue result (IsCompact span.now (length symbol.now) role) }
{
    if span.last != span.line {
        return false;
    }
    if span.line >= 2_097_152 {
        return false;
    }
    if span.column >= 128 {
        return false;
    }
    if span.end >= 128 {
        return false;
    }
    if symbol.is_empty() {
        return false;
    }
    if symbol.len() >= 100 {
        return false;
    }
    if role >= 128 {
        return false;
    }
    role != 1
}

/// Appends the bytes of a compact occurrence's record up to its symbol string, which has `size` bytes. After the field of the range the
/// record has `rest` bytes.
#[tactic(auto, using(crate::proofs::CompactOccurrences::front_low, crate::proofs::CompactOccurrences::front_high))]
fn append_record_prefix(
    out: &mut Vec<u8>,
    line: u32,
    column: u32,
    end: u32,
    size: u8,
    rest: u8,
) -> Result<(), AllocError>
    requires line { line < 2097152 }
    requires column { column < 128 }
    requires end { end < 128 }
    requires rest { rest < 120 }
    ensures { OnOk result (out.new.items ≡ out.old.items ++ (prefix_of line column end rest ++ 18 ∷ size ∷ [])) }
{
    let (column, end) = (column as u8, end as u8);
    if line < 128 {
        out.extend_from_slice(&[18, rest + 5, 10, 3, line as u8, column, end, 18, size])
    } else if line < 16_384 {
        let (low, high) = ((line % 128) as u8 + 128, (line / 128) as u8);
        out.extend_from_slice(&[18, rest + 6, 10, 4, low, high, column, end, 18, size])
    } else {
        let (low, middle) = ((line % 128) as u8 + 128, (line / 128 % 128) as u8 + 128);
        let high = (line / 128 / 128) as u8;
        out.extend_from_slice(&[
            18,
            rest + 7,
            10,
            5,
            low,
            middle,
            high,
            column,
            end,
            18,
            size,
        ])
    }
}

/// The number of bytes of a role's field: 0 for the role 0, which isn't written.
fn role_size(role: u8) -> u8
    ensures { result ≡ (if role == 0 then 0 else 2) }
{
    if role == 0 { 0 } else { 2 }
}

/// Appends the field of a role, unless the role is 0.
fn append_role_field(out: &mut Vec<u8>, role: u8) -> Result<(), AllocError>
    requires { role < 128 }
    ensures { OnOk result (out.new.items ≡ out.old.items ++ spelled_fields (number_fields 3 (pos role))) }
{
    if role == 0 {
        return Ok(());
    }
    out.extend_from_slice(&[24, role])
}

/// Appends the record of a compact occurrence.
pub fn append_compact_occurrence(
    out: &mut Vec<u8>,
    span: &TokenSpan,
    symbol: &str,
    role: u8,
) -> Result<(), AllocError>
    requires { IsCompact span.now (length symbol.now) role }
    ensures { OnOk result (out.new.items ≡ out.old.items ++ spelled (payload_field 2 (written_occurrence (compact_occurrence span.now.line span.now.column span.now.end symbol.now role)))) }
{
    let size = symbol.len() as u8;
    let rest = size + 2 + role_size(role);
    append_record_prefix(out, span.line, span.column, span.end, size, rest)?;
    out.extend_from_slice(symbol.as_bytes())?;
    append_role_field(out, role)
}
