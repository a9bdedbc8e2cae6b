//! Occurrences and symbol information, written as bytes from borrowed data.
ghost use Rattle.std.specs.Prelude.{◌≡◌, ◌<◌, ◌++◌, OnOk};
ghost use Rattle.proto_wire.specs.Writing.{packed_fields, spelled_fields};
ghost use Rattle.scip_index.specs.Written.{written_occurrence, written_symbol};
ghost use Rattle.scip_index.specs.Ranges.{numbers_of, borrowed_occurrence, borrowed_symbol};

use crate::in_place::{append_bytes_field, append_numbers_field};
use crate::range::Range;
use proto_wire::{Scratch, Written, append_number};
use std::alloc::AllocError;

/// An occurrence (scip.proto, `Occurrence`).
#[derive(Clone, Copy)]
pub struct BorrowedOccurrence<'a> {
    pub range: Range,
    pub symbol: &'a str,
    pub symbol_roles: i32,
    pub enclosing_range: Range,
}

/// A symbol string with its display name (scip.proto, `SymbolInformation`).
#[derive(Clone, Copy)]
pub struct BorrowedSymbol<'a> {
    pub symbol: &'a str,
    pub display_name: &'a [u8],
}

/// Appends the numbers of a range as a packed field with the field number `field`, unless it is `Range::Nowhere`.
fn append_range_field(
    scratch: &mut Scratch,
    out: &mut Vec<u8>,
    field: u32,
    range: &Range,
) -> Result<(), AllocError>
    requires some { 0 < field }
    requires few { field < 16 }
    ensures { OnOk result (out.new.items ≡ out.old.items ++ spelled_fields (packed_fields field (numbers_of range.now))) }
{
    match range {
        Range::Nowhere => Ok(()),
        Range::SingleLine(numbers) => append_numbers_field(scratch, out, field, numbers),
        Range::MultiLine(numbers) => append_numbers_field(scratch, out, field, numbers),
    }
}

impl Written for BorrowedOccurrence<'_> {
    ghost written = { λ p. written_occurrence (borrowed_occurrence p) };

    ghost fits = { λ _. Unit {0} };

    #[tactic(auto, unfolding(crate::specs::Written::written_occurrence))]
    fn encode_into(&self, scratch: &mut Scratch, out: &mut Vec<u8>) -> Result<(), AllocError> {
        append_range_field(scratch, out, 1, &self.range)?;
        append_bytes_field(out, 2, self.symbol.as_bytes())?;
        append_number(out, 3, self.symbol_roles)?;
        append_range_field(scratch, out, 7, &self.enclosing_range)
    }
}

impl Written for BorrowedSymbol<'_> {
    ghost written = { λ s. written_symbol (borrowed_symbol s) };

    ghost fits = { λ _. Unit {0} };

    #[tactic(auto, unfolding(crate::specs::Written::written_symbol))]
    fn encode_into(&self, _scratch: &mut Scratch, out: &mut Vec<u8>) -> Result<(), AllocError> {
        append_bytes_field(out, 1, self.symbol.as_bytes())?;
        append_bytes_field(out, 6, self.display_name)
    }
}
