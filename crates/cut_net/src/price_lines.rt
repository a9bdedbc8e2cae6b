//! Parsing of the lines of a prices file.
ghost use Rattle.std.specs.Prelude.{◌≡◌, option_map};
ghost use Rattle.cut_net.specs.PriceReading.{line_content, pin_of_fields, price_line_of, price_of_fields};

use crate::lines::fields_after_keyword;
use crate::pin_state::Change;
use texts::fields::{parse_field_name, parse_field_number, split_at_byte};

/// A line of a prices file: the names of the importer and of the imported module, and the change of the import.
#[derive(Clone, Copy)]
pub(crate) struct PriceLine<'a> {
    pub(crate) importer: &'a str,
    pub(crate) imported: &'a str,
    pub(crate) change: Change,
}

/// The `pin` line with these fields: two names.
#[tactic(auto, unfolding(crate::specs::PriceReading::pin_of_fields))]
fn parse_pin(fields: &[u8]) -> Option<PriceLine<'_>>
    ensures { option_map line_content result ≡ pin_of_fields fields.now }
{
    let (importer, imported) = split_at_byte(fields, b' ')?;
    let importer = parse_field_name(importer)?;
    let imported = parse_field_name(imported)?;
    Some(PriceLine {
        importer,
        imported,
        change: Change::Pin,
    })
}

/// The `price` line with these fields: two names and a weight.
#[tactic(auto, unfolding(crate::specs::PriceReading::price_of_fields))]
fn parse_price(fields: &[u8]) -> Option<PriceLine<'_>>
    ensures { option_map line_content result ≡ price_of_fields fields.now }
{
    let (importer, rest) = split_at_byte(fields, b' ')?;
    let (imported, weight) = split_at_byte(rest, b' ')?;
    let importer = parse_field_name(importer)?;
    let imported = parse_field_name(imported)?;
    let weight = parse_field_number(weight)?;
    Some(PriceLine {
        importer,
        imported,
        change: Change::Price(weight),
    })
}

/// Parses the bytes of a line, without its line end; none if they are no valid line.
#[tactic(auto, unfolding(crate::specs::PriceReading::price_line_of))]
pub(crate) fn parse_price_line(piece: &[u8]) -> Option<PriceLine<'_>>
    ensures { option_map line_content result ≡ price_line_of piece.now }
{
    if let Some(fields) = fields_after_keyword(b"pin", piece) {
        return parse_pin(fields);
    }
    parse_price(fields_after_keyword(b"price", piece)?)
}
