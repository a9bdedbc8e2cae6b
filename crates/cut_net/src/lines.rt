//! Parsing of the lines of a network's text.
ghost use Rattle.std.specs.Prelude.{◌≡◌, ◌==◌, ◌++◌, ◌∷◌, true, not, None, IfSome, option_map};
ghost use Rattle.std.specs.List.{list_all};
ghost use Rattle.cut_net.specs.NetText.{net_line, IsNetLine};
ghost use Rattle.cut_net.specs.NetReading.{after_word, import_of, line_of_piece, line_content, module_of};

use texts::fields::{parse_field_name, parse_field_number, split_at_byte};
use texts::prefixes::{parse_name, parse_names_and_number, strip_byte};

/// The content of a line.
#[derive(Drop)]
pub(crate) enum Line<'a> {
    /// A module of this name.
    Module(&'a str),
    /// The first module imports the second, with this weight.
    Import(&'a str, &'a str, u64),
}

/// The bytes after the keyword `word` and one space; none if the line doesn't begin with them.
pub(crate) fn fields_after_keyword<'a>(word: &[u8], piece: &'a [u8]) -> Option<&'a [u8]>
    requires { list_all (λ b. not (b == 32)) word.now ≡ true }
    ensures { option_map (λ fields. fields.now) result ≡ after_word word.now piece.now }
{
    let rest = piece.strip_prefix(word)?;
    let (blank, fields) = rest.split_first()?;
    if *blank == b' ' { Some(fields) } else { None }
}

/// The `module` line with these fields: one name.
fn parse_module(fields: &[u8]) -> Option<Line<'_>>
    ensures { option_map line_content result ≡ module_of fields.now }
{
    Some(Line::Module(parse_field_name(fields)?))
}

/// The `import` line with these fields: two names and a weight.
#[tactic(auto, unfolding(crate::specs::NetReading::import_of))]
fn parse_import(fields: &[u8]) -> Option<Line<'_>>
    ensures { option_map line_content result ≡ import_of fields.now }
{
    let (importer, rest) = split_at_byte(fields, b' ')?;
    let (imported, weight) = split_at_byte(rest, b' ')?;
    let importer = parse_field_name(importer)?;
    let imported = parse_field_name(imported)?;
    Some(Line::Import(importer, imported, parse_field_number(weight)?))
}

/// Parses the bytes of a line, without its line end; none if they are no valid line.
#[tactic(auto, unfolding(crate::specs::NetReading::line_of_piece))]
pub(crate) fn parse_line(piece: &[u8]) -> Option<Line<'_>>
    ensures { option_map line_content result ≡ line_of_piece piece.now }
{
    if let Some(fields) = fields_after_keyword(b"module", piece) {
        return parse_module(fields);
    }
    parse_import(fields_after_keyword(b"import", piece)?)
}

/// The first line of the text, and the bytes after its line end. Parses in one pass, without searching for the line end first. None if
/// the line is empty, invalid or without a line end.
pub(crate) fn parse_first_line(text: &[u8]) -> Option<(Line<'_>, &[u8])>
    ensures good { IfSome result (λ x. IsNetLine (line_content x.0)) }
    ensures text { IfSome result (λ x. text.now ≡ net_line (line_content x.0) ++ 10 ∷ x.1.now) }
{
    if let Some(fields) = text.strip_prefix(b"import ") {
        let ((importer, imported, weight), rest) = parse_names_and_number(fields)?;
        return Some((Line::Import(importer, imported, weight), rest));
    }
    let (name, rest) = parse_name(text.strip_prefix(b"module ")?)?;
    let rest = strip_byte(rest, b'\n')?;
    Some((Line::Module(name), rest))
}

/// As `parse_first_line`, but reads at most the first `most` bytes: also None if the line with its LF is longer.
pub(crate) fn parse_first_line_within(text: &[u8], most: usize) -> Option<(Line<'_>, &[u8])>
    ensures good { IfSome result (λ x. IsNetLine (line_content x.0)) }
    ensures text { IfSome result (λ x. text.now ≡ net_line (line_content x.0) ++ 10 ∷ x.1.now) }
{
    let (near, _) = text.split_at(most.min(text.len()));
    let (line, after) = parse_first_line(near)?;
    let (_, rest) = text.split_at(near.len() - after.len());
    Some((line, rest))
}
