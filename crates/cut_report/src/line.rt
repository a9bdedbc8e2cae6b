//! The lines of a report.
ghost use Rattle.std.specs.Prelude.{◌≡◌, ◌++◌, ◌∷◌, IfNone, IfSome, None, option_map};
ghost use Rattle.std.specs.List.{list_all};
ghost use Rattle.texts.specs.Fields.{split_at_first, is_name};
ghost use Rattle.cut_report.specs.ReportLine.{report_line};
ghost use Rattle.cut_report.specs.ReportLines.{IsWellFormed};
ghost use Rattle.cut_report.specs.Lines.{amount_of, blocks_of, ends_of, line_of_text, line_content, line_under, words_of, IsFirstLine};

use std::fmt;
use texts::fields::{is_identifier, parse_field_name, parse_field_number, split_at_byte};
use texts::prefixes::parse_names_and_number;

/// The content of a line of a report.
#[derive(Clone, Copy, Drop)]
pub(crate) enum Line<'a> {
    /// A `cut` line: the names of the two modules.
    Ends(&'a str, &'a str),
    /// A `weight` line: the weight of the cut.
    Weighs(u64),
    /// A `remove` line: the importer and the imported module of an import to remove, and its weight.
    Removes(&'a str, &'a str, u64),
    /// A `flow` line: the importer and the imported module of an import, and the flow on it, which is above 0.
    Flows(&'a str, &'a str, u64),
    /// A `blocked` line: the module names of a path of pinned imports, separated by spaces.
    Blocks(&'a str),
    /// The line `end`, the last line of a report.
    Last,
}

/// Writes the bytes of the line, without its LF.
impl fmt::Display for Line<'_> {
    ghost use Rattle.std.specs.Prelude.{Some};
    ghost use Rattle.cut_report.specs.ReportLine.{report_line};
    ghost use Rattle.cut_report.specs.Lines.{line_content};

    ghost output = { λ line. Some (report_line (line_content line)) };

    fn fmt<W: fmt::Write>(&self, f: &mut fmt::Formatter<W>) -> fmt::Result {
        match self {
            Line::Ends(from, to) => write!(f, "cut {from} {to}"),
            Line::Weighs(weight) => write!(f, "weight {weight}"),
            Line::Removes(from, to, weight) => write!(f, "remove {from} {to} {weight}"),
            Line::Flows(from, to, flow) => write!(f, "flow {from} {to} {flow}"),
            Line::Blocks(names) => write!(f, "blocked {names}"),
            Line::Last => write!(f, "end"),
        }
    }
}

/// Parses two names, separated by a space; `None` if the bytes have any other form.
#[tactic(auto, unfolding(crate::specs::Lines::ends_of))]
fn parse_ends(fields: &[u8]) -> Option<(&str, &str)>
    ensures { option_map (λ x. (x.0.now, x.1.now)) result ≡ ends_of fields.now }
{
    let (from, to) = split_at_byte(fields, b' ')?;
    let from = parse_field_name(from)?;
    let to = parse_field_name(to)?;
    Some((from, to))
}

/// Parses two names and a number, separated by spaces; `None` if the bytes have any other form.
#[tactic(auto, unfolding(crate::specs::Lines::amount_of))]
fn parse_amount_fields(fields: &[u8]) -> Option<(&str, &str, u64)>
    ensures { option_map (λ x. (x.0.now, x.1.now, x.2)) result ≡ amount_of fields.now }
{
    let (from, rest) = split_at_byte(fields, b' ')?;
    let (to, amount) = split_at_byte(rest, b' ')?;
    let from = parse_field_name(from)?;
    let to = parse_field_name(to)?;
    let amount = parse_field_number(amount)?;
    Some((from, to, amount))
}

/// Whether each of the words in the string, which are separated by single spaces, is an identifier.
fn are_names(text: &str) -> bool
    ensures { result ≡ list_all is_name (words_of text.now) }
{
    text.split(' ').all(|word| is_identifier(word.as_bytes()))
}

/// The `blocked` line with these fields: one or more names, separated by spaces; `None` if the fields have any other form.
#[tactic(auto, unfolding(crate::specs::Lines::blocks_of))]
fn parse_chain(fields: &[u8]) -> Option<Line<'_>>
    ensures { option_map line_content result ≡ blocks_of fields.now }
{
    match std::str::from_utf8(fields) {
        Err(_) => None,
        Ok(names) => are_names(names).then_some(Line::Blocks(names)),
    }
}

/// The line with the keyword `word` and these fields; `None` if that isn't a valid line.
#[tactic(auto, unfolding(crate::specs::Lines::line_under))]
fn line_of_keyword<'a>(word: &[u8], fields: &'a [u8]) -> Option<Line<'a>>
    ensures { option_map line_content result ≡ line_under word.now fields.now }
{
    if word == b"cut".as_slice() {
        let (from, to) = parse_ends(fields)?;
        return Some(Line::Ends(from, to));
    }
    if word == b"weight".as_slice() {
        let weight = parse_field_number(fields)?;
        return Some(Line::Weighs(weight));
    }
    if word == b"blocked".as_slice() {
        return parse_chain(fields);
    }
    let (from, to, amount) = parse_amount_fields(fields)?;
    if word == b"remove".as_slice() {
        return Some(Line::Removes(from, to, amount));
    }
    if word == b"flow".as_slice() && 0 < amount {
        return Some(Line::Flows(from, to, amount));
    }
    None
}

/// Parses the bytes of a line without its LF; `None` if they aren't a valid line.
#[tactic(auto, unfolding(crate::specs::Lines::line_of_text))]
pub(crate) fn parse_line(text: &[u8]) -> Option<Line<'_>>
    ensures { option_map line_content result ≡ line_of_text text.now }
{
    if text == b"end".as_slice() {
        return Some(Line::Last);
    }
    let (word, fields) = split_at_byte(text, b' ')?;
    line_of_keyword(word, fields)
}

/// The `flow` line with which the bytes begin, and the bytes after its LF. `None` if the bytes don't begin with a valid `flow` line and LF.
/// Saves time, since it doesn't search for the LF first, and most lines of a report are `flow` lines.
fn parse_flow_line(text: &[u8]) -> Option<(Line<'_>, &[u8])>
    ensures form { IfSome result (λ x. IsWellFormed (line_content x.0)) }
    ensures text { IfSome result (λ x. text.now ≡ report_line (line_content x.0) ++ 10 ∷ x.1.now) }
{
    let fields = text.strip_prefix(b"flow ")?;
    let ((from, to, flow), rest) = parse_names_and_number(fields)?;
    if flow == 0 {
        return None;
    }
    Some((Line::Flows(from, to, flow), rest))
}

/// The first line of the bytes, parsed, and the bytes after its LF. The parsed line is `None` if the line isn't valid. The whole result is
/// `None` if the bytes have no LF.
pub(crate) fn cut_first_line(text: &[u8]) -> Option<(Option<Line<'_>>, &[u8])>
    ensures line { IfSome result (λ x. IsFirstLine text.now (option_map line_content x.0) x.1.now) }
    ensures none { IfNone result (split_at_first 10 text.now ≡ None) }
{
    if let Some((line, rest)) = parse_flow_line(text) {
        return Some((Some(line), rest));
    }
    let (text, rest) = split_at_byte(text, b'\n')?;
    Some((parse_line(text), rest))
}
