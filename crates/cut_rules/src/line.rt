//! The lines of a rules text.
ghost use Rattle.std.specs.Prelude.{◌≡◌, ℕ, List, Some, option_map};
ghost use Rattle.std.specs.List.{position};
ghost use Rattle.cut_rules.specs.LineReading.{is_comment, is_empty_or_comment, kind_of, last_name_of, line_after, line_content, line_of_fields, rule_line_of, rule_of, set_of, text_of};
ghost use Rattle.cut_rules.specs.RuleLines.{is_blank};

use crate::rule::RuleKind;
use texts::fields::{parse_field_name, split_at_byte};

/// Which modules a line adds to a set.
#[derive(Clone, Copy)]
pub(crate) enum Selector<'a> {
    /// The module of this name.
    Module(&'a str),
    /// Each module whose file is below this folder.
    Folder(&'a str),
    /// Each module whose name matches this pattern.
    Named(&'a str),
    /// Each module that has a file.
    Tree,
}

/// What a line states.
#[derive(Clone, Copy)]
pub(crate) enum Line<'a> {
    /// The line adds the selected modules to the set of this name.
    Adds(&'a str, Selector<'a>),
    /// The line is a rule of this kind between two names.
    Restricts(RuleKind, &'a str, &'a str),
    /// The line allows the import of the second module by the first, which then counts for no rule.
    Allow(&'a str, &'a str),
}

/// Whether the byte is a space or a tab.
fn is_blank(byte: u8) -> bool
    ensures { result ≡ is_blank byte }
{
    byte == b' ' || byte == b'\t'
}

/// Whether the bytes are a comment: blanks, if any, and then a `#`.
fn is_comment(bytes: &[u8]) -> bool
    ensures { result ≡ is_comment bytes.now }
{
    for byte in bytes {
        if !is_blank(*byte) {
            return *byte == b'#';
        }
    }
    false
}

/// The index of the first space or tab, or `None` if the bytes have neither.
fn blank_index(bytes: &[u8]) -> Option<usize>
    ensures { result ≡ position is_blank bytes.now }
{
    bytes
        .iter()
        .position(|byte| *byte == b' ' || *byte == b'\t')
}

/// Whether the bytes of a line state nothing: they are empty or a comment.
pub(crate) fn is_empty_or_comment(piece: &[u8]) -> bool
    ensures { result ≡ is_empty_or_comment piece.now }
{
    piece.is_empty() || is_comment(piece)
}

/// The name that the bytes begin with, if nothing follows it, or only a comment after a blank; otherwise `None`.
fn last_name(fields: &[u8]) -> Option<&str>
    ensures { option_map (λ name. name.now) result ≡ last_name_of fields.now }
{
    let end = blank_index(fields).unwrap_or(fields.len());
    let (name, rest) = fields.split_at(end);
    if !is_empty_or_comment(rest) {
        return None;
    }
    parse_field_name(name)
}

/// The kind of a rule that begins with this keyword, or `None` if no rule does.
fn kind_of(word: &[u8]) -> Option<RuleKind>
    ensures { result ≡ kind_of word.now }
{
    if word == b"forbid".as_slice() {
        return Some(RuleKind::Forbid);
    }
    if word == b"forbid-import".as_slice() {
        return Some(RuleKind::ForbidImport);
    }
    if word == b"may".as_slice() {
        return Some(RuleKind::May);
    }
    None
}

/// The line of a keyword, a name and the last field, or `None` if these are no valid line. The last field is a path after `folder`, a
/// pattern after `named`, and otherwise a name.
#[tactic(auto, unfolding(crate::specs::LineReading::line_after))]
fn line_after<'a>(word: &[u8], first: &'a str, last: &'a [u8]) -> Option<Line<'a>>
    ensures { option_map line_content result ≡ line_after word.now first.now last.now }
{
    if word == b"folder".as_slice() {
        return Some(Line::Adds(first, Selector::Folder(utf8_text(last)?)));
    }
    if word == b"named".as_slice() {
        return Some(Line::Adds(first, Selector::Named(utf8_text(last)?)));
    }
    let second = last_name(last)?;
    if word == b"set".as_slice() {
        return Some(Line::Adds(first, Selector::Module(second)));
    }
    if word == b"allow".as_slice() {
        return Some(Line::Allow(first, second));
    }
    let kind = kind_of(word)?;
    Some(Line::Restricts(kind, first, second))
}

/// The bytes as a string, or `None` if they aren't UTF-8.
fn utf8_text(bytes: &[u8]) -> Option<&str>
    ensures { option_map (λ text. text.now) result ≡ text_of bytes.now }
{
    match std::str::from_utf8(bytes) {
        Ok(text) => Some(text),
        Err(_) => None,
    }
}

/// The line of a keyword and the bytes after it, or `None` if these are no valid line.
#[tactic(auto, unfolding(crate::specs::LineReading::line_of_fields))]
fn line_of_fields<'a>(word: &[u8], fields: &'a [u8]) -> Option<Line<'a>>
    ensures { option_map line_content result ≡ line_of_fields word.now fields.now }
{
    if word == b"tree".as_slice() {
        return Some(Line::Adds(last_name(fields)?, Selector::Tree));
    }
    let (first, last) = split_at_byte(fields, b' ')?;
    line_after(word, parse_field_name(first)?, last)
}

/// What the bytes of a line state, or `None` if they aren't a valid line.
#[tactic(auto, unfolding(crate::specs::LineReading::rule_line_of))]
pub(crate) fn parse_line(piece: &[u8]) -> Option<Line<'_>>
    ensures { option_map line_content result ≡ rule_line_of piece.now }
{
    let (word, fields) = split_at_byte(piece, b' ')?;
    line_of_fields(word, fields)
}

/// The two names of a line that is a rule, or `None` for any other line. A line without a rule's keyword isn't parsed further.
#[tactic(auto, unfolding(crate::specs::LineReading::rule_of, crate::specs::LineReading::rule_line_of))]
pub(crate) fn parse_rule_names(piece: &[u8]) -> Option<(&str, &str)>
    ensures { option_map (λ names. (names.0.now, names.1.now)) result ≡ rule_of piece.now }
{
    let (word, fields) = split_at_byte(piece, b' ')?;
    kind_of(word)?;
    match line_of_fields(word, fields)? {
        Line::Restricts(_, first, second) => Some((first, second)),
        Line::Adds(_, _) | Line::Allow(_, _) => None,
    }
}

/// The name of the set to which a line adds modules, or `None` if the bytes aren't such a line.
#[tactic(auto, unfolding(crate::specs::LineReading::set_of))]
pub(crate) fn parse_set_name(piece: &[u8]) -> Option<&str>
    ensures { option_map (λ name. name.now) result ≡ set_of piece.now }
{
    match parse_line(piece)? {
        Line::Adds(set, _) => Some(set),
        Line::Restricts(_, _, _) | Line::Allow(_, _) => None,
    }
}

/// The bytes of a line from its first space up to the next blank, without both; `None` if there is no space. In a line that adds modules to
/// a set, these bytes are the set's name.
pub(crate) fn set_field(piece: &[u8]) -> Option<&[u8]>
    // If the line adds modules to a set, the result is the name of the set.
    ensures { (s : List ℕ) → set_of piece.now ≡ Some s → option_map (λ field. field.now) result ≡ Some s }
{
    let (_, fields) = split_at_byte(piece, b' ')?;
    let end = blank_index(fields).unwrap_or(fields.len());
    Some(&fields[..end])
}
