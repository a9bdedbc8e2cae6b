//! Finds the paths, positions and names of a file's unresolved identifiers from their token numbers. In the clauses:
//! `in_text`: the tokens are nonempty ranges of the bytes, each before the next. `lined`: `lines` has the offsets of the line starts.
//! `text`, `texts`: the bytes of the tokens are UTF-8.
ghost use Rattle.std.specs.Prelude.{◌≡◌, map, All, IfOk};
ghost use Rattle.std.specs.Arc.{arc_value};
ghost use Rattle.std.specs.Str.{IsUtf8};
ghost use Rattle.std.specs.String.{string_bytes};
ghost use Rattle.ob_scan.specs.Position.{line_starts};
ghost use Rattle.ob_scan.specs.Spelling.{AreInText};
ghost use Rattle.ob_scan.specs.Texts.{text_at};
ghost use Rattle.ob_board.specs.Unresolved.{unresolved_model, AreUnresolvedRows, IsUnresolvedAt};

use crate::Unresolved;
use ob_scan::{Lines, Token, TokenTexts, lines};
use std::alloc::{AllocError, Global};
use std::sync::Arc;

/// The unresolved identifier at token `number`, with the path of its file, its position and its name.
fn locate_unresolved(
    alloc: Global,
    path: &Arc<String>,
    text: &TokenTexts,
    lines: &Lines,
    number: u32,
) -> Result<Unresolved, AllocError>
    requires in_text { AreInText text.now.bytes.now text.now.tokens.now }
    requires lined { lines.now ≡ line_starts text.now.bytes.now }
    requires text { IsUtf8 (text_at text.now.bytes.now text.now.tokens.now number) }
    ensures { IfOk result (λ row. IsUnresolvedAt (string_bytes (arc_value path.now)) text.now.bytes.now text.now.tokens.now number (unresolved_model row)) }
{
    let at = lines.position(text.start(number));
    let path = Arc::try_clone(path)?;
    let name = text.string(alloc, number)?;
    Ok(Unresolved { path, at, name })
}

/// The unresolved identifiers at the tokens `numbers`, in this order, each with the path of its file, its position and its name.
pub(crate) fn locate_all_unresolved(
    alloc: Global,
    path: &str,
    bytes: &[u8],
    tokens: &[Token],
    numbers: &[u32],
) -> Result<Vec<Unresolved>, AllocError>
    requires in_text { AreInText bytes.now tokens.now }
    requires texts { All (λ k. IsUtf8 (text_at bytes.now tokens.now k)) numbers.now }
    ensures { IfOk result (λ rows. AreUnresolvedRows path.now bytes.now tokens.now numbers.now (map unresolved_model rows.items)) }
{
    if numbers.is_empty() {
        return Ok(Vec::new(alloc));
    }
    let lines = lines(alloc, bytes)?;
    let text = TokenTexts { bytes, tokens };
    let shared = Arc::new(alloc, String::from_str(alloc, path)?)?;
    let mut rows = Vec::new(alloc);
    for number in numbers {
        rows.push(locate_unresolved(alloc, &shared, &text, &lines, *number)?)?;
    }
    Ok(rows)
}
