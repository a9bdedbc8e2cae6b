//! Nested comments (Oberon-07 report, section 3).
ghost use Rattle.std.specs.Prelude.{◌≡◌, ◌≤◌, length};
ghost use Rattle.ob_scan.specs.Lexemes.{IsCommentLen, bracket_at};

/// What two bytes are inside a comment: its opening bracket `(*`, its closing bracket `*)`, or neither.
#[derive(Clone, Copy)]
pub(crate) enum CommentBracket {
    Opens,
    Closes,
    Neither,
}

/// What the first two bytes are, or `None` if fewer are left.
fn read_bracket(rest: &[u8]) -> Option<CommentBracket>
    ensures { result ≡ bracket_at rest.now }
{
    match rest {
        [b'(', b'*', ..] => Some(CommentBracket::Opens),
        [b'*', b')', ..] => Some(CommentBracket::Closes),
        [_, _, ..] => Some(CommentBracket::Neither),
        _ => None,
    }
}

/// The length of the comment that the bytes begin with, or `None` if it is not closed. The first two bytes are its `(*`.
pub(crate) fn comment_len(bytes: &[u8]) -> Option<usize>
    requires { 2 ≤ length bytes.now }
    // The comment ends after this many bytes, or has no end.
    ensures { IsCommentLen bytes.now result }
{
    let mut open: usize = 1;
    let mut at = 2;
    'inside: while open > 0 {
        match read_bracket(&bytes[at..])? {
            CommentBracket::Opens => {
                open += 1;
                at += 2;
            }
            CommentBracket::Closes => {
                open -= 1;
                at += 2;
            }
            CommentBracket::Neither => at += 1,
        }
    }
    Some(at)
}
