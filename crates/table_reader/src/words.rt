//! Single tokens, and the advance of the builder by them.

ghost use Rattle.ob_tree.specs.TreeEvents.{word};
ghost use Rattle.std.specs.Prelude.{◌≡◌, ◌+◌, IfOk};
ghost use Rattle.module_table.specs.TableStages.{after, advanced, PerformsStep};
ghost use Rattle.ob_grammar.specs.Combinators.{accept_at, expect_at, nothing, optional};
ghost use Rattle.ob_grammar.specs.ParsesAs.{remaining};
ghost use Rattle.table_reader.specs.Tabulating.{AppendsEntriesBy, HasAppendedEntries};
ghost use Rattle.table_reader.specs.TypeShapes.{optional_word_events, optional_word_rows};

use module_table::builder::{Context, TableBuilder};
use ob_grammar::cursor::Cursor;
use ob_grammar::stop::Stop;
use ob_grammar::tokens::{expect, skip};
use ob_scan::{Kind, Token};

/// Parses the next token, which has to be of this kind, and advances the builder by it.
pub(crate) fn expect_word(
    builder: &mut TableBuilder,
    tokens: &[Token],
    input: Cursor,
    kind: Kind,
) -> Result<Cursor, Stop>
    requires { builder.old.number ≡ input.at }
    // The function returns what the grammar reads here. With `Ok`, unless an allocation failed, the builder is advanced by one token.
    ensures effect { AppendsEntriesBy tokens.now (λ (_ : Unit {0}). word kind) (λ _ s. advanced s) builder.old builder.new result (expect_at kind (remaining tokens.now input)) }
    ensures number { IfOk result (λ rest. builder.new.number ≡ rest.at) }
    // With `Ok` the returned cursor is one token after `input`.
    ensures advanced { IfOk result (λ rest. rest.at ≡ input.at + 1) }
{
    match expect(tokens, input, kind) {
        Ok(rest) => {
            builder.advance();
            Ok(rest)
        }
        Err(stop) => Err(stop),
    }
}

/// Parses the next token if it is of this kind, and advances the builder by it; otherwise returns `input`.
pub(crate) fn accept_word(
    builder: &mut TableBuilder,
    context: Context,
    tokens: &[Token],
    input: Cursor,
    kind: Kind,
) -> Cursor
    requires { builder.old.number ≡ input.at }
    // The grammar reads the same tokens here. Unless an allocation failed, the builder is advanced by the token if it is of this kind.
    ensures effect { HasAppendedEntries tokens.now (optional_word_events kind) (λ b. after (optional_word_rows b) context) builder.old builder.new result (optional (accept_at kind) nothing (remaining tokens.now input)) }
    ensures number { builder.new.number ≡ result.at }
{
    let (stands, rest) = skip(tokens, input, kind);
    if stands {
        builder.advance();
    }
    rest
}

/// Advances the builder by a token that the caller has already read; `rest` is the cursor after it. Returns `rest`.
pub(crate) fn advance_token(builder: &mut TableBuilder, rest: Cursor) -> Cursor
    // The builder hasn't counted the token yet.
    requires { builder.old.number + 1 ≡ rest.at }
    ensures cursor { result ≡ rest }
    ensures stage { PerformsStep advanced builder.old builder.new }
    ensures number { builder.new.number ≡ result.at }
{
    builder.advance();
    rest
}
