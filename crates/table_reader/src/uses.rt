//! Uses of qualified identifiers (Oberon-07 report, section 4).

ghost use Rattle.std.specs.Prelude.{◌≡◌, ◌+◌, IfOk};
ghost use Rattle.ob_tree.specs.Names.{qualident_events};
ghost use Rattle.table_rules.specs.Statements.{qualident_rows};
ghost use Rattle.ob_grammar.specs.ParsesAs.{remaining};
ghost use Rattle.ob_grammar.specs.ReadNames as readers;
ghost use Rattle.table_reader.specs.Tabulating.{AppendsEntries};

use crate::words::advance_token;
use module_table::builder::{Context, TableBuilder};
use ob_grammar::cursor::Cursor;
use ob_grammar::stop::Stop;
use ob_grammar::tokens::{accept, identifier};
use ob_scan::{Kind, Token};
use table_rules::walk::uses::append_use;

/// Parses a qualified identifier after its first identifier, and appends its entry. The entry contains the index of the name after the dot,
/// if a dot is next.
pub(crate) fn qualident_after(
    builder: &mut TableBuilder,
    context: Context,
    tokens: &[Token],
    head: u32,
    input: Cursor,
) -> Result<Cursor, Stop>
    // The builder hasn't counted the first identifier yet.
    requires { builder.old.number + 1 ≡ input.at }
    // The function returns what the grammar reads here, unless it returns the error `Memory`. With `Ok`, unless an allocation failed, it
    // has appended exactly the entry of the use.
    ensures effect { AppendsEntries tokens.now qualident_events qualident_rows context builder.old builder.new result (readers.qualident_after head (remaining tokens.now input)) }
    // With `Ok` the builder has counted exactly the tokens before the returned cursor.
    ensures number { IfOk result (λ rest. builder.new.number ≡ rest.at) }
{
    match accept(tokens, input, Kind::Dot) {
        None => {
            append_use(builder, context, None);
            Ok(input)
        }
        Some(rest) => {
            append_use(builder, context, Some(0));
            builder.advance();
            match identifier(tokens, rest) {
                Ok((_, rest)) => Ok(advance_token(builder, rest)),
                Err(stop) => Err(stop),
            }
        }
    }
}
