//! Modules (Oberon-07 report, section 11). Each function parses the production or part that its name states, and appends the table
//! entries of what it parses.
//! Clauses: the builder has counted exactly the tokens before the cursor, before a call (`requires`) and, with `Ok`, after it (`number`).
//! `effect`: the function returns what the grammar's reader, the last argument, returns for these tokens, unless it returns the error
//! `Memory`. With `Ok`, unless an allocation failed, it has appended exactly the entries (`.._rows`, `.._step`) of the parsed tree.

ghost use Rattle.std.specs.Prelude.{◌≡◌, IfOk};
ghost use Rattle.ob_scan.specs.declared.kind.Kind.TheVariants as kinds;
ghost use Rattle.ob_tree.specs.TreeEvents.{repeated, separated};
ghost use Rattle.ob_tree.specs.Declaring.{import_events, module_events};
ghost use Rattle.table_rules.specs.Declaring.{module_rows, import_rows, imports_rows};
ghost use Rattle.module_table.specs.TableStages.{after};
ghost use Rattle.module_table.specs.Parts.{if_present};
ghost use Rattle.ob_grammar.specs.Combinators.{accept_at, expect_at, many, name_at, seq, several};
ghost use Rattle.ob_grammar.specs.ParsesAs.{remaining};
ghost use Rattle.ob_grammar.specs.ReadStatements.{block_at};
ghost use Rattle.ob_grammar.specs.ReadModules.{import_item_at, imports_at, declarations_at, body_with, module_at, module_after_name, read_all, with_semicolon};
ghost use Rattle.table_reader.specs.DeclarationShapes.{module_end_events, end_step, module_parts_events, parts_step, module_rest_events, module_rest_step, ended_events, ended_rows, imports_events};
ghost use Rattle.table_reader.specs.TypeShapes.{more_events, more_rows, list_rows};
ghost use Rattle.table_reader.specs.Tabulating.{AppendsEntries, AppendsEntriesBy, AppendsModuleEntries};

use crate::declarations::{body, declarations};
use crate::ends::module_end_name;
use crate::source::ParserInput;
use crate::words::expect_word;
use module_table::builder::{Context, TableBuilder};
use ob_grammar::cursor::Cursor;
use ob_grammar::modules::import as import_item;
use ob_grammar::stop::Stop;
use ob_grammar::tokens::{accept, identifier};
use ob_scan::{Kind, Token};
use table_rules::walk::declarations::append_import;

/// Parses an import item.
fn import(
    builder: &mut TableBuilder,
    context: Context,
    tokens: &[Token],
    input: Cursor,
) -> Result<Cursor, Stop>
    requires { builder.old.number ≡ input.at }
    ensures effect { AppendsEntries tokens.now import_events import_rows context builder.old builder.new result (import_item_at (remaining tokens.now input)) }
    ensures number { IfOk result (λ rest. builder.new.number ≡ rest.at) }
{
    match import_item(tokens, input) {
        Ok((item, rest)) => {
            append_import(builder, context, item);
            Ok(rest)
        }
        Err(stop) => Err(stop),
    }
}

/// Parses the further import items, each after a comma.
fn more_imports(
    builder: &mut TableBuilder,
    context: Context,
    tokens: &[Token],
    input: Cursor,
) -> Result<Cursor, Stop>
    requires { builder.old.number ≡ input.at }
    ensures effect { AppendsEntries tokens.now (more_events kinds.Comma import_events) (more_rows import_rows) context builder.old builder.new result (many (accept_at kinds.Comma) import_item_at (remaining tokens.now input)) }
    ensures number { IfOk result (λ rest. builder.new.number ≡ rest.at) }
{
    let mut here = input;
    'more: while let Some(following) = accept(tokens, here, Kind::Comma) {
        builder.advance();
        match import(builder, context, tokens, following) {
            Ok(next) => here = next,
            Err(stop) => return Err(stop),
        }
    }
    Ok(here)
}

/// Parses one import item or more, separated by commas.
fn import_list(
    builder: &mut TableBuilder,
    context: Context,
    tokens: &[Token],
    input: Cursor,
) -> Result<Cursor, Stop>
    requires { builder.old.number ≡ input.at }
    ensures effect { AppendsEntries tokens.now (separated kinds.Comma import_events) (list_rows import_rows) context builder.old builder.new result (several kinds.Comma import_item_at (remaining tokens.now input)) }
    ensures number { IfOk result (λ rest. builder.new.number ≡ rest.at) }
{
    match import(builder, context, tokens, input) {
        Ok(here) => more_imports(builder, context, tokens, here),
        Err(stop) => Err(stop),
    }
}

/// Parses the import items and their semicolon.
fn imports_and_semicolon(
    builder: &mut TableBuilder,
    context: Context,
    tokens: &[Token],
    input: Cursor,
) -> Result<Cursor, Stop>
    requires { builder.old.number ≡ input.at }
    ensures effect { AppendsEntries tokens.now (ended_events (separated kinds.Comma import_events)) (ended_rows (list_rows import_rows)) context builder.old builder.new result (with_semicolon (several kinds.Comma import_item_at) (remaining tokens.now input)) }
    ensures number { IfOk result (λ rest. builder.new.number ≡ rest.at) }
{
    match import_list(builder, context, tokens, input) {
        Ok(here) => expect_word(builder, tokens, here, Kind::Semicolon),
        Err(stop) => Err(stop),
    }
}

/// Parses the imports, if IMPORT is next.
fn imports(
    builder: &mut TableBuilder,
    context: Context,
    tokens: &[Token],
    input: Cursor,
) -> Result<Cursor, Stop>
    requires { builder.old.number ≡ input.at }
    ensures effect { AppendsEntries tokens.now imports_events (if_present imports_rows) context builder.old builder.new result (imports_at (remaining tokens.now input)) }
    ensures number { IfOk result (λ rest. builder.new.number ≡ rest.at) }
{
    match accept(tokens, input, Kind::Import) {
        None => Ok(input),
        Some(rest) => {
            builder.advance();
            imports_and_semicolon(builder, context, tokens, rest)
        }
    }
}

/// Parses the end of a module: END, a name and a dot. `name` is the index of the module's name, which has to be repeated after END.
fn module_ending(
    builder: &mut TableBuilder,
    context: Context,
    tokens: &[Token],
    input: Cursor,
    name: u32,
) -> Result<Cursor, Stop>
    requires { builder.old.number ≡ input.at }
    ensures effect { AppendsEntriesBy tokens.now (module_end_events name) (end_step context) builder.old builder.new result
        (seq (expect_at kinds.End) (seq (name_at (repeated name)) (expect_at kinds.Dot)) (remaining tokens.now input)) }
    ensures number { IfOk result (λ rest. builder.new.number ≡ rest.at) }
{
    match expect_word(builder, tokens, input, Kind::End) {
        Ok(here) => match module_end_name(builder, context, tokens, here, name) {
            Ok(here) => expect_word(builder, tokens, here, Kind::Dot),
            Err(stop) => Err(stop),
        },
        Err(stop) => Err(stop),
    }
}

/// Parses a module after its imports. `name` is the index of the module's name, which has to be repeated after END.
fn module_remainder(
    builder: &mut TableBuilder,
    context: Context,
    source: &ParserInput,
    input: Cursor,
    depth: u32,
    name: u32,
) -> Result<Cursor, Stop>
    requires { builder.old.number ≡ input.at }
    ensures effect { AppendsEntriesBy source.now.tokens.now (module_parts_events name) (parts_step context) builder.old builder.new result
        (seq (declarations_at depth) (seq (body_with (block_at depth)) (seq (expect_at kinds.End)
        (seq (name_at (repeated name)) (expect_at kinds.Dot)))) (remaining source.now.tokens.now input)) }
    ensures number { IfOk result (λ rest. builder.new.number ≡ rest.at) }
{
    match declarations(builder, context, source, input, depth) {
        Ok(here) => match body(builder, context, source, here, depth) {
            Ok(here) => module_ending(builder, context, source.tokens, here, name),
            Err(stop) => Err(stop),
        },
        Err(stop) => Err(stop),
    }
}

/// Parses a module after MODULE and its name, whose index is `name`.
fn module_after_name(
    builder: &mut TableBuilder,
    context: Context,
    source: &ParserInput,
    input: Cursor,
    depth: u32,
    name: u32,
) -> Result<Cursor, Stop>
    requires { builder.old.number ≡ input.at }
    ensures effect { AppendsEntriesBy source.now.tokens.now (module_rest_events name) (module_rest_step context) builder.old builder.new result (module_after_name depth name (remaining source.now.tokens.now input)) }
    ensures number { IfOk result (λ rest. builder.new.number ≡ rest.at) }
{
    match expect_word(builder, source.tokens, input, Kind::Semicolon) {
        Ok(here) => match imports(builder, context, source.tokens, here) {
            Ok(here) => module_remainder(builder, context, source, here, depth, name),
            Err(stop) => Err(stop),
        },
        Err(stop) => Err(stop),
    }
}

/// Parses a module. `depth` is the number of nesting levels that are left for it.
fn module(
    builder: &mut TableBuilder,
    context: Context,
    source: &ParserInput,
    input: Cursor,
    depth: u32,
) -> Result<Cursor, Stop>
    requires { builder.old.number ≡ input.at }
    ensures effect { AppendsEntries source.now.tokens.now module_events module_rows context builder.old builder.new result (module_at depth (remaining source.now.tokens.now input)) }
    ensures number { IfOk result (λ rest. builder.new.number ≡ rest.at) }
{
    match expect_word(builder, source.tokens, input, Kind::Module) {
        Ok(here) => match identifier(source.tokens, here) {
            Ok((name, here)) => {
                builder.advance();
                module_after_name(builder, context, source, here, depth, name)
            }
            Err(stop) => Err(stop),
        },
        Err(stop) => Err(stop),
    }
}

/// Parses all remaining tokens as one module. A token after the final dot is an error.
pub(crate) fn parse_all_tokens(
    builder: &mut TableBuilder,
    context: Context,
    source: &ParserInput,
    input: Cursor,
    depth: u32,
) -> Result<(), Stop>
    requires { builder.old.number ≡ input.at }
    // With `Ok` the tokens are a module, and its entries are appended unless an allocation failed. With `Err` the grammar's reader fails
    // too, or memory ran out.
    ensures { AppendsModuleEntries source.now.tokens.now module_events (λ m. after (module_rows m) context) builder.old builder.new result (read_all depth (remaining source.now.tokens.now input)) }
{
    match module(builder, context, source, input, depth) {
        Ok(here) => match here.next(source.tokens) {
            None => Ok(()),
            Some(_) => Err(Stop::Unexpected(here)),
        },
        Err(stop) => Err(stop),
    }
}
