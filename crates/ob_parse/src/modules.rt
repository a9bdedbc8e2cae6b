//! Modules (Oberon-07 report, section 11). Each function parses the production or part that its name states.
//! `ensures`: the parser's result is that of the grammar's reader, the last argument of `ParsesAs`: the events of the parsed item and the
//! remaining tokens, or the error. If an allocation failed, nothing is claimed.

ghost use Rattle.std.specs.Prelude.{◌≡◌, ◌++◌};
ghost use Rattle.ob_scan.specs.declared.kind.Kind.TheVariants as kinds;
ghost use Rattle.ob_tree.specs.TreeEvents.{word, each_after, separated, if_present, repeated};
ghost use Rattle.ob_tree.specs.Statements.{block_events};
ghost use Rattle.ob_tree.specs.Declaring.{declarations_events, import_events, module_events};
ghost use Rattle.ob_grammar.specs.Combinators.{accept_at, expect_at, name_at, several, many, seq};
ghost use Rattle.ob_grammar.specs.ReadStatements.{block_at};
ghost use Rattle.ob_grammar.specs.ReadModules.{import_item_at, imports_at, declarations_at, body_with, module_at, read_all};
ghost use Rattle.ob_grammar.specs.ParsesAs.{ParsesAs, remaining};

use crate::declarations::declarations;
use crate::statements::optional_block;
use crate::stop::{append_item, box_value};
use ob_grammar::cursor::Cursor;
use ob_grammar::modules::import;
use ob_grammar::stop::Stop;
use ob_grammar::tokens::{accept, expect, identifier};
use ob_scan::{Kind, Token};
use ob_tree::declaration::{Declarations, ImportItem, Module};
use ob_tree::name::OneOrMore;
use ob_tree::statement::StatementSequence;
use std::alloc::Global;

/// Parses the further import items, each after a comma.
fn more_imports(
    alloc: Global,
    tokens: &[Token],
    input: Cursor,
) -> Result<(Vec<ImportItem>, Cursor), Stop>
    ensures { ParsesAs tokens.now (λ x. (each_after kinds.Comma import_events x.0.items, remaining tokens.now x.1)) result (many (accept_at kinds.Comma) import_item_at (remaining tokens.now input)) }
{
    let mut rest = Vec::new(alloc);
    let mut here = input;
    'more: while let Some(after) = accept(tokens, here, Kind::Comma) {
        here = append_item(&mut rest, import(tokens, after))?;
    }
    Ok((rest, here))
}

/// Parses one import item or more, separated by commas.
#[tactic(auto, unfolding(ob_grammar::specs::Combinators::several))]
fn import_list(
    alloc: Global,
    tokens: &[Token],
    input: Cursor,
) -> Result<(OneOrMore<ImportItem>, Cursor), Stop>
    ensures { ParsesAs tokens.now (λ x. (separated kinds.Comma import_events x.0, remaining tokens.now x.1)) result (several kinds.Comma import_item_at (remaining tokens.now input)) }
{
    let (first, here) = import(tokens, input)?;
    let (rest, here) = more_imports(alloc, tokens, here)?;
    Ok((OneOrMore { first, rest }, here))
}

/// Parses the imports, if IMPORT is next.
#[tactic(auto, unfolding(ob_grammar::specs::ReadModules::imports_at))]
fn imports(
    alloc: Global,
    tokens: &[Token],
    input: Cursor,
) -> Result<(Option<OneOrMore<ImportItem>>, Cursor), Stop>
    ensures { ParsesAs tokens.now (λ x. (if_present (λ l. word kinds.Import ++ (separated kinds.Comma import_events l ++ word kinds.Semicolon)) x.0, remaining tokens.now x.1)) result (imports_at (remaining tokens.now input)) }
{
    match accept(tokens, input, Kind::Import) {
        Some(rest) => {
            let (list, rest) = import_list(alloc, tokens, rest)?;
            let rest = expect(tokens, rest, Kind::Semicolon)?;
            Ok((Some(list), rest))
        }
        None => Ok((None, input)),
    }
}

/// Moves the statements of a module out of their box, if it has any.
fn unbox_body(body: Option<Box<StatementSequence>>) -> Option<StatementSequence>
    ensures { if_present (λ b. word kinds.Begin ++ block_events b) result ≡ if_present (λ b. word kinds.Begin ++ block_events b.value) body }
{
    match body {
        Some(block) => Some(Box::into_inner(block)),
        None => None,
    }
}

/// Parses a module. `depth` is the number of nesting levels that are left for it.
#[tactic(auto, using(ob_tree::proofs::DeclarationLayers::declaring_made), unfolding(ob_grammar::specs::ReadModules::module_at, ob_grammar::specs::ReadModules::module_after_name))]
pub(crate) fn module(
    alloc: Global,
    tokens: &[Token],
    input: Cursor,
    depth: u32,
) -> Result<(Box<Module>, Cursor), Stop>
    ensures { ParsesAs tokens.now (λ x. (module_events x.0.value, remaining tokens.now x.1)) result (module_at depth (remaining tokens.now input)) }
{
    let here = expect(tokens, input, Kind::Module)?;
    let (name, here) = identifier(tokens, here)?;
    let here = expect(tokens, here, Kind::Semicolon)?;
    let (imports, here) = imports(alloc, tokens, here)?;
    let ((declarations, body, end_name), here) = module_remainder(
        alloc, tokens, here, depth, name,
    )?;
    let module = Module {
        name,
        imports,
        declarations: Box::into_inner(declarations),
        body: unbox_body(body),
        end_name,
    };
    box_value(alloc, module, here)
}

/// Parses a module after its imports. `name`, only for the contract, is the index of its name, which the name after END has to repeat.
#[tactic(auto, unfolding(ob_grammar::specs::ReadModules::body_with))]
fn module_remainder(
    alloc: Global,
    tokens: &[Token],
    input: Cursor,
    depth: u32,
    name: u32,
) -> Result<
    (
        (Box<Declarations>, Option<Box<StatementSequence>>, u32),
        Cursor,
    ),
    Stop,
>
    ensures { ParsesAs tokens.now (λ x. (
      declarations_events x.0.0.value ++ (if_present (λ b. word kinds.Begin ++ block_events b.value) x.0.1 ++
          (word kinds.End ++ (repeated name x.0.2 ++ word kinds.Dot))),
      remaining tokens.now x.1,
    )) result
        (seq (declarations_at depth) (seq (body_with (block_at depth)) (seq (expect_at kinds.End)
        (seq (name_at (repeated name)) (expect_at kinds.Dot)))) (remaining tokens.now input)) }
{
    let (declarations, here) = declarations(alloc, tokens, input, depth)?;
    let (body, here) = optional_block(alloc, tokens, here, depth, Kind::Begin)?;
    let (end_name, here) = module_ending(tokens, here, name)?;
    Ok(((declarations, body, end_name), here))
}

/// Parses the end of a module: END, a name and a dot. Returns the index of this name. `name`, only for the contract, is the index of the
/// module's name, which the name after END has to repeat.
#[tactic(auto, unfolding(ob_grammar::specs::Combinators::name_at))]
fn module_ending(tokens: &[Token], input: Cursor, name: u32) -> Result<(u32, Cursor), Stop>
    ensures { ParsesAs tokens.now (λ x. (word kinds.End ++ (repeated name x.0 ++ word kinds.Dot), remaining tokens.now x.1)) result
        (seq (expect_at kinds.End) (seq (name_at (repeated name)) (expect_at kinds.Dot)) (remaining tokens.now input)) }
{
    let here = expect(tokens, input, Kind::End)?;
    let (end_name, here) = identifier(tokens, here)?;
    let here = expect(tokens, here, Kind::Dot)?;
    Ok((end_name, here))
}

/// Parses all remaining tokens as one module. A token after the final dot is an error.
#[tactic(auto, unfolding(ob_grammar::specs::ReadModules::read_all))]
pub(crate) fn parse_all_tokens(
    alloc: Global,
    tokens: &[Token],
    input: Cursor,
    depth: u32,
) -> Result<Box<Module>, Stop>
    ensures { ParsesAs tokens.now (λ m. module_events m.value) result (read_all depth (remaining tokens.now input)) }
{
    let (module, here) = module(alloc, tokens, input, depth)?;
    match here.next(tokens) {
        None => Ok(module),
        Some(_) => Err(Stop::Unexpected(here)),
    }
}
