//! Declarations: constants, types, variables and procedures (Oberon-07 report, sections 5, 6, 7 and 10). Each function parses the
//! production or part that its name states.
//! `ensures`: the parser's result is that of the grammar's reader, the last argument of `ParsesAs`: the events of the parsed item and the
//! remaining tokens, or the error. If an allocation failed, nothing is claimed.

ghost use Rattle.std.specs.Prelude.{◌++◌, ℕ};
ghost use Rattle.ob_scan.specs.declared.kind.Kind.TheVariants as kinds;
ghost use Rattle.ob_tree.specs.TreeEvents.{Events, word, each, if_present, repeated};
ghost use Rattle.ob_tree.specs.Expressions.{expr_events};
ghost use Rattle.ob_tree.specs.Statements.{block_events};
ghost use Rattle.ob_tree.specs.Declaring.{const_events, type_decl_events, variable_events, part, declarations_events, procedure_events};
ghost use Rattle.ob_grammar.specs.Lookahead.{is_word};
ghost use Rattle.ob_grammar.specs.Combinators.{Reader, optional, accept_at, expect_at, name_at, many, begins, seq};
ghost use Rattle.ob_grammar.specs.ReadExpressions.{expr_at};
ghost use Rattle.ob_grammar.specs.ReadStatements.{block_at};
ghost use Rattle.ob_grammar.specs.ReadTypes.{type_at};
ghost use Rattle.ob_grammar.specs.ReadModules.{ConsumesToken, is_identifier, with_semicolon, const_with, type_decl_with, variable_with, section_with, procedures_with, body_with, procedure_with, procedure_at, declarations_at};
ghost use Rattle.ob_grammar.specs.ParsesAs.{ParsesAs, remaining};

use crate::expressions::{expression, optional_expression};
use crate::parameters::optional_parameters;
use crate::statements::optional_block;
use crate::stop::{append_boxed, append_item, box_value, wrap_in_some};
use crate::types::{type_expression, var_declaration};
use ob_grammar::cursor::Cursor;
use ob_grammar::declarations::begins_declaration;
use ob_grammar::names::identdef;
use ob_grammar::stop::Stop;
use ob_grammar::tokens::{accept, depth_stop, expect, identifier, next_is, skip};
use ob_scan::{Kind, Token};
use ob_tree::declaration::{ConstDecl, Declarations, ProcDecl, TypeDecl, VarDecl};
use ob_tree::expression::Expr;
use ob_tree::name::Identdef;
use ob_tree::statement::StatementSequence;
use std::alloc::Global;

/// A kind of declarations with a section of its own: constants, types or variables.
trait Declaration: Drop {
    // The grammar's reader of such a declaration, without the semicolon. Its argument is the number of nesting levels that are left.
    ghost read: { ℕ → Reader };

    // The events of a parsed declaration, without the semicolon.
    ghost shown: { Self → Events };

    /// Parses a declaration and its semicolon.
    fn parse_with_semicolon(
        alloc: Global,
        tokens: &[Token],
        input: Cursor,
        depth: u32,
    ) -> Result<(Self, Cursor), Stop>
        ensures { ParsesAs tokens.now (λ x. (shown x.0 ++ word kinds.Semicolon, remaining tokens.now x.1)) result (with_semicolon (read depth) (remaining tokens.now input)) };
}

impl Declaration for ConstDecl {
    ghost read = { λ depth. const_with (expr_at depth) };

    ghost shown = { const_events };

    #[tactic(auto, using(ob_tree::proofs::DeclarationLayers::declaring_made), unfolding(ob_grammar::specs::ReadModules::const_with))]
    fn parse_with_semicolon(
        alloc: Global,
        tokens: &[Token],
        input: Cursor,
        depth: u32,
    ) -> Result<(ConstDecl, Cursor), Stop> {
        let (name, here) = identdef(tokens, input)?;
        let here = expect(tokens, here, Kind::Equals)?;
        let (value, here) = expression(alloc, tokens, here, depth)?;
        let here = expect(tokens, here, Kind::Semicolon)?;
        let value = Box::into_inner(value);
        Ok((ConstDecl { name, value }, here))
    }
}

impl Declaration for TypeDecl {
    ghost read = { λ depth. type_decl_with (type_at depth) };

    ghost shown = { type_decl_events };

    #[tactic(auto, using(ob_tree::proofs::DeclarationLayers::declaring_made), unfolding(ob_grammar::specs::ReadModules::type_decl_with))]
    fn parse_with_semicolon(
        alloc: Global,
        tokens: &[Token],
        input: Cursor,
        depth: u32,
    ) -> Result<(TypeDecl, Cursor), Stop> {
        let (name, here) = identdef(tokens, input)?;
        let here = expect(tokens, here, Kind::Equals)?;
        let (type_expr, here) = type_expression(alloc, tokens, here, depth)?;
        let here = expect(tokens, here, Kind::Semicolon)?;
        let type_expr = Box::into_inner(type_expr);
        Ok((TypeDecl { name, type_expr }, here))
    }
}

impl Declaration for VarDecl {
    ghost read = { λ depth. variable_with (type_at depth) };

    ghost shown = { variable_events };

    #[tactic(auto, using(ob_tree::proofs::DeclarationLayers::declaring_made), unfolding(ob_grammar::specs::ReadModules::variable_with))]
    fn parse_with_semicolon(
        alloc: Global,
        tokens: &[Token],
        input: Cursor,
        depth: u32,
    ) -> Result<(VarDecl, Cursor), Stop> {
        let (declaration, here) = var_declaration(alloc, tokens, input, depth)?;
        let here = expect(tokens, here, Kind::Semicolon)?;
        Ok((Box::into_inner(declaration), here))
    }
}

/// Parses the declarations of a section, each with its semicolon.
fn declared<D: Declaration>(
    alloc: Global,
    tokens: &[Token],
    input: Cursor,
    depth: u32,
) -> Result<(Vec<D>, Cursor), Stop>
    requires { ConsumesToken (D.read depth) }
    ensures { ParsesAs tokens.now (λ x. (each (λ d. D.shown d ++ word kinds.Semicolon) x.0.items, remaining tokens.now x.1)) result
        (many (begins is_identifier) (with_semicolon (D.read depth)) (remaining tokens.now input)) }
{
    let mut declared = Vec::new(alloc);
    let mut here = input;
    'more: while begins_declaration(tokens, here) {
        here = append_item(
            &mut declared,
            D::parse_with_semicolon(alloc, tokens, here, depth),
        )?;
    }
    Ok((declared, here))
}

/// Parses the section of declarations after this keyword, if the keyword is next.
#[tactic(auto, unfolding(ob_grammar::specs::ReadModules::section_with))]
fn declaration_section<D: Declaration>(
    alloc: Global,
    tokens: &[Token],
    input: Cursor,
    depth: u32,
    keyword: Kind,
) -> Result<(Option<Vec<D>>, Cursor), Stop>
    requires { ConsumesToken (D.read depth) }
    ensures { ParsesAs tokens.now (λ x. (if_present (λ v. part keyword D.shown v.items) x.0, remaining tokens.now x.1)) result (section_with keyword (D.read depth) (remaining tokens.now input)) }
{
    match accept(tokens, input, keyword) {
        Some(rest) => wrap_in_some(declared(alloc, tokens, rest, depth)),
        None => Ok((None, input)),
    }
}

/// Parses the procedures of a declaration sequence, which may have none, each with its semicolon.
#[cycle(declarations)]
fn procedures(
    alloc: Global,
    tokens: &[Token],
    input: Cursor,
    depth: u32,
) -> Result<(Vec<ProcDecl>, Cursor), Stop>
    ensures { ParsesAs tokens.now (λ x. (each (λ p. procedure_events p ++ word kinds.Semicolon) x.0.items, remaining tokens.now x.1)) result
        (many (begins (is_word kinds.Procedure)) (with_semicolon (procedure_at depth)) (remaining tokens.now input)) }
{
    let mut declared = Vec::new(alloc);
    let mut here = input;
    'more: while next_is(tokens, here, Kind::Procedure) {
        here = append_boxed(
            &mut declared,
            procedure_with_semicolon(alloc, tokens, here, depth),
        )?;
    }
    Ok((declared, here))
}

/// Parses a procedure and its semicolon.
#[cycle(declarations)]
fn procedure_with_semicolon(
    alloc: Global,
    tokens: &[Token],
    input: Cursor,
    depth: u32,
) -> Result<(Box<ProcDecl>, Cursor), Stop>
    ensures { ParsesAs tokens.now (λ x. (procedure_events x.0.value ++ word kinds.Semicolon, remaining tokens.now x.1)) result (with_semicolon (procedure_at depth) (remaining tokens.now input)) }
{
    let (declaration, here) = procedure(alloc, tokens, input, depth)?;
    let here = expect(tokens, here, Kind::Semicolon)?;
    Ok((declaration, here))
}

/// Parses a procedure, which takes one of the `depth` nesting levels that are left. If none is left, returns an error.
#[cycle(declarations)]
#[tactic(auto, unfolding(ob_grammar::specs::ReadModules::procedure_at, ob_grammar::specs::Combinators::limit_at))]
fn procedure(
    alloc: Global,
    tokens: &[Token],
    input: Cursor,
    depth: u32,
) -> Result<(Box<ProcDecl>, Cursor), Stop>
    ensures { ParsesAs tokens.now (λ x. (procedure_events x.0.value, remaining tokens.now x.1)) result (procedure_at depth (remaining tokens.now input)) }
{
    if depth == 0 {
        return Err(depth_stop(tokens, input, next_is(tokens, input, Kind::Procedure)));
    }
    procedure_after_depth_check(alloc, tokens, input, depth - 1)
}

/// Parses a procedure. `depth` is the number of nesting levels left for its parts: the procedure's own level is already subtracted.
#[cycle(declarations)]
#[tactic(auto, using(ob_tree::proofs::DeclarationLayers::declaring_made, ob_tree::proofs::NameLayers::names_made, ob_grammar::proofs::Stars::star_read), unfolding(ob_grammar::specs::ReadModules::procedure_with, ob_grammar::specs::ReadModules::procedure_named, ob_grammar::specs::ReadNames::identdef_after))]
fn procedure_after_depth_check(
    alloc: Global,
    tokens: &[Token],
    input: Cursor,
    depth: u32,
) -> Result<(Box<ProcDecl>, Cursor), Stop>
    ensures { ParsesAs tokens.now (λ x. (procedure_events x.0.value, remaining tokens.now x.1)) result (procedure_with (expr_at depth) (block_at depth) (declarations_at depth) (remaining tokens.now input)) }
{
    let here = expect(tokens, input, Kind::Procedure)?;
    let (name, here) = identifier(tokens, here)?;
    let (is_exported, here) = skip(tokens, here, Kind::Star);
    let (parameters, here) = optional_parameters(alloc, tokens, here)?;
    let here = expect(tokens, here, Kind::Semicolon)?;
    let ((declarations, (body, returned, end_name)), here) = procedure_remainder(
        alloc, tokens, here, depth, name,
    )?;
    let procedure = ProcDecl {
        name: Identdef { name, is_exported },
        parameters,
        declarations: Box::into_inner(declarations),
        body,
        returned,
        end_name,
    };
    box_value(alloc, procedure, here)
}

/// Parses a procedure after its heading. `name`, only for the contract, is the index of its name, which the name after END has to repeat.
#[cycle(declarations)]
fn procedure_remainder(
    alloc: Global,
    tokens: &[Token],
    input: Cursor,
    depth: u32,
    name: u32,
) -> Result<((Box<Declarations>, Ending), Cursor), Stop>
    ensures { ParsesAs tokens.now (λ x. (
      declarations_events x.0.0.value ++ (if_present (λ b. word kinds.Begin ++ block_events b.value) x.0.1.0 ++
          (if_present (λ e. word kinds.Return ++ expr_events e.value) x.0.1.1 ++ (word kinds.End ++ repeated name x.0.1.2))),
      remaining tokens.now x.1,
    )) result
        (seq (declarations_at depth) (seq (body_with (block_at depth)) (seq (optional (accept_at kinds.Return) (expr_at depth))
        (seq (expect_at kinds.End) (name_at (repeated name))))) (remaining tokens.now input)) }
{
    let (declarations, here) = declarations(alloc, tokens, input, depth)?;
    let (procedure_ending, here) = procedure_ending(alloc, tokens, here, depth, name)?;
    Ok(((declarations, procedure_ending), here))
}

/// The statements of a procedure, if it has any; the expression after RETURN, if it has one; and the index of the name after END.
type Ending = (Option<Box<StatementSequence>>, Option<Box<Expr>>, u32);

/// Parses a procedure after its declarations. `name`, only for the contract, is the index of its name, which the name after END has to
/// repeat.
#[tactic(auto, unfolding(ob_grammar::specs::Combinators::name_at, ob_grammar::specs::ReadModules::body_with))]
fn procedure_ending(
    alloc: Global,
    tokens: &[Token],
    input: Cursor,
    depth: u32,
    name: u32,
) -> Result<(Ending, Cursor), Stop>
    ensures { ParsesAs tokens.now (λ x. (
      if_present (λ b. word kinds.Begin ++ block_events b.value) x.0.0 ++
          (if_present (λ e. word kinds.Return ++ expr_events e.value) x.0.1 ++ (word kinds.End ++ repeated name x.0.2)),
      remaining tokens.now x.1,
    )) result
        (seq (body_with (block_at depth)) (seq (optional (accept_at kinds.Return) (expr_at depth))
        (seq (expect_at kinds.End) (name_at (repeated name)))) (remaining tokens.now input)) }
{
    let (body, here) = optional_block(alloc, tokens, input, depth, Kind::Begin)?;
    let (returned, here) = optional_expression(alloc, tokens, here, depth, Kind::Return)?;
    let here = expect(tokens, here, Kind::End)?;
    let (end_name, here) = identifier(tokens, here)?;
    Ok(((body, returned, end_name), here))
}

/// Parses the declarations of a module or a procedure. `depth` is the number of nesting levels that are left for them.
#[cycle(declarations)]
#[tactic(auto, using(ob_tree::proofs::DeclarationLayers::declaring_made), unfolding(ob_grammar::specs::ReadModules::declarations_with, ob_grammar::specs::ReadModules::procedures_with))]
pub(crate) fn declarations(
    alloc: Global,
    tokens: &[Token],
    input: Cursor,
    depth: u32,
) -> Result<(Box<Declarations>, Cursor), Stop>
    ensures { ParsesAs tokens.now (λ x. (declarations_events x.0.value, remaining tokens.now x.1)) result (declarations_at depth (remaining tokens.now input)) }
{
    let (constants, here) = declaration_section::<ConstDecl>(
        alloc,
        tokens,
        input,
        depth,
        Kind::Const,
    )?;
    let (types, here) = declaration_section::<TypeDecl>(alloc, tokens, here, depth, Kind::Type)?;
    let (variables, here) = declaration_section::<VarDecl>(alloc, tokens, here, depth, Kind::Var)?;
    let (procedures, here) = procedures(alloc, tokens, here, depth)?;
    let declarations = Declarations {
        constants,
        types,
        variables,
        procedures,
    };
    box_value(alloc, declarations, here)
}
