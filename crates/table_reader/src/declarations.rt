//! Declarations: constants, types, variables and procedures (Oberon-07 report, sections 5, 6, 7 and 10). Each function parses the
//! production or part that its name states, and appends the table entries of what it parses.
//! Clauses: the builder has counted exactly the tokens before the cursor, before a call (`requires`) and, with `Ok`, after it (`number`).
//! `effect`: the function returns what the grammar's reader, the last argument, returns for these tokens, unless it returns the error
//! `Memory`. With `Ok`, unless an allocation failed, it has appended exactly the entries (`.._rows`) of the parsed tree.

ghost use Rattle.std.specs.Prelude.{◌≡◌, ◌+◌, ◌<◌, ◌^◌, ◌++◌, ℕ, Option, IfOk};
ghost use Rattle.std.specs.Global.{Vec};
ghost use Rattle.ob_scan.specs.declared.kind.Kind.TheVariants as kinds;
ghost use Rattle.ob_tree.specs.declared.declaration.ProcDecl.{ProcDecl};
ghost use Rattle.ob_tree.specs.Constructs.{Construct};
ghost use Rattle.ob_tree.specs.Constructs as constructs;
ghost use Rattle.ob_tree.specs.TreeEvents.{Events, construct, word, each, if_present, repeated};
ghost use Rattle.ob_tree.specs.Names.{identdef_events};
ghost use Rattle.ob_tree.specs.Expressions.{expr_events};
ghost use Rattle.ob_tree.specs.Types.{type_events, var_events};
ghost use Rattle.ob_tree.specs.Declaring.{part, declarations_events, procedure_events};
ghost use Rattle.table_rules.specs.Expressions.{expr_rows};
ghost use Rattle.table_rules.specs.Types.{identdef_rows, type_rows, var_rows};
ghost use Rattle.table_rules.specs.Declaring.{declarations_rows, procedure_rows};
ghost use Rattle.table_rules.specs.Declaring as tabulates;
ghost use Rattle.module_table.specs.Parts as parts;
ghost use Rattle.module_table.specs.Parts.{Fragment, both, token, declaring};
ghost use Rattle.ob_grammar.specs.Combinators.{Reader, optional, accept_at, expect_at, name_at, after_name, many, begins, seq, node};
ghost use Rattle.ob_grammar.specs.ReadExpressions.{expr_at};
ghost use Rattle.ob_grammar.specs.ReadNames.{identdef_at};
ghost use Rattle.ob_grammar.specs.ReadStatements.{block_at};
ghost use Rattle.ob_grammar.specs.ReadTypes.{type_at, var_with};
ghost use Rattle.ob_grammar.specs.ReadModules.{ConsumesToken, is_identifier, with_semicolon, const_with, type_decl_with, variable_with, section_with, procedures_with, body_with, procedure_named, procedure_with, procedure_at, declarations_at};
ghost use Rattle.ob_grammar.specs.ParsesAs.{remaining};
ghost use Rattle.ob_grammar.proofs.Loops.{const_shortens, type_decl_shortens, variable_shortens};
ghost use Rattle.ob_grammar.proofs.SoundExpressions.{expr_at_sound};
ghost use Rattle.ob_grammar.proofs.SoundTypes.{type_at_sound};
ghost use Rattle.table_reader.specs.DeclarationShapes.{ended_events, ended_rows, procedures_events, body_events, body_rows, returned_events, returned_rows, procedure_rest_events, procedure_rest_rows, procedure_block_events, block_step, ending_events, ending_step};
ghost use Rattle.table_reader.specs.Tabulating.{AppendsEntries, AppendsEntriesBy};

use crate::ends::procedure_end_name;
use crate::expressions::expression;
use crate::names::declared_name;
use crate::parameters::optional_parameters;
use crate::source::ParserInput;
use crate::statements::block;
use crate::types::{type_expression, var_declaration};
use crate::words::expect_word;
use module_table::builder::{
    Context, TableBuilder, block_context, decl_group_context, new_decl_group,
};
use module_table::{Block as BlockRow, DeclKind};
use ob_grammar::cursor::Cursor;
use ob_grammar::declarations::begins_declaration;
use ob_grammar::stop::Stop;
use ob_grammar::tokens::{accept, depth_stop, identifier, next_is, skip};
use ob_scan::Kind;
use ob_tree::declaration::{ConstDecl, TypeDecl, VarDecl};
use ob_tree::name::Identdef as Name;
use table_rules::walk::types::append_identdef;

/// A kind of declarations with a section of its own: constants, types or variables.
trait Declaration {
    // The grammar's reader of such a declaration, without the semicolon. Its argument is the number of nesting levels that are left.
    ghost read: { ℕ → Reader };

    // The events of a parsed declaration: its tokens and constructs in order.
    ghost events: { Self → Events };

    // The table entries of a parsed declaration.
    ghost effect: { Self → Fragment };

    // The construct of the grammar that such a declaration is.
    ghost production: { Construct };

    /// Parses a declaration without its semicolon.
    fn parts(
        builder: &mut TableBuilder,
        context: Context,
        source: &ParserInput,
        input: Cursor,
        depth: u32,
    ) -> Result<Cursor, Stop>
        requires { builder.old.number ≡ input.at }
        ensures effect { AppendsEntries source.now.tokens.now events effect context builder.old builder.new result (read depth (remaining source.now.tokens.now input)) }
        ensures number { IfOk result (λ rest. builder.new.number ≡ rest.at) };

    // A proof that the reader consumes at least one token.
    ghost shortens: { (depth : ℕ) → ConsumesToken (node production (read depth)) };
}

impl Declaration for ConstDecl {
    ghost read = { λ depth. seq identdef_at (seq (expect_at kinds.Equals) (expr_at depth)) };

    ghost events = { λ x. identdef_events x.name ++ (word kinds.Equals ++ expr_events x.value) };

    ghost effect = { λ x. both (identdef_rows x.name) (both token (expr_rows x.value)) };

    ghost production = { constructs.ConstDeclaration };

    fn parts(
        builder: &mut TableBuilder,
        context: Context,
        source: &ParserInput,
        input: Cursor,
        depth: u32,
    ) -> Result<Cursor, Stop> {
        match declared_name(builder, context, source.tokens, input) {
            Ok(here) => match expect_word(builder, source.tokens, here, Kind::Equals) {
                Ok(here) => expression(builder, context, source, here, depth),
                Err(stop) => Err(stop),
            },
            Err(stop) => Err(stop),
        }
    }

    ghost shortens = { λ depth. unfold const_with in const_shortens depth (expr_at depth) (expr_at_sound depth) };
}

impl Declaration for TypeDecl {
    ghost read = { λ depth. seq identdef_at (seq (expect_at kinds.Equals) (type_at depth)) };

    ghost events = { λ x. identdef_events x.name ++ (word kinds.Equals ++ type_events x.type_expr) };

    ghost effect = { λ x. both (identdef_rows x.name) (both token (type_rows x.type_expr)) };

    ghost production = { constructs.TypeDeclaration };

    fn parts(
        builder: &mut TableBuilder,
        context: Context,
        source: &ParserInput,
        input: Cursor,
        depth: u32,
    ) -> Result<Cursor, Stop> {
        match declared_name(builder, context, source.tokens, input) {
            Ok(here) => match expect_word(builder, source.tokens, here, Kind::Equals) {
                Ok(here) => type_expression(builder, context, source, here, depth),
                Err(stop) => Err(stop),
            },
            Err(stop) => Err(stop),
        }
    }

    ghost shortens = { λ depth. unfold type_decl_with in type_decl_shortens depth (type_at depth) (type_at_sound depth) };
}

impl Declaration for VarDecl {
    ghost read = { λ depth. var_with (type_at depth) };

    ghost events = { var_events };

    ghost effect = { var_rows };

    ghost production = { constructs.VariableDeclaration };

    fn parts(
        builder: &mut TableBuilder,
        context: Context,
        source: &ParserInput,
        input: Cursor,
        depth: u32,
    ) -> Result<Cursor, Stop> {
        var_declaration(builder, context, source, input, depth)
    }

    ghost shortens = { λ depth. unfold variable_with in variable_shortens depth (type_at depth) (type_at_sound depth) };
}

/// Parses a declaration of this kind and its semicolon.
fn declaration_with_semicolon<D: Declaration>(
    builder: &mut TableBuilder,
    context: Context,
    source: &ParserInput,
    input: Cursor,
    depth: u32,
    decl_kind: DeclKind,
) -> Result<Cursor, Stop>
    requires { builder.old.number ≡ input.at }
    ensures effect { AppendsEntries source.now.tokens.now (ended_events (λ x. construct D.production (D.events x))) (ended_rows (λ x. declaring decl_kind (D.effect x))) context builder.old builder.new result
        (with_semicolon (node D.production (D.read depth)) (remaining source.now.tokens.now input)) }
    ensures number { IfOk result (λ rest. builder.new.number ≡ rest.at) }
{
    let first = builder.number;
    let row = new_decl_group(decl_kind, context, first);
    let at = builder.open_decl_group(row);
    match D::parts(
        builder,
        decl_group_context(context, first),
        source,
        input,
        depth,
    ) {
        Ok(here) => {
            builder.close_decl_group(at, row);
            expect_word(builder, source.tokens, here, Kind::Semicolon)
        }
        Err(stop) => Err(stop),
    }
}

/// Parses the declarations of a section, each with its semicolon.
fn declared<D: Declaration>(
    builder: &mut TableBuilder,
    context: Context,
    source: &ParserInput,
    input: Cursor,
    depth: u32,
    decl_kind: DeclKind,
) -> Result<Cursor, Stop>
    requires { builder.old.number ≡ input.at }
    ensures effect { AppendsEntries {T = Vec D} source.now.tokens.now (λ v. each (ended_events (λ x. construct D.production (D.events x))) v.items) (λ v. parts.each (ended_rows (λ x. declaring decl_kind (D.effect x))) v.items) context builder.old builder.new result
        (many (begins is_identifier) (with_semicolon (node D.production (D.read depth))) (remaining source.now.tokens.now input)) }
    ensures number { IfOk result (λ rest. builder.new.number ≡ rest.at) }
{
    let mut here = input;
    'more: while begins_declaration(source.tokens, here) {
        match declaration_with_semicolon::<D>(builder, context, source, here, depth, decl_kind) {
            Ok(next) => here = next,
            Err(stop) => return Err(stop),
        }
    }
    Ok(here)
}

/// Parses the section of declarations after this keyword, if the keyword is next.
fn declaration_section<D: Declaration>(
    builder: &mut TableBuilder,
    context: Context,
    source: &ParserInput,
    input: Cursor,
    depth: u32,
    keyword: Kind,
    decl_kind: DeclKind,
) -> Result<Cursor, Stop>
    requires { builder.old.number ≡ input.at }
    ensures effect { AppendsEntries {T = Option (Vec D)} source.now.tokens.now (if_present (λ v. part keyword (λ x. construct D.production (D.events x)) v.items)) (parts.if_present (λ v. tabulates.part (λ x. declaring decl_kind (D.effect x)) v.items)) context builder.old builder.new result
        (section_with keyword (node D.production (D.read depth)) (remaining source.now.tokens.now input)) }
    ensures number { IfOk result (λ rest. builder.new.number ≡ rest.at) }
{
    match accept(source.tokens, input, keyword) {
        None => Ok(input),
        Some(rest) => {
            builder.advance();
            declared::<D>(builder, context, source, rest, depth, decl_kind)
        }
    }
}

/// Parses the procedures of a declaration sequence, which may have none, each with its semicolon.
#[cycle(declarations)]
fn procedures(
    builder: &mut TableBuilder,
    context: Context,
    source: &ParserInput,
    input: Cursor,
    depth: u32,
) -> Result<Cursor, Stop>
    requires { builder.old.number ≡ input.at }
    ensures effect { AppendsEntries {T = Vec ProcDecl} source.now.tokens.now (λ v. procedures_events v.items) (λ v. parts.each (ended_rows procedure_rows) v.items) context builder.old builder.new result
        (procedures_with (procedure_at depth) (remaining source.now.tokens.now input)) }
    ensures number { IfOk result (λ rest. builder.new.number ≡ rest.at) }
{
    let mut here = input;
    'more: while next_is(source.tokens, here, Kind::Procedure) {
        match procedure_with_semicolon(builder, context, source, here, depth) {
            Ok(next) => here = next,
            Err(stop) => return Err(stop),
        }
    }
    Ok(here)
}

/// Parses a procedure and its semicolon. It is always inlined, so that a level of nesting takes as few calls as in `ob_parse`.
#[inline(always)]
#[cycle(declarations)]
fn procedure_with_semicolon(
    builder: &mut TableBuilder,
    context: Context,
    source: &ParserInput,
    input: Cursor,
    depth: u32,
) -> Result<Cursor, Stop>
    requires { builder.old.number ≡ input.at }
    ensures effect { AppendsEntries source.now.tokens.now (ended_events procedure_events) (ended_rows procedure_rows) context builder.old builder.new result
        (with_semicolon (procedure_at depth) (remaining source.now.tokens.now input)) }
    ensures number { IfOk result (λ rest. builder.new.number ≡ rest.at) }
{
    match procedure(builder, context, source, input, depth) {
        Ok(here) => expect_word(builder, source.tokens, here, Kind::Semicolon),
        Err(stop) => Err(stop),
    }
}

/// Parses a procedure, which takes one of the `depth` nesting levels that are left. If none is left, returns an error.
#[cycle(declarations)]
fn procedure(
    builder: &mut TableBuilder,
    context: Context,
    source: &ParserInput,
    input: Cursor,
    depth: u32,
) -> Result<Cursor, Stop>
    requires { builder.old.number ≡ input.at }
    ensures effect { AppendsEntries source.now.tokens.now procedure_events procedure_rows context builder.old builder.new result (procedure_at depth (remaining source.now.tokens.now input)) }
    ensures number { IfOk result (λ rest. builder.new.number ≡ rest.at) }
{
    if depth == 0 {
        return Err(depth_stop(
            source.tokens,
            input,
            next_is(source.tokens, input, Kind::Procedure),
        ));
    }
    procedure_after_depth_check(builder, context, source, input, depth - 1)
}

/// Parses a procedure. `depth` is the number of nesting levels left for its parts: the procedure's own level is already subtracted.
#[cycle(declarations)]
fn procedure_after_depth_check(
    builder: &mut TableBuilder,
    context: Context,
    source: &ParserInput,
    input: Cursor,
    depth: u32,
) -> Result<Cursor, Stop>
    requires { builder.old.number ≡ input.at }
    ensures effect { AppendsEntries source.now.tokens.now procedure_events procedure_rows context builder.old builder.new result
        (procedure_with (expr_at depth) (block_at depth) (declarations_at depth) (remaining source.now.tokens.now input)) }
    ensures number { IfOk result (λ rest. builder.new.number ≡ rest.at) }
{
    let first = builder.number;
    let row = new_decl_group(DeclKind::Procedure, context, first);
    let at = builder.open_decl_group(row);
    builder.add_block(BlockRow {
        first,
        outer: context.block,
    });
    let around = block_context(decl_group_context(context, first), first);
    match procedure_in_block(builder, around, source, input, depth) {
        Ok(here) => {
            builder.close_decl_group(at, row);
            Ok(here)
        }
        Err(stop) => Err(stop),
    }
}

/// Parses a procedure from its PROCEDURE on. `context` has the procedure's declaration group, which declares its name, and its own block.
#[inline(always)]
#[cycle(declarations)]
fn procedure_in_block(
    builder: &mut TableBuilder,
    context: Context,
    source: &ParserInput,
    input: Cursor,
    depth: u32,
) -> Result<Cursor, Stop>
    // The declaration group of the procedure begins at the next token, PROCEDURE.
    requires decl_group { context.decl_group ≡ builder.old.number }
    requires number { builder.old.number ≡ input.at }
    ensures effect { AppendsEntries source.now.tokens.now (λ p. word kinds.Procedure ++ procedure_rest_events p) (λ p. both token (procedure_rest_rows p)) context builder.old builder.new result
        (seq (expect_at kinds.Procedure) (after_name (procedure_named (expr_at depth) (block_at depth) (declarations_at depth))) (remaining source.now.tokens.now input)) }
    ensures number { IfOk result (λ rest. builder.new.number ≡ rest.at) }
{
    match expect_word(builder, source.tokens, input, Kind::Procedure) {
        Ok(here) => match identifier(source.tokens, here) {
            Ok((name, here)) => procedure_after_name(builder, context, source, here, depth, name),
            Err(stop) => Err(stop),
        },
        Err(stop) => Err(stop),
    }
}

/// Parses a procedure after PROCEDURE and its name, whose index is `name`.
#[inline(always)]
#[cycle(declarations)]
fn procedure_after_name(
    builder: &mut TableBuilder,
    context: Context,
    source: &ParserInput,
    input: Cursor,
    depth: u32,
    name: u32,
) -> Result<Cursor, Stop>
    // The index of the procedure's name, one more than that of PROCEDURE, fits into 32 bits. The builder hasn't counted the name yet.
    requires decl_group { context.decl_group + 1 < 2 ^ 32 }
    requires number { builder.old.number + 1 ≡ input.at }
    ensures effect { AppendsEntries source.now.tokens.now procedure_rest_events procedure_rest_rows context builder.old builder.new result
        (procedure_named (expr_at depth) (block_at depth) (declarations_at depth) name (remaining source.now.tokens.now input)) }
    ensures number { IfOk result (λ rest. builder.new.number ≡ rest.at) }
{
    let (is_exported, here) = skip(source.tokens, input, Kind::Star);
    append_identdef(builder, context, Name { name, is_exported });
    match optional_parameters(builder, context, source.tokens, here) {
        Ok(here) => match expect_word(builder, source.tokens, here, Kind::Semicolon) {
            Ok(here) => procedure_block(builder, context, source, here, depth, name),
            Err(stop) => Err(stop),
        },
        Err(stop) => Err(stop),
    }
}

/// Parses the part of a procedure after its heading. `name` is the index of the name that has to be repeated after END.
#[cycle(declarations)]
fn procedure_block(
    builder: &mut TableBuilder,
    context: Context,
    source: &ParserInput,
    input: Cursor,
    depth: u32,
    name: u32,
) -> Result<Cursor, Stop>
    // The index of the procedure's name, one more than that of PROCEDURE, fits into 32 bits.
    requires decl_group { context.decl_group + 1 < 2 ^ 32 }
    requires number { builder.old.number ≡ input.at }
    ensures effect { AppendsEntriesBy source.now.tokens.now (procedure_block_events name) (block_step context) builder.old builder.new result
        (seq (declarations_at depth) (seq (body_with (block_at depth)) (seq (optional (accept_at kinds.Return) (expr_at depth))
        (seq (expect_at kinds.End) (name_at (repeated name))))) (remaining source.now.tokens.now input)) }
    ensures number { IfOk result (λ rest. builder.new.number ≡ rest.at) }
{
    match declarations(builder, context, source, input, depth) {
        Ok(here) => procedure_ending(builder, context, source, here, depth, name),
        Err(stop) => Err(stop),
    }
}

/// Parses BEGIN and statements, if BEGIN is next.
pub(crate) fn body(
    builder: &mut TableBuilder,
    context: Context,
    source: &ParserInput,
    input: Cursor,
    depth: u32,
) -> Result<Cursor, Stop>
    requires { builder.old.number ≡ input.at }
    ensures effect { AppendsEntries source.now.tokens.now body_events body_rows context builder.old builder.new result (body_with (block_at depth) (remaining source.now.tokens.now input)) }
    ensures number { IfOk result (λ rest. builder.new.number ≡ rest.at) }
{
    match accept(source.tokens, input, Kind::Begin) {
        None => Ok(input),
        Some(rest) => {
            builder.advance();
            block(builder, context, source, rest, depth)
        }
    }
}

/// Parses RETURN and its expression, if RETURN is next.
fn optional_return(
    builder: &mut TableBuilder,
    context: Context,
    source: &ParserInput,
    input: Cursor,
    depth: u32,
) -> Result<Cursor, Stop>
    requires { builder.old.number ≡ input.at }
    ensures effect { AppendsEntries source.now.tokens.now returned_events returned_rows context builder.old builder.new result (optional (accept_at kinds.Return) (expr_at depth) (remaining source.now.tokens.now input)) }
    ensures number { IfOk result (λ rest. builder.new.number ≡ rest.at) }
{
    match accept(source.tokens, input, Kind::Return) {
        None => Ok(input),
        Some(rest) => {
            builder.advance();
            expression(builder, context, source, rest, depth)
        }
    }
}

/// Parses the part of a procedure after its declarations. `name` is the index of the name that has to be repeated after END.
fn procedure_ending(
    builder: &mut TableBuilder,
    context: Context,
    source: &ParserInput,
    input: Cursor,
    depth: u32,
    name: u32,
) -> Result<Cursor, Stop>
    // The index of the procedure's name, one more than that of PROCEDURE, fits into 32 bits.
    requires decl_group { context.decl_group + 1 < 2 ^ 32 }
    requires number { builder.old.number ≡ input.at }
    ensures effect { AppendsEntriesBy source.now.tokens.now (ending_events name) (ending_step context) builder.old builder.new result
        (seq (body_with (block_at depth)) (seq (optional (accept_at kinds.Return) (expr_at depth))
        (seq (expect_at kinds.End) (name_at (repeated name)))) (remaining source.now.tokens.now input)) }
    ensures number { IfOk result (λ rest. builder.new.number ≡ rest.at) }
{
    match body(builder, context, source, input, depth) {
        Ok(here) => match optional_return(builder, context, source, here, depth) {
            Ok(here) => match expect_word(builder, source.tokens, here, Kind::End) {
                Ok(here) => procedure_end_name(builder, context, source.tokens, here, name),
                Err(stop) => Err(stop),
            },
            Err(stop) => Err(stop),
        },
        Err(stop) => Err(stop),
    }
}

/// Parses the declarations of a module or a procedure. `depth` is the number of nesting levels that are left for them.
#[cycle(declarations)]
pub(crate) fn declarations(
    builder: &mut TableBuilder,
    context: Context,
    source: &ParserInput,
    input: Cursor,
    depth: u32,
) -> Result<Cursor, Stop>
    requires { builder.old.number ≡ input.at }
    ensures effect { AppendsEntries source.now.tokens.now declarations_events declarations_rows context builder.old builder.new result (declarations_at depth (remaining source.now.tokens.now input)) }
    ensures number { IfOk result (λ rest. builder.new.number ≡ rest.at) }
{
    match declaration_section::<ConstDecl>(
        builder,
        context,
        source,
        input,
        depth,
        Kind::Const,
        DeclKind::Constant,
    ) {
        Ok(here) => match declaration_section::<TypeDecl>(
            builder,
            context,
            source,
            here,
            depth,
            Kind::Type,
            DeclKind::Type,
        ) {
            Ok(here) => match declaration_section::<VarDecl>(
                builder,
                context,
                source,
                here,
                depth,
                Kind::Var,
                DeclKind::Variable,
            ) {
                Ok(here) => procedures(builder, context, source, here, depth),
                Err(stop) => Err(stop),
            },
            Err(stop) => Err(stop),
        },
        Err(stop) => Err(stop),
    }
}
