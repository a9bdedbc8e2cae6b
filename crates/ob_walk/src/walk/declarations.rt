//! Emits the tokens of declarations and modules.

ghost use Rattle.std.specs.Prelude.{◌≡◌, ◌++◌};
ghost use Rattle.ob_scan.specs.declared.kind.Kind.TheVariants as kinds;
ghost use Rattle.ob_tree.specs.Declaring.{part, const_events, type_decl_events, variable_events, declarations_events, procedure_events, import_events, module_events};
ghost use Rattle.ob_walk.specs.Items.{items_of, with_items};
ghost use Rattle.ob_tree.specs.Expressions.{expr_events};
ghost use Rattle.ob_tree.specs.TreeEvents.{word, if_present, separated};
ghost use Rattle.ob_tree.specs.Names.{identdef_events};
ghost use Rattle.ob_tree.specs.Statements.{block_events};
ghost use Rattle.ob_tree.specs.Types.{parameters_events};

use crate::item::Item;
use crate::items::Items;
use crate::walk::expressions::walk_expr;
use crate::walk::names::walk_identdef;
use crate::walk::statements::walk_block;
use crate::walk::types::{walk_parameters, walk_type, walk_var};
use ob_tree::declaration::{
    ConstDecl, Declarations, ImportItem, Module, Parameters, ProcDecl, TypeDecl, VarDecl,
};
use ob_tree::expression::Expr;
use ob_tree::name::{Identdef, OneOrMore};
use ob_tree::role::Role;
use ob_tree::statement::StatementSequence;

/// Emits CONST and its declarations.
#[tactic(auto, using(crate::proofs::DeclarationWalks::section_walks))]
fn walk_constants(out: &mut Items, constants: &[ConstDecl])
    ensures { out.new ≡ with_items out.old (items_of (part kinds.Const const_events constants.now)) }
{
    out.emit(Item::Word);
    for constant in constants {
        walk_identdef(out, constant.name);
        out.emit(Item::Word);
        walk_expr(out, &constant.value);
        out.emit(Item::Word);
    }
}

/// Emits TYPE and its declarations.
#[tactic(auto, using(crate::proofs::DeclarationWalks::section_walks))]
fn walk_types(out: &mut Items, types: &[TypeDecl])
    ensures { out.new ≡ with_items out.old (items_of (part kinds.Type type_decl_events types.now)) }
{
    out.emit(Item::Word);
    for declared in types {
        walk_identdef(out, declared.name);
        out.emit(Item::Word);
        walk_type(out, &declared.type_expr);
        out.emit(Item::Word);
    }
}

/// Emits VAR and its declarations.
#[tactic(auto, using(crate::proofs::DeclarationWalks::section_walks))]
fn walk_variables(out: &mut Items, variables: &[VarDecl])
    ensures { out.new ≡ with_items out.old (items_of (part kinds.Var variable_events variables.now)) }
{
    out.emit(Item::Word);
    for declared in variables {
        walk_var(out, declared);
        out.emit(Item::Word);
    }
}

#[cycle(declarations)]
#[tactic(auto, using(crate::proofs::DeclarationWalks::declaration_walks))]
fn walk_declarations(out: &mut Items, declarations: &Declarations)
    ensures { out.new ≡ with_items out.old (items_of (declarations_events declarations.now)) }
{
    match &declarations.constants {
        None => {}
        Some(constants) => walk_constants(out, constants),
    }
    match &declarations.types {
        None => {}
        Some(types) => walk_types(out, types),
    }
    match &declarations.variables {
        None => {}
        Some(variables) => walk_variables(out, variables),
    }
    for procedure in &declarations.procedures {
        walk_procedure(out, procedure);
        out.emit(Item::Word);
    }
}

#[cycle(declarations)]
#[tactic(auto, using(crate::proofs::DeclarationWalks::declaration_walks))]
fn walk_procedure(out: &mut Items, procedure: &ProcDecl)
    ensures { out.new ≡ with_items out.old (items_of (procedure_events procedure.now)) }
{
    walk_heading(out, procedure.name, &procedure.parameters);
    walk_declarations(out, &procedure.declarations);
    walk_procedure_body(out, &procedure.body);
    walk_return(out, &procedure.returned);
    out.emit(Item::Word);
    out.emit(Item::Identifier(Role::Repeats(procedure.name.name), procedure.end_name));
}

/// Emits PROCEDURE up to the semicolon before the declarations.
#[tactic(auto, using(crate::proofs::DeclarationWalks::section_walks))]
fn walk_heading(out: &mut Items, name: Identdef, parameters: &Option<Parameters>)
    ensures { out.new ≡ with_items out.old (items_of (word kinds.Procedure ++ (identdef_events name ++ (if_present parameters_events parameters.now ++ word kinds.Semicolon)))) }
{
    out.emit(Item::Word);
    walk_identdef(out, name);
    match parameters {
        None => {}
        Some(parameters) => walk_parameters(out, parameters),
    }
    out.emit(Item::Word);
}

/// Emits BEGIN and the statements of a procedure, if it has any.
#[tactic(auto, using(crate::proofs::DeclarationWalks::section_walks))]
fn walk_procedure_body(out: &mut Items, body: &Option<Box<StatementSequence>>)
    ensures { out.new ≡ with_items out.old (items_of (if_present (λ b. word kinds.Begin ++ block_events b.value) body.now)) }
{
    match body {
        None => {}
        Some(body) => {
            out.emit(Item::Word);
            walk_block(out, body);
        }
    }
}

/// Emits RETURN and its expression.
#[tactic(auto, using(crate::proofs::DeclarationWalks::section_walks))]
fn walk_return(out: &mut Items, answer: &Option<Box<Expr>>)
    ensures { out.new ≡ with_items out.old (items_of (if_present (λ e. word kinds.Return ++ expr_events e.value) answer.now)) }
{
    match answer {
        None => {}
        Some(answer) => {
            out.emit(Item::Word);
            walk_expr(out, answer);
        }
    }
}

#[tactic(auto, using(crate::proofs::DeclarationWalks::module_walks))]
fn walk_import(out: &mut Items, import: ImportItem)
    ensures { out.new ≡ with_items out.old (items_of (import_events import)) }
{
    out.emit(Item::Identifier(Role::Aliases, import.name));
    match import.of {
        None => {}
        Some(number) => {
            out.emit(Item::Word);
            out.emit(Item::Identifier(Role::Imports, number));
        }
    }
}

/// Emits the import list, from IMPORT to its semicolon, if there is one.
#[tactic(auto, using(crate::proofs::DeclarationWalks::module_walks))]
fn walk_imports(out: &mut Items, imports: &Option<OneOrMore<ImportItem>>)
    ensures { out.new ≡ with_items out.old (items_of (if_present (λ l. word kinds.Import ++ (separated kinds.Comma import_events l ++ word kinds.Semicolon)) imports.now)) }
{
    match imports {
        None => {}
        Some(imports) => {
            out.emit(Item::Word);
            walk_import(out, imports.first);
            for import in &imports.rest {
                out.emit(Item::Word);
                walk_import(out, *import);
            }
            out.emit(Item::Word);
        }
    }
}

/// Emits BEGIN and the statements of a module.
#[tactic(auto, using(crate::proofs::DeclarationWalks::section_walks))]
fn walk_module_body(out: &mut Items, body: &Option<StatementSequence>)
    ensures { out.new ≡ with_items out.old (items_of (if_present (λ b. word kinds.Begin ++ block_events b) body.now)) }
{
    match body {
        None => {}
        Some(body) => {
            out.emit(Item::Word);
            walk_block(out, body);
        }
    }
}

#[tactic(auto, using(crate::proofs::DeclarationWalks::module_walks))]
pub(crate) fn walk_module(out: &mut Items, module: &Module)
    ensures { out.new ≡ with_items out.old (items_of (module_events «module».now)) }
{
    out.emit(Item::Word);
    out.emit(Item::Identifier(Role::Names, module.name));
    out.emit(Item::Word);
    walk_imports(out, &module.imports);
    walk_declarations(out, &module.declarations);
    walk_module_body(out, &module.body);
    out.emit(Item::Word);
    out.emit(Item::Identifier(Role::Repeats(module.name), module.end_name));
    out.emit(Item::Word);
}
