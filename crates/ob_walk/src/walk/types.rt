//! Emits the tokens of types.

ghost use Rattle.std.specs.Prelude.{◌≡◌, ◌++◌, false};
ghost use Rattle.ob_scan.specs.declared.kind.Kind.TheVariants as kinds;
ghost use Rattle.ob_walk.specs.Items.{items_of, with_items};
ghost use Rattle.ob_tree.specs.TreeEvents.{declared, if_true, separated, word, times};
ghost use Rattle.ob_tree.specs.Types.{section_events, parameters_events, type_events, fields_events, record_events, var_events};

use crate::item::Item;
use crate::items::Items;
use crate::walk::expressions::walk_expr_list;
use crate::walk::names::{walk_identdef, walk_qualident};
use ob_tree::declaration::{Fields, ParameterSection, Parameters, Record, TypeForm, VarDecl};
use ob_tree::role::Role;

/// Emits ARRAY OF `count` times.
#[tactic(auto, using(crate::proofs::TypeWalks::section_walks))]
fn walk_open_arrays(out: &mut Items, count: u32)
    ensures { out.new ≡ with_items out.old (items_of (times count (word kinds.Array ++ word kinds.Of))) }
{
    for level in 0..count {
        out.emit(Item::Word);
        out.emit(Item::Word);
    }
}

/// Emits the names of a parameter section, with VAR if they are variable parameters.
#[tactic(auto, using(crate::proofs::TypeWalks::section_walks))]
fn walk_section_names(out: &mut Items, section: &ParameterSection)
    ensures { out.new ≡ with_items out.old (items_of (if_true section.now.variable (word kinds.Var) ++ separated kinds.Comma (declared false) section.now.names)) }
{
    if section.variable {
        out.emit(Item::Word);
    }
    out.emit(Item::Identifier(Role::Declares { is_exported: false }, section.names.first));
    for name in &section.names.rest {
        out.emit(Item::Word);
        out.emit(Item::Identifier(Role::Declares { is_exported: false }, *name));
    }
}

#[tactic(auto, using(crate::proofs::TypeWalks::section_walks))]
fn walk_section(out: &mut Items, section: &ParameterSection)
    ensures { out.new ≡ with_items out.old (items_of (section_events section.now)) }
{
    walk_section_names(out, section);
    out.emit(Item::Word);
    walk_open_arrays(out, section.open_arrays);
    walk_qualident(out, section.of);
}

#[tactic(auto, using(crate::proofs::TypeWalks::section_walks))]
pub(crate) fn walk_parameters(out: &mut Items, parameters: &Parameters)
    ensures { out.new ≡ with_items out.old (items_of (parameters_events parameters.now)) }
{
    out.emit(Item::Word);
    match &parameters.sections {
        None => {}
        Some(sections) => {
            walk_section(out, &sections.first);
            for section in &sections.rest {
                out.emit(Item::Word);
                walk_section(out, section);
            }
        }
    }
    out.emit(Item::Word);
    match parameters.result {
        None => {}
        Some(answer) => {
            out.emit(Item::Word);
            walk_qualident(out, answer);
        }
    }
}

#[cycle(types)]
#[tactic(auto, using(crate::proofs::TypeWalks::type_walks))]
pub(crate) fn walk_type(out: &mut Items, type_expr: &TypeForm)
    ensures { out.new ≡ with_items out.old (items_of (type_events type_expr.now)) }
{
    match type_expr {
        TypeForm::Named(name) => walk_qualident(out, *name),
        TypeForm::ArrayOf(lengths, of) => {
            out.emit(Item::Word);
            walk_expr_list(out, lengths);
            out.emit(Item::Word);
            walk_type(out, of);
        }
        TypeForm::RecordOf(record) => walk_record(out, record),
        TypeForm::PointerTo(target) => {
            out.emit(Item::Word);
            out.emit(Item::Word);
            walk_type(out, target);
        }
        TypeForm::ProcOf(parameters) => {
            out.emit(Item::Word);
            match parameters {
                None => {}
                Some(parameters) => walk_parameters(out, parameters),
            }
        }
    }
}

#[cycle(types)]
#[tactic(auto, using(crate::proofs::TypeWalks::type_walks))]
fn walk_record(out: &mut Items, type_expr: &Record)
    ensures { out.new ≡ with_items out.old (items_of (record_events type_expr.now)) }
{
    out.emit(Item::Word);
    match type_expr.base {
        None => {}
        Some(base) => {
            out.emit(Item::Word);
            walk_qualident(out, base);
            out.emit(Item::Word);
        }
    }
    match &type_expr.fields {
        None => {}
        Some(fields) => walk_fields(out, fields),
    }
    out.emit(Item::Word);
}

#[cycle(types)]
#[tactic(auto, using(crate::proofs::TypeWalks::type_walks))]
fn walk_fields(out: &mut Items, fields: &Fields)
    ensures { out.new ≡ with_items out.old (items_of (fields_events fields.now)) }
{
    walk_var(out, &fields.first);
    for field in &fields.rest {
        out.emit(Item::Word);
        walk_var(out, field);
    }
    if fields.closing_semicolon {
        out.emit(Item::Word);
    }
}

#[cycle(types)]
#[tactic(auto, using(crate::proofs::TypeWalks::type_walks))]
pub(crate) fn walk_var(out: &mut Items, variables: &VarDecl)
    ensures { out.new ≡ with_items out.old (items_of (var_events variables.now)) }
{
    walk_identdef(out, variables.names.first);
    for name in &variables.names.rest {
        out.emit(Item::Word);
        walk_identdef(out, *name);
    }
    out.emit(Item::Word);
    walk_type(out, &variables.type_expr)
}
