//! Emits the tokens of statements.

ghost use Rattle.std.specs.Prelude.{◌≡◌, ◌++◌};
ghost use Rattle.ob_scan.specs.declared.kind.Kind.TheVariants as kinds;
ghost use Rattle.ob_walk.specs.Items.{items_of, with_items};
ghost use Rattle.ob_tree.specs.TreeEvents.{word, if_present, each_after};
ghost use Rattle.ob_tree.specs.Statements.{label_events, label_range_events, case_events, stmt_events, block_events, branch_events, for_events};

use crate::item::Item;
use crate::items::Items;
use crate::walk::expressions::{walk_designator, walk_expr};
use crate::walk::names::walk_qualident;
use ob_tree::role::Role;
use ob_tree::statement::{Branch, Case, For, Label, LabelRange, StatementSequence, Stmt};

#[tactic(auto, using(crate::proofs::StatementWalks::label_items))]
fn walk_label(out: &mut Items, label: Label)
    ensures { out.new ≡ with_items out.old (items_of (label_events label)) }
{
    match label {
        Label::Integer(number) => out.emit(Item::Value(number)),
        Label::Text(number) => out.emit(Item::Value(number)),
        Label::Name(name) => walk_qualident(out, name),
    }
}

#[tactic(auto, using(crate::proofs::StatementWalks::label_items))]
fn walk_label_range(out: &mut Items, range: LabelRange)
    ensures { out.new ≡ with_items out.old (items_of (label_range_events range)) }
{
    walk_label(out, range.low);
    match range.high {
        None => {}
        Some(high) => {
            out.emit(Item::Word);
            walk_label(out, high);
        }
    }
}

#[cycle(statements)]
#[tactic(auto, using(crate::proofs::StatementWalks::statement_items))]
pub(crate) fn walk_block(out: &mut Items, block: &StatementSequence)
    ensures { out.new ≡ with_items out.old (items_of (block_events block.now)) }
{
    walk_stmt(out, &block.first);
    for stmt in &block.rest {
        out.emit(Item::Word);
        walk_stmt(out, stmt);
    }
}

#[cycle(statements)]
#[tactic(auto, using(crate::proofs::StatementWalks::statement_items))]
fn walk_stmt(out: &mut Items, stmt: &Stmt)
    ensures { out.new ≡ with_items out.old (items_of (stmt_events stmt.now)) }
{
    match stmt {
        Stmt::Empty => {}
        Stmt::Assign(target, value) => {
            walk_designator(out, target);
            out.emit(Item::Word);
            walk_expr(out, value);
        }
        Stmt::Call(callee) => walk_designator(out, callee),
        Stmt::If(first, rest, otherwise) => {
            out.emit(Item::Word);
            walk_branch(out, first);
            walk_branches(out, rest);
            walk_else(out, otherwise);
            out.emit(Item::Word);
        }
        Stmt::Case(chosen, first, rest) => {
            out.emit(Item::Word);
            walk_expr(out, chosen);
            out.emit(Item::Word);
            walk_case(out, first);
            walk_cases(out, rest);
            out.emit(Item::Word);
        }
        Stmt::While(first, rest) => {
            out.emit(Item::Word);
            walk_branch(out, first);
            walk_branches(out, rest);
            out.emit(Item::Word);
        }
        Stmt::Repeat(body, until) => {
            out.emit(Item::Word);
            walk_block(out, body);
            out.emit(Item::Word);
            walk_expr(out, until);
        }
        Stmt::For(for_loop) => walk_for(out, for_loop),
    }
}

/// Emits ELSE and its statements.
#[cycle(statements)]
#[tactic(auto, using(crate::proofs::StatementWalks::statement_items))]
fn walk_else(out: &mut Items, otherwise: &Option<Box<StatementSequence>>)
    ensures { out.new ≡ with_items out.old (items_of (if_present (λ b. word kinds.Else ++ block_events b.value) otherwise.now)) }
{
    match otherwise {
        None => {}
        Some(body) => {
            out.emit(Item::Word);
            walk_block(out, body);
        }
    }
}

/// Emits a branch of an IF; a branch of a WHILE has equal items, since THEN and DO are both words.
#[cycle(statements)]
#[tactic(auto, using(crate::proofs::StatementWalks::statement_items))]
fn walk_branch(out: &mut Items, branch: &Branch)
    ensures { out.new ≡ with_items out.old (items_of (branch_events branch.now kinds.Then)) }
{
    walk_expr(out, &branch.condition);
    out.emit(Item::Word);
    walk_block(out, &branch.body)
}

/// Emits the branches after the first one.
#[cycle(statements)]
#[tactic(auto, using(crate::proofs::StatementWalks::statement_items))]
fn walk_branches(out: &mut Items, branches: &Vec<Branch>)
    ensures { out.new ≡ with_items out.old (items_of (each_after kinds.Elsif (λ b. branch_events b kinds.Then) branches.now.items)) }
{
    for branch in branches {
        out.emit(Item::Word);
        walk_branch(out, branch);
    }
}

/// Emits the cases after the first one.
#[cycle(statements)]
#[tactic(auto, using(crate::proofs::StatementWalks::statement_items))]
fn walk_cases(out: &mut Items, cases: &Vec<Case>)
    ensures { out.new ≡ with_items out.old (items_of (each_after kinds.Bar case_events cases.now.items)) }
{
    for case in cases {
        out.emit(Item::Word);
        walk_case(out, case);
    }
}

#[cycle(statements)]
#[tactic(auto, using(crate::proofs::StatementWalks::statement_items))]
fn walk_case(out: &mut Items, case: &Case)
    ensures { out.new ≡ with_items out.old (items_of (case_events case.now)) }
{
    match case {
        Case::Nothing => {}
        Case::Labelled(ranges, body) => {
            walk_label_range(out, ranges.first);
            for range in &ranges.rest {
                out.emit(Item::Word);
                walk_label_range(out, *range);
            }
            out.emit(Item::Word);
            walk_block(out, body);
        }
    }
}

#[cycle(statements)]
#[tactic(auto, using(crate::proofs::StatementWalks::statement_items))]
fn walk_for(out: &mut Items, for_loop: &For)
    ensures { out.new ≡ with_items out.old (items_of (for_events for_loop.now)) }
{
    out.emit(Item::Word);
    out.emit(Item::Identifier(Role::Uses, for_loop.variable));
    out.emit(Item::Word);
    walk_expr(out, &for_loop.from);
    out.emit(Item::Word);
    walk_expr(out, &for_loop.to);
    match &for_loop.by {
        None => {}
        Some(by) => {
            out.emit(Item::Word);
            walk_expr(out, by);
        }
    }
    out.emit(Item::Word);
    walk_block(out, &for_loop.body);
    out.emit(Item::Word);
}
