//! Emits the tokens of expressions and designators.

ghost use Rattle.std.specs.Prelude.{◌≡◌};
ghost use Rattle.ob_walk.specs.Items.{items_of, with_items};
ghost use Rattle.ob_tree.specs.Expressions.{factor_events, selector_events, designator_events, element_events, element_list_events, expr_events, expr_list_events, sum_events, term_events};

use crate::item::Item;
use crate::items::Items;
use ob_tree::expression::{
    Designator, Element, ElementList, Expr, ExprList, Factor, Selector, SimpleExpression, Term,
};
use ob_tree::role::Role;

#[cycle(expressions)]
#[tactic(auto, using(crate::proofs::ExpressionWalks::expr_walk))]
pub(crate) fn walk_expr(out: &mut Items, expr: &Expr)
    ensures { out.new ≡ with_items out.old (items_of (expr_events expr.now)) }
{
    walk_sum(out, &expr.left);
    match &expr.compared {
        None => {}
        Some((_, right)) => {
            out.emit(Item::Word);
            walk_sum(out, right);
        }
    }
}

#[cycle(expressions)]
#[tactic(auto, using(crate::proofs::ExpressionWalks::sum_walk))]
fn walk_sum(out: &mut Items, sum: &SimpleExpression)
    ensures { out.new ≡ with_items out.old (items_of (sum_events sum.now)) }
{
    match sum.sign {
        None => {}
        Some(_) => out.emit(Item::Word),
    }
    walk_term(out, &sum.first);
    for (_, term) in &sum.rest {
        out.emit(Item::Word);
        walk_term(out, term);
    }
}

#[cycle(expressions)]
#[tactic(auto, using(crate::proofs::ExpressionWalks::term_walk))]
fn walk_term(out: &mut Items, term: &Term)
    ensures { out.new ≡ with_items out.old (items_of (term_events term.now)) }
{
    walk_factor(out, &term.first);
    for (_, factor) in &term.rest {
        out.emit(Item::Word);
        walk_factor(out, factor);
    }
}

#[cycle(expressions)]
#[tactic(auto, using(crate::proofs::ExpressionWalks::factor_walk))]
fn walk_factor(out: &mut Items, factor: &Factor)
    ensures { out.new ≡ with_items out.old (items_of (factor_events factor.now)) }
{
    match factor {
        Factor::Value(_, number) => out.emit(Item::Value(*number)),
        Factor::Nil => out.emit(Item::Word),
        Factor::True => out.emit(Item::Word),
        Factor::False => out.emit(Item::Word),
        Factor::Set(elements) => {
            out.emit(Item::Word);
            match elements {
                None => {}
                Some(list) => walk_element_list(out, list),
            }
            out.emit(Item::Word);
        }
        Factor::Name(designator) => walk_designator(out, designator),
        Factor::Group(expr) => {
            out.emit(Item::Word);
            walk_expr(out, expr);
            out.emit(Item::Word);
        }
        Factor::Not(factor) => {
            out.emit(Item::Word);
            walk_factor(out, factor);
        }
    }
}

#[cycle(expressions)]
#[tactic(auto, using(crate::proofs::ExpressionWalks::element_list_walk))]
fn walk_element_list(out: &mut Items, list: &ElementList)
    ensures { out.new ≡ with_items out.old (items_of (element_list_events list.now)) }
{
    walk_element(out, &list.first);
    for element in &list.rest {
        out.emit(Item::Word);
        walk_element(out, element);
    }
}

#[cycle(expressions)]
#[tactic(auto, using(crate::proofs::ExpressionWalks::element_walk))]
fn walk_element(out: &mut Items, element: &Element)
    ensures { out.new ≡ with_items out.old (items_of (element_events element.now)) }
{
    walk_expr(out, &element.low);
    match &element.high {
        None => {}
        Some(high) => {
            out.emit(Item::Word);
            walk_expr(out, high);
        }
    }
}

#[cycle(expressions)]
#[tactic(auto, using(crate::proofs::ExpressionWalks::designator_walk))]
pub(crate) fn walk_designator(out: &mut Items, designator: &Designator)
    ensures { out.new ≡ with_items out.old (items_of (designator_events designator.now)) }
{
    out.emit(Item::Identifier(Role::Uses, designator.head));
    for selector in &designator.selectors {
        walk_selector(out, selector);
    }
}

#[cycle(expressions)]
#[tactic(auto, using(crate::proofs::ExpressionWalks::selector_walk))]
fn walk_selector(out: &mut Items, selector: &Selector)
    ensures { out.new ≡ with_items out.old (items_of (selector_events selector.now)) }
{
    match selector {
        Selector::Field(number) => {
            out.emit(Item::Word);
            out.emit(Item::Identifier(Role::Selects, *number));
        }
        Selector::Index(list) => {
            out.emit(Item::Word);
            walk_expr_list(out, list);
            out.emit(Item::Word);
        }
        Selector::Target => out.emit(Item::Word),
        Selector::Arguments(list) => {
            out.emit(Item::Word);
            match list {
                None => {}
                Some(list) => walk_expr_list(out, list),
            }
            out.emit(Item::Word);
        }
    }
}

#[cycle(expressions)]
#[tactic(auto, using(crate::proofs::ExpressionWalks::expr_list_walk))]
pub(crate) fn walk_expr_list(out: &mut Items, list: &ExprList)
    ensures { out.new ≡ with_items out.old (items_of (expr_list_events list.now)) }
{
    walk_expr(out, &list.first);
    for expr in &list.rest {
        out.emit(Item::Word);
        walk_expr(out, expr);
    }
}
