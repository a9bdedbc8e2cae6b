//! The public walkers. They recurse a few calls for each level of nesting; lists are loops. Each returns `AllocError` if an allocation
//! fails.

ghost use Rattle.std.specs.Prelude.{◌≡◌, ◌<◌, ◌^◌, List, length, IfOk};
ghost use Rattle.std.specs.List.{range_with_len};
ghost use Rattle.ob_scan.specs.declared.kind.Kind.{Kind};
ghost use Rattle.ob_tree.specs.Declaring.{module_events};
ghost use Rattle.ob_tree.specs.Derives.{Derives, declared_in, spelling, used_in, yields};
ghost use Rattle.ob_walk.specs.Items.{items_of, number_at};

use crate::item::Item;
use crate::items::Items;
use crate::walk::declarations::walk_module;
use ob_tree::declaration::Module;
use ob_tree::role::Role;
use std::alloc::{AllocError, Global};

/// The tokens of a module's tree in order, each with its role. Walks twice: to count the tokens, and to store them.
fn items(alloc: Global, module: &Module) -> Result<Vec<Item>, AllocError>
    ensures { IfOk result (λ v. v.items ≡ items_of (module_events «module».now)) }
{
    let mut counted = Items::with_slots(Vec::new(alloc));
    walk_module(&mut counted, module);
    let mut filled = Items::with_slots(vec![in alloc; Item::Word; counted.count()]?);
    walk_module(&mut filled, module);
    Ok(filled.slots())
}

/// The token number of an item: that of an identifier or literal, or for a word its index `position` among all items.
fn token_number(item: Item, position: u32) -> u32
    ensures { result ≡ number_at position item }
{
    match item {
        Item::Identifier(_, number) | Item::Value(number) => number,
        Item::Word => position,
    }
}

/// The number of each token of a module's tree, in order: an identifier or literal carries its number, a word has its index from 0. The
/// tree has fewer than 2^32 tokens. A stack of 2 MiB suffices for a tree of 200 levels; the need grows linearly with the depth.
#[tactic(auto, using(crate::proofs::Passes::passes))]
pub fn yield_of(alloc: Global, module: &Module) -> Result<Vec<u32>, AllocError>
    // Token numbers have 32 bits.
    requires { length (spelling «module».now) < 2 ^ 32 }
    // The result has the numbers of the tokens of the tree, in order.
    ensures exact { IfOk result (λ v. v.items ≡ yields «module».now) }
    // If the tree derives the tokens of a file, the numbers are 0, 1, 2 and so on to the last token.
    ensures complete { IfOk result (λ v. (kinds : List Kind) → Derives kinds «module».now → v.items ≡ range_with_len 0 (length kinds)) }
{
    let items = items(alloc, module)?;
    let mut numbers = Vec::new(alloc);
    for item in &items {
        let position = numbers.len() as u32;
        numbers.push(token_number(*item, position))?;
    }
    Ok(numbers)
}

/// The token numbers of the identifiers that a module declares, in order and at every depth: imports, constants, types, variables,
/// fields, procedures and parameters. A stack of 2 MiB suffices for a tree of 200 levels; the need grows linearly with the depth.
#[tactic(auto, using(crate::proofs::Passes::passes))]
pub fn declarations(alloc: Global, module: &Module) -> Result<Vec<u32>, AllocError>
    ensures { IfOk result (λ v. v.items ≡ declared_in (module_events «module».now)) }
{
    let items = items(alloc, module)?;
    let mut numbers = Vec::new(alloc);
    for item in &items {
        match *item {
            Item::Identifier(Role::Declares { is_exported: _ } | Role::Aliases, number) => {
                numbers.push(number)?;
            }
            Item::Identifier(_, _) | Item::Value(_) | Item::Word => {}
        }
    }
    Ok(numbers)
}

/// The token numbers of the identifiers that the scope rule looks up in a module, in order: heads of designators and of qualified names,
/// names among labels, and variables of FOR statements. A stack of 2 MiB suffices for a tree of 200 levels; the need grows linearly with
/// the depth.
#[tactic(auto, using(crate::proofs::Passes::passes))]
pub fn uses(alloc: Global, module: &Module) -> Result<Vec<u32>, AllocError>
    ensures { IfOk result (λ v. v.items ≡ used_in (module_events «module».now)) }
{
    let items = items(alloc, module)?;
    let mut numbers = Vec::new(alloc);
    for item in &items {
        match *item {
            Item::Identifier(Role::Uses, number) => numbers.push(number)?,
            Item::Identifier(_, _) | Item::Value(_) | Item::Word => {}
        }
    }
    Ok(numbers)
}
