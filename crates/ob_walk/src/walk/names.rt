//! Emits the tokens of names.

ghost use Rattle.std.specs.Prelude.{◌≡◌};
ghost use Rattle.ob_walk.specs.Items.{items_of, with_items};
ghost use Rattle.ob_tree.specs.Names.{qualident_events, identdef_events};

use crate::item::Item;
use crate::items::Items;
use ob_tree::name::{Identdef, Qualident};
use ob_tree::role::Role;

#[tactic(auto, using(crate::proofs::NameWalks::name_items))]
pub(crate) fn walk_qualident(out: &mut Items, name: Qualident)
    ensures { out.new ≡ with_items out.old (items_of (qualident_events name)) }
{
    out.emit(Item::Identifier(Role::Uses, name.head));
    match name.member {
        None => {}
        Some(number) => {
            out.emit(Item::Word);
            out.emit(Item::Identifier(Role::Completes, number));
        }
    }
}

#[tactic(auto, using(crate::proofs::NameWalks::name_items))]
pub(crate) fn walk_identdef(out: &mut Items, name: Identdef)
    ensures { out.new ≡ with_items out.old (items_of (identdef_events name)) }
{
    let role = Role::Declares {
        is_exported: name.is_exported,
    };
    out.emit(Item::Identifier(role, name.name));
    if name.is_exported {
        out.emit(Item::Word);
    }
}
