//! The meaning of a use: the declaration to which it resolves; if there is none and the use is a pointer's target, a type declared later.
ghost use Rattle.std.specs.Prelude.{◌≡◌, ◌≤◌, ◌<◌, ℕ, List, Some, length, slice_get, IfOk, IfSome, IfNone, OnOk};
ghost use Rattle.ob_scan.specs.Spelling.{AreInText};
ghost use Rattle.ob_scan.specs.Texts.{text_at};
ghost use Rattle.module_table.specs.declared.rows.Block.{Block};
ghost use Rattle.module_table.specs.Order.{IsIncreasingBy};
ghost use Rattle.indexmap.specs.IndexMap.{get};
ghost use Rattle.ob_scope.specs.BlockTypes.{type_key_eq, AreTypes};
ghost use Rattle.ob_scope.specs.Lookups.{IsMeant, IsTypeAfter, MeansNothing};
ghost use Rattle.scopes.specs.declared.members.Member.{Member};
ghost use Rattle.module_table.specs.Blocks.{IsDirectlyIn};
ghost use Rattle.scopes.specs.Scope.{HasNoDuplicates};
ghost use Rattle.ob_scope.specs.BindingStates.{IsPrefixBefore, AreBindings};
ghost use Rattle.ob_scope.specs.Visibility.{name_number, AreInterned};
ghost use Rattle.ob_scope.specs.WalkOrder.{IsNameIn, IsOnWalk};
ghost use Rattle.module_table.specs.declared.rows.Used.{Used};

use crate::bindings::{Bindings, resolve_name};
use crate::numbering::{Interner, name_number};
use indexmap::IndexMap;
use module_table::{Block, Used, index_of};
use ob_scan::TokenTexts;
use scopes::Member;
use std::alloc::AllocError;
use text_hash::Seed;

/// The index of the type, among the members, that this block declares by the name with this number; `None` if there is none.
fn type_index(
    types: &IndexMap<(u32, usize), usize, Seed>,
    block: u32,
    number: usize,
) -> Option<usize>
    ensures { result ≡ get type_key_eq types.now (block, number) }
{
    types.get(&(block, number)).copied()
}

/// The index of the type, among the members, that this block declares after the token by the token's name; `None` if there is none.
fn find_later_type(
    text: &TokenTexts,
    types: &IndexMap<(u32, usize), usize, Seed>,
    members: &[Member],
    named: &Interner,
    block: u32,
    token: u32,
    number: Option<usize>,
) -> Option<usize>
    // A given `number` is that of the name of the token.
    requires named { IfSome number (λ n. n ≡ name_number named.now.names.keys (text_at text.now.bytes.now text.now.tokens.now token)) }
    requires within { IfSome number (λ n. n < length named.now.names.keys) }
    // Without a `number` no member has the name of the token.
    requires unnamed { IfNone number (length named.now.names.keys ≤ name_number named.now.names.keys (text_at text.now.bytes.now text.now.tokens.now token)) }
    // No scope declares a name twice.
    requires once { HasNoDuplicates (text_at text.now.bytes.now text.now.tokens.now) members.now }
    // `named` has for each member the number of its name.
    requires numbered { AreInterned (text_at text.now.bytes.now text.now.tokens.now) members.now named.now.names.keys named.now.numbers.items }
    // `types` has exactly the types that the blocks declare.
    requires types { AreTypes members.now named.now.numbers.items (length members.now) types.now }
    ensures found { IfSome result (IsTypeAfter (text_at text.now.bytes.now text.now.tokens.now) members.now block token) }
    // With `None` the block declares no such type.
    ensures none { IfNone result ((i : ℕ) → IsTypeAfter (text_at text.now.bytes.now text.now.tokens.now) members.now block token i → ⊥) }
{
    let number = number?;
    let at = type_index(types, block, number)?;
    if token < members[at].number {
        Some(at)
    } else {
        None
    }
}

/// The block that directly encloses a block; `None` for the module's block.
pub(crate) fn enclosing_block(blocks: &[Block], block: u32) -> Option<u32>
    requires { IsIncreasingBy (λ (b : Block). b.first) blocks.now }
    ensures found { IfSome result (IsDirectlyIn blocks.now block) }
    ensures none { IfNone result ((outer : ℕ) → IsDirectlyIn blocks.now block outer → ⊥) }
{
    let at = index_of(blocks, block)?;
    let outer = blocks[at].outer;
    if outer < block { Some(outer) } else { None }
}

/// The index of the member that a use means; `None` if it means none. Successive calls need uses in token order, since each call advances
/// the bindings to its use.
pub(crate) fn resolve_use(
    text: &TokenTexts,
    types: &IndexMap<(u32, usize), usize, Seed>,
    blocks: &[Block],
    members: &[Member],
    named: &Interner,
    bindings: &mut Bindings,
    used: Used,
) -> Result<Option<usize>, AllocError>
    // The tokens are ranges of the bytes.
    requires in_text { AreInText text.now.bytes.now text.now.tokens.now }
    requires blocks { IsIncreasingBy (λ (b : Block). b.first) blocks.now }
    requires members { IsIncreasingBy (λ (m : Member). m.number) members.now }
    // No scope declares a name twice.
    requires once { HasNoDuplicates (text_at text.now.bytes.now text.now.tokens.now) members.now }
    // `types` has exactly the types that the blocks declare.
    requires types { AreTypes members.now named.now.numbers.items (length members.now) types.now }
    // `named` has for each member the number of its name.
    requires numbered { AreInterned (text_at text.now.bytes.now text.now.tokens.now) members.now named.now.names.keys named.now.numbers.items }
    // The bindings cover exactly the members declared so far.
    requires bindings { AreBindings blocks.now members.now named.now.numbers.items (length named.now.names.keys) bindings.old }
    requires before { (k : ℕ) (m : Member) → k < bindings.old.next → slice_get members.now k ≡ Some m → m.number < used.number }
    // No name visited so far is after the token, and the names of each block are contiguous.
    requires walk { (uses : List Used) × IsOnWalk blocks.now members.now uses bindings.old used.number × IsNameIn members.now uses used.number used.block }
    // Names are still visited in token order.
    ensures walk { OnOk result ((uses : List Used) (later : ℕ) → used.number ≤ later → IsNameIn members.now uses used.number used.block → IsOnWalk blocks.now members.now uses bindings.old used.number → IsOnWalk blocks.now members.now uses bindings.new later) }
    // The bindings cover exactly the members declared so far.
    ensures bindings { OnOk result (AreBindings blocks.now members.now named.now.numbers.items (length named.now.names.keys) bindings.new) }
    // Exactly the members before the token have been declared.
    ensures prefix { OnOk result (IsPrefixBefore members.now bindings.new.next used.number) }
    // With `Some` the use means the member with the returned index.
    ensures found { IfOk result (λ at. IfSome at (IsMeant (text_at text.now.bytes.now text.now.tokens.now) blocks.now members.now used)) }
    // With `None` the use means no member.
    ensures none { IfOk result (λ at. IfNone at (MeansNothing (text_at text.now.bytes.now text.now.tokens.now) blocks.now members.now used)) }
{
    let number = name_number(&named.names, text.token_text(used.number));
    let at = resolve_name(
        text,
        blocks,
        members,
        named,
        bindings,
        used.block,
        used.number,
        number,
    )?;
    if let Some(at) = at {
        return Ok(Some(at));
    }
    if !used.is_target {
        return Ok(None);
    }
    Ok(find_later_type(text, types, members, named, used.block, used.number, number))
}
