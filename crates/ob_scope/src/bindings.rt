//! The bindings of names that are visible at a token, maintained while members and uses are visited in token order.
//! Each name has a linked list of candidates, the latest member first. A look-up permanently removes candidates whose blocks have ended. So
//! each member is removed at most once, and a use costs one look-up at any depth of nesting.
//! Common clauses: `blocks` and `members` are sorted by token index (`IsIncreasingBy`). `numbers` has for each member the number of its
//! name, which is below the number of names (`within`). `before`: all members declared so far come before the token.
ghost use Rattle.std.specs.Prelude.{◌≡◌, ◌≤◌, ◌<◌, false, true, ℕ, Some, None, List, Option, length, slice_get, slice_set, slice_index, slice_index_or, IfOk, IfSome, IfNone, OnOk, ◌+◌};
ghost use Rattle.module_table.specs.declared.rows.Block.{Block};
ghost use Rattle.module_table.specs.Order.{IsIncreasingBy};
ghost use Rattle.scopes.specs.declared.members.Member.{Member};
ghost use Rattle.ob_scope.specs.Lookups.{use_in, IsResolved};
ghost use Rattle.scopes.specs.Scope.{ResolvesToNothing};
ghost use Rattle.ob_scope.specs.BindingStates.{IsPrefixBefore, AreBindings};
ghost use Rattle.ob_scope.specs.Visibility.{name_number, AreInterned, AreVisible, IsOpenScope, IsStart};
ghost use Rattle.ob_scope.specs.WalkOrder.{IsNameIn, IsOnWalk};
ghost use Rattle.module_table.specs.declared.rows.Used.{Used};
ghost use Rattle.ob_scan.specs.Texts.{text_at};

use crate::numbering::Interner;
use crate::scope_stack::{ScopeStack, enter_block, is_open};
use module_table::Block;
use ob_scan::TokenTexts;
use scopes::{Member, Scope};
use std::alloc::{AllocError, Global};

/// The open blocks, and for each name a linked list of candidates: the members with this name that may be visible in the open blocks.
#[derive(Drop)]
pub(crate) struct Bindings {
    pub(crate) open: ScopeStack,
    /// The number of members declared so far.
    pub(crate) next: usize,
    /// For each number of a name, the index of the name's latest candidate; `None` if it has no candidate.
    pub(crate) latest: Vec<Option<usize>>,
    /// For each member, the index of the next older candidate for its name; `None` if there is none.
    pub(crate) earlier: Vec<Option<usize>>,
}

/// A list with `count` times `None`.
fn empty_links(alloc: Global, count: usize) -> Result<Vec<Option<usize>>, AllocError>
    ensures len { IfOk result (λ v. length v.items ≡ count) }
    ensures none { IfOk result (λ v. (i : ℕ) → slice_index_or v.items i None ≡ None) }
{
    let mut locations = Vec::with_capacity(alloc, count)?;
    while locations.len() < count {
        locations.push(None)?;
    }
    Ok(locations)
}

/// The bindings before the first token, for this number of names and of members: no open block and no candidate.
pub(crate) fn empty_bindings(
    alloc: Global,
    names: usize,
    members: usize,
) -> Result<Bindings, AllocError>
    ensures next { IfOk result (λ s. s.next ≡ 0) }
    ensures watermark { IfOk result (λ s. s.open.watermark ≡ 0) }
    // With `Ok` the bindings satisfy the invariant, for all blocks and members of this number.
    ensures bindings { IfOk result (λ s. (blocks : List Block) (ds : List Member) (numbers : List ℕ) → length ds ≡ members → AreBindings blocks ds numbers names s) }
{
    let latest = empty_links(alloc, names)?;
    let earlier = empty_links(alloc, members)?;
    let stack = Vec::new(alloc);
    Ok(Bindings {
        open: ScopeStack {
            stack,
            watermark: 0,
        },
        next: 0,
        latest,
        earlier,
    })
}

/// The latest candidate whose block is open, among `from` and the older candidates for its name; `None` if there is none.
fn latest_visible(
    stack: &[u32],
    members: &[Member],
    earlier: &[Option<usize>],
    from: Option<usize>,
) -> Option<usize>
    requires sorted { IsIncreasingBy (λ (b : ℕ). b) stack.now }
    requires as_many { length earlier.now ≡ length members.now }
    requires within { IfSome from (λ i. i < length members.now) }
    // Links lead to smaller indexes, so the search ends.
    requires falls { (i h : ℕ) → slice_index_or earlier.now i None ≡ Some h → h < i }
    ensures open { IfSome result (λ i. (m : Member) × (slice_get members.now i ≡ Some m) × IsOpenScope stack.now m.place) }
    // If the list that begins with `from` has all visible members with a name, the list that begins with the result has them too.
    ensures start { (blocks : List Block) (numbers : List ℕ) (watermark j n : ℕ) (latest : List (Option ℕ)) → AreVisible blocks members.now numbers stack.now watermark j latest earlier.now
        → IsStart members.now numbers stack.now j n from → IsStart members.now numbers stack.now j n result }
{
    let mut at = from;
    while let Some(i) = at {
        if is_open(stack, members[i].place) {
            return Some(i);
        }
        at = earlier[i];
    }
    None
}

/// Makes the member with the index `at` the latest candidate for the name with this number.
fn bind_name(bindings: &mut Bindings, number: usize, at: usize)
    requires number { number < length bindings.old.latest.items }
    requires member { at < length bindings.old.earlier.items }
    ensures open { bindings.new.open ≡ bindings.old.open }
    ensures next { bindings.new.next ≡ bindings.old.next }
    ensures latest { bindings.new.latest.items ≡ slice_set bindings.old.latest.items number (Some at) }
    ensures earlier { bindings.new.earlier.items ≡ slice_set bindings.old.earlier.items at (slice_index_or bindings.old.latest.items number None) }
{
    bindings.earlier[at] = bindings.latest[number];
    bindings.latest[number] = Some(at);
}

/// Declares the next member: opens its block, and makes it the latest candidate for its name. A field only advances `next`, since it isn't
/// declared in a block.
fn declare_member(
    bindings: &mut Bindings,
    blocks: &[Block],
    members: &[Member],
    numbers: &[usize],
) -> Result<(), AllocError>
    requires blocks { IsIncreasingBy (λ (b : Block). b.first) blocks.now }
    // There is a next member.
    requires more { bindings.old.next < length members.now }
    requires numbers { length numbers.now ≡ length members.now }
    requires within { (k : ℕ) → k < length members.now → slice_index numbers.now k < length bindings.old.latest.items }
    requires members { IsIncreasingBy (λ (m : Member). m.number) members.now }
    // The bindings cover exactly the members declared so far.
    requires bindings { AreBindings blocks.now members.now numbers.now (length bindings.old.latest.items) bindings.old }
    // For some token, no name visited so far is after it; and the names of each block are contiguous.
    requires walk { (uses : List Used) × (token : ℕ) × IsOnWalk blocks.now members.now uses bindings.old token }
    ensures next { OnOk result (bindings.new.next ≡ bindings.old.next + 1) }
    // With `Ok`: if the next member isn't after a token, the last visited name still isn't after that token.
    ensures walk { OnOk result ((uses : List Used) (token : ℕ) → ((m : Member) → slice_get members.now bindings.old.next ≡ Some m → m.number ≤ token) → IsOnWalk blocks.now members.now uses bindings.old token → IsOnWalk blocks.now members.now uses bindings.new token) }
    // With `Ok` the bindings cover exactly the members declared so far.
    ensures bindings { OnOk result (AreBindings blocks.now members.now numbers.now (length bindings.old.latest.items) bindings.new) }
{
    let at = bindings.next;
    if let Scope::Block(block) = members[at].place {
        enter_block(&mut bindings.open, blocks, block)?;
        bind_name(bindings, numbers[at], at);
    }
    bindings.next = at + 1;
    Ok(())
}

/// Whether there is a member with this index, and it comes before the token.
fn is_before_token(members: &[Member], place: usize, token: u32) -> bool
    ensures yes { result ≡ true → (m : Member) × (slice_get members.now place ≡ Some m) × (m.number < token) }
    ensures no { result ≡ false → (m : Member) → slice_get members.now place ≡ Some m → token ≤ m.number }
{
    match members.get(place) {
        Some(member) => member.number < token,
        None => false,
    }
}

/// Declares all members before this token that aren't declared yet.
fn declare_members_before(
    bindings: &mut Bindings,
    blocks: &[Block],
    members: &[Member],
    numbers: &[usize],
    token: u32,
) -> Result<(), AllocError>
    requires blocks { IsIncreasingBy (λ (b : Block). b.first) blocks.now }
    requires members { IsIncreasingBy (λ (m : Member). m.number) members.now }
    requires numbers { length numbers.now ≡ length members.now }
    requires within { (k : ℕ) → k < length members.now → slice_index numbers.now k < length bindings.old.latest.items }
    // The bindings cover exactly the members declared so far.
    requires bindings { AreBindings blocks.now members.now numbers.now (length bindings.old.latest.items) bindings.old }
    // All members declared so far come before the token.
    requires before { (k : ℕ) (m : Member) → k < bindings.old.next → slice_get members.now k ≡ Some m → m.number < token }
    // No name visited so far is after the token, and the names of each block are contiguous.
    requires walk { (uses : List Used) × IsOnWalk blocks.now members.now uses bindings.old token }
    // With `Ok` the bindings cover exactly the members declared so far.
    ensures bindings { OnOk result (AreBindings blocks.now members.now numbers.now (length bindings.old.latest.items) bindings.new) }
    // With `Ok` names are still visited in token order.
    ensures walk { OnOk result ((uses : List Used) → IsOnWalk blocks.now members.now uses bindings.old token → IsOnWalk blocks.now members.now uses bindings.new token) }
    // With `Ok` exactly the members before the token have been declared.
    ensures prefix { OnOk result (IsPrefixBefore members.now bindings.new.next token) }
{
    while is_before_token(members, bindings.next, token) {
        declare_member(bindings, blocks, members, numbers)?;
    }
    Ok(())
}

/// The index of the member to which the name at this token, in this block, resolves; `None` if it resolves to none. `number` is the number
/// of the name, `None` if no member has the name. Successive calls need tokens in increasing order.
pub(crate) fn resolve_name(
    text: &TokenTexts,
    blocks: &[Block],
    members: &[Member],
    named: &Interner,
    bindings: &mut Bindings,
    block: u32,
    token: u32,
    number: Option<usize>,
) -> Result<Option<usize>, AllocError>
    // A given `number` is that of the name of the token.
    requires named { IfSome number (λ n. n ≡ name_number named.now.names.keys (text_at text.now.bytes.now text.now.tokens.now token)) }
    requires within { IfSome number (λ n. n < length named.now.names.keys) }
    // Without a `number` no member has the name of the token.
    requires unnamed { IfNone number (length named.now.names.keys ≤ name_number named.now.names.keys (text_at text.now.bytes.now text.now.tokens.now token)) }
    requires blocks { IsIncreasingBy (λ (b : Block). b.first) blocks.now }
    requires members { IsIncreasingBy (λ (m : Member). m.number) members.now }
    // `named` has for each member the number of its name.
    requires numbered { AreInterned (text_at text.now.bytes.now text.now.tokens.now) members.now named.now.names.keys named.now.numbers.items }
    // The bindings cover exactly the members declared so far.
    requires bindings { AreBindings blocks.now members.now named.now.numbers.items (length named.now.names.keys) bindings.old }
    // All members declared so far come before the token.
    requires before { (k : ℕ) (m : Member) → k < bindings.old.next → slice_get members.now k ≡ Some m → m.number < token }
    // No name visited so far is after the token, and the names of each block are contiguous.
    requires walk { (uses : List Used) × IsOnWalk blocks.now members.now uses bindings.old token × IsNameIn members.now uses token block }
    // With `Ok` names are still visited in token order.
    ensures walk { OnOk result ((uses : List Used) (later : ℕ) → token ≤ later → IsNameIn members.now uses token block → IsOnWalk blocks.now members.now uses bindings.old token → IsOnWalk blocks.now members.now uses bindings.new later) }
    // With `Ok` the bindings cover exactly the members declared so far.
    ensures bindings { OnOk result (AreBindings blocks.now members.now named.now.numbers.items (length named.now.names.keys) bindings.new) }
    // With `Ok` exactly the members before the token have been declared.
    ensures prefix { OnOk result (IsPrefixBefore members.now bindings.new.next token) }
    // With `Some` the name resolves to the member with the returned index.
    ensures found { IfOk result (λ at. IfSome at (IsResolved (text_at text.now.bytes.now text.now.tokens.now) blocks.now members.now block token)) }
    // With `None` the name at the token resolves to no member.
    ensures none { IfOk result (λ at. IfNone at (ResolvesToNothing (text_at text.now.bytes.now text.now.tokens.now) blocks.now members.now (use_in block token))) }
{
    declare_members_before(bindings, blocks, members, named.numbers.as_slice(), token)?;
    enter_block(&mut bindings.open, blocks, block)?;
    let Some(number) = number else {
        return Ok(None);
    };
    let at = latest_visible(
        bindings.open.stack.as_slice(),
        members,
        bindings.earlier.as_slice(),
        bindings.latest[number],
    );
    bindings.latest[number] = at;
    Ok(at)
}
