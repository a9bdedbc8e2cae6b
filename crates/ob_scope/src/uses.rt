//! Resolves all uses of a module, and counts for each import the uses that its alias qualifies.
ghost use Rattle.std.specs.Prelude.{◌≡◌, ◌+◌, ◌^◌, ◌<◌, ℕ, [], length, slice_index, slice_set, IfOk, OnOk};
ghost use Rattle.ob_scan.specs.Spelling.{AreInText};
ghost use Rattle.ob_scan.specs.Texts.{text_at};
ghost use Rattle.module_table.specs.declared.rows.Block.{Block};
ghost use Rattle.module_table.specs.declared.rows.Used.{Used};
ghost use Rattle.ob_scope.specs.Found.{counted_for, is_import, AreCounted, AreMeant};
ghost use Rattle.module_table.specs.Order.{IsIncreasingBy};
ghost use Rattle.ob_scope.specs.BlockTypes.{AreTypes};
ghost use Rattle.scopes.specs.Scope.{HasNoDuplicates};
ghost use Rattle.ob_scope.specs.BindingStates.{AreBindings};
ghost use Rattle.ob_scope.specs.Visibility.{AreInterned};
ghost use Rattle.ob_scope.specs.WalkOrder.{AreContiguous};
ghost use Rattle.scopes.specs.declared.members.Member.{Member};

use crate::bindings::{Bindings, empty_bindings};
use crate::block_types::index_block_types;
use crate::numbering::Interner;
use crate::resolve::resolve_use;
use indexmap::IndexMap;
use module_table::{Block, DeclKind, Used};
use ob_scan::TokenTexts;
use scopes::{Member, Resolution};
use std::alloc::{AllocError, Global};
use text_hash::Seed;

/// The meanings of all uses that have one, in token order; for each member the number of uses that it qualifies, 0 if it isn't an import.
#[derive(Drop)]
pub(crate) struct Resolutions {
    pub(crate) meanings: Vec<Resolution>,
    pub(crate) counts: Vec<u64>,
}

/// Whether a declaration of this kind declares an import's alias.
pub(crate) fn is_import(decl_kind: DeclKind) -> bool
    ensures { result ≡ is_import decl_kind }
{
    match decl_kind {
        DeclKind::Import => true,
        DeclKind::Constant => false,
        DeclKind::Type => false,
        DeclKind::Variable => false,
        DeclKind::Procedure => false,
        DeclKind::Parameter => false,
        DeclKind::Field => false,
    }
}

/// Increments the count of `member`, which the use's first name means, at index `at`, if the use is qualified and the member is an import.
fn count_qualified_use(counts: &mut [u64], at: usize, member: Member, used: Used)
    requires place { at < length counts.old }
    requires small { slice_index counts.old at + 1 < 2 ^ 64 }
    ensures { counts.new ≡ slice_set counts.old at (slice_index counts.old at + counted_for member used) }
{
    if used.member.is_some() && is_import(member.decl_kind) {
        counts[at] += 1;
    }
}

/// Resolves each use, in token order: appends its meaning to `meanings`, and counts it in `counts` if it is qualified by an import's alias.
fn resolve_each(
    text: &TokenTexts,
    types: &IndexMap<(u32, usize), usize, Seed>,
    blocks: &[Block],
    members: &[Member],
    named: &Interner,
    bindings: &mut Bindings,
    uses: &[Used],
    meanings: &mut Vec<Resolution>,
    counts: &mut [u64],
) -> Result<(), AllocError>
    // The tokens are ranges of the bytes.
    requires in_text { AreInText text.now.bytes.now text.now.tokens.now }
    // The names of each block are contiguous.
    requires together { AreContiguous blocks.now members.now uses.now }
    requires blocks { IsIncreasingBy (λ (b : Block). b.first) blocks.now }
    requires uses { IsIncreasingBy (λ (u : Used). u.number) uses.now }
    requires members { IsIncreasingBy (λ (m : Member). m.number) members.now }
    // No scope declares a name twice.
    requires once { HasNoDuplicates (text_at text.now.bytes.now text.now.tokens.now) members.now }
    // `types` has exactly the types that the blocks declare.
    requires types { AreTypes members.now named.now.numbers.items (length members.now) types.now }
    // `named` has for each member the number of its name.
    requires numbered { AreInterned (text_at text.now.bytes.now text.now.tokens.now) members.now named.now.names.keys named.now.numbers.items }
    // The bindings cover exactly the members declared so far.
    requires bindings { AreBindings blocks.now members.now named.now.numbers.items (length named.now.names.keys) bindings.old }
    // No member is declared yet, no block is open, and there are no results yet.
    requires none_yet { bindings.old.next ≡ 0 }
    requires none_open { bindings.old.open.watermark ≡ 0 }
    requires empty { meanings.old.items ≡ [] }
    requires as_many { length counts.old ≡ length members.now }
    requires zero { (i : ℕ) → slice_index counts.old i ≡ 0 }
    // With `Ok` the meanings of all uses that have one are listed, in token order.
    ensures meant { OnOk result (AreMeant (text_at text.now.bytes.now text.now.tokens.now) blocks.now members.now uses.now (length uses.now) meanings.new.items) }
    // With `Ok` the count of the uses that it qualifies is listed for each member.
    ensures counted { OnOk result (AreCounted (text_at text.now.bytes.now text.now.tokens.now) blocks.now members.now uses.now (length uses.now) counts.new) }
{
    for k in 0..uses.len() {
        let used = uses[k];
        let at = resolve_use(text, types, blocks, members, named, bindings, used)?;
        if let Some(at) = at {
            let member = members[at];
            meanings.push(Resolution {
                used: used.number,
                declared: member.number,
            })?;
            count_qualified_use(counts, at, member, used);
        }
    }
    Ok(())
}

/// Resolves all uses; `types` has the types that the blocks declare.
fn resolve_with_types(
    alloc: Global,
    text: &TokenTexts,
    types: &IndexMap<(u32, usize), usize, Seed>,
    blocks: &[Block],
    members: &[Member],
    named: &Interner,
    uses: &[Used],
) -> Result<Resolutions, AllocError>
    // The tokens are ranges of the bytes.
    requires in_text { AreInText text.now.bytes.now text.now.tokens.now }
    // The names of each block are contiguous.
    requires together { AreContiguous blocks.now members.now uses.now }
    requires blocks { IsIncreasingBy (λ (b : Block). b.first) blocks.now }
    requires uses { IsIncreasingBy (λ (u : Used). u.number) uses.now }
    requires members { IsIncreasingBy (λ (m : Member). m.number) members.now }
    // No scope declares a name twice.
    requires once { HasNoDuplicates (text_at text.now.bytes.now text.now.tokens.now) members.now }
    // `types` has exactly the types that the blocks declare.
    requires types { AreTypes members.now named.now.numbers.items (length members.now) types.now }
    // `named` has for each member the number of its name.
    requires numbered { AreInterned (text_at text.now.bytes.now text.now.tokens.now) members.now named.now.names.keys named.now.numbers.items }
    // The meanings of all uses are listed, in token order.
    ensures meant { IfOk result (λ f. AreMeant (text_at text.now.bytes.now text.now.tokens.now) blocks.now members.now uses.now (length uses.now) f.meanings.items) }
    // For each member the count of the uses that it qualifies is listed.
    ensures counted { IfOk result (λ f. AreCounted (text_at text.now.bytes.now text.now.tokens.now) blocks.now members.now uses.now (length uses.now) f.counts.items) }
{
    let mut meanings = Vec::with_capacity(alloc, uses.len())?;
    let mut counts = vec![in alloc; 0u64; members.len()]?;
    let mut bindings = empty_bindings(alloc, named.names.len(), members.len())?;
    resolve_each(
        text,
        types,
        blocks,
        members,
        named,
        &mut bindings,
        uses,
        &mut meanings,
        counts.as_mut_slice(),
    )?;
    Ok(Resolutions { meanings, counts })
}

/// Resolves all uses of a module. `named` has for each member the number of its name.
pub(crate) fn resolve_uses(
    alloc: Global,
    text: &TokenTexts,
    blocks: &[Block],
    members: &[Member],
    named: &Interner,
    uses: &[Used],
) -> Result<Resolutions, AllocError>
    // The tokens are ranges of the bytes.
    requires in_text { AreInText text.now.bytes.now text.now.tokens.now }
    // The names of each block are contiguous.
    requires together { AreContiguous blocks.now members.now uses.now }
    requires blocks { IsIncreasingBy (λ (b : Block). b.first) blocks.now }
    requires uses { IsIncreasingBy (λ (u : Used). u.number) uses.now }
    requires members { IsIncreasingBy (λ (m : Member). m.number) members.now }
    // No scope declares a name twice.
    requires once { HasNoDuplicates (text_at text.now.bytes.now text.now.tokens.now) members.now }
    // `named` has for each member the number of its name.
    requires numbered { AreInterned (text_at text.now.bytes.now text.now.tokens.now) members.now named.now.names.keys named.now.numbers.items }
    // The meanings of all uses are listed, in token order.
    ensures meant { IfOk result (λ f. AreMeant (text_at text.now.bytes.now text.now.tokens.now) blocks.now members.now uses.now (length uses.now) f.meanings.items) }
    // For each member the count of the uses that it qualifies is listed.
    ensures counted { IfOk result (λ f. AreCounted (text_at text.now.bytes.now text.now.tokens.now) blocks.now members.now uses.now (length uses.now) f.counts.items) }
{
    let seed = *named.names.hasher();
    let types = index_block_types(alloc, seed, members, named.numbers.as_slice())?;
    resolve_with_types(alloc, text, &types, blocks, members, named, uses)
}
