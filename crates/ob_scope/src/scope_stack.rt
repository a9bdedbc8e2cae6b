//! The stack of the blocks that are open at a token.
ghost use Rattle.std.specs.Prelude.{◌≡◌, ◌++◌, ◌∷◌, ◌+◌, ◌≤◌, ℕ, List, [], OnOk, IfSome, IfNone, Some, Contains, slice_get, true};
ghost use Rattle.module_table.specs.declared.rows.Block.{Block};
ghost use Rattle.module_table.specs.Order.{IsIncreasingBy, HasNoneBy, IsIndexBy};
ghost use Rattle.ob_scope.specs.Visibility.{Enters, IsInnermost, IsOpen, IsOpenScope};
ghost use Rattle.ob_scope.specs.WalkOrder.{MayEnter};

use crate::resolve::enclosing_block;
use module_table::Block;
use scopes::Scope;
use std::alloc::AllocError;

/// The stack of the open blocks, each given by the index of its first token, from the outermost to the innermost block.
#[derive(Drop)]
pub(crate) struct ScopeStack {
    pub(crate) stack: Vec<u32>,
    /// One more than the index of the first token of the block opened last; 0 before the first one. Only contracts use it.
    pub(crate) watermark: u64,
}

/// Removes from the stack the blocks whose first token is after the first token of `block`.
fn close_later_blocks(stack: &mut Vec<u32>, block: u32)
    requires { IsIncreasingBy (λ (b : ℕ). b) stack.old.items }
    ensures prefix { (rest : List ℕ) × (stack.old.items ≡ stack.new.items ++ rest) }
    ensures kept { (b : ℕ) → Contains stack.old.items b → b ≤ block → Contains stack.new.items b }
    ensures left { (b : ℕ) → Contains stack.new.items b → b ≤ block }
{
    let left = stack.as_slice().partition_point(|first| *first <= block);
    stack.truncate(left);
}

/// Whether this block is the innermost open one.
fn is_innermost(stack: &[u32], block: u32) -> bool
    ensures yes { result ≡ true → IsInnermost stack.now block }
    ensures no { IsInnermost stack.now block → result ≡ true }
{
    match stack.last() {
        Some(last) => *last == block,
        None => false,
    }
}

/// Pushes a block, and sets the watermark to one more than the index of its first token.
fn push_block(scope_stack: &mut ScopeStack, block: u32) -> Result<(), AllocError>
    ensures stack { OnOk result (scope_stack.new.stack.items ≡ scope_stack.old.stack.items ++ block ∷ []) }
    ensures later { OnOk result (scope_stack.new.watermark ≡ block + 1) }
{
    scope_stack.stack.push(block)?;
    scope_stack.watermark = u64::from(block) + 1;
    Ok(())
}

/// Makes this block the innermost open one: closes the blocks that begin later, and opens those that enclose it if they aren't open.
fn open_enclosing(
    scope_stack: &mut ScopeStack,
    blocks: &[Block],
    block: u32,
) -> Result<(), AllocError>
    requires sorted { IsIncreasingBy (λ (b : Block). b.first) blocks.now }
    // The stack is empty, or has a block and all blocks around it, the outermost first.
    requires chain { IsOpen blocks.now scope_stack.old.stack.items scope_stack.old.watermark }
    // Each block around this block is open, or begins after all blocks opened so far.
    requires may { MayEnter blocks.now scope_stack.old.stack.items scope_stack.old.watermark block }
    // With `Ok` the block is the innermost open one, and no closed block was opened again.
    ensures { OnOk result (Enters blocks.now block scope_stack.old.stack.items scope_stack.old.watermark scope_stack.new.stack.items scope_stack.new.watermark) }
{
    close_later_blocks(&mut scope_stack.stack, block);
    if is_innermost(scope_stack.stack.as_slice(), block) {
        return Ok(());
    }
    match enclosing_block(blocks, block) {
        Some(outer) => open_enclosing(scope_stack, blocks, outer)?,
        None => scope_stack.stack.clear(),
    }
    push_block(scope_stack, block)
}

/// Makes this block the innermost open one; returns at once if it is already, the usual case.
pub(crate) fn enter_block(
    scope_stack: &mut ScopeStack,
    blocks: &[Block],
    block: u32,
) -> Result<(), AllocError>
    requires sorted { IsIncreasingBy (λ (b : Block). b.first) blocks.now }
    // The stack is empty, or has a block and all blocks around it, the outermost first.
    requires chain { IsOpen blocks.now scope_stack.old.stack.items scope_stack.old.watermark }
    // Each block around this block is open, or begins after all blocks opened so far.
    requires may { MayEnter blocks.now scope_stack.old.stack.items scope_stack.old.watermark block }
    // With `Ok` the block is the innermost open one, and no closed block was opened again.
    ensures { OnOk result (Enters blocks.now block scope_stack.old.stack.items scope_stack.old.watermark scope_stack.new.stack.items scope_stack.new.watermark) }
{
    if is_innermost(scope_stack.stack.as_slice(), block) {
        return Ok(());
    }
    open_enclosing(scope_stack, blocks, block)
}

/// The index of a block in the stack, by binary search; `None` if the block isn't open.
fn index_in_stack(stack: &[u32], block: u32) -> Option<usize>
    requires { IsIncreasingBy (λ (b : ℕ). b) stack.now }
    ensures found { IfSome result (IsIndexBy (λ (b : ℕ). b) stack.now block) }
    ensures none { IfNone result (HasNoneBy (λ (b : ℕ). b) stack.now block) }
{
    stack.binary_search_by_key(&block, |block| *block).ok()
}

/// Whether this block is the outermost open one.
fn is_outermost(stack: &[u32], block: u32) -> bool
    ensures { result ≡ true → slice_get stack.now 0 ≡ Some block }
{
    match stack.first() {
        Some(first) => *first == block,
        None => false,
    }
}

/// Whether a block is open. Tries the innermost and the outermost one before the binary search.
fn is_open_block(stack: &[u32], block: u32) -> bool
    requires { IsIncreasingBy (λ (b : ℕ). b) stack.now }
    ensures yes { result ≡ true → Contains stack.now block }
    ensures no { Contains stack.now block → result ≡ true }
{
    if is_innermost(stack, block) || is_outermost(stack, block) {
        return true;
    }
    index_in_stack(stack, block).is_some()
}

/// Whether this scope is a block, and that block is open; false for a record.
pub(crate) fn is_open(stack: &[u32], scope: Scope) -> bool
    requires { IsIncreasingBy (λ (b : ℕ). b) stack.now }
    ensures yes { result ≡ true → IsOpenScope stack.now scope }
    ensures no { IsOpenScope stack.now scope → result ≡ true }
{
    match scope {
        Scope::Block(block) => is_open_block(stack, block),
        Scope::Record(_) => false,
    }
}
