//! A test for duplicates that needs no hash table: if for each name the start tokens of its scopes increase, as they mostly do, no scope
//! declares the name twice.
ghost use Rattle.std.specs.Prelude.{◌≡◌, [], true, length, take, IfOk, IfSome, OnOk};
ghost use Rattle.ob_scan.specs.Spelling.{AreInText};
ghost use Rattle.ob_scan.specs.Texts.{text_at};
ghost use Rattle.ob_scope.specs.Distinct.{IsBelowBound};
ghost use Rattle.scopes.specs.Scope.{HasNoDuplicates};
ghost use Rattle.ob_scope.specs.Visibility.{AreInterned};
ghost use Rattle.scopes.specs.declared.members.Scope.{Scope as Place};

use crate::numbering::{Interner, intern_member};
use ob_scan::TokenTexts;
use scopes::{Member, Scope};
use std::alloc::{AllocError, Global};

/// Two bounds for a name: all blocks and all records that have declared it so far start before `block` and `record`, respectively.
#[derive(Clone, Copy, Drop)]
pub(crate) struct StartBounds {
    pub(crate) block: u64,
    pub(crate) record: u64,
}

/// The bounds of a name with this scope added; `None` if the scope starts before its bound, so it might have declared the name already.
fn raise_bound(passed: StartBounds, place: Scope) -> Option<StartBounds>
    // With `Some` the scope isn't among those below the old bounds. It and all of those are below the new bounds.
    ensures new { IfSome result (λ _. IsBelowBound passed place → ⊥) }
    ensures passed { IfSome result (λ r. IsBelowBound r place) }
    ensures kept { IfSome result (λ r. (p : Place) → IsBelowBound passed p → IsBelowBound r p) }
{
    let StartBounds { block, record } = passed;
    match place {
        Scope::Block(first) => {
            if u64::from(first) < block {
                return None;
            }
            let block = u64::from(first) + 1;
            Some(StartBounds { block, record })
        }
        Scope::Record(first) => {
            if u64::from(first) < record {
                return None;
            }
            let record = u64::from(first) + 1;
            Some(StartBounds { block, record })
        }
    }
}

/// Interns the names of the members in order. Stops with `false` after the first member whose scope starts before the bound of its name;
/// returns true if there is none.
fn intern_ascending<'a>(
    text: &TokenTexts<'a>,
    members: &[Member],
    named: &mut Interner<'a>,
    passed: &mut [StartBounds],
) -> Result<bool, AllocError>
    // The tokens are ranges of the bytes.
    requires in_text { AreInText text.now.bytes.now text.now.tokens.now }
    requires empty_interner { named.old.names.keys ≡ [] }
    requires no_numbers { named.old.numbers.items ≡ [] }
    requires as_many { length passed.old ≡ length members.now }
    // With `Ok` the members interned so far have the numbers of their names.
    ensures numbered { OnOk result (AreInterned (text_at text.now.bytes.now text.now.tokens.now) (take (length named.new.numbers.items) members.now) named.new.names.keys named.new.numbers.items) }
    // If the result is true, no scope declares a name twice.
    ensures once { IfOk result (λ b. b ≡ true → HasNoDuplicates (text_at text.now.bytes.now text.now.tokens.now) members.now) }
{
    for i in 0..members.len() {
        let number = intern_member(text, members, named, i)?;
        match raise_bound(passed[number], members[i].place) {
            Some(next) => passed[number] = next,
            None => return Ok(false),
        }
    }
    Ok(true)
}

/// Whether the order of scopes shows that no two members are duplicates. If false, there may be duplicates or not. Interns the names of the
/// members that it tests.
pub(crate) fn are_distinct_by_order<'a>(
    alloc: Global,
    text: &TokenTexts<'a>,
    members: &[Member],
    named: &mut Interner<'a>,
) -> Result<bool, AllocError>
    // The tokens are ranges of the bytes.
    requires in_text { AreInText text.now.bytes.now text.now.tokens.now }
    requires empty_interner { named.old.names.keys ≡ [] }
    requires no_numbers { named.old.numbers.items ≡ [] }
    // With `Ok` the members interned so far have the numbers of their names.
    ensures numbered { OnOk result (AreInterned (text_at text.now.bytes.now text.now.tokens.now) (take (length named.new.numbers.items) members.now) named.new.names.keys named.new.numbers.items) }
    // If the result is true, no scope declares a name twice.
    ensures once { IfOk result (λ b. b ≡ true → HasNoDuplicates (text_at text.now.bytes.now text.now.tokens.now) members.now) }
{
    let none = StartBounds {
        block: 0,
        record: 0,
    };
    let mut passed = vec![in alloc; none; members.len()]?;
    intern_ascending(text, members, named, passed.as_mut_slice())
}
