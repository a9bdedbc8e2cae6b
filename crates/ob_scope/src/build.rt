//! Computes the scopes of a module from its table.
//! Clauses `few`: a module has at most 2^24 uses. Clauses `sorted`: the members are sorted by token index.
ghost use Rattle.std.specs.Prelude.{◌≡◌, ◌≤◌, [], length, take, Ok, IfOk, IfErr, OnOk};
ghost use Rattle.ob_scan.specs.Spelling.{AreInText, IsOutcome};
ghost use Rattle.ob_scan.specs.Texts.{text_at};
ghost use Rattle.module_table.specs.Tables.{rows_in};
ghost use Rattle.module_table.specs.Parts.{Rows};
ghost use Rattle.ob_scope.specs.Found.{AreAliasesOf, AreCounted, AreMeant, IsCountOf};
ghost use Rattle.module_table.specs.Trees.{AreTreeRows};
ghost use Rattle.scopes.specs.IdentifierNames.{AreNames, IsIdentifier};
ghost use Rattle.module_table.specs.Order.{AreRowsSorted, IsIncreasingBy};
ghost use Rattle.scopes.specs.Members.{members_of};
ghost use Rattle.ob_scope.specs.MemberIndex.{IsIndexFault};
ghost use Rattle.scopes.specs.Scope.{HasNoDuplicates};
ghost use Rattle.scopes.specs.Scoped.{AreScopes};
ghost use Rattle.ob_scope.specs.Faults.{IsScopeFault};
ghost use Rattle.ob_scope.specs.Visibility.{AreInterned};
ghost use Rattle.ob_scope.specs.WalkOrder.{AreContiguous};
ghost use Rattle.scopes.specs.declared.members.Member.{Member};

use crate::ScopeFault;
use crate::distinct::are_distinct_by_order;
use crate::member_index::{IndexFault, build_member_index};
use crate::members::declared_members;
use crate::numbering::{Interner, empty_interner, intern_rest};
use crate::uses::{Resolutions, resolve_uses};
use module_table::{Import, Table, index_of};
use ob_scan::{Token, TokenTexts};
use scopes::{Alias, Member, Scope, Scopes};
use std::alloc::{AllocError, Global};

/// The number of uses that the alias declared by this token qualifies; 0 if the token declares no member. `counts` has such a number for
/// each member.
fn alias_use_count(members: &[Member], counts: &[u64], alias: u32) -> u64
    requires sorted { IsIncreasingBy (λ (m : Member). m.number) members.now }
    requires as_many { length counts.now ≡ length members.now }
    ensures { IsCountOf members.now counts.now alias result }
{
    match index_of(members, alias) {
        Some(at) => counts[at],
        None => 0,
    }
}

/// For each import item, in order, its alias with the name of the imported module and the number of uses that the alias qualifies.
fn build_aliases(
    alloc: Global,
    text: &TokenTexts,
    members: &[Member],
    counts: &[u64],
    imports: &[Import],
) -> Result<Vec<Alias>, AllocError>
    // The tokens are ranges of the bytes.
    requires in_text { AreInText text.now.bytes.now text.now.tokens.now }
    requires sorted { IsIncreasingBy (λ (m : Member). m.number) members.now }
    requires as_many { length counts.now ≡ length members.now }
    ensures { IfOk result (λ v. AreAliasesOf (text_at text.now.bytes.now text.now.tokens.now) members.now counts.now imports.now (length imports.now) v.items) }
{
    let mut aliases = Vec::with_capacity(alloc, imports.len())?;
    for i in 0..imports.len() {
        let item = imports[i];
        aliases.push(Alias {
            decl: item.alias,
            module: text.string(alloc, item.imported)?,
            uses: alias_use_count(members, counts, item.alias),
        })?;
    }
    Ok(aliases)
}

/// The error of a module for an error of its member index: the name and the byte offsets of the first duplicates, or `Memory`.
fn duplicate_fault(
    alloc: Global,
    text: &TokenTexts,
    members: &[Member],
    fault: IndexFault,
) -> Result<ScopeFault, AllocError>
    // The tokens are ranges of the bytes.
    requires in_text { AreInText text.now.bytes.now text.now.tokens.now }
    // The error has the indexes of the first two members with one scope and name, or is `Memory`.
    requires twice { IsIndexFault (text_at text.now.bytes.now text.now.tokens.now) members.now fault }
    // With `Ok` the result is the error of every module that has these members.
    ensures { IfOk result (λ fault. (rows : Rows) → members.now ≡ members_of rows → AreNames (text_at text.now.bytes.now text.now.tokens.now) rows
        → IsScopeFault text.now.bytes.now text.now.tokens.now rows fault) }
{
    let IndexFault::Twice(first, second) = fault else {
        return Ok(ScopeFault::Memory);
    };
    let first = members[first];
    let second = members[second];
    let name = text.string(alloc, first.number)?;
    let first = text.start(first.number);
    let fault = match second.place {
        Scope::Block(_) => ScopeFault::Twice {
            name,
            first,
            second: text.start(second.number),
        },
        Scope::Record(_) => ScopeFault::TwiceField {
            name,
            first,
            second: text.start(second.number),
        },
    };
    Ok(fault)
}

/// The scopes of a module, from the meanings of all its uses and the number of uses that each member qualifies.
fn assemble_scopes(
    alloc: Global,
    text: &TokenTexts,
    table: &Table,
    members: &[Member],
    found: Resolutions,
) -> Result<Scopes, AllocError>
    // The tokens are ranges of the bytes.
    requires in_text { AreInText text.now.bytes.now text.now.tokens.now }
    // The lists of the table are sorted.
    requires ordered { AreRowsSorted (rows_in table.now) }
    requires few { length (rows_in table.now).uses ≤ 16777216 }
    // `members` has exactly the members of the table.
    requires members { members.now ≡ members_of (rows_in table.now) }
    // The declared names are identifiers.
    requires named { AreNames (text_at text.now.bytes.now text.now.tokens.now) (rows_in table.now) }
    // No scope declares a name twice.
    requires once { HasNoDuplicates (text_at text.now.bytes.now text.now.tokens.now) members.now }
    // `found.meanings` has exactly the meanings of the uses that have one, in token order.
    requires meant { AreMeant (text_at text.now.bytes.now text.now.tokens.now) (rows_in table.now).blocks members.now (rows_in table.now).uses (length (rows_in table.now).uses) found.meanings.items }
    // `found.counts` has for each member the number of uses that it qualifies.
    requires counted { AreCounted (text_at text.now.bytes.now text.now.tokens.now) (rows_in table.now).blocks members.now (rows_in table.now).uses (length (rows_in table.now).uses) found.counts.items }
    // With `Ok` the result has the scopes of the table.
    ensures { IfOk result (AreScopes text.now.bytes.now text.now.tokens.now (rows_in table.now)) }
{
    let aliases = build_aliases(
        alloc,
        text,
        members,
        found.counts.as_slice(),
        table.imports(),
    )?;
    let name = text.string(alloc, 1)?;
    Ok(Scopes::new(name, found.meanings, aliases))
}

/// Fails with the first duplicates if two members are duplicates. Builds the hash table of all members only if the order of their scopes
/// doesn't show that they are distinct. Interns the names of the members up to the first one out of order.
fn reject_duplicates<'a>(
    alloc: Global,
    text: &TokenTexts<'a>,
    members: &[Member],
    named: &mut Interner<'a>,
) -> Result<(), ScopeFault>
    // The tokens are ranges of the bytes.
    requires in_text { AreInText text.now.bytes.now text.now.tokens.now }
    // No name is interned yet.
    requires empty_interner { named.old.names.keys ≡ [] }
    requires no_numbers { named.old.numbers.items ≡ [] }
    // With `Ok` the members interned so far have the numbers of their names.
    ensures numbered { OnOk result (AreInterned (text_at text.now.bytes.now text.now.tokens.now) (take (length named.new.numbers.items) members.now) named.new.names.keys named.new.numbers.items) }
    // With `Ok` no scope declares a name twice.
    ensures once { OnOk result (HasNoDuplicates (text_at text.now.bytes.now text.now.tokens.now) members.now) }
    // With `Err` the error has the first duplicates, or an allocation failed.
    ensures fault { IfErr result (λ fault. (rows : Rows) → members.now ≡ members_of rows → AreNames (text_at text.now.bytes.now text.now.tokens.now) rows
        → IsScopeFault text.now.bytes.now text.now.tokens.now rows fault) }
{
    if are_distinct_by_order(alloc, text, members, named)? {
        return Ok(());
    }
    match build_member_index(alloc, text, *named.names.hasher(), members) {
        Ok(_) => Ok(()),
        Err(fault) => Err(duplicate_fault(alloc, text, members, fault)?),
    }
}

/// The scopes of a module without duplicates. `named` may already have interned the names of the first members.
fn build_scopes<'a>(
    alloc: Global,
    text: &TokenTexts<'a>,
    table: &Table,
    members: &[Member],
    named: &mut Interner<'a>,
) -> Result<Scopes, AllocError>
    // The tokens are ranges of the bytes.
    requires in_text { AreInText text.now.bytes.now text.now.tokens.now }
    // The lists of the table are sorted.
    requires ordered { AreRowsSorted (rows_in table.now) }
    requires few { length (rows_in table.now).uses ≤ 16777216 }
    // The names of each block are contiguous.
    requires together { AreContiguous (rows_in table.now).blocks members.now (rows_in table.now).uses }
    // `members` has exactly the members of the table.
    requires members { members.now ≡ members_of (rows_in table.now) }
    // The declared names are identifiers.
    requires named { AreNames (text_at text.now.bytes.now text.now.tokens.now) (rows_in table.now) }
    // No scope declares a name twice.
    requires once { HasNoDuplicates (text_at text.now.bytes.now text.now.tokens.now) members.now }
    // The members interned so far have the numbers of their names.
    requires numbered { AreInterned (text_at text.now.bytes.now text.now.tokens.now) (take (length named.old.numbers.items) members.now) named.old.names.keys named.old.numbers.items }
    // With `Ok` the result has the scopes of the table.
    ensures { IfOk result (AreScopes text.now.bytes.now text.now.tokens.now (rows_in table.now)) }
{
    intern_rest(text, members, named)?;
    let found = resolve_uses(alloc, text, table.blocks(), members, named, table.uses())?;
    assemble_scopes(alloc, text, table, members, found)
}

/// The scopes of a module with these members; or the error that has its first duplicates.
fn check_and_build_scopes(
    alloc: Global,
    text: &TokenTexts,
    table: &Table,
    members: &[Member],
) -> Result<Scopes, ScopeFault>
    // The tokens are ranges of the bytes.
    requires in_text { AreInText text.now.bytes.now text.now.tokens.now }
    // The lists of the table are sorted.
    requires ordered { AreRowsSorted (rows_in table.now) }
    requires few { length (rows_in table.now).uses ≤ 16777216 }
    // The names of each block are contiguous.
    requires together { AreContiguous (rows_in table.now).blocks members.now (rows_in table.now).uses }
    // `members` has exactly the members of the table.
    requires members { members.now ≡ members_of (rows_in table.now) }
    // The declared names are identifiers.
    requires named { AreNames (text_at text.now.bytes.now text.now.tokens.now) (rows_in table.now) }
    // With `Ok` the result has the scopes of the table.
    ensures scoped { IfOk result (AreScopes text.now.bytes.now text.now.tokens.now (rows_in table.now)) }
    // With `Err` the error has the first duplicates, or an allocation failed.
    ensures fault { IfErr result (IsScopeFault text.now.bytes.now text.now.tokens.now (rows_in table.now)) }
{
    let mut named = empty_interner(alloc, text, members.len())?;
    match reject_duplicates(alloc, text, members, &mut named) {
        Ok(()) => Ok(build_scopes(alloc, text, table, members, &mut named)?),
        Err(fault) => Err(fault),
    }
}

/// The scopes of a module: the declaration that each use means by the scope rule, and the number of uses that each alias qualifies
/// (Oberon-07 report, sections 4 and 11). If two identifiers in one block or record have equal names, returns `Twice` or `TwiceField`
/// with the first such pair, whose second identifier comes first. Returns `Memory` if an allocation fails.
pub fn scopes_from(
    alloc: Global,
    table: &Table,
    tokens: &[Token],
    bytes: &[u8],
) -> Result<Scopes, ScopeFault>
    // Every token is a range of the bytes.
    requires in_text { AreInText bytes.now tokens.now }
    // The scanner returns these tokens for the bytes.
    requires spelled { IsOutcome bytes.now (Ok tokens.now) }
    // The table holds the entries of a syntax tree of these tokens.
    requires rows { AreTreeRows (IsIdentifier tokens.now) (length tokens.now) (rows_in table.now) }
    // With `Ok` the table has no duplicates, and the result has its scopes.
    ensures scoped { IfOk result (AreScopes bytes.now tokens.now (rows_in table.now)) }
    // With `Err` the error has the first duplicates, or an allocation failed.
    ensures fault { IfErr result (IsScopeFault bytes.now tokens.now (rows_in table.now)) }
{
    table.invariants();
    let text = TokenTexts { bytes, tokens };
    let members = declared_members(alloc, table.decl_groups(), table.declared())?;
    check_and_build_scopes(alloc, &text, table, members.as_slice())
}
