//! An index of the members by scope and name, which finds duplicates.
ghost use Rattle.std.specs.Prelude.{◌≡◌, IfOk, IfErr};
ghost use Rattle.ob_scan.specs.Spelling.{AreInText};
ghost use Rattle.ob_scan.specs.Texts.{text_at};
ghost use Rattle.ob_scope.specs.MemberIndex.{scoped_name_of, scoped_name_in, IsIndex, IsIndexFault};

use indexmap::IndexSet;
use ob_scan::TokenTexts;
use scopes::{Member, Scope};
use std::alloc::Global;
use text_hash::{Name, Seed};

/// A scope and a name in it.
#[derive(Clone, Copy, PartialEq, Eq, Hash)]
pub(crate) struct MemberKey<'a> {
    pub(crate) place: Scope,
    pub(crate) name: Name<'a>,
}

/// The error because of which no index is built: the members with these two list positions are duplicates, or an allocation failed.
#[derive(Clone, Copy)]
pub(crate) enum IndexFault {
    Twice(usize, usize),
    Memory,
}

/// The scope and name of a member.
fn member_key<'a>(text: &TokenTexts<'a>, member: &Member) -> MemberKey<'a>
    requires { AreInText text.now.bytes.now text.now.tokens.now }
    ensures { scoped_name_in result ≡ scoped_name_of (text_at text.now.bytes.now text.now.tokens.now) member.now }
{
    MemberKey {
        place: member.place,
        name: Name {
            bytes: text.token_text(member.number),
        },
    }
}

/// A hash set of the scope and name of each member, in member order. Fails with the first duplicates, if there are any.
pub(crate) fn build_member_index<'a>(
    alloc: Global,
    text: &TokenTexts<'a>,
    seed: Seed,
    members: &[Member],
) -> Result<IndexSet<MemberKey<'a>, Seed>, IndexFault>
    requires { AreInText text.now.bytes.now text.now.tokens.now }
    // With `Ok` the keys are the scopes and names of the members, in their order, and no two of them are equal.
    ensures index { IfOk result (λ index. IsIndex (text_at text.now.bytes.now text.now.tokens.now) members.now index.keys) }
    // With `Err` the error has the positions of the first two members with one scope and name, or is `Memory`.
    ensures fault { IfErr result (IsIndexFault (text_at text.now.bytes.now text.now.tokens.now) members.now) }
{
    let Ok(mut index) = IndexSet::with_capacity_and_hasher(alloc, members.len(), seed) else {
        return Err(IndexFault::Memory);
    };
    for i in 0..members.len() {
        let key = member_key(text, &members[i]);
        match index.insert_full(key) {
            Ok((_, true)) => {}
            Ok((first, false)) => return Err(IndexFault::Twice(first, i)),
            Err(_) => return Err(IndexFault::Memory),
        }
    }
    Ok(index)
}
