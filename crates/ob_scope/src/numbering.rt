//! Interns the names of members: equal names get equal numbers, so that each name is hashed once and then compared by its number.
ghost use Rattle.std.specs.Prelude.{◌≡◌, ◌≤◌, ◌<◌, ◌+◌, ◌∷◌, ◌++◌, [], length, take, IfOk, IfSome, IfNone, OnOk};
ghost use Rattle.ob_scan.specs.Spelling.{AreInText};
ghost use Rattle.ob_scan.specs.Texts.{text_at};
ghost use Rattle.ob_scope.specs.Visibility.{name_number, AreInterned};

use indexmap::IndexSet;
use ob_scan::TokenTexts;
use scopes::Member;
use std::alloc::{AllocError, Global};
use text_hash::{Name, Seed};

/// The distinct names of the interned members, in the order of their first occurrence. `numbers` has for each of these members the index of
/// its name in `names`.
#[derive(Drop)]
pub(crate) struct Interner<'a> {
    pub(crate) names: IndexSet<Name<'a>, Seed>,
    pub(crate) numbers: Vec<usize>,
}

/// An interner without names, with capacity for the numbers of `count` members. The seed of its hash table comes from the source text.
pub(crate) fn empty_interner<'a>(
    alloc: Global,
    text: &TokenTexts<'a>,
    count: usize,
) -> Result<Interner<'a>, AllocError>
    ensures names { IfOk result (λ r. r.names.keys ≡ []) }
    ensures numbers { IfOk result (λ r. r.numbers.items ≡ []) }
{
    let numbers = Vec::with_capacity(alloc, count)?;
    let names = IndexSet::with_hasher(alloc, Seed::for_keys(text.bytes, count));
    Ok(Interner { names, numbers })
}

/// Interns the name of the member with index `at`, and returns the number of the name. `at` is the number of the members interned so far.
pub(crate) fn intern_member<'a>(
    text: &TokenTexts<'a>,
    members: &[Member],
    named: &mut Interner<'a>,
    at: usize,
) -> Result<usize, AllocError>
    // The tokens are ranges of the bytes.
    requires in_text { AreInText text.now.bytes.now text.now.tokens.now }
    requires within { at < length members.now }
    // The members interned so far have the numbers of their names.
    requires numbered { AreInterned (text_at text.now.bytes.now text.now.tokens.now) (take at members.now) named.old.names.keys named.old.numbers.items }
    // With `Ok` the members up to index `at` have the numbers of their names.
    ensures numbered { OnOk result (AreInterned (text_at text.now.bytes.now text.now.tokens.now) (take (at + 1) members.now) named.new.names.keys named.new.numbers.items) }
    ensures number { IfOk result (λ n. named.new.numbers.items ≡ named.old.numbers.items ++ n ∷ []) }
    // With `Ok` at most one name is new.
    ensures grown { OnOk result (length named.new.names.keys ≤ length named.old.names.keys + 1) }
{
    let bytes = text.token_text(members[at].number);
    match named.names.insert_full(Name { bytes }) {
        Ok((number, _)) => {
            named.numbers.push(number)?;
            Ok(number)
        }
        Err(_) => Err(AllocError),
    }
}

/// Interns the names of the members that have no number yet.
pub(crate) fn intern_rest<'a>(
    text: &TokenTexts<'a>,
    members: &[Member],
    named: &mut Interner<'a>,
) -> Result<(), AllocError>
    // The tokens are ranges of the bytes.
    requires in_text { AreInText text.now.bytes.now text.now.tokens.now }
    // The members interned so far have the numbers of their names.
    requires numbered { AreInterned (text_at text.now.bytes.now text.now.tokens.now) (take (length named.old.numbers.items) members.now) named.old.names.keys named.old.numbers.items }
    // With `Ok` all members have the numbers of their names.
    ensures { OnOk result (AreInterned (text_at text.now.bytes.now text.now.tokens.now) members.now named.new.names.keys named.new.numbers.items) }
{
    let begin = named.numbers.len();
    for i in begin..members.len() {
        intern_member(text, members, named, i)?;
    }
    Ok(())
}

/// The number of a name; `None` if no member has that name.
pub(crate) fn name_number(names: &IndexSet<Name, Seed>, name: &[u8]) -> Option<usize>
    ensures found { IfSome result (λ n. n ≡ name_number names.now.keys name.now) }
    ensures within { IfSome result (λ n. n < length names.now.keys) }
    ensures none { IfNone result (length names.now.keys ≤ name_number names.now.keys name.now) }
{
    names.get_index_of(&Name { bytes: name })
}
