//! The uses that cross an import: the qualified names whose alias denotes the imported module.
ghost use Rattle.std.specs.Prelude.{◌≡◌, ℕ, true, List, Contains, IfNone, IfOk, IfSome};
ghost use Rattle.ob_scan.specs.declared.token.Token.{Token};
ghost use Rattle.ob_scan.specs.Texts.{text_at};
ghost use Rattle.module_table.specs.Tables.{rows_in};
ghost use Rattle.module_table.specs.Order.{IsIncreasingBy};
ghost use Rattle.module_table.specs.Parts.{Rows};
ghost use Rattle.scopes.specs.declared.members.Member.{Member};
ghost use Rattle.scopes.specs.QualifiedUses.{Crosses};
ghost use Rattle.ob_scope.specs.Crossings.{AreCrossings, AreScopesOf, IsImportAt, IsOfUse};
ghost use Rattle.scopes.specs.Aliases.{IsAliasFor};
ghost use Rattle.scopes.specs.Scoped.{AreScopes};

use crate::members::declared_members;
use crate::uses::is_import;
use module_table::{Table, Used, index_of};
use scopes::{Member, Scopes};
use std::alloc::{AllocError, Global};

/// A use that crosses an import: a qualified name `alias.member`, given by the indexes of its two names among the tokens.
#[derive(Clone, Copy, Drop)]
pub struct Crossing {
    /// The index of the token that is the alias.
    pub first: u32,
    /// The index of the token that is the name after the dot.
    pub last: u32,
}

/// Whether the token with this index declares an import's alias.
fn declares_import(members: &[Member], number: u32) -> bool
    requires { IsIncreasingBy (λ (m : Member). m.number) members.now }
    ensures yes { result ≡ true → IsImportAt members.now number }
    ensures no { IsImportAt members.now number → result ≡ true }
{
    match index_of(members, number) {
        Some(at) => is_import(members[at].decl_kind),
        None => false,
    }
}

/// Whether the token with this index declares an alias of the module named `imported`.
fn is_alias_for(scopes: &Scopes, members: &[Member], number: u32, imported: &str) -> bool
    requires { IsIncreasingBy (λ (m : Member). m.number) members.now }
    ensures alias { result ≡ true → IsAliasFor scopes.now number imported.now }
    ensures declared { result ≡ true → IsImportAt members.now number }
    ensures no { IsAliasFor scopes.now number imported.now → IsImportAt members.now number → result ≡ true }
{
    scopes.is_alias_of(number, imported) && declares_import(members, number)
}

/// The tokens of the use, if it crosses to the module named `imported`; otherwise `None`.
fn find_crossing(
    scopes: &Scopes,
    members: &[Member],
    used: Used,
    imported: &str,
) -> Option<Crossing>
    requires { IsIncreasingBy (λ (m : Member). m.number) members.now }
    ensures tokens { IfSome result (IsOfUse used) }
    // With `Some`: if the scopes and members are those of a module that has the use, the use crosses to the module named `imported`.
    ensures found { IfSome result (λ _. (bytes : List ℕ) (ts : List Token) (rows : Rows) → AreScopesOf bytes ts rows members.now scopes.now → Contains rows.uses used → Crosses (text_at bytes ts) rows imported.now used) }
    // With `None`: if the scopes and members are those of a module that has the use, the use doesn't cross to that module.
    ensures none { IfNone result ((bytes : List ℕ) (ts : List Token) (rows : Rows) → AreScopesOf bytes ts rows members.now scopes.now → Contains rows.uses used → Crosses (text_at bytes ts) rows imported.now used → ⊥) }
{
    let last = used.member?;
    let declared = scopes.resolve(used.number)?;
    if is_alias_for(scopes, members, declared, imported) {
        Some(Crossing {
            first: used.number,
            last,
        })
    } else {
        None
    }
}

/// The uses that cross to the module named `imported`, in token order: the uses that one of its aliases qualifies (Oberon-07 report,
/// section 11). The result is right only if the scopes are those of the table. Returns `AllocError` if an allocation fails.
pub fn crossings(
    alloc: Global,
    table: &Table,
    scopes: &Scopes,
    imported: &str,
) -> Result<Vec<Crossing>, AllocError>
    // With `Ok`: if the scopes are those of the table, the result has exactly the uses that cross to the module.
    ensures { IfOk result (λ cs. (bytes : List ℕ) (ts : List Token) → AreScopes bytes ts (rows_in table.now) scopes.now
        → AreCrossings (text_at bytes ts) (rows_in table.now) imported.now (rows_in table.now).uses cs.items) }
{
    table.invariants();
    let members = declared_members(alloc, table.decl_groups(), table.declared())?;
    let members = members.as_slice();
    let mut found = Vec::new(alloc);
    for used in table.uses() {
        if let Some(crossing) = find_crossing(scopes, members, *used, imported) {
            found.push(crossing)?;
        }
    }
    Ok(found)
}
