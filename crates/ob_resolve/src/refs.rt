//! Lists the references of a module: its identifiers, each with its target and its role.
ghost use Rattle.std.specs.Prelude.{◌≡◌, ◌<◌, IfOk, length};
ghost use Rattle.module_table.specs.Order.{IsIncreasingBy};
ghost use Rattle.ob_scan.specs.declared.token.Token.{Token as TokenSeen};
ghost use Rattle.ob_targets.specs.Refers.{is_identifier, unresolved, AreReferences};
ghost use Rattle.ob_resolve.specs.Precomputed.{IsPrecomputed};

use crate::identifier_reference::reference_of;
use crate::precomputed::{Precomputed, precompute};
use ob_scan::{Kind, Token};
use ob_types::Types;
use ob_view::{Reference, View};
use std::alloc::{AllocError, Global};
use std::marker::Model;

/// The references of a module: all its identifiers in order, each with its target and its role. Contracts describe a value as the list of
/// references.
#[derive(Drop)]
pub struct Refs {
    rows: Vec<Reference>,
}

impl Model for Refs {
    ghost use Rattle.std.specs.Prelude.{List};
    ghost use Rattle.ob_view.specs.declared.target.Reference.{Reference};

    ghost Value = { List Reference };

    ghost view = { λ r. r.rows.items };
}

impl Refs {
    /// Returns the references as a slice.
    pub fn as_slice(&self) -> &[Reference]
        // The slice has exactly the references of the list.
        ensures { result.now ≡ self.now }
    {
        self.rows.as_slice()
    }

    /// Returns the token numbers of the identifiers that denote nothing, in order. Fails with `AllocError` if an allocation fails.
    pub fn unresolved(&self) -> Result<Vec<u32>, AllocError>
        // With `Ok` the list has exactly the token numbers of the references whose target is `Unresolved`, in order.
        ensures { IfOk result (λ v. v.items ≡ unresolved self.now) }
    {
        self.rows
            .iter()
            .filter(|row| row.target.is_unresolved())
            .map(|row| row.number)
            .collect(*self.rows.allocator())
    }
}

/// Whether a token of this kind is an identifier.
fn is_identifier(kind: Kind) -> bool
    ensures { result ≡ is_identifier kind }
{
    matches!(kind, Kind::Ident)
}

/// Converts the index of a token to 32 bits. It fits: the tokens start at increasing offsets of 32 bits, so the index of a token is at most
/// its start.
fn token_number(tokens: &[Token], position: usize) -> u32
    requires within { position < length tokens.now }
    requires ascend { IsIncreasingBy (λ (t : TokenSeen). t.start) tokens.now }
    ensures { result ≡ position }
{
    let _offset = tokens[position].start;
    position as u32
}

/// Determines the references of all identifiers of a module from the precomputed lists.
fn resolve_identifiers(
    alloc: Global,
    view: &View<'_>,
    found: &Precomputed,
) -> Result<Refs, AllocError>
    // The lists in `found` are those of the module.
    requires { IsPrecomputed view.now found.now }
    ensures exact { IfOk result (AreReferences view.now) }
{
    view.invariants();
    let tokens = view.tokens();
    let mut rows = Vec::new(alloc);
    for position in 0..tokens.len() {
        if is_identifier(tokens[position].kind) {
            rows.push(reference_of(view, found, token_number(tokens, position)))?;
        }
    }
    Ok(Refs { rows })
}

/// Finds what each identifier of a module denotes, and its role (Oberon-07 report, sections 4 to 11).
/// The role is 1 for a declaration, 2 for an import, 4 for a write, 8 for a read, and 0 for any other use (scip.proto, `SymbolRole`).
/// Fails with `AllocError` if an allocation fails, and never otherwise.
pub fn references(alloc: Global, types: &Types<'_>) -> Result<Refs, AllocError>
    // With `Ok` the list has all identifiers of the module, each once and in order, each with the target and the role that the rules give
    // it.
    ensures exact { IfOk result (AreReferences types.now) }
{
    let found = precompute(alloc, types)?;
    resolve_identifiers(alloc, types.view(), &found)
}
