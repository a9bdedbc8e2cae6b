//! Precomputes the ends of types and the heavy paths of records for all modules of a tree, before the identifiers of any are resolved.

ghost use Rattle.std.specs.Prelude.{◌≡◌, IfOk, IfSome};
ghost use Rattle.ob_types.specs.PrecomputedEnds.{AreAllEndsOf};
ghost use Rattle.ob_types.specs.declared.nodes.Node.TheVariants as nodes;

use crate::chain_lengths::{
    ChainLink, chain_end_names, chain_end_records, digest_links, find_chain_ends,
};
use crate::nodes::Node;
use crate::precomputed::{PrecomputedTypes, TypeEnds, clone_interfaces};
use crate::types::Types;
use std::alloc::{AllocError, Global};
use std::collections::BTreeMap;
use type_graph::Finder;

/// The node of the type that a declaration of a reached module gives, by the index of the module and that of the declaration.
fn type_expr(reached: u32, declaration: u32) -> Node
    ensures { result ≡ nodes.Other reached declaration 0 }
{
    Node::Other {
        reached,
        declaration,
        part: 0,
    }
}

/// Computes for each of these declarations the two ends of the type that it gives. A declaration is given by the index of its module and
/// its own index.
fn compute_ends(
    alloc: Global,
    finder: &mut Finder<'_, Types<'_>>,
    links: &[(u32, u32)],
) -> Result<BTreeMap<(u32, u32), TypeEnds>, AllocError>
    // The call doesn't change the types on which the finder works.
    ensures graph { finder.new ≡ finder.old }
    // With `Ok` each element of the map has the ends of the type that the declaration in its key gives.
    ensures ends { IfOk result (AreAllEndsOf finder.old) }
{
    let mut all = BTreeMap::new(alloc);
    for (reached, declaration) in links {
        let node = type_expr(*reached, *declaration);
        let ends = TypeEnds {
            by_names: finder.end(false, node)?,
            by_pointers: finder.end(true, node)?,
        };
        all.insert((*reached, *declaration), ends)?;
    }
    Ok(all)
}

/// Precomputes the ends of types and the heavy paths of records for all reached modules. `chain_ends` has the declarations at which long
/// chains arrive.
fn build_precomputed(
    alloc: Global,
    types: &Types<'_>,
    chain_ends: &[ChainLink],
) -> Result<PrecomputedTypes, AllocError>
    ensures { IfOk result (λ s. s ≡ types.now.reached) }
{
    let view = types.view();
    view.invariants();
    let digest = digest_links(chain_ends).to_le_bytes();
    let mut finder = Finder::new(alloc, types, &digest, chain_ends.len());
    let names = chain_end_names(alloc, chain_ends)?;
    let ends = compute_ends(alloc, &mut finder, names.as_slice())?;
    let records = chain_end_records(alloc, chain_ends)?;
    Ok(PrecomputedTypes {
        modules: clone_interfaces(alloc, view.reached())?,
        paths: finder.decompose(records.as_slice())?,
        ends,
    })
}

/// Precomputes the ends of types and the heavy paths of records, where chains are long, for all modules that `types` reaches. Each module
/// of the tree can use the result. Returns `Ok(None)` if no chain is long, and `AllocError` if an allocation fails.
pub fn precompute_types(
    alloc: Global,
    types: &Types<'_>,
) -> Result<Option<Box<PrecomputedTypes>>, AllocError>
    // A result that isn't `None` is for exactly the modules that `types` reaches.
    ensures { IfOk result (λ known. IfSome known (λ s. s.value ≡ types.now.reached)) }
{
    let chain_ends = find_chain_ends(alloc, &types.indexed_module)?;
    if chain_ends.is_empty() {
        return Ok(None);
    }
    let known = build_precomputed(alloc, types, chain_ends.as_slice())?;
    Ok(Some(Box::new(alloc, known)?))
}
