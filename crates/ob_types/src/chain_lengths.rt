//! Finds the type declarations at which long chains of types arrive. The ends of the types of these declarations are worth precomputing.
//! The results affect only speed, so the functions have no contracts.

use crate::indexed_module::{IndexedModule, is_type};
use crate::listed::last_part;
use crate::nodes::{Named, Node, Record};
use ob_interface::{Interface, Part};
use ob_view::View;
use std::alloc::{AllocError, Global};
use std::hash::{DefaultHasher, Hasher};
use type_graph::Shape;

/// A chain of types with at least this number of steps is long. A step leads from a type to the one that it names, points to or extends.
const LONG_CHAIN: usize = 16;

/// A type declaration from which a chain of types goes on: its type is a name, a pointer or a record with a base.
#[derive(Clone, Copy, Drop)]
pub(crate) struct ChainLink {
    /// The index of the declaration's module; `declaration` is the declaration's index in the interface of that module.
    reached: u32,
    declaration: u32,
    /// The record whose base is the next type on the chain; `None` if the next type is named otherwise.
    record: Option<u32>,
    /// The index of the next link on the chain, `None` if there is none; `steps` is the number of steps to it.
    next: Option<usize>,
    steps: usize,
    /// The length of the longest chain that arrives at this declaration; at most `LONG_CHAIN`.
    distance: usize,
}

/// Whether the declaration at this index is a type declaration whose type is a name, a pointer or a record with a base.
fn is_chain_link(module: &Interface, index: u32) -> bool {
    let has_next = match module.type_part(index, 0) {
        Some(Part::Record(record)) => module.base(record).is_some(),
        Some(Part::Pointer | Part::Named { .. }) => true,
        Some(Part::Array | Part::Procedure) | None => false,
    };
    has_next && is_type_at(module, index)
}

/// Whether the declaration at this index is a type declaration.
fn is_type_at(module: &Interface, index: u32) -> bool {
    match module.declaration_at(index) {
        Some(it) => is_type(it.decl_kind),
        None => false,
    }
}

/// Appends a link for each type declaration of a module from which a chain of types goes on. The next links aren't set yet.
fn append_links(
    module: &Interface,
    links: &mut Vec<ChainLink>,
    reached: u32,
) -> Result<(), AllocError> {
    for index in 0..module.declaration_count() {
        if is_chain_link(module, index as u32) {
            links.push(ChainLink {
                reached,
                declaration: index as u32,
                record: None,
                next: None,
                steps: 0,
                distance: 0,
            })?;
        }
    }
    Ok(())
}

/// Makes the links of all reached modules, one for each type declaration from which a chain of types goes on. They are sorted by the index
/// of the module and then by that of the declaration.
fn all_links(alloc: Global, view: &View<'_>) -> Result<Vec<ChainLink>, AllocError> {
    let mut links = Vec::new(alloc);
    view.invariants();
    let modules = view.reached();
    for at in 0..modules.len() {
        append_links(&modules[at], &mut links, at as u32)?;
    }
    Ok(links)
}

/// Whether the link `it` comes before the given declaration in the order by the index of the module and then by that of the declaration.
fn is_before(it: &ChainLink, reached: u32, declaration: u32) -> bool {
    it.reached < reached || (it.reached == reached && it.declaration < declaration)
}

/// The index of the link of this declaration in the sorted list, by binary search; `None` if the list has none.
fn find_link(links: &[ChainLink], reached: u32, declaration: u32) -> Option<usize> {
    let at = links.partition_point(|it| is_before(it, reached, declaration));
    let it = links.get(at)?;
    if it.reached == reached && it.declaration == declaration {
        Some(at)
    } else {
        None
    }
}

/// The node of the name in a component of a declaration's type, or of the base's name if the component is a record. `None` for any other
/// component.
fn name_node(reached: u32, declaration: u32, at: usize, part: Part<'_>) -> Option<Node> {
    match part {
        Part::Named { .. } => Some(Node::Other {
            reached,
            declaration,
            part: at,
        }),
        Part::Record(record) => Some(Node::OtherBase { reached, record }),
        Part::Array | Part::Pointer | Part::Procedure => None,
    }
}

/// The RECORD keyword of a component that is a record; `None` for any other component.
fn record_of(part: Part<'_>) -> Option<u32> {
    match part {
        Part::Record(record) => Some(record),
        Part::Array | Part::Pointer | Part::Procedure | Part::Named { .. } => None,
    }
}

/// The link `it` with its next link: that of the declaration which the last component of its type names, or which is the base of its
/// record.
/// `None` if there is no such name, or if the name denotes no declaration of a reached module.
fn link_with_next(
    indexed_module: &IndexedModule<'_>,
    links: &[ChainLink],
    it: ChainLink,
) -> Option<ChainLink> {
    let module = indexed_module.view.interface(it.reached)?;
    let (at, part) = last_part(module, it.declaration)?;
    let node = name_node(it.reached, it.declaration, at, part)?;
    let Shape::Named(
        Named::Other {
            reached,
            declaration,
        },
        _,
    ) = indexed_module.shape(node)
    else {
        return None;
    };
    Some(ChainLink {
        reached: it.reached,
        declaration: it.declaration,
        record: record_of(part),
        next: find_link(links, reached, declaration),
        steps: at.saturating_add(1),
        distance: 0,
    })
}

/// Finds and stores the next link of the link at index `at`.
fn find_next_step(indexed_module: &IndexedModule<'_>, links: &mut [ChainLink], at: usize) {
    if at < links.len()
        && let Some(it) = link_with_next(indexed_module, links, links[at])
    {
        links[at] = it;
    }
}

/// Finds and stores the next link of each link. Each name is looked up once.
fn find_next_steps(indexed_module: &IndexedModule<'_>, links: &mut [ChainLink]) {
    for at in 0..links.len() {
        find_next_step(indexed_module, links, at);
    }
}

/// Relaxes the edge from the link at index `at` to its next link (Bellman-Ford). If the chain through this edge is longer than the longest
/// chain found so far to the next link, stores its length there and returns true.
fn relax(links: &mut [ChainLink], at: usize) -> bool {
    let Some(it) = links.get(at).copied() else {
        return false;
    };
    let Some(next) = it.next else {
        return false;
    };
    if next >= links.len() {
        return false;
    }
    let mut external = links[next];
    let distance = it.distance.saturating_add(it.steps).min(LONG_CHAIN);
    if distance <= external.distance {
        return false;
    }
    external.distance = distance;
    links[next] = external;
    true
}

/// Relaxes the edges of all links, from the last link to the first. Most names come after the declarations that they mean, so this order
/// needs few rounds. Returns whether a chain has become longer.
fn relax_all(links: &mut [ChainLink]) -> bool {
    let mut changed = false;
    let count = links.len();
    for passed in 0..count {
        let at = count.saturating_sub(passed).saturating_sub(1);
        if relax(links, at) {
            changed = true;
        }
    }
    changed
}

/// Computes for each link the length of the longest chain that arrives there (Bellman-Ford), up to `LONG_CHAIN`. That number of rounds
/// suffices, since each round adds a step to a chain that still grows.
fn measure_chains(links: &mut [ChainLink]) {
    for _ in 0..LONG_CHAIN {
        if !relax_all(links) {
            return;
        }
    }
}

/// The links of the declarations at which long chains arrive, in the order of the list.
fn select_chain_ends(alloc: Global, links: &[ChainLink]) -> Result<Vec<ChainLink>, AllocError> {
    let mut chain_ends = Vec::new(alloc);
    for it in links {
        if it.distance >= LONG_CHAIN {
            chain_ends.push(*it)?;
        }
    }
    Ok(chain_ends)
}

/// The links of the type declarations at which a long chain arrives and from which it goes on, in all reached modules. They are sorted by
/// the index of the module and then by that of the declaration.
pub(crate) fn find_chain_ends(
    alloc: Global,
    indexed_module: &IndexedModule<'_>,
) -> Result<Vec<ChainLink>, AllocError> {
    let mut links = all_links(alloc, &indexed_module.view)?;
    find_next_steps(indexed_module, &mut links);
    measure_chains(&mut links);
    select_chain_ends(alloc, links.as_slice())
}

/// A digest of these links (SipHash-1-3; Aumasson and Bernstein 2012), which seeds hash tables. Whoever chooses declarations or records
/// that collide under one seed changes the seed by this choice.
pub(crate) fn digest_links(chain_ends: &[ChainLink]) -> u64 {
    let mut digest = DefaultHasher::new();
    for it in chain_ends {
        digest.write_u32(it.reached);
        digest.write_u32(it.declaration);
        digest.write_u32(it.record.unwrap_or(u32::MAX));
    }
    digest.finish()
}

/// The declarations whose type is a name or a pointer, each as the index of the module and the index of the declaration.
pub(crate) fn chain_end_names(
    alloc: Global,
    chain_ends: &[ChainLink],
) -> Result<Vec<(u32, u32)>, AllocError> {
    let mut chain_end_names = Vec::new(alloc);
    for it in chain_ends {
        if it.record.is_none() || it.steps > 1 {
            chain_end_names.push((it.reached, it.declaration))?;
        }
    }
    Ok(chain_end_names)
}

/// The records with bases in the types of these declarations.
pub(crate) fn chain_end_records(
    alloc: Global,
    chain_ends: &[ChainLink],
) -> Result<Vec<Record>, AllocError> {
    let mut records = Vec::new(alloc);
    for it in chain_ends {
        if let Some(record) = it.record {
            let reached = it.reached;
            records.push(Record::Other { reached, record })?;
        }
    }
    Ok(records)
}
