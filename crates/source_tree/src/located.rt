//! The network of a tree, with the locations of its modules and imports.
ghost use Rattle.std.specs.Prelude.{◌≡◌, ◌<◌, ℕ, All, Contains, IfErr, IfOk, List, length, map};
ghost use Rattle.cut_net.specs.Network.{name_of};
ghost use Rattle.scopes.specs.Scoped.{ModuleScopes};
ghost use Rattle.source_tree.specs.Located.{AreModulesOf, AreSitesOf};
ghost use Rattle.source_tree.specs.Trees.{IsNetOfTree, IsTreeFault};
ghost use Rattle.source_tree.specs.declared.import_sites.LocatedScopes.{LocatedScopes as Located};

use crate::files::read_files;
use crate::import_sites::{ImportSite, LocatedScopes, import_sites};
use crate::tree_reading::{build_tree, network_of_tree};
use crate::{Source, TreeFault};
use cut_net::Net;
use ob_scan::Position;
use ob_scope::Scopes;
use std::alloc::{AllocError, Global};
use std::thread::Threads;

/// The network of a tree, the module number of each file, and the location of each import.
#[derive(Drop)]
pub struct LocatedNet {
    pub net: Net,
    /// For each file, in order, the number of its module in the network.
    pub modules: Vec<u32>,
    /// For each import of the network, in order, its location.
    pub imports: Vec<ImportSite>,
}

/// For each of these scopes, the number in the network of their module.
fn network_numbers(alloc: Global, net: &Net, scopes: &[Scopes]) -> Result<Vec<u32>, AllocError>
    // The network has a module for each of the scopes.
    requires { All (λ s. Contains net.now.names s.name) scopes.now }
    ensures low { IfOk result (λ v. All (λ m. m < length net.now.names) v.items) }
    ensures named { IfOk result (λ v. map (name_of net.now) v.items ≡ map (λ (s : ModuleScopes). s.name) scopes.now) }
{
    let mut modules = Vec::new(alloc);
    for module in scopes {
        let Some(number) = net.index_of(module.name()) else {
            unreachable!();
        };
        modules.push(number)?;
    }
    Ok(modules)
}

/// Splits a list of pairs into two lists, both in the order of the files: the scopes, and the positions of the import items.
fn split_located_scopes(
    alloc: Global,
    files: Vec<LocatedScopes>,
) -> Result<(Vec<Scopes>, Vec<Vec<Position>>), AllocError>
    ensures scopes { IfOk result (λ x. x.0.items ≡ map (λ (l : Located). l.scopes) files.items) }
    ensures items { IfOk result (λ x. x.1.items ≡ map (λ (l : Located). l.items) files.items) }
{
    let mut scopes = Vec::new(alloc);
    let mut items = Vec::new(alloc);
    for file in files {
        scopes.push(file.scopes)?;
        items.push(file.items)?;
    }
    Ok((scopes, items))
}

/// The network of a tree, as `net_of` returns it, with the module numbers of its files and the locations of its imports.
pub fn located_net_of<R: Threads + Sync>(
    rt: &R,
    alloc: Global,
    sources: &[Source],
    workers: u32,
) -> Result<LocatedNet, TreeFault>
    // With `Ok` the files are accepted, and the network is that of their imports.
    ensures net { IfOk result (λ located. IsNetOfTree sources.now located.net) }
    // With `Ok` the result has for each file the number of its module in the network.
    ensures modules { IfOk result (λ located. AreModulesOf sources.now located.net located.modules.items) }
    // With `Ok` the result has for each import of the network the location of the first import item that names it.
    ensures imports { IfOk result (λ located. AreSitesOf sources.now located.net located.imports.items) }
    // With `Err` the tree has the returned error, or an allocation failed.
    ensures fault { IfErr result (IsTreeFault sources.now) }
{
    let files: Vec<LocatedScopes> = read_files(rt, alloc, sources, workers)?;
    let (scopes, items) = split_located_scopes(alloc, files)?;
    let tree = build_tree(alloc, sources, scopes)?;
    let net = network_of_tree(alloc, &tree)?;
    let scopes = tree.scopes.as_slice();
    let modules = network_numbers(alloc, &net, scopes)?;
    let imports = import_sites(alloc, &net, scopes, items.as_slice())?;
    Ok(LocatedNet {
        net,
        modules,
        imports,
    })
}
