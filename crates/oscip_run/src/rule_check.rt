//! The engine of the command `rules`: it checks a tree against rules, and writes the verdict to any sink.
ghost use Rattle.std.specs.Prelude.{◌≡◌, ◌<◌, ℕ, IfOk, Some, length, map, slice_get};
ghost use Rattle.std.specs.String.{string_bytes};
ghost use Rattle.byte_sink.specs.Sinks.{failures_by};
ghost use Rattle.texts.specs.Places.{style_of};
ghost use Rattle.cut_rules.specs.Folders.{ArePathsInOrder as AreFilesInOrder};
ghost use Rattle.cut_rules.specs.declared.file.File.{File as TreeFile};
ghost use Rattle.oscip_run.specs.Faults.{is_device};
ghost use Rattle.oscip_run.specs.RuleRuns.{AreSitesIn, AreThese, IsRuledTree, IsRulesRun};
ghost use Rattle.oscip_run.specs.Runs.{IsNeverRejected, IsRejectedTree};
ghost use Rattle.source_tree.specs.Sources.{ArePathsInOrder};
ghost use Rattle.source_tree.specs.declared.import_sites.ImportSite.{ImportSite as TreeSite};
ghost use Rattle.source_tree.specs.declared.source.Source.{Source as TreeSource};

use crate::RunFault;
use crate::engine::READERS;
use byte_sink::Sink;
use cut_net::Net;
use cut_rules::{File, Rules, Site, write_verdict};
use source_tree::{ImportSite, Source, located_net_of};
use std::alloc::{AllocError, Global};
use std::thread::Threads;
use texts::LocationStyle;

/// The network, files and import locations of a tree that is checked against rules, in the types of `cut_rules`.
#[derive(Clone, Copy)]
struct RuledTree<'a> {
    net: &'a Net,
    files: &'a [File<'a>],
    /// The location of each import of the network, in the order of the imports.
    sites: &'a [Site<'a>],
}

/// The files of a tree for `cut_rules`: each path with the number of the file's module, which is the entry of `modules` at the same index.
fn files_with_modules<'a>(
    alloc: Global,
    sources: &'a [Source],
    modules: &[u32],
) -> Result<Vec<File<'a>>, AllocError>
    // Each file has a module number.
    requires { length modules.now ≡ length sources.now }
    // With `Ok` the files have the paths of the tree's files, in order.
    ensures paths { IfOk result (λ v. map (λ (f : TreeFile). f.path.now) v.items ≡ map (λ (s : TreeSource). string_bytes s.path) sources.now) }
    // With `Ok` the files have the module numbers of `modules`, in order.
    ensures modules { IfOk result (λ v. map (λ (f : TreeFile). f.module) v.items ≡ modules.now) }
{
    let mut files = Vec::new(alloc);
    for location in 0..sources.len() {
        files.push(File {
            path: sources[location].path.as_str(),
            module: modules[location],
        })?;
    }
    Ok(files)
}

/// The locations of the imports of a tree, each with the path of its file, in the order of `imports`.
fn sites_of_imports<'a>(
    alloc: Global,
    sources: &'a [Source],
    imports: &[ImportSite],
) -> Result<Vec<Site<'a>>, AllocError>
    // Each import is in a file of the tree.
    requires { (k : ℕ) (i : TreeSite) → slice_get imports.now k ≡ Some i → i.file < length sources.now }
    // With `Ok` there is a location for each import, with the path of its file, its line and its column.
    ensures { IfOk result (λ v. AreSitesIn sources.now imports.now v.items) }
{
    let mut sites = Vec::new(alloc);
    for import in imports {
        sites.push(Site {
            path: sources[import.file].path.as_str(),
            line: import.position.line,
            column: import.position.column,
        })?;
    }
    Ok(sites)
}

/// Reads the rules for a tree, and writes the verdict on them. Returns whether the verdict is `yes`.
fn write_rules_verdict<'a, S: Sink>(
    alloc: Global,
    tree: &RuledTree<'a>,
    rules: &'a [u8],
    style: LocationStyle<'a>,
    sink: &mut S,
) -> Result<bool, RunFault>
    // The files are sorted by path, each path once.
    requires files { AreFilesInOrder tree.now.files.now }
    // Each import of the network has a location.
    requires sites { length tree.now.sites.now ≡ length tree.now.net.now.imports }
    // This is the run of `check_tree_rules` for a tree that is already read, so no tree is rejected.
    ensures run { IsRulesRun (AreThese tree.now.net.now tree.now.files.now tree.now.sites.now) IsNeverRejected (style_of style.entry) rules.now (S.taken sink.old) (S.taken sink.new) result }
    // The sink counts a failure if and only if the result is `Device`.
    ensures failures { S.failures sink.new ≡ failures_by is_device result (S.failures sink.old) }
{
    let rules = Rules::read(alloc, tree.net, tree.files, rules)?;
    Ok(write_verdict(alloc, tree.net, &rules, tree.sites, style, sink)?)
}

/// Reads the files of a tree and then its rules, and checks them as `write_verdict` does.
/// Writes a line `PATH:LINE:COL: no LINE A .. M N` for each import that breaks a rule, and a line `stale LINE M N` for each `allow` line
/// whose import the tree lacks. If there is no line to write, writes `yes` and returns true.
/// Fails with `Tree` if the tree is rejected, then with `Rules` if the rules are, and with `Device` or `Memory`.
pub fn check_tree_rules<R: Threads + Sync, S: Sink>(
    rt: &R,
    alloc: Global,
    sources: &[Source],
    rules: &[u8],
    style: LocationStyle<'_>,
    sink: &mut S,
) -> Result<bool, RunFault>
    // The files are sorted by path, each path once.
    requires { ArePathsInOrder sources.now }
    // With `Ok` the sink took exactly the lines of the verdict on the rules, and the result is whether the verdict is `yes`. After `Device`
    // or `Memory` it has at most a prefix of the lines, after another error nothing.
    ensures run { IsRulesRun (IsRuledTree sources.now) (IsRejectedTree sources.now) (style_of style.entry) rules.now (S.taken sink.old) (S.taken sink.new) result }
    // The sink counts a failure if and only if the result is `Device`.
    ensures failures { S.failures sink.new ≡ failures_by is_device result (S.failures sink.old) }
{
    let located = located_net_of(rt, alloc, sources, READERS)?;
    let files = files_with_modules(alloc, sources, located.modules.as_slice())?;
    let sites = sites_of_imports(alloc, sources, located.imports.as_slice())?;
    let tree = RuledTree {
        net: &located.net,
        files: files.as_slice(),
        sites: sites.as_slice(),
    };
    write_rules_verdict(alloc, &tree, rules, style, sink)
}
