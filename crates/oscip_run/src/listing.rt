//! The engines of the commands `reach`, `reach-net` and `modules`: they write lists of modules to any sink.
ghost use Rattle.std.specs.Prelude.{◌≡◌, ◌↔◌, ◌++◌, ◌<◌, All, AllPairs, Contains, IfErr, IfOk, OnOk, length, map, option_copied, option_map, slice_index_or, ℕ, None};
ghost use Rattle.std.specs.String.{string_bytes};
ghost use Rattle.byte_sink.specs.Sinks.{failures_after, failures_by, AppendsPrefix, Writes};
ghost use Rattle.cut_net.specs.Network.{name_of};
ghost use Rattle.oscip_run.specs.Faults.{is_device};
ghost use Rattle.oscip_run.specs.ModuleRuns.{entry_line, entry_lines, entry_of, path_suffix, IsModulesRun, IsPathAt, ModuleEntry};
ghost use Rattle.oscip_run.specs.ReachRuns.{named_entry, IsReached, IsReachRun};
ghost use Rattle.oscip_run.specs.Runs.{IsNetOfText, IsNeverRejected, IsRejectedText, IsRejectedTree, IsThis};
ghost use Rattle.source_tree.specs.Sources.{ArePathsInOrder};
ghost use Rattle.source_tree.specs.Trees.{IsNetOfTree};
ghost use Rattle.texts.specs.Places.{style_of};
ghost use Rattle.byte_sink.specs.Pieces.{WritesAllBut};

use crate::RunFault;
use crate::engine::READERS;
use byte_sink::{Sink, SinkFault, flush_if_full, write_fully};
use cut_net::Net;
use cut_report::{reached_modules, reaching_modules};
use cut_solve::module_number;
use oscip_job::Direction;
use source_tree::{Source, located_net_of, net_of};
use std::alloc::{AllocError, Global};
use std::thread::Threads;
use texts::{LocationStyle, escaped};

/// A module in a list, and the path of its file if it has one.
#[derive(Drop)]
struct ListedModule<'a> {
    name: &'a str,
    path: Option<&'a str>,
}

/// Appends a space and the path, in this style and with its control characters escaped, to the text. Without a path appends nothing.
fn append_path(
    alloc: Global,
    style: LocationStyle<'_>,
    text: &mut String,
    path: Option<&str>,
) -> Result<(), AllocError>
    // With `Ok` the text has grown by exactly these bytes.
    ensures { OnOk result (string_bytes text.new ≡ string_bytes text.old ++ path_suffix (style_of style.entry) (option_copied path.entry)) }
{
    let Some(path) = path else {
        return Ok(());
    };
    let path = style.full_path(alloc, path)?;
    let path = escaped(alloc, path.as_str())?;
    write!(text, " {path}")
}

/// Appends the line of a module to the text: its name, its path if it has one, and an LF.
fn append_line(
    alloc: Global,
    style: LocationStyle<'_>,
    text: &mut String,
    listed: &ListedModule,
) -> Result<(), AllocError>
    // With `Ok` the text has grown by exactly these bytes.
    ensures { OnOk result (string_bytes text.new ≡ string_bytes text.old ++ entry_line (style_of style.entry) (entry_of listed.now)) }
{
    text.push_str(listed.name)?;
    append_path(alloc, style, text, listed.path)?;
    text.push('\n')
}

/// Appends the line of a module to the text. If the text is then long, writes it to the sink and empties it.
fn write_line<S: Sink>(
    alloc: Global,
    style: LocationStyle<'_>,
    text: &mut String,
    listed: &ListedModule,
    sink: &mut S,
) -> Result<(), SinkFault>
    // With `Ok` the sink took the old text and the line, without what the new text still holds.
    ensures gathered { OnOk result (WritesAllBut (S.taken sink.old) (S.taken sink.new)
        (string_bytes text.old ++ entry_line (style_of style.entry) (entry_of listed.now)) (string_bytes text.new)) }
    // After an error the sink took a prefix of the old text and the line.
    ensures error_prefix { IfErr result (λ _. AppendsPrefix (S.taken sink.old) (S.taken sink.new)
        (string_bytes text.old ++ entry_line (style_of style.entry) (entry_of listed.now))) }
    // The sink counts a failure if and only if the result is `Device`.
    ensures failures { S.failures sink.new ≡ failures_after result (S.failures sink.old) }
{
    append_line(alloc, style, text, listed).map_err(|_| SinkFault::Memory)?;
    flush_if_full(text, sink)
}

/// Writes a line for each module, in the order of `modules`. After an error the sink took a prefix of the lines.
fn write_lines<S: Sink>(
    alloc: Global,
    style: LocationStyle<'_>,
    modules: &[ListedModule<'_>],
    sink: &mut S,
) -> Result<(), SinkFault>
    // With `Ok` the sink took all lines, otherwise a prefix of them.
    ensures writes { Writes (S.taken sink.old) (S.taken sink.new) result (entry_lines (style_of style.entry) (map entry_of modules.now)) }
    // The sink counts a failure if and only if the result is `Device`.
    ensures failures { S.failures sink.new ≡ failures_after result (S.failures sink.old) }
{
    let mut text = String::new(alloc);
    for listed in modules {
        write_line(alloc, style, &mut text, listed, sink)?;
    }
    write_fully(sink, text.as_bytes())
}

/// The modules of these numbers, in their order, each with its name and without a path.
fn modules_without_paths<'a>(
    alloc: Global,
    net: &'a Net,
    numbers: &[u32],
) -> Result<Vec<ListedModule<'a>>, AllocError>
    // The numbers are those of modules of the network.
    requires { All (λ m. m < length net.now.names) numbers.now }
    // With `Ok` there is an entry for each number, with the module's name and no path.
    ensures { IfOk result (λ listed. map entry_of listed.items ≡ map (named_entry net.now) numbers.now) }
{
    let mut listed = Vec::with_capacity(alloc, numbers.len())?;
    for number in numbers {
        let name = net.name(*number);
        listed.push(ListedModule { name, path: None })?;
    }
    Ok(listed)
}

/// The numbers of the modules that are reached from module `start` in this direction by one or more imports, sorted.
fn reachable_modules(
    alloc: Global,
    net: &Net,
    start: u32,
    direction: Direction,
) -> Result<Vec<u32>, AllocError>
    // `start` is a module of the network.
    requires { start < length net.now.names }
    // With `Ok` the numbers are strictly ascending.
    ensures ascending { IfOk result (λ reached. AllPairs (λ m n. m < n) reached.items) }
    // With `Ok` a number is in the list if and only if its module is reached from `start` in this direction.
    ensures exact { IfOk result (λ reached. (n : ℕ) → Contains reached.items n ↔ IsReached net.now direction start n) }
    // With `Ok` each number is that of a module of the network.
    ensures within { IfOk result (λ reached. All (λ m. m < length net.now.names) reached.items) }
{
    match direction {
        Direction::Imported => reached_modules(alloc, net, start),
        Direction::Importing => reaching_modules(alloc, net, start),
    }
}

/// Writes the names of the modules that are reached from the module of this name by imports in this direction: one per line, sorted.
fn write_reached_modules<S: Sink>(
    alloc: Global,
    net: &Net,
    name: &str,
    direction: Direction,
    sink: &mut S,
) -> Result<(), RunFault>
    // This is the run of `list_reachable_in_net` for a network that is already read, so no network is rejected.
    ensures run { IsReachRun (IsThis net.now) IsNeverRejected name.now direction (S.taken sink.old) (S.taken sink.new) result }
    // The sink counts a failure if and only if the result is `Device`.
    ensures failures { S.failures sink.new ≡ failures_by is_device result (S.failures sink.old) }
{
    let start = module_number(alloc, net, name)?;
    let reached = reachable_modules(alloc, net, start, direction)?;
    let listed = modules_without_paths(alloc, net, reached.as_slice())?;
    write_lines(alloc, LocationStyle::Plain, listed.as_slice(), sink)?;
    Ok(())
}

/// Reads a network, and writes the names of the modules that module `name` reaches by one or more imports, or that reach it: one per line,
/// sorted.
/// Imports of weight 0 count. A module doesn't reach itself, since a network has no cycle.
/// Fails with `Net` if the network is rejected, then with `Solve` if no module has the name, and with `Device` or `Memory`.
pub fn list_reachable_in_net<S: Sink>(
    alloc: Global,
    network: &[u8],
    name: &str,
    direction: Direction,
    sink: &mut S,
) -> Result<(), RunFault>
    // With `Ok` the sink took exactly the names of these modules. After `Device` or `Memory` it has at most a prefix of the lines, after
    // another error none.
    ensures run { IsReachRun (IsNetOfText network.now) (IsRejectedText network.now) name.now direction (S.taken sink.old) (S.taken sink.new) result }
    // The sink counts a failure if and only if the result is `Device`.
    ensures failures { S.failures sink.new ≡ failures_by is_device result (S.failures sink.old) }
{
    let net = Net::read(alloc, network)?;
    write_reached_modules(alloc, &net, name, direction, sink)
}

/// Reads the files of a tree, and writes the names of the modules that module `name` reaches by one or more imports, or that reach it: one
/// per line, sorted.
/// Fails with `Tree` if the tree is rejected, then with `Solve` if no module has the name, and with `Device` or `Memory`.
pub fn list_reachable_in_tree<R: Threads + Sync, S: Sink>(
    rt: &R,
    alloc: Global,
    sources: &[Source],
    name: &str,
    direction: Direction,
    sink: &mut S,
) -> Result<(), RunFault>
    // The files are sorted by path, each path once.
    requires { ArePathsInOrder sources.now }
    // With `Ok` the sink took exactly the names of these modules. After `Device` or `Memory` it has at most a prefix of the lines, after
    // another error none.
    ensures run { IsReachRun (IsNetOfTree sources.now) (IsRejectedTree sources.now) name.now direction (S.taken sink.old) (S.taken sink.new) result }
    // The sink counts a failure if and only if the result is `Device`.
    ensures failures { S.failures sink.new ≡ failures_by is_device result (S.failures sink.old) }
{
    let net = net_of(rt, alloc, sources, READERS)?;
    write_reached_modules(alloc, &net, name, direction, sink)
}

/// For each module number below `nodes`, the path of the module's file, or `None` for a module without a file. `modules` has the number of
/// each file's module, in the order of `sources`.
fn paths_by_module<'a>(
    alloc: Global,
    sources: &'a [Source],
    modules: &[u32],
    nodes: usize,
) -> Result<Vec<Option<&'a str>>, AllocError>
    // Each file has a module number.
    requires as_many { length modules.now ≡ length sources.now }
    // Each module number is below `nodes`.
    requires within { All (λ m. m < nodes) modules.now }
    // With `Ok` there is an entry for each number below `nodes`.
    ensures size { IfOk result (λ paths. length paths.items ≡ nodes) }
    // With `Ok` the path at an index m is that of a file whose module has number m, and `None` if there is no such file.
    ensures paths { IfOk result (λ paths. (m : ℕ) → IsPathAt sources.now modules.now (length sources.now) m (option_map (λ path. path.now) (slice_index_or paths.items m None))) }
{
    let mut paths = vec![in alloc; None; nodes]?;
    for location in 0..sources.len() {
        paths[modules[location] as usize] = Some(sources[location].path.as_str());
    }
    Ok(paths)
}

/// The modules of a network in the order of their numbers, each with its name and its entry of `paths`, the path of its file or `None`.
fn modules_with_paths<'a>(
    alloc: Global,
    net: &'a Net,
    paths: &[Option<&'a str>],
) -> Result<Vec<ListedModule<'a>>, AllocError>
    // There is an entry for each module of the network.
    requires { length paths.now ≡ length net.now.names }
    // With `Ok` the names are those of the network, in its order.
    ensures names { IfOk result (λ listed. map (λ (entry : ModuleEntry). entry.name) (map entry_of listed.items) ≡ net.now.names) }
    // With `Ok` the paths are those of `paths`, in this order.
    ensures paths { IfOk result (λ listed. map (λ (entry : ModuleEntry). entry.path) (map entry_of listed.items) ≡ map (option_map (λ path. path.now)) paths.now) }
{
    let mut listed = Vec::with_capacity(alloc, paths.len())?;
    for node in 0..net.nodes() {
        let name = net.name(node);
        let path = paths[node as usize];
        listed.push(ListedModule { name, path })?;
    }
    Ok(listed)
}

/// Reads the files of a tree, and writes a line for each of its modules, sorted by name: the name, a space, and the path of its file.
/// The path is in this style, with its control characters escaped. The line of an external module, which is only imported, is its name
/// alone. For a tree without files nothing is written.
/// Fails with `Tree` if the tree is rejected, and with `Device` or `Memory`.
pub fn list_tree_modules<R: Threads + Sync, S: Sink>(
    rt: &R,
    alloc: Global,
    sources: &[Source],
    style: LocationStyle<'_>,
    sink: &mut S,
) -> Result<(), RunFault>
    // The files are sorted by path, each path once.
    requires { ArePathsInOrder sources.now }
    // With `Ok` the sink took exactly the lines of the modules of the tree's network. After `Device` or `Memory` it has at most a prefix of
    // them, after `Tree` none.
    ensures run { IsModulesRun (style_of style.entry) sources.now (S.taken sink.old) (S.taken sink.new) result }
    // The sink counts a failure if and only if the result is `Device`.
    ensures failures { S.failures sink.new ≡ failures_by is_device result (S.failures sink.old) }
{
    let located = located_net_of(rt, alloc, sources, READERS)?;
    let net = &located.net;
    let modules = located.modules.as_slice();
    let paths = paths_by_module(alloc, sources, modules, net.nodes() as usize)?;
    let listed = modules_with_paths(alloc, net, paths.as_slice())?;
    write_lines(alloc, style, listed.as_slice(), sink)?;
    Ok(())
}
