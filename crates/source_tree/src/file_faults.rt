//! The errors of individual files: after an error in one file, the other files are still read.
ghost use Rattle.std.specs.Prelude.{◌≡◌, ◌∷◌, ◌<◌, [], false, IfOk, List, Vec, length};
ghost use Rattle.std.specs.declared.alloc.Global.{Global};
ghost use Rattle.source_tree.specs.Files.{AreOfChunks};
ghost use Rattle.source_tree.specs.FileFaults.{accepted_in, faults_in, scopes_in, ReadsVerdicts, ArePartitionedFiles, AreTreeFaults, AreVerdicts, IsVerdict};
ghost use Rattle.source_tree.specs.Sources.{ArePathsInOrder};
ghost use Rattle.source_tree.specs.TreeFaults.{is_out_of_memory};
ghost use Rattle.source_tree.specs.TreeReading.{AreFilesRead};
ghost use Rattle.source_tree.specs.Trees.{ModuleFile};

use crate::files::{FromSource, chunk_size};
use crate::tree_reading::all_graph_inputs;
use crate::{Source, TreeFault, is_out_of_memory};
use ob_imports::graph;
use ob_scope::Scopes;
use std::alloc::{AllocError, Global};
use std::thread;
use std::thread::Threads;

/// The accepted files of a tree, and the errors of the others, both in the order of the files.
#[derive(Drop)]
pub struct PartitionedFiles {
    pub accepted: Vec<Source>,
    pub faults: Vec<TreeFault>,
}

/// The scopes of an accepted file, or the file's error.
type Verdict = Result<Scopes, TreeFault>;

/// The verdict on a file: the scopes of its module, or its error. Fails if an allocation fails.
fn read_verdict(alloc: Global, source: &Source) -> Result<Verdict, AllocError>
    // With `Ok` the result is the file's scopes, if it is accepted, or its error.
    ensures { IfOk result (IsVerdict source.now) }
{
    match Scopes::from_source(alloc, source) {
        Ok(scopes) => Ok(Ok(scopes)),
        Err(fault) => {
            if is_out_of_memory(&fault) {
                Err(AllocError)
            } else {
                Ok(Err(fault))
            }
        }
    }
}

/// The verdict on each file, in the order of the files: its scopes or its error. Reads one file after another.
fn read_verdicts_sequentially(alloc: Global, sources: &[Source]) -> Result<Vec<Verdict>, AllocError>
    // With `Ok` the result has the verdict on each file, in the order of the files.
    ensures { ReadsVerdicts sources.now result }
{
    let mut all = Vec::new(alloc);
    for source in sources {
        all.push(read_verdict(alloc, source)?)?;
    }
    Ok(all)
}

/// For each chunk of `size` files, the verdicts on its files. Each chunk is read in a thread of its own if one can be started.
fn read_verdicts_in_chunks<R: Threads + Sync>(
    rt: &R,
    alloc: Global,
    sources: &[Source],
    size: usize,
) -> Result<Vec<Result<Vec<Verdict>, AllocError>>, AllocError>
    requires { 0 < size }
    // With `Ok` there is one result for each chunk. The chunks are consecutive, and together they are all files.
    ensures { IfOk result (λ answers. AreOfChunks ReadsVerdicts sources.now answers.items) }
{
    let answers = thread::map_chunks(
        rt,
        alloc,
        sources,
        size,
        &|_: usize, chunk: &[Source]| -> Result<Vec<Verdict>, AllocError>
            // With `Ok` the result has the verdict on each file of the chunk, in order.
            ensures { ReadsVerdicts chunk.entry.now result }
        { read_verdicts_sequentially(alloc, chunk) },
    )?;
    Ok(answers)
}

/// The verdict on each file, read in at most `workers` chunks of files.
fn read_verdicts<R: Threads + Sync>(
    rt: &R,
    alloc: Global,
    sources: &[Source],
    workers: u32,
) -> Result<Vec<Verdict>, AllocError>
    // With `Ok` the result has the verdict on each file, in the order of the files.
    ensures { IfOk result (λ v. AreVerdicts sources.now v.items) }
{
    let size = chunk_size(sources.len(), workers);
    let answers = read_verdicts_in_chunks(rt, alloc, sources, size)?;
    let mut all = Vec::new(alloc);
    for answer in answers {
        let mut more = answer?;
        all.append(&mut more)?;
    }
    Ok(all)
}

/// The scopes of the accepted files, and the errors of the other files, both in the order of the files.
#[derive(Drop)]
struct Verdicts {
    scopes: Vec<Scopes>,
    faults: Vec<TreeFault>,
}

/// Splits verdicts into scopes and errors, both in the order of the files.
fn split_verdicts(alloc: Global, verdicts: Vec<Verdict>) -> Result<Verdicts, AllocError>
    ensures scopes { IfOk result (λ r. r.scopes.items ≡ scopes_in verdicts.items) }
    ensures faults { IfOk result (λ r. r.faults.items ≡ faults_in verdicts.items) }
{
    let mut scopes = Vec::new(alloc);
    let mut faults = Vec::new(alloc);
    for verdict in verdicts {
        match verdict {
            Ok(kept) => scopes.push(kept)?,
            Err(fault) => faults.push(fault)?,
        }
    }
    Ok(Verdicts { scopes, faults })
}

/// The files whose verdict isn't an error. `verdicts` has the verdict on each file, in the order of the files.
fn select_accepted(
    alloc: Global,
    sources: Vec<Source>,
    verdicts: &[Verdict],
) -> Result<Vec<Source>, AllocError>
    requires { length verdicts.now ≡ length sources.items }
    ensures { IfOk result (λ v. v.items ≡ accepted_in sources.items verdicts.now) }
{
    let mut accepted = Vec::new(alloc);
    let mut place = 0;
    for source in sources {
        if verdicts[place].is_ok() {
            accepted.push(source)?;
        }
        place += 1;
    }
    Ok(accepted)
}

/// The list with only this error. Fails if the error is itself a failed allocation, or if an allocation fails here.
fn single_fault(alloc: Global, fault: TreeFault) -> Result<Vec<TreeFault>, AllocError>
    ensures { IfOk result (λ v. (v.items ≡ fault ∷ []) × (is_out_of_memory fault ≡ false)) }
{
    if is_out_of_memory(&fault) {
        return Err(AllocError);
    }
    let mut faults = Vec::new(alloc);
    faults.push(fault)?;
    Ok(faults)
}

/// The list of all errors of a tree whose files are all accepted: the error of its imports, or no error.
fn import_faults(
    alloc: Global,
    sources: &[Source],
    scopes: &[Scopes],
) -> Result<Vec<TreeFault>, AllocError>
    // All files are accepted, and `scopes` has the scopes of each.
    requires { (files : List ModuleFile) × AreFilesRead sources.now files scopes.now }
    // With `Ok` the result has exactly the errors of the tree.
    ensures { IfOk result (λ v. AreTreeFaults sources.now v.items) }
{
    let parsed = all_graph_inputs(alloc, sources, scopes)?;
    match graph(alloc, parsed.as_slice()) {
        Ok(_) => Ok(Vec::new(alloc)),
        Err(fault) => single_fault(alloc, TreeFault::Graph(fault)),
    }
}

/// All errors of a tree: the errors of its files, in the order of the files; if no file has an error, the error of the imports; none if the
/// tree is accepted. Reads the files in at most `workers` chunks, each in a thread of its own if one can be started.
pub fn tree_faults<R: Threads + Sync>(
    rt: &R,
    alloc: Global,
    sources: &[Source],
    workers: u32,
) -> Result<Vec<TreeFault>, AllocError>
    // With `Ok` the result has exactly the errors of the tree.
    ensures { IfOk result (λ v. AreTreeFaults sources.now v.items) }
{
    let verdicts = read_verdicts(rt, alloc, sources, workers)?;
    let Verdicts { scopes, faults } = split_verdicts(alloc, verdicts)?;
    if faults.is_empty() {
        import_faults(alloc, sources, scopes.as_slice())
    } else {
        Ok(faults)
    }
}

/// The accepted files of a tree, and the errors of the other files. Doesn't verify imports. Reads the files in at most `workers` chunks,
/// each in a thread of its own if one can be started. Fails if an allocation fails.
pub fn partition_files<R: Threads + Sync>(
    rt: &R,
    alloc: Global,
    sources: Vec<Source>,
    workers: u32,
) -> Result<PartitionedFiles, AllocError>
    // With `Ok` the result has exactly the accepted files and the errors of the other files, both in the order of the files.
    ensures parted { IfOk result (λ parted. ArePartitionedFiles sources.items parted.accepted.items parted.faults.items) }
    // If the files are strictly sorted by path, the accepted files are too.
    ensures order { IfOk result (λ parted. ArePathsInOrder sources.items → ArePathsInOrder parted.accepted.items) }
{
    let verdicts = read_verdicts(rt, alloc, sources.as_slice(), workers)?;
    let accepted = select_accepted(alloc, sources, verdicts.as_slice())?;
    let Verdicts { faults, .. } = split_verdicts(alloc, verdicts)?;
    Ok(PartitionedFiles { accepted, faults })
}
