//! Reads the files of a tree in chunks, each in a thread of its own if one can be started.
ghost use Rattle.std.specs.Prelude.{◌<◌, IfErr, IfOk, List};
ghost use Rattle.source_tree.specs.Files.{AreAllOf, AreOfChunks, IsReading};
ghost use Rattle.source_tree.specs.Trees.{IsTreeFault, ModuleFile};

use crate::{Source, TreeFault};
use std::alloc::{AllocError, Global};
use std::thread;
use std::thread::Threads;

/// A value that is computed from one file of a tree.
pub(crate) trait FromSource: Drop {
    ghost use Rattle.std.specs.Prelude.{IfErr, IfOk};
    ghost use Rattle.source_tree.specs.Files.{HasValue};
    ghost use Rattle.source_tree.specs.Trees.{IsFileFault, ModuleFile};

    // The relation between a file and its value.
    ghost is_of: { ModuleFile → Self → Type 0 };

    /// The value of an accepted file, or the file's error: that of its tokens, its syntax or its names.
    fn from_source(alloc: Global, source: &Source) -> Result<Self, TreeFault>
        // With `Ok` the file is accepted, and the result is its value.
        ensures kept { IfOk result (HasValue is_of source.now) }
        // With `Err` the file has the returned error, or an allocation failed.
        ensures fault { IfErr result (IsFileFault source.now) };
}

/// The value of each file, or the error of the first file that has one. Reads one file after another.
fn read_sequentially<K: FromSource>(alloc: Global, sources: &[Source]) -> Result<Vec<K>, TreeFault>
    // The result has the values of all files, or the error of the first file that has one, unless an allocation failed.
    ensures { IsReading K.is_of sources.now result }
{
    let mut all = Vec::new(alloc);
    for source in sources {
        all.push(K::from_source(alloc, source)?)?;
    }
    Ok(all)
}

/// For each chunk of `size` files, the values of its files, or the error of the first of them that has an error. Each chunk is read in a
/// thread of its own if one can be started.
fn read_chunks<K: FromSource + Send, R: Threads + Sync>(
    rt: &R,
    alloc: Global,
    sources: &[Source],
    size: usize,
) -> Result<Vec<Result<Vec<K>, TreeFault>>, AllocError>
    requires { 0 < size }
    // With `Ok` there is one result for each chunk. The chunks are consecutive, and together they are all files.
    ensures { IfOk result (λ answers. AreOfChunks (IsReading K.is_of) sources.now answers.items) }
{
    let answers = thread::map_chunks(
        rt,
        alloc,
        sources,
        size,
        &|_: usize, chunk: &[Source]| -> Result<Vec<K>, TreeFault>
            // The result has the values of the chunk's files, or the error of the first of them that has one, unless an allocation failed.
            ensures { IsReading K.is_of chunk.entry.now result }
        { read_sequentially(alloc, chunk) },
    )?;
    Ok(answers)
}

/// The number of files in each chunk, at least 1, so that there are at most as many chunks as workers (0 workers count as 1).
pub(crate) fn chunk_size(files: usize, workers: u32) -> usize
    ensures { 0 < result }
{
    files.div_ceil(workers.max(1) as usize).max(1)
}

/// The value of each file, or the error of the first file that has one. Reads the files in at most `workers` chunks, each in a thread of
/// its own if one can be started. The first chunk with an error contains the first file with an error.
pub(crate) fn read_files<K: FromSource + Send, R: Threads + Sync>(
    rt: &R,
    alloc: Global,
    sources: &[Source],
    workers: u32,
) -> Result<Vec<K>, TreeFault>
    // With `Ok` all files are accepted, and the result has the value of each, in their order.
    ensures kept { IfOk result (λ v. (files : List ModuleFile) × AreAllOf K.is_of sources.now files v.items) }
    // With `Err` the tree has the returned error, or an allocation failed.
    ensures fault { IfErr result (IsTreeFault sources.now) }
{
    let answers = read_chunks::<K, R>(rt, alloc, sources, chunk_size(sources.len(), workers))?;
    let mut all = Vec::new(alloc);
    for answer in answers {
        let mut more = answer?;
        all.append(&mut more)?;
    }
    Ok(all)
}
