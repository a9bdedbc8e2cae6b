//! Laws of runs that index, proved as contracts of functions with an empty body: the bytes written for a tree are unique.
ghost use Rattle.std.specs.Prelude.{◌≡◌, ℕ, List, Ok, Option, Some};
ghost use Rattle.index_run.specs.IndexRuns.{IsHexRun, IsIndexingRun, IsIndexRun, IsUnresolvedRun};
ghost use Rattle.oscip_job.specs.declared.job.IndexRequest.{IndexRequest};
ghost use Rattle.source_tree.specs.FileFaults.{ArePartitionedFiles};
ghost use Rattle.source_tree.specs.declared.source.Source.{Source};
ghost use Rattle.source_tree.specs.declared.tree_fault.TreeFault.{TreeFault};
ghost use Rattle.texts.specs.Places.{Style};

/// If two runs on one tree succeed and begin with equal bytes in their sinks, they end with equal bytes in their sinks.
/// The definitions of the runs of `index_to`, `index_hex_to` and `unresolved_to` don't mention workers. So the law holds for every two
/// numbers of workers and every schedule.
pub fn index_bytes_are_unique()
    // Two runs of `index_to` with one package and root write the same bytes.
    ensures index { (sources : List Source) (package_name root before : List ℕ) (new other : Option (List ℕ)) →
        IsIndexRun sources package_name root (Some before) new (Ok tt) → IsIndexRun sources package_name root (Some before) other (Ok tt) → new ≡ other }
    // Two runs of `index_hex_to` with one package and root write the same bytes.
    ensures hex { (sources : List Source) (package_name root before : List ℕ) (new other : Option (List ℕ)) →
        IsHexRun sources package_name root (Some before) new (Ok tt) → IsHexRun sources package_name root (Some before) other (Ok tt) → new ≡ other }
    // Two runs of `unresolved_to` in one style write the same bytes.
    ensures unresolved { (style : Style) (sources : List Source) (before : List ℕ) (new other : Option (List ℕ)) →
        IsUnresolvedRun style sources (Some before) new (Ok tt) → IsUnresolvedRun style sources (Some before) other (Ok tt) → new ≡ other }
{}

/// Two runs of one job write equal bytes, whatever their numbers of workers, if both leave out the files with faults of their own.
/// The law holds for runs on one tree that succeed and begin with equal bytes in their sinks.
pub fn accepted_index_bytes_are_unique()
    // Two runs of `write_requested_index` on the files without faults of their own write the same bytes if their jobs differ only in the
    // number of workers.
    ensures { (sources accepted others : List Source) (faults more : List TreeFault) (it : IndexRequest) (workers : ℕ) (before : List ℕ) (new other : Option (List ℕ)) →
        ArePartitionedFiles sources accepted faults → ArePartitionedFiles sources others more →
        IsIndexingRun accepted it (Some before) new (Ok tt) → IsIndexingRun others (record it { workers = workers }) (Some before) other (Ok tt) → new ≡ other }
{}
