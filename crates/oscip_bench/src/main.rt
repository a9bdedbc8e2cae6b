//! A benchmark of the program: runs one of six workloads on inputs that are generated from a seed, and prints the digest of the jobs'
//! output. Depends on `oscip_run` and `index_run` for the jobs, and on `oscip_job`, `source_tree`, `ob_board`, `cut_solve` and `byte_sink`
//! for their inputs. Nothing but safety is proved. Equal arguments give equal digests.
#![tactic(auto)]

ghost use Rattle.std.specs.Prelude.{◌≤◌};

mod awkward;
mod digest;
mod grammar;
mod indexes;
mod jobs;
mod modules;
mod networks;
mod random;
mod workloads;

use crate::digest::Digest;
use crate::jobs::WorkloadFault;
use crate::workloads::{awkward, cut, index, net, query, unresolved};
use std::process::ExitCode;
use std::rt::Env;
use std::sync::Wait;
use std::thread::Threads;
use std::{env, io};

/// The arguments of the command line, the program's name first.
fn words_of<R: Env + AllocGlobal>(rt: &R) -> io::Result<Vec<String>> {
    let words = env::args(rt)?;
    Ok(words.collect(rt.alloc())?)
}

/// The argument at this index as a number below 2^32, or the other number if there is none.
fn number_of(words: &[String], at: usize, other: u64) -> u64 {
    match words.get(at) {
        Some(word) => word.as_str().parse::<u32>().map_or(other, u64::from),
        None => other,
    }
}

/// Runs the workload of this name, with inputs of this size in percent.
fn run<R: Threads + Wait + AllocGlobal + Sync>(
    rt: &R,
    name: &str,
    seed: u64,
    size: u64,
    digest: &mut Digest,
) -> Result<(), WorkloadFault>
    requires { size ≤ 100 }
{
    match name {
        "index" => index(rt, seed, size, digest),
        "unresolved" => unresolved(rt, seed, size, digest),
        "cut" => cut(rt, seed, size, digest),
        "query" => Ok(query(rt.alloc(), seed, size, digest)?),
        "net" => net(rt, seed, size, digest),
        "awkward" => awkward(rt, seed, size, digest),
        _ => Err(WorkloadFault::Words),
    }
}

/// Runs the workload of the arguments: its name, a seed, and a size in percent, by default 100.
fn digest_of<R: Threads + Wait + AllocGlobal + Sync>(
    rt: &R,
    words: &[String],
) -> Result<Digest, WorkloadFault> {
    let Some(name) = words.get(1) else {
        return Err(WorkloadFault::Words);
    };
    let (seed, size) = (number_of(words, 2, 1), number_of(words, 3, 100));
    let mut digest = Digest::new();
    run(rt, name.as_str(), seed, size.min(100), &mut digest)?;
    Ok(digest)
}

fn main(rt: HostRuntime) -> io::Result<ExitCode> {
    let words = words_of(&rt)?;
    match digest_of(&rt, words.as_slice()) {
        Ok(digest) => {
            let (sum, jobs, refused) = (digest.sum(), digest.jobs(), digest.refused());
            println!(rt; "{sum:016x} {jobs} jobs, {refused} refused")?;
            Ok(ExitCode::from(0))
        }
        Err(stopped) => {
            eprintln!(rt; "{stopped:?}")?;
            Ok(ExitCode::from(1))
        }
    }
}
