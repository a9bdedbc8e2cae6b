//! The end of the program: what it writes to standard output and standard error, and its status.
ghost use Rattle.std.specs.Prelude.{◌≡◌, IfOk};
ghost use Rattle.std.specs.Process.{exit_status};
ghost use Rattle.std.specs.String.{string_bytes};
ghost use Rattle.oscip_run.specs.Endings.{fault_line, run_line, run_status, job_fault_status, EndsByFault, EndsRun, AreReported, EndsTree, EndsWithoutJob, IsReported, MayReport};
ghost use Rattle.oscip_run.specs.Faults.{of_tree};
ghost use Rattle.oscip_run.specs.declared.fault.RunFault.TheVariants.{Memory};
ghost use Rattle.texts.specs.Places.{style_of, Style};

use crate::{RunFault, Stream, TreeRun, fault_line, status_of};
use byte_sink::Sink;
use oscip_job::JobFault;
use source_tree::TreeFault;
use std::alloc::{AllocError, Global};
use std::process::ExitCode;
use texts::LocationStyle;

/// The exit status of a run: 0 if it returns true, 5 if it returns false, for example for a `no`, and otherwise the status of its fault.
pub fn status_of_run(ended: &Result<bool, RunFault>) -> u8
    // The result is 0 for true, 5 for false, and otherwise the status of the fault.
    ensures { result ≡ run_status ended.now }
{
    match ended {
        Ok(true) => 0,
        Ok(false) => 5,
        Err(fault) => status_of(fault),
    }
}

/// The exit status of a command line that gives no job: 2 if it is invalid, 0 for help, 4 if memory ran out.
pub fn status_without_job(fault: &JobFault) -> u8
    // The result is 2 for an invalid command line, 0 for help, and 4 if memory ran out.
    ensures { result ≡ job_fault_status fault.now }
{
    match fault {
        JobFault::Line { .. } => 2,
        JobFault::Help { .. } => 0,
        JobFault::Memory => 4,
    }
}

/// The result of `fault_line` for the fault of a run, or an empty text if the run has no fault. Fails if an allocation fails.
pub fn run_fault_line(
    alloc: Global,
    style: LocationStyle<'_>,
    ended: &Result<bool, RunFault>,
) -> Result<String, AllocError>
    // With `Ok` the result is the line of the fault in this style, or empty without a fault.
    ensures { IfOk result (λ text. string_bytes text ≡ run_line (style_of style.entry) ended.now) }
{
    match ended {
        Ok(_) => Ok(String::new(alloc)),
        Err(fault) => fault_line(alloc, style, fault),
    }
}

/// Writes the line of a fault to standard error. Returns false, and writes nothing, if memory for the line ran out.
fn report_fault<E: Sink>(
    alloc: Global,
    fault: &RunFault,
    style: LocationStyle<'_>,
    stderr: &mut Stream<E>,
) -> bool
    // With true the line of the fault is written, as far as standard error takes it. With false standard error is unchanged.
    ensures { IsReported E.taken (style_of style.entry) fault.now result stderr.old stderr.new }
{
    let Ok(line) = fault_line(alloc, style, fault) else {
        return false;
    };
    let _ = stderr.write(line.as_str());
    true
}

/// Writes the line of a fault to standard error. The fault is that of a file that the run left out. Returns false, and writes nothing, if
/// memory for the line ran out.
fn report_skipped_file<E: Sink>(
    alloc: Global,
    fault: TreeFault,
    style: LocationStyle<'_>,
    stderr: &mut Stream<E>,
) -> bool
    // With true the line of the fault is written, as far as standard error takes it. With false standard error is unchanged.
    ensures { IsReported E.taken (style_of style.entry) (of_tree fault) result stderr.old stderr.new }
{
    let fault = RunFault::from(fault);
    report_fault(alloc, &fault, style, stderr)
}

/// Writes the lines of these faults to standard error. Returns false if memory for a line ran out; the other lines are still written.
fn report_faults<E: Sink>(
    alloc: Global,
    faults: Vec<TreeFault>,
    style: LocationStyle<'_>,
    stderr: &mut Stream<E>,
) -> bool
    // The lines of the faults are written in the order of the faults, each as far as standard error takes it. With false at least one line
    // is missing, since memory for it ran out.
    ensures { AreReported E.taken (style_of style.entry) stderr.old faults.items result stderr.new }
{
    let mut all = true;
    for fault in faults {
        all &= report_skipped_file(alloc, fault, style, stderr);
    }
    all
}

/// Writes the line of a run's fault to standard error, unless the fault is `Memory` or memory for the line runs out.
fn report_run_fault<E: Sink>(
    alloc: Global,
    ended: &Result<bool, RunFault>,
    style: LocationStyle<'_>,
    stderr: &mut Stream<E>,
)
    // Without a fault standard error is unchanged. With one its line is written, as far as standard error takes it, or memory for the line
    // ran out and standard error is unchanged.
    ensures { MayReport E.taken (style_of style.entry) ended.now stderr.old stderr.new }
{
    match ended {
        Ok(_) | Err(RunFault::Memory) => {}
        Err(fault) => {
            report_fault(alloc, fault, style, stderr);
        }
    }
}

/// Reports on standard error the faults of the files that a run on a tree left out. The run on the other files has ended.
/// Returns the result of the run, or false if it succeeded and files were left out.
/// If memory for a line runs out, the run's own fault is still reported, and the result is `Memory`.
/// No line is written during the run: a file that the run opens may have the descriptor of a standard error that is closed.
pub fn finish_tree_run<E: Sink>(
    alloc: Global,
    run: TreeRun,
    style: LocationStyle<'_>,
    stderr: &mut Stream<E>,
) -> Result<bool, RunFault>
    // The lines of the faults are written in the order of the files, apart from those for which memory ran out. The result is that of the
    // run, false if the run succeeded and files were left out, or `Memory` if memory for a line ran out.
    ensures { EndsTree E.taken (style_of style.entry) run.faults.items run.ended stderr.old stderr.new result }
{
    let TreeRun { faults, ended } = run;
    let is_whole = faults.is_empty();
    if report_faults(alloc, faults, style, stderr) {
        return Ok(ended? && is_whole);
    }
    report_run_fault(alloc, &ended, style, stderr);
    Err(RunFault::Memory)
}

/// Writes the line of a fault to standard error. Returns the status of the fault, even if standard error fails.
fn finish_with_fault<E: Sink>(fault: &RunFault, line: &str, stderr: &mut Stream<E>) -> u8
    // If `line` is the line of this fault in some style, it is written, as far as standard error takes it, and the result is the status of
    // this fault.
    ensures { (style : Style) → line.now ≡ fault_line style fault.now → EndsByFault E.taken style fault.now stderr.old stderr.new result }
{
    let _ = stderr.write(line);
    status_of(fault)
}

/// Writes the line of `Memory` to standard error, without an allocation. Returns its status.
fn finish_out_of_memory<E: Sink>(stderr: &mut Stream<E>) -> u8
    // The line of `Memory` is written, as far as standard error takes it, and the result is the status of `Memory`.
    ensures { (style : Style) → EndsByFault E.taken style Memory stderr.old stderr.new result }
{
    finish_with_fault(&RunFault::Memory, "oscip: Memory\n", stderr)
}

/// Reports the fault of a run, if it has one, on standard error. The caller passes the result of `run_fault_line` as `line`, in any style.
/// Returns the status of `status_of_run`, or 4 if memory for the line of a fault ran out.
pub fn finish_run<E: Sink>(
    ended: &Result<bool, RunFault>,
    line: Result<String, AllocError>,
    stderr: &mut Stream<E>,
) -> ExitCode
    // Without a fault nothing is written. A fault ends the run with its line and its status, or with those of `Memory` if its line couldn't
    // be made.
    ensures { (style : Style) → IfOk line (λ text. string_bytes text ≡ run_line style ended.now) → EndsRun E.taken style ended.now line stderr.old stderr.new (exit_status result) }
{
    match ended {
        Ok(_) => ExitCode::from(status_of_run(ended)),
        Err(fault) => match line {
            Ok(line) => ExitCode::from(finish_with_fault(fault, line.as_str(), stderr)),
            Err(_) => ExitCode::from(finish_out_of_memory(stderr)),
        },
    }
}

/// Writes the error of a command line to standard error, or the requested help to standard output.
/// Returns the status of `status_without_job`. If not all of the help was written, reports `Device` on standard error and returns the
/// status of `Device`.
pub fn finish_without_job<O: Sink, E: Sink>(
    fault: &JobFault,
    stdout: &mut Stream<O>,
    stderr: &mut Stream<E>,
) -> ExitCode
    // An error is written to standard error, and help to standard output. The status is that of `fault`, or of `Device` if only a prefix of
    // the help is written.
    ensures { EndsWithoutJob O.taken E.taken fault.now (stdout.old, stdout.new) (stderr.old, stderr.new) (exit_status result) }
{
    match fault {
        JobFault::Line { text } => {
            let _ = stderr.write(text.as_str());
            ExitCode::from(status_without_job(fault))
        }
        JobFault::Help { text } => match stdout.write(text.as_str()) {
            Ok(()) => ExitCode::from(status_without_job(fault)),
            Err(_) => {
                let status = finish_with_fault(&RunFault::Device, "oscip: cannot write\n", stderr);
                ExitCode::from(status)
            }
        },
        JobFault::Memory => ExitCode::from(finish_out_of_memory(stderr)),
    }
}
