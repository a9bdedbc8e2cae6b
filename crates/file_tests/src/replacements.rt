//! One operation of a replacement fails, and the next replacement succeeds.

use crate::fake_files::{FakeFile, FakeFiles, OUT, PARTIAL, TARGET};
use atomic_file::{ContentFault, ReplaceFault, replace_file};
use byte_sink::{SinkFault, write_fully};
use std::alloc::{AllocError, Global};
use std::sync::atomic::{AtomicU64, Ordering};
use std::test::Fail;

const WHOLE: &[u8] = b"new";

/// Writes a content, which may fail once it is written.
fn write_content(file: &mut FakeFile, fails: bool) -> Result<(), ContentFault<SinkFault>> {
    match write_fully(file, WHOLE) {
        Ok(()) if fails => Err(ContentFault::Other(SinkFault::Device)),
        Ok(()) => Ok(()),
        Err(SinkFault::Device) => Err(ContentFault::Device),
        Err(fault) => Err(ContentFault::Other(fault)),
    }
}

/// More operations and writes than occur.
const NEVER: u64 = 100;

/// The initial state: whether the path is a link, the content of the file, and that of a new file that a killed run left.
const STATES: [(bool, Option<&[u8]>, Option<&[u8]>); 6] = [
    (false, None, None),
    (false, None, Some(b"left")),
    (false, Some(b"old"), None),
    (false, Some(b"old"), Some(b"left")),
    (true, Some(b"old"), None),
    (true, Some(b"old"), Some(b"left")),
];

fn copy_of(alloc: Global, bytes: Option<&[u8]>) -> Result<Option<Vec<u8>>, AllocError> {
    match bytes {
        Some(bytes) => Ok(Some(bytes.to_vec(alloc)?)),
        None => Ok(None),
    }
}

/// The files, without a failure.
fn files_of(
    alloc: Global,
    (is_link, target, partial): (bool, Option<&[u8]>, Option<&[u8]>),
) -> Result<FakeFiles, AllocError> {
    Ok(FakeFiles {
        alloc,
        is_link,
        is_folder: false,
        target: copy_of(alloc, target)?,
        partial: copy_of(alloc, partial)?,
        is_out_of_memory: false,
        writes: NEVER,
        stolen: NEVER,
        renames_stolen: false,
        steps: AtomicU64::new(0),
        refused: NEVER,
    })
}

fn has_content(content: &Option<Vec<u8>>, wanted: Option<&[u8]>) -> bool {
    match (content, wanted) {
        (Some(content), Some(wanted)) => content.as_slice() == wanted,
        (None, None) => true,
        _ => false,
    }
}

/// Replaces the file, by its path or by the link, and returns the result.
fn replace(files: &mut FakeFiles, fails: bool) -> &'static str {
    let (alloc, path) = (files.alloc, if files.is_link { OUT } else { TARGET });
    match replace_file(
        alloc,
        files,
        path,
        |file: &mut FakeFile| write_content(file, fails),
    ) {
        Ok(()) => "written",
        Err(ReplaceFault::Target) if !files.is_out_of_memory => "target",
        Err(ReplaceFault::Partial { path }) if path.as_str() == PARTIAL => "partial",
        Err(ReplaceFault::Partial { .. }) => "another path",
        Err(ReplaceFault::Content(SinkFault::Device)) => "content",
        Err(_) => "Memory",
    }
}

/// The result of the next run, without a failure: it writes the whole content and leaves no new file.
fn replace_without_failure(files: &mut FakeFiles) -> &'static str {
    files.refused = NEVER;
    files.writes = NEVER;
    match replace(files, false) {
        "written" if !has_content(&files.target, Some(WHOLE)) => "not whole",
        "written" if files.partial.is_some() => "left",
        ended => ended,
    }
}

/// Whether the file has the whole content after this result, and otherwise the content before.
fn is_whole_or_unchanged(files: &FakeFiles, old: Option<&[u8]>, ended: &str) -> bool {
    let wanted = if ended == "written" { Some(WHOLE) } else { old };
    has_content(&files.target, wanted)
}

/// Each operation fails in turn. The run succeeds if and only if it didn't use the operation.
#[test]
fn each_operation_fails_in_turn(rt: HostRuntime) -> Result<(), Fail> {
    for state in STATES {
        for refused in 0..15 {
            let mut files = files_of(rt.alloc(), state)?;
            files.refused = refused;
            let ended = replace(&mut files, false);
            let is_refused = files.steps.load(Ordering::SeqCst) > refused;
            let is_right = (ended == "written") != is_refused;
            assert!(rt; is_right, "step {refused}: {ended}");
            let is_right = is_whole_or_unchanged(&files, state.1, ended);
            assert!(rt; is_right, "step {refused}: {ended}");
            assert_eq!(rt; replace_without_failure(&mut files), "written");
        }
    }
    Ok(())
}

/// A content that fails, and a device that takes nothing, leave no new file.
#[test]
fn failing_contents_leave_no_file(rt: HostRuntime) -> Result<(), Fail> {
    for state in STATES {
        for (fails, writes, wanted) in [(true, NEVER, "content"), (false, 0, "partial")] {
            let mut files = files_of(rt.alloc(), state)?;
            files.writes = writes;
            let ended = replace(&mut files, fails);
            assert!(rt; ended == wanted && files.partial.is_none(), "{ended}");
            assert!(rt; is_whole_or_unchanged(&files, state.1, ended), "{ended}");
            assert_eq!(rt; replace_without_failure(&mut files), "written");
        }
    }
    Ok(())
}

/// Another process's file is left alone, and the file is unchanged, unless that process took the path after the last check.
#[test]
fn files_of_another_process_are_kept(rt: HostRuntime) -> Result<(), Fail> {
    for state in STATES {
        for stolen in 0..15 {
            let mut files = files_of(rt.alloc(), state)?;
            files.stolen = stolen;
            let ended = replace(&mut files, false);
            let is_right = match ended {
                "written" => !files.renames_stolen && has_content(&files.target, Some(WHOLE)),
                "partial" => files.partial.is_some() && has_content(&files.target, state.1),
                _ => false,
            };
            assert!(rt; is_right, "step {stolen}: {ended}");
        }
    }
    Ok(())
}

/// A folder, a link to one, and a dangling link: nothing is created.
#[test]
fn folders_and_links_are_not_replaced(rt: HostRuntime) -> Result<(), Fail> {
    for (is_link, is_folder) in [(false, true), (true, true), (true, false)] {
        let mut files = files_of(rt.alloc(), (is_link, None, None))?;
        files.is_folder = is_folder;
        let ended = replace(&mut files, false);
        let is_none = files.target.is_none() && files.partial.is_none();
        assert!(rt; ended == "target" && is_none, "{ended}");
    }
    Ok(())
}
