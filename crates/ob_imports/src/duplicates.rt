//! Detection of two modules with one name.
ghost use Rattle.std.specs.Prelude.{◌≡◌, ◌≤◌, ◌<◌, ◌+◌, Err, IfErr, IfNone, IfOk, IfSome, IsPermutation, length, OnOk, ℕ};
ghost use Rattle.ob_imports.specs.Files.{files_of, paths_of, DifferInName};
ghost use Rattle.ob_imports.specs.Names.{texts, IsRepeat, AreNamesSorted, IsFirstRepeat};
ghost use Rattle.ob_imports.specs.Outcomes.{IsGraphOutcome, UnlessMemory};

use crate::names::module_names;
use crate::{GraphFault, Parsed};
use std::alloc::{AllocError, Global};

/// Sorts strings, names or paths, by their bytes.
fn sort_strings(names: &mut Vec<String>)
    ensures same { IsPermutation (texts names.old.items) (texts names.new.items) }
    ensures in_order { AreNamesSorted (texts names.new.items) }
{
    names.sort_unstable();
}

/// The first index whose name repeats at the next index.
fn first_repeat(names: &[String]) -> Option<usize>
    ensures found { IfSome result (IsFirstRepeat (texts names.now)) }
    ensures none { IfNone result ((k : ℕ) → k + 1 < length names.now → IsRepeat (texts names.now) k → ⊥) }
{
    for place in 1..names.len() {
        if names[place - 1] == names[place] {
            return Some(place - 1);
        }
    }
    None
}

/// The paths of the files with a module of this name.
fn module_paths(alloc: Global, parsed: &[Parsed], name: &str) -> Result<Vec<String>, AllocError>
    ensures { IfOk result (λ paths. texts paths.items ≡ paths_of (files_of parsed.now) name.now) }
{
    let mut paths = Vec::new(alloc);
    for file in parsed {
        if file.name.as_str() == name {
            paths.push(String::from_str(alloc, file.path.as_str())?)?;
        }
    }
    Ok(paths)
}

/// Returns `TwoModules` for the smallest repeated module name; otherwise the module names are distinct.
pub(crate) fn check_distinct(alloc: Global, parsed: &[Parsed]) -> Result<(), GraphFault>
    requires few { length parsed.now ≤ 4096 }
    ensures differ { OnOk result (DifferInName (files_of parsed.now)) }
    ensures fault { IfErr result (λ fault. UnlessMemory fault (λ refusal. IsGraphOutcome (files_of parsed.now) (Err refusal))) }
{
    let mut names = module_names(alloc, parsed)?;
    sort_strings(&mut names);
    let Some(place) = first_repeat(names.as_slice()) else {
        return Ok(());
    };
    let name = String::from_str(alloc, names[place].as_str())?;
    let mut paths = module_paths(alloc, parsed, name.as_str())?;
    sort_strings(&mut paths);
    let first_path = String::from_str(alloc, paths[0].as_str())?;
    let second_path = String::from_str(alloc, paths[1].as_str())?;
    Err(GraphFault::TwoModules {
        name,
        first_path,
        second_path,
    })
}
