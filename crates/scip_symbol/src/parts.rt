//! The reader of the four parts of a symbol: scheme (part 0), manager (1), package name (2) and version (3).
//! Clauses `MatchesUnlessMemory`: unless an allocation failed, the result is that of the specification's function that the clause cites.
ghost use Rattle.std.specs.String.{string_bytes};
ghost use Rattle.scip_symbol.specs.Faults.{MatchesUnlessMemory};
ghost use Rattle.scip_symbol.specs.Reading.{optional_part_at, first_part_at, parts_at, parts_model};

use crate::SymbolFault;
use crate::cuts::read_delimited;
use std::alloc::Global;

/// The four parts of a symbol, which precede its descriptors.
#[derive(Drop)]
pub(crate) struct Parts {
    pub(crate) scheme: String,
    pub(crate) manager: String,
    pub(crate) package: String,
    pub(crate) version: String,
}

/// Reads the part with which the string begins. Returns it unescaped, and the rest of the string after the space that ends it. `part` is
/// its number, for an error.
#[tactic(auto, unfolding(crate::specs::Reading::first_part_at))]
fn read_part(alloc: Global, part: usize, text: &str) -> Result<(String, &str), SymbolFault>
    ensures { MatchesUnlessMemory (λ x. (string_bytes x.0, x.1.now)) result (first_part_at part text.now) }
{
    let found = read_delimited(alloc, text, ' ')?;
    let ended = found.ok_or(SymbolFault::BadPart { part })?;
    Ok(ended)
}

/// Reads the part with which the string begins; `.` denotes an empty part. Returns it unescaped, and the rest of the string after the space
/// that ends it. `part` is its number, for an error.
#[tactic(auto, unfolding(crate::specs::Reading::optional_part_at))]
fn read_optional_part(alloc: Global, part: usize, text: &str) -> Result<(String, &str), SymbolFault>
    ensures { MatchesUnlessMemory (λ x. (string_bytes x.0, x.1.now)) result (optional_part_at part text.now) }
{
    let (mut shown, rest) = read_part(alloc, part, text)?;
    if shown.as_str() == "." {
        shown.clear();
    }
    Ok((shown, rest))
}

/// Reads the four parts with which the string of a global symbol begins. Returns them and the rest of the string.
#[tactic(auto, unfolding(crate::specs::Reading::parts_at))]
pub(crate) fn read_parts(alloc: Global, text: &str) -> Result<(Parts, &str), SymbolFault>
    ensures { MatchesUnlessMemory (λ x. (parts_model x.0, x.1.now)) result (parts_at text.now) }
{
    let (scheme, rest) = read_part(alloc, 0, text)?;
    let (manager, rest) = read_optional_part(alloc, 1, rest)?;
    let (package, rest) = read_optional_part(alloc, 2, rest)?;
    let (version, rest) = read_optional_part(alloc, 3, rest)?;
    let parts = Parts {
        scheme,
        manager,
        package,
        version,
    };
    Ok((parts, rest))
}
