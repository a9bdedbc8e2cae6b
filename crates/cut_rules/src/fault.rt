//! Errors of a rules text.

use std::alloc::{AllocError, AllocFailed};
use thiserror::Error;

/// The first error of a rules text: that of the first line with an error, and within the line the first in this order. Lines are numbered
/// from 1, and empty lines and comments count.
#[derive(Debug, Drop, Error)]
pub enum RulesFault {
    /// The line is neither empty nor a comment, and isn't a valid rule line.
    #[error("line {line} breaks the form")]
    BadLine {
        line: u64,
    },
    /// The set to which the line adds modules has the name of a module.
    #[error("the set {name} of line {line} is a module")]
    SetIsModule {
        line: u64,
        name: String,
    },
    /// The name isn't a module's, and isn't a set's if a set is allowed there. It is the first unknown name of the line.
    #[error("line {line}: there is no module {name}")]
    NoSuchModule {
        line: u64,
        name: String,
    },
    /// An earlier line allows this import.
    #[error("line {line} is the second that allows the import of {imported} by {importer}")]
    TwiceAllowed {
        line: u64,
        importer: String,
        imported: String,
    },
    /// The line adds no module to its set. The text is the line's path or pattern, for a `tree` line the set's name.
    #[error("line {line}: no module is in {text}")]
    EmptySet {
        line: u64,
        text: String,
    },
    /// The line exceeds a limit: 4,096 earlier lines are rules, and so is this one; or 4,096 earlier lines have patterns, and so has this
    /// one.
    #[error("line {line} is one line too many")]
    TooMany {
        line: u64,
    },
    /// An allocation failed.
    #[error("out of memory")]
    Memory,
}

impl From<AllocError> for RulesFault {
    ghost use Rattle.std.specs.Prelude.{◌≡◌};
    ghost use Rattle.cut_rules.specs.declared.fault.RulesFault.TheVariants.{Memory};

    ghost from_gives = { λ _ fault. fault ≡ Memory };

    fn from(_error: AllocError) -> RulesFault {
        RulesFault::Memory
    }
}

impl<T: Drop> From<AllocFailed<T>> for RulesFault {
    ghost use Rattle.std.specs.Prelude.{◌≡◌};
    ghost use Rattle.cut_rules.specs.declared.fault.RulesFault.TheVariants.{Memory};

    ghost from_gives = { λ _ fault. fault ≡ Memory };

    fn from(_error: AllocFailed<T>) -> RulesFault {
        RulesFault::Memory
    }
}
