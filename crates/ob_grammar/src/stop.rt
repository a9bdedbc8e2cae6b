//! The errors inside the parser.

ghost use Rattle.std.specs.Prelude.{◌≡◌};
ghost use Rattle.ob_grammar.specs.declared.stop.Stop.TheVariants.{Memory};

use crate::cursor::Cursor;
use std::alloc::{AllocError, AllocFailed};

/// Why the parser stops, with the cursor at the token at which it stops.
#[derive(Clone, Copy)]
pub enum Stop {
    /// The next token is wrong, or missing.
    Unexpected(Cursor),
    /// The next token begins a construct that is nested too deep.
    TooDeep(Cursor),
    /// An allocation failed.
    Memory,
}

impl From<AllocError> for Stop {
    ghost from_gives = { λ _ stop. stop ≡ Memory };

    fn from(_error: AllocError) -> Stop {
        Stop::Memory
    }
}

impl<T: Drop> From<AllocFailed<T>> for Stop {
    ghost from_gives = { λ _ stop. stop ≡ Memory };

    fn from(_error: AllocFailed<T>) -> Stop {
        Stop::Memory
    }
}
