//! Helpers that put parsed items into a box, a `Some` or a list, and pass on errors.

ghost use Rattle.std.specs.Prelude.{◌≡◌, IfOk, IfErr};
ghost use Rattle.ob_grammar.specs.ParsesAs.{some_of, AppendsItem};
ghost use Rattle.ob_grammar.specs.declared.stop.Stop.TheVariants.{Memory};

use ob_grammar::cursor::Cursor;
use ob_grammar::stop::Stop;
use std::alloc::Global;

/// The pair of a new box with the parsed value and the cursor `rest`, which is after the value's tokens. Fails if the allocation fails.
pub(crate) fn box_value<T: Drop>(
    alloc: Global,
    value: T,
    rest: Cursor,
) -> Result<(Box<T>, Cursor), Stop>
    ensures of { IfOk result (λ b. (b.0.value ≡ value) × (b.1 ≡ rest)) }
    ensures refused { IfErr result (λ stop. stop ≡ Memory) }
{
    Ok((Box::new(alloc, value)?, rest))
}

/// If `read` has a parsed item, appends it to the list and returns the cursor after its tokens; else returns the error in `read`.
pub(crate) fn append_item<T: Drop>(
    list: &mut Vec<T>,
    read: Result<(T, Cursor), Stop>,
) -> Result<Cursor, Stop>
    ensures { AppendsItem (λ x. x) list.old.items list.new.items read result }
{
    let (item, rest) = read?;
    list.push(item)?;
    Ok(rest)
}

/// If `read` has a boxed item, moves it from the box to the list's end and returns the cursor after its tokens; else returns the error.
pub(crate) fn append_boxed<T: Drop>(
    list: &mut Vec<T>,
    read: Result<(Box<T>, Cursor), Stop>,
) -> Result<Cursor, Stop>
    ensures { AppendsItem (λ b. b.value) list.old.items list.new.items read result }
{
    let (item, rest) = read?;
    list.push(Box::into_inner(item))?;
    Ok(rest)
}

/// Wraps the parsed item in `read` in `Some`; an error stays as it is.
pub(crate) fn wrap_in_some<T: Drop>(
    read: Result<(T, Cursor), Stop>,
) -> Result<(Option<T>, Cursor), Stop>
    ensures { result ≡ some_of read }
{
    let (item, rest) = read?;
    Ok((Some(item), rest))
}
