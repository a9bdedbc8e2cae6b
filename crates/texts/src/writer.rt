//! A writer of escaped texts that is fast if most texts equal the text written before.
ghost use Rattle.std.specs.Prelude.{◌≡◌, ◌++◌, OnErr, OnOk, false};
ghost use Rattle.std.specs.Char.{is_ascii_control};
ghost use Rattle.std.specs.List.{list_any};
ghost use Rattle.std.specs.String.{string_bytes};
ghost use Rattle.texts.specs.Escapes.{escaped};

use crate::escape::{escaped, has_control};
use std::alloc::AllocError;

/// Appends texts with their control characters escaped. It remembers the last text that has none: an equal text is copied after one
/// comparison, with no scan.
#[derive(Drop)]
pub struct EscapingWriter<'a> {
    plain: &'a str,
    ghost none: { list_any is_ascii_control plain.now ≡ false },
}

impl<'a> EscapingWriter<'a> {
    /// A writer that has written nothing yet.
    pub fn new() -> EscapingWriter<'a> {
        EscapingWriter { plain: "" }
    }

    /// Appends the text to `out`, with its control characters escaped. If an allocation fails, `out` and the writer are unchanged.
    pub fn push(&mut self, out: &mut String, text: &'a str) -> Result<(), AllocError>
        // The whole escaped text.
        ensures appended { OnOk result (string_bytes out.new ≡ string_bytes out.old ++ escaped text.now) }
        // After an error `out` is unchanged, and the writer too.
        ensures out_unchanged { OnErr result (string_bytes out.new ≡ string_bytes out.old) }
        ensures writer_unchanged { OnErr result (self.new ≡ self.old) }
    {
        if text == self.plain {
            return out.push_str(text);
        }
        if has_control(text.as_bytes()) {
            let written = escaped(*out.allocator(), text)?;
            return out.push_str(written.as_str());
        }
        out.push_str(text)?;
        self.plain = text;
        Ok(())
    }
}
