//! Appends names to the buffer.
ghost use Rattle.std.specs.Prelude.{◌≡◌, ◌++◌, IfOk};
ghost use Rattle.ob_scan.specs.Spelling.{AreInText};
ghost use Rattle.ob_interface.specs.Interfaces.{part_of, type_name};
ghost use Rattle.ob_interface.specs.Texts.{name_in, part_row_in, text_in, IsGrown, DecodesTo};

use crate::rows::{BufferSpan, NameRow, PartRow, RowPart};
use module_table::{Part, TypePart};
use ob_scan::TokenTexts;
use std::alloc::AllocError;

/// Appends bytes to the buffer and returns their span.
pub(crate) fn append_text(text: &mut Vec<u8>, more: &[u8]) -> Result<BufferSpan, AllocError>
    ensures grown { IfOk result (λ _. text.new.items ≡ text.old.items ++ more.now) }
    // In the buffer and in every extension of it the result decodes to the specified value.
    ensures decoded { IfOk result (λ s. DecodesTo text_in text.new.items s more.now) }
{
    let start = text.len();
    text.extend_from_slice(more)?;
    let end = text.len();
    Ok(BufferSpan { start, end })
}

/// Appends the one or two identifiers of a name to the buffer. Returns their spans.
pub(crate) fn append_name(
    text: &mut Vec<u8>,
    source: &TokenTexts,
    head: u32,
    member: Option<u32>,
) -> Result<NameRow, AllocError>
    // The tokens are ranges of the bytes.
    requires { AreInText source.now.bytes.now source.now.tokens.now }
    // With `Ok` the buffer was only appended to.
    ensures grown { IfOk result (λ _. IsGrown text.old.items text.new.items) }
    // In the buffer and in every extension of it the result decodes to the specified value.
    ensures decoded { IfOk result (λ n. DecodesTo name_in text.new.items n (type_name source.now.bytes.now source.now.tokens.now head member)) }
{
    let head = append_text(text, source.token_text(head))?;
    match member {
        None => Ok(NameRow { head, member: None }),
        Some(member) => {
            let member = append_text(text, source.token_text(member))?;
            Ok(NameRow {
                head,
                member: Some(member),
            })
        }
    }
}

/// Appends the name of a component to the buffer, if it has one. Returns the component's entry.
pub(crate) fn append_component(
    text: &mut Vec<u8>,
    source: &TokenTexts,
    part: TypePart,
) -> Result<PartRow, AllocError>
    // The tokens are ranges of the bytes.
    requires { AreInText source.now.bytes.now source.now.tokens.now }
    // With `Ok` the buffer was only appended to.
    ensures grown { IfOk result (λ _. IsGrown text.old.items text.new.items) }
    // In the buffer and in every extension of it the result decodes to the specified value.
    ensures decoded { IfOk result (λ p. DecodesTo part_row_in text.new.items p (part_of source.now.bytes.now source.now.tokens.now part)) }
    ensures declared_by { IfOk result (λ p. p.declared_by ≡ part.declared_by) }
{
    let declared_by = part.declared_by;
    let part = match part.part {
        Part::Array => RowPart::Array,
        Part::Pointer => RowPart::Pointer,
        Part::Record => RowPart::Record(part.number),
        Part::Procedure => RowPart::Procedure,
        Part::Named(member) => RowPart::Named {
            start: source.start(part.number),
            name: append_name(text, source, part.number, member)?,
        },
    };
    Ok(PartRow { declared_by, part })
}
