//! Writes locations, each as a line.
ghost use Rattle.std.specs.Prelude.{◌≡◌, ◌++◌, map, IfErr, OnOk};
ghost use Rattle.std.specs.String.{string_bytes};
ghost use Rattle.byte_sink.specs.declared.sink.SinkFault.TheVariants.{Memory};
ghost use Rattle.byte_sink.specs.Sinks.{failures_after, Writes};
ghost use Rattle.index_store.specs.Queries.{location_model};
ghost use Rattle.index_store.specs.Lines.{location_line, location_lines, range_text};
ghost use Rattle.texts.specs.Places.{style_of, writer_style};

use crate::Place;
use byte_sink::{Sink, SinkFault, flush_if_full, write_fully};
use std::alloc::{AllocError, Global};
use texts::{LocationStyle, LocationWriter};

/// Appends a location as `PATH:LINE:COL-LINE:COL` to the text, in the style of the writer.
pub(crate) fn append_location<'a>(
    writer: &mut LocationWriter<'a>,
    text: &mut String,
    location: &Place<'a>,
) -> Result<(), AllocError>
    // With `Ok` the text has grown by exactly the location.
    ensures appended { OnOk result (string_bytes text.new ≡ string_bytes text.old ++ range_text (writer_style writer.old) (location_model location.now)) }
    // The style of the writer is unchanged.
    ensures style { writer_style writer.new ≡ writer_style writer.old }
{
    let (start, end) = (location.start, location.end);
    writer.append_location(text, location.path, start.line, start.column)?;
    text.push('-')?;
    writer.append_position(text, end.line, end.column)
}

/// Appends a location as `PATH:LINE:COL-LINE:COL` and an LF to the text, in the style of the writer.
fn append_line<'a>(
    writer: &mut LocationWriter<'a>,
    text: &mut String,
    location: &Place<'a>,
) -> Result<(), SinkFault>
    // With `Ok` the text has grown by exactly the line of the location.
    ensures line { OnOk result (string_bytes text.new ≡ string_bytes text.old ++ location_line (writer_style writer.old) (location_model location.now)) }
    // The style of the writer is unchanged.
    ensures style { writer_style writer.new ≡ writer_style writer.old }
    // The error is `Memory`.
    ensures memory { IfErr result (λ fault. fault ≡ Memory) }
{
    append_location(writer, text, location).map_err(|_| SinkFault::Memory)?;
    text.push('\n').map_err(|_| SinkFault::Memory)
}

/// Writes a line `PATH:LINE:COL-LINE:COL` in this style for each location, in their order, with the control characters of paths escaped.
/// Fails with `Device` if the sink fails, and with `Memory` if an allocation fails. The sink has then taken a prefix of the lines.
pub fn write_lines<S: Sink>(
    alloc: Global,
    style: LocationStyle<'_>,
    locations: &[Place<'_>],
    sink: &mut S,
) -> Result<(), SinkFault>
    // With `Ok` the sink took all of the lines, otherwise a prefix of them.
    ensures writes { Writes (S.taken sink.old) (S.taken sink.new) result (location_lines (style_of style.entry) (map location_model locations.now)) }
    // The sink counts a failure if and only if the result is `Device`.
    ensures failures { S.failures sink.new ≡ failures_after result (S.failures sink.old) }
{
    let mut writer = LocationWriter::new(style);
    let mut text = String::new(alloc);
    for location in locations {
        flush_if_full(&mut text, sink)?;
        append_line(&mut writer, &mut text, location)?;
    }
    write_fully(sink, text.as_bytes())
}
