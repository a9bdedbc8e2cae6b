//! Writes the definitions in the bytes of an index, each as a line. Clause `here`: the offset in the index at which the message ends fits
//! 64 bits. Clause `style`: the style of the locations is unchanged.
ghost use Rattle.std.specs.Prelude.{◌≡◌, ◌<◌, ◌+◌, ◌^◌, ◌++◌, [], IfErr, IfOk, OnOk, length, option_copied, option_map};
ghost use Rattle.std.specs.List.{flat_map};
ghost use Rattle.std.specs.Option.{option_to_list};
ghost use Rattle.std.specs.Str.{IsUtf8};
ghost use Rattle.std.specs.String.{string_bytes};
ghost use Rattle.byte_sink.specs.Sinks.{failures_after, AppendsPrefix, Writes};
ghost use Rattle.byte_sink.specs.Pieces.{WritesAllBut};
ghost use Rattle.proto_wire.specs.MessageBytes.{records_of};
ghost use Rattle.scip_index.specs.Meaning.{document_of, occurrence_of, Means};
ghost use Rattle.scip_index.specs.Plain.{IndexModel};
ghost use Rattle.texts.specs.Places.{style_of, writer_style};
ghost use Rattle.index_store.specs.Direct.{documents_of, symbol_span_model};
ghost use Rattle.index_store.specs.Symbols.{definition_lines, definitions_listed, is_requested, line_at, lines_in, lines_of_document, lines_of_occurrence, spans_listed, AreTextDocuments, HaveTextSymbols, IsTextDocument};

use crate::Place;
use crate::byte_queries::{SymbolSpan, is_local, occurrence_symbol_span};
use crate::lines::append_location;
use byte_sink::{Sink, SinkFault, flush_if_full, write_fully};
use proto_wire::{MessageBytes, last_bytes, last_bytes_and_number, next_message};
use std::alloc::{AllocError, Global};
use texts::{EscapingWriter, LocationStyle, LocationWriter};

/// State of the output: the writers of locations and of symbol strings, and scratch space for the numbers of a range. `text` has the lines
/// that aren't written yet.
#[derive(Drop)]
struct Lines<'a> {
    locations: LocationWriter<'a>,
    symbols: EscapingWriter<'a>,
    numbers: Vec<i32>,
    text: String,
}

/// The span and the symbol string of an occurrence that has both and the definition role; otherwise `None`. A local symbol counts only if
/// `with_local`.
fn definition_span<'a>(
    occurrence: MessageBytes<'a>,
    with_local: bool,
    numbers: &mut Vec<i32>,
) -> Result<Option<SymbolSpan<'a>>, AllocError>
    requires here { occurrence.start + length occurrence.bytes.now < 2 ^ 64 }
    // With `Ok` the result is the span with the symbol of the occurrence if it is a listed definition, otherwise `None`.
    ensures { IfOk result (λ n. option_to_list (option_map symbol_span_model n) ≡ spans_listed with_local (occurrence_of (records_of occurrence.entry))) }
{
    let (symbol, roles) = last_bytes_and_number(2, 3, occurrence);
    if roles.cast_unsigned() % 2 == 1 && (with_local || !is_local(symbol)) {
        return occurrence_symbol_span(occurrence, numbers);
    }
    Ok(None)
}

/// Whether definitions in a document with this path are requested. If `requested` is `None`, they are requested in every document.
fn is_requested(requested: Option<&str>, path: &[u8]) -> bool
    ensures { result ≡ is_requested (option_copied requested.entry) path.now }
{
    match requested {
        None => true,
        Some(requested) => path == requested.as_bytes(),
    }
}

impl<'a> Lines<'a> {
    /// A state without lines, for locations in this style.
    fn new(alloc: Global, style: LocationStyle<'a>) -> Lines<'a>
        ensures text { string_bytes result.text ≡ [] }
        ensures style { writer_style result.locations ≡ style_of style.entry }
    {
        Lines {
            locations: LocationWriter::new(style),
            symbols: EscapingWriter::new(),
            numbers: Vec::new(alloc),
            text: String::new(alloc),
        }
    }

    /// Appends the line of a definition to `text`: its location, its symbol string and an LF.
    fn push(&mut self, location: &Place<'a>, symbol: &'a str) -> Result<(), AllocError>
        // With `Ok` `text` has grown by exactly this line.
        ensures appended { OnOk result (string_bytes self.new.text ≡ string_bytes self.old.text ++ line_at (writer_style self.old.locations) location.now.path.now (record { start = location.now.start; end = location.now.end }, symbol.now)) }
        ensures style { writer_style self.new.locations ≡ writer_style self.old.locations }
    {
        append_location(&mut self.locations, &mut self.text, location)?;
        self.text.push(' ')?;
        self.symbols.push(&mut self.text, symbol)?;
        self.text.push('\n')
    }

    /// Appends the line of a definition in a document of this path to `text`.
    fn append_symbol_span(
        &mut self,
        path: &'a str,
        symbol_span: SymbolSpan<'a>,
    ) -> Result<(), AllocError>
        // The symbol string is UTF-8.
        requires text { IsUtf8 symbol_span.symbol.now }
        // With `Ok` `text` has grown by exactly this line.
        ensures appended { OnOk result (string_bytes self.new.text ≡ string_bytes self.old.text ++ line_at (writer_style self.old.locations) path.now (symbol_span_model symbol_span.entry)) }
        ensures style { writer_style self.new.locations ≡ writer_style self.old.locations }
    {
        let Ok(symbol) = std::str::from_utf8(symbol_span.symbol) else {
            unreachable!();
        };
        let location = Place {
            path,
            start: symbol_span.span.start,
            end: symbol_span.span.end,
        };
        self.push(&location, symbol)
    }

    /// Appends the line of an occurrence to `text`, if the occurrence is a definition. A definition of a local symbol counts only if
    /// `with_local`.
    fn append_if_definition(
        &mut self,
        occurrence: MessageBytes<'a>,
        path: &'a str,
        with_local: bool,
    ) -> Result<(), AllocError>
        requires here { occurrence.start + length occurrence.bytes.now < 2 ^ 64 }
        // The symbol string of the occurrence is UTF-8.
        requires text { IsUtf8 (occurrence_of (records_of occurrence)).symbol }
        // With `Ok` `text` has grown by the line of the occurrence, or by nothing.
        ensures appended { OnOk result (string_bytes self.new.text ≡ string_bytes self.old.text ++ lines_of_occurrence (writer_style self.old.locations) with_local path.now (occurrence_of (records_of occurrence.entry))) }
        ensures style { writer_style self.new.locations ≡ writer_style self.old.locations }
    {
        match definition_span(occurrence, with_local, &mut self.numbers)? {
            None => Ok(()),
            Some(symbol_span) => self.append_symbol_span(path, symbol_span),
        }
    }

    /// Appends the line of an occurrence to `text`, if the occurrence is a definition. If `text` is then long, writes it to the sink and
    /// empties it.
    fn write_if_definition<S: Sink>(
        &mut self,
        occurrence: MessageBytes<'a>,
        path: &'a str,
        with_local: bool,
        sink: &mut S,
    ) -> Result<(), SinkFault>
        requires here { occurrence.start + length occurrence.bytes.now < 2 ^ 64 }
        // The symbol string of the occurrence is UTF-8.
        requires text { IsUtf8 (occurrence_of (records_of occurrence)).symbol }
        // With `Ok` the sink took the old `text` and the new lines, without what the new `text` still holds.
        ensures gathered { OnOk result (WritesAllBut (S.taken sink.old) (S.taken sink.new) (string_bytes self.old.text ++ lines_of_occurrence (writer_style self.old.locations) with_local path.now (occurrence_of (records_of occurrence.entry))) (string_bytes self.new.text)) }
        // After an error the sink took a prefix of the old `text` and the new lines.
        ensures error_prefix { IfErr result (λ _. AppendsPrefix (S.taken sink.old) (S.taken sink.new) (string_bytes self.old.text ++ lines_of_occurrence (writer_style self.old.locations) with_local path.now (occurrence_of (records_of occurrence.entry)))) }
        ensures style { writer_style self.new.locations ≡ writer_style self.old.locations }
        // The sink counts a failure if and only if the result is `Device`.
        ensures failures { S.failures sink.new ≡ failures_after result (S.failures sink.old) }
    {
        self.append_if_definition(occurrence, path, with_local)
            .map_err(|_| SinkFault::Memory)?;
        flush_if_full(&mut self.text, sink)
    }

    /// Appends the lines of the definitions in a document with this path to `text`. Whenever `text` is long, writes it to the sink and
    /// empties it.
    fn write_document_lines<S: Sink>(
        &mut self,
        document: MessageBytes<'a>,
        path: &'a str,
        with_local: bool,
        sink: &mut S,
    ) -> Result<(), SinkFault>
        requires here { document.start + length document.bytes.now < 2 ^ 64 }
        // The symbol strings of the document's occurrences are UTF-8.
        requires text { HaveTextSymbols (document_of (records_of document)).occurrences }
        // With `Ok` the sink took the old `text` and the new lines, without what the new `text` still holds.
        ensures gathered { OnOk result (WritesAllBut (S.taken sink.old) (S.taken sink.new) (string_bytes self.old.text ++ lines_in (writer_style self.old.locations) with_local path.now (document_of (records_of document.entry)).occurrences) (string_bytes self.new.text)) }
        // After an error the sink took a prefix of the old `text` and the new lines.
        ensures error_prefix { IfErr result (λ _. AppendsPrefix (S.taken sink.old) (S.taken sink.new) (string_bytes self.old.text ++ lines_in (writer_style self.old.locations) with_local path.now (document_of (records_of document.entry)).occurrences)) }
        ensures style { writer_style self.new.locations ≡ writer_style self.old.locations }
        // The sink counts a failure if and only if the result is `Device`.
        ensures failures { S.failures sink.new ≡ failures_after result (S.failures sink.old) }
    {
        let mut rest = document;
        while let Some(occurrence) = next_message(2, &mut rest) {
            self.write_if_definition(occurrence, path, with_local, sink)?;
        }
        Ok(())
    }

    /// Appends the lines of the definitions in a document to `text`, if the document is requested. Whenever `text` is long, writes it to
    /// the sink and empties it.
    fn write_document<S: Sink>(
        &mut self,
        document: MessageBytes<'a>,
        requested: Option<&str>,
        sink: &mut S,
    ) -> Result<(), SinkFault>
        requires here { document.start + length document.bytes.now < 2 ^ 64 }
        // The path of the document and its symbol strings are UTF-8.
        requires text { IsTextDocument (document_of (records_of document)) }
        // With `Ok` the sink took the old `text` and the new lines, without what the new `text` still holds.
        ensures gathered { OnOk result (WritesAllBut (S.taken sink.old) (S.taken sink.new) (string_bytes self.old.text ++ lines_of_document (writer_style self.old.locations) (option_copied requested.entry) (document_of (records_of document.entry))) (string_bytes self.new.text)) }
        // After an error the sink took a prefix of the old `text` and the new lines.
        ensures error_prefix { IfErr result (λ _. AppendsPrefix (S.taken sink.old) (S.taken sink.new) (string_bytes self.old.text ++ lines_of_document (writer_style self.old.locations) (option_copied requested.entry) (document_of (records_of document.entry)))) }
        ensures style { writer_style self.new.locations ≡ writer_style self.old.locations }
        // The sink counts a failure if and only if the result is `Device`.
        ensures failures { S.failures sink.new ≡ failures_after result (S.failures sink.old) }
    {
        let path = last_bytes(1, document);
        if !is_requested(requested, path) {
            return Ok(());
        }
        let Ok(path) = std::str::from_utf8(path) else {
            unreachable!();
        };
        self.write_document_lines(document, path, requested.is_some(), sink)
    }

    /// Appends the lines of the definitions in the requested documents of an index to `text`. Whenever `text` is long, writes it to the
    /// sink and empties it.
    fn write_documents<S: Sink>(
        &mut self,
        index: MessageBytes<'a>,
        requested: Option<&str>,
        sink: &mut S,
    ) -> Result<(), SinkFault>
        requires here { index.start + length index.bytes.now < 2 ^ 64 }
        // The paths of the documents and their symbol strings are UTF-8.
        requires text { AreTextDocuments (documents_of index) }
        // With `Ok` the sink took the old `text` and the new lines, without what the new `text` still holds.
        ensures gathered { OnOk result (WritesAllBut (S.taken sink.old) (S.taken sink.new) (string_bytes self.old.text ++ flat_map (lines_of_document (writer_style self.old.locations) (option_copied requested.entry)) (documents_of index.entry)) (string_bytes self.new.text)) }
        // After an error the sink took a prefix of the old `text` and the new lines.
        ensures error_prefix { IfErr result (λ _. AppendsPrefix (S.taken sink.old) (S.taken sink.new) (string_bytes self.old.text ++ flat_map (lines_of_document (writer_style self.old.locations) (option_copied requested.entry)) (documents_of index.entry))) }
        ensures style { writer_style self.new.locations ≡ writer_style self.old.locations }
        // The sink counts a failure if and only if the result is `Device`.
        ensures failures { S.failures sink.new ≡ failures_after result (S.failures sink.old) }
    {
        let mut rest = index;
        while let Some(document) = next_message(2, &mut rest) {
            self.write_document(document, requested, sink)?;
        }
        Ok(())
    }
}

/// Writes a line for each definition in bytes that encode an index: in all documents if `requested` is `None`, otherwise in the documents
/// with that path. After an error the sink took a prefix of the lines.
pub(crate) fn write_definitions<S: Sink>(
    alloc: Global,
    bytes: &[u8],
    requested: Option<&str>,
    style: LocationStyle<'_>,
    sink: &mut S,
) -> Result<(), SinkFault>
    // The bytes encode an index.
    requires means { (index : IndexModel) × Means bytes.now index }
    // With `Ok` the sink took exactly the lines of the listed definitions, otherwise a prefix of them.
    ensures writes { (index : IndexModel) → Means bytes.now index → Writes (S.taken sink.old) (S.taken sink.new) result (definition_lines (style_of style.entry) (definitions_listed index (option_copied requested.entry))) }
    // The sink counts a failure if and only if the result is `Device`.
    ensures failures { S.failures sink.new ≡ failures_after result (S.failures sink.old) }
{
    let mut lines = Lines::new(alloc, style);
    lines.write_documents(MessageBytes { start: 0, bytes }, requested, sink)?;
    write_fully(sink, lines.text.as_bytes())
}
