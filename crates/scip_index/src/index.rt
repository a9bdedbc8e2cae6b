//! The messages of a SCIP index (scip.proto). Other fields of scip.proto are skipped when bytes are decoded.

/// An occurrence of a symbol in a document (`Occurrence`).
#[derive(Drop)]
pub struct Occurrence {
    /// Field 1: a half-open range with the start line, start column, end line and end column, all zero-based. If the range is on one line,
    /// the end line is left out.
    pub range: Vec<i32>,
    /// Field 2: the symbol string.
    pub symbol: String,
    /// Field 3: a bit set of `SymbolRole`, with Definition 1, Import 2, WriteAccess 4, ReadAccess 8 and others.
    pub symbol_roles: i32,
    /// Field 7: for a definition the range of its whole declaration, in the form of `range`; may be empty.
    pub enclosing_range: Vec<i32>,
}

/// A symbol and its display name (`SymbolInformation`).
#[derive(Drop)]
pub struct SymbolInfo {
    /// Field 1: the symbol string.
    pub symbol: String,
    /// Field 6: the name that is displayed.
    pub display_name: String,
}

/// A source file (`Document`).
#[derive(Drop)]
pub struct Document {
    /// Field 1: the path relative to the project's root, with `/` as separator.
    pub relative_path: String,
    /// Field 2: the occurrences in the file.
    pub occurrences: Vec<Occurrence>,
    /// Field 3: the symbols that the file declares.
    pub symbols: Vec<SymbolInfo>,
    /// Field 4: the name of the language.
    pub language: String,
    /// Field 6: the unit of columns (`PositionEncoding`); 1 is bytes of UTF-8.
    pub position_encoding: i32,
}

/// The tool that made the index (`ToolInfo`).
#[derive(Drop)]
pub struct ToolInfo {
    /// Field 1: the tool's name.
    pub name: String,
    /// Field 2: the tool's version.
    pub version: String,
    /// Field 3: the arguments of the tool's command line.
    pub arguments: Vec<String>,
}

/// Data about the whole index (`Metadata`).
#[derive(Drop)]
pub struct Metadata {
    /// Field 1: the version of the protocol (`ProtocolVersion`).
    pub version: i32,
    /// Field 2: the tool that made the index.
    pub tool_info: Option<ToolInfo>,
    /// Field 3: the URI of the project's root.
    pub project_root: String,
    /// Field 4: the encoding of the source files (`TextEncoding`); 1 is UTF-8.
    pub text_document_encoding: i32,
}

/// A SCIP index (`Index`).
#[derive(Drop)]
pub struct Index {
    /// Field 1: data about the whole index.
    pub metadata: Option<Metadata>,
    /// Field 2: the source files.
    pub documents: Vec<Document>,
    /// Field 3: the symbols that are declared outside of the documents.
    pub external_symbols: Vec<SymbolInfo>,
}
