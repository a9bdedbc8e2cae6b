//! Jobs: the parsed form of a command line.

use std::alloc::AllocError;
use thiserror::Error;

/// Which occurrences of a symbol a query returns.
#[derive(Clone, Copy)]
pub enum Places {
    /// The occurrences that define the symbol.
    Definitions,
    /// The occurrences that use the symbol and don't define it.
    References,
}

/// A position in a document of an index.
#[derive(Drop)]
pub struct Position {
    /// The path of the document, as the index has it.
    pub path: String,
    /// The line, counted from 0, at most 2,147,483,647.
    pub line: u32,
    /// The column, counted from 0 in the units of the index, at most 2,147,483,647.
    pub column: u32,
}

/// The symbol that a query is about: it is given by a position or by its text.
#[derive(Drop)]
pub enum AskedSymbol {
    /// The symbol at this position.
    At(Position),
    /// The symbol with this text.
    Named {
        symbol: String,
        /// The path of a document. It is given if the text begins with `local `, since a local symbol belongs to one document.
        path: Option<String>,
    },
}

/// A question about an index.
#[derive(Drop)]
pub enum IndexQuestion {
    /// Where are the occurrences of the symbol, of the kind `places`?
    PlacesOf { places: Places, symbol: AskedSymbol },
    /// What is the text of the symbol at this position?
    SymbolAt(Position),
    /// Which symbols are defined where, in the document of this path or, without a path, in all documents?
    Symbols { path: Option<String> },
}

/// The modules that a job reads, and the style of locations in them.
#[derive(Drop)]
pub struct SourceTree {
    /// The path of the folder of the modules.
    pub folder: String,
    /// Patterns of files and folders to leave out. `*` matches any bytes but `/`. A pattern with a `/` is matched against the path below
    /// the folder, any other against the last name of that path.
    pub excluded: Vec<String>,
    /// Whether to leave out files that have a fault of their own.
    pub skips_faults: bool,
    /// Whether to count lines and columns from 1, and to write the folder's path before the path of a file.
    pub for_editor: bool,
}

/// The output of an index.
#[derive(Drop)]
pub enum Output {
    /// The file at this path.
    File(String),
    /// Standard output, as a line of hexadecimal digits.
    Hex,
}

/// A request for an index of a tree.
#[derive(Drop)]
pub struct IndexRequest {
    pub tree: SourceTree,
    /// Where to write the index.
    pub output: Output,
    /// The package in the symbols: it isn't `.` and doesn't begin with a space.
    pub package: String,
    /// The root of the project, which the metadata of the index names.
    pub root: String,
    /// The number of threads that make the index, from 1 to 64.
    pub workers: u32,
    /// Whether the index replaces the file atomically: after an error the file is unchanged. It is true with `--atomic` and with
    /// `--skip-faults`.
    pub is_atomic: bool,
}

/// The names of two modules: of the start and the end of a path, or of a module and one that it uses.
#[derive(Drop)]
pub struct TwoNames {
    pub from: String,
    pub to: String,
}

/// A request for a cheapest cut between the modules of two names.
#[derive(Drop)]
pub struct CutRequest {
    pub from: String,
    pub to: String,
    /// The number of threads that search for the cut, from 1 to 64.
    pub workers: u32,
    /// The path of a file with prices of imports, if one is given.
    pub prices: Option<String>,
}

/// The files of a report and of the prices that it was made with.
#[derive(Drop)]
pub struct ReportInput {
    /// The path of the report's file.
    pub report: String,
    /// The path of a file with prices of imports, if one is given.
    pub prices: Option<String>,
}

/// A request for a picture of a report.
#[derive(Drop)]
pub struct PictureRequest {
    pub reported: ReportInput,
    /// Whether to draw the picture by flow: only the imports that the report removes or that carry flow in it, or those of its blocked
    /// path.
    pub by_flow: bool,
}

/// The direction in which a search follows imports.
#[derive(Clone, Copy)]
pub enum Direction {
    /// From the importing module to the imported one.
    Imported,
    /// From the imported module to the importing one.
    Importing,
}

/// A request for the modules that are reached from the module of this name by imports in this direction.
#[derive(Drop)]
pub struct ReachRequest {
    pub module: String,
    pub direction: Direction,
}

/// A question about a network, which is read from a file or made of a tree.
#[derive(Drop)]
pub enum NetQuestion {
    /// What is a cheapest cut between two modules?
    Cut(CutRequest),
    /// Is a report on the network correct?
    Check(ReportInput),
    /// What is the picture of a report on the network? The report isn't verified.
    Dot(PictureRequest),
    /// What is the shortest path of imports from the first module to the second?
    Why(TwoNames),
    /// Which modules does a module reach, or which reach it?
    Reach(ReachRequest),
}

/// A question about the modules of a tree.
#[derive(Drop)]
pub enum TreeQuestion {
    /// A question about the network of the modules.
    OfNet(NetQuestion),
    /// Where does the first module use the second?
    Crossings(TwoNames),
    /// What is the network of the modules, as text?
    Net,
    /// Do the imports of the modules keep the rules in the file at this path?
    Rules(String),
    /// Which files have faults?
    Faults,
    /// What are the names of the modules, and the paths of their files?
    Modules,
}

/// A parsed command line: the input, given by its path, and the question about it.
#[derive(Drop)]
pub enum Job {
    /// Answers a question about the modules below a folder.
    Tree {
        tree: SourceTree,
        question: TreeQuestion,
    },
    /// Answers a question about the network in the file of the path `network`.
    Network {
        network: String,
        question: NetQuestion,
    },
    /// Answers a question about the index in the file of the path `index`.
    Ask {
        index: String,
        question: IndexQuestion,
        /// Whether to count lines and columns from 1.
        for_editor: bool,
    },
    /// Makes an index of the modules below a folder.
    Index(IndexRequest),
    /// Lists the identifiers that can't be resolved in the modules below a folder.
    Unresolved(SourceTree),
}

/// Why a command line gives no job.
#[derive(Debug, Drop, Error)]
pub enum JobFault {
    /// The command line is invalid. The text is the error message, ready to be written.
    #[error("{text}")]
    Line { text: String },
    /// Help or the version was requested. The text is what to write to standard output.
    #[error("{text}")]
    Help { text: String },
    /// An allocation failed.
    #[error("memory ran out")]
    Memory,
}

impl From<AllocError> for JobFault {
    fn from(_error: AllocError) -> JobFault {
        JobFault::Memory
    }
}
