//! The rules of a text.

/// What a rule states of two names X and Y, each a set or a module.
#[derive(Clone, Copy, PartialEq, Eq)]
pub enum RuleKind {
    /// `forbid`: no path of one or more imports leads from a module of X to one of Y.
    Forbid,
    /// `forbid-import`: no module of X imports one of Y.
    ForbidImport,
    /// `may`: modules of X import only modules of X, and of each Y that a `may` line allows for X.
    May,
}

/// A rule between two names. The number of a name is that of its module in the network, or, after the numbers of all modules, that of its
/// set.
#[derive(Clone, Copy)]
pub struct Rule {
    /// The number of the line, from 1.
    pub line: u64,
    pub kind: RuleKind,
    /// The number of the first name.
    pub first: usize,
    /// The number of the second name.
    pub second: usize,
}

/// An `allow` line whose import the network doesn't have.
#[derive(Clone, Copy)]
pub struct StaleAllow<'a> {
    /// The number of the line, from 1.
    pub line: u64,
    pub importer: &'a str,
    pub imported: &'a str,
}
