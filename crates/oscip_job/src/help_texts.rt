//! Help texts of the program and its commands. Each of their lines has at most 100 columns.

/// Help of the argument DIR.
pub(crate) const FOLDER_HELP: &str = "The folder of the modules:{n}\
    its files, and those of its folders, that end in `.Mod` or `.mod`";

/// Help of the argument FILE, the file of a network.
pub(crate) const NETWORK_HELP: &str = "The network: lines `module M` and `import M N w`";

/// Help of the option `--prices`.
pub(crate) const PRICES_HELP: &str =
    "The file of prices: lines `price M N k`, by which M's import of N{n}\
    weighs k, and `pin M N`, by which it is not to be removed";

/// Help of the argument FILE of `rules`.
pub(crate) const RULES_HELP: &str =
    "The file of rules: lines `set S M`, `folder S PATH`, `named S PATTERN`, `tree S`,{n}\
    `forbid X Y`, `forbid-import X Y`, `may X Y` and `allow M N`";

/// Help of the argument OUT.
pub(crate) const OUT_HELP: &str = "The file that the index is written to, in the SCIP format;{n}\
    it is emptied only once DIR has been read, so it may be one of DIR's files";

/// Help of the flag `--atomic`.
pub(crate) const ATOMIC_HELP: &str =
    "Replace OUT as a whole: the index is written to OUT.oscip-partial,{n}\
    which then takes OUT's place; if the run fails, OUT is as it was;{n}\
    not with --hex";

/// Help of the flag `--skip-faults`.
pub(crate) const SKIP_FAULTS_HELP: &str =
    "Leave out the files that have a fault of their own, and report these{n}\
    faults; import paths through their modules are missing then";

/// Help of the flag `--skip-faults` of the command `index`.
pub(crate) const INDEX_SKIP_FAULTS_HELP: &str =
    "Leave out the files that have a fault of their own, and report these{n}\
    faults; OUT is replaced as with --atomic";

/// Help of the option `--exclude`.
pub(crate) const EXCLUDE_HELP: &str =
    "Pass over the files and folders whose last name matches PATTERN, or,{n}\
    if PATTERN has a `/`, whose path below DIR does, without opening them;{n}\
    `*` matches any bytes but `/`";

/// Help of the flag `--editor` of a command that queries an index.
pub(crate) const EDITOR_HELP: &str = "Count lines and columns from 1";

/// Help of the flag `--editor` of a command that reads a folder.
pub(crate) const TREE_EDITOR_HELP: &str =
    "Count lines and columns from 1, and write DIR before each path";

/// Help of the argument PATH, the path of a document in an index.
pub(crate) const PATH_HELP: &str = "The path of a document, as the index has it";

/// Help of the option `--symbol`.
pub(crate) const SYMBOL_HELP: &str = "The text of the symbol, in place of a position;{n}\
    with one that begins with `local ` goes the PATH of its document";

/// Usage of the command `def`, whose arguments go together in two forms.
pub(crate) const DEF_USAGE: &str =
    "oscip def <INDEX> <PATH> <LINE> <COL>\n       oscip def --symbol <TEXT> <INDEX> [PATH]";

/// Usage of the command `refs`, whose arguments go together in two forms.
pub(crate) const REFS_USAGE: &str =
    "oscip refs <INDEX> <PATH> <LINE> <COL>\n       oscip refs --symbol <TEXT> <INDEX> [PATH]";

/// Usage of the command `index`, which needs exactly one of two outputs.
pub(crate) const INDEX_USAGE: &str = "oscip index [OPTIONS] <DIR> <OUT|--hex>";

/// The version, which `--version` prints after the program's name.
pub(crate) const VERSION: &str = "0.1.0";

/// Text after the help of the program.
pub(crate) const PROGRAM_END: &str = "Example: oscip cut examples/editor Edit Net{n}{n}\
    `oscip COMMAND --help` has an example of each command and its exit statuses.";

/// Text after the help of the command `cut`.
pub(crate) const CUT_END: &str = "Example: oscip cut examples/editor Edit Net{n}{n}\
    Status: 0 the report is printed, 5 files were left out,{n}\
    1 a module, a price or a name is rejected,{n}\
    2 the command line is invalid, 3 a file can't be read or standard output can't be written,{n}\
    4 out of memory";

/// Text after the help of the command `cut-net`.
pub(crate) const CUT_NET_END: &str = "Example: oscip cut-net examples/six.net A B{n}{n}\
    Status: 0 the report is printed, 1 the network, a price or a name is rejected,{n}\
    2 the command line is invalid, 3 a file can't be read or standard output can't be written,{n}\
    4 out of memory";

/// Text after the help of the command `check`.
pub(crate) const CHECK_END: &str = "Example: oscip check examples/editor edit.cut{n}{n}\
    Status: 0 yes, 5 no or files were left out,{n}\
    1 a module, a price or the report is rejected,{n}\
    2 the command line is invalid, 3 a file can't be read or standard output can't be written,{n}\
    4 out of memory";

/// Text after the help of the command `check-net`.
pub(crate) const CHECK_NET_END: &str =
    "Example: oscip check-net examples/six.net examples/six.cut{n}{n}\
    Status: 0 yes, 5 no, 1 the network, a price or the report is rejected,{n}\
    2 the command line is invalid, 3 a file can't be read or standard output can't be written,{n}\
    4 out of memory";

/// Text after the help of the command `crossings`.
pub(crate) const CROSSINGS_END: &str = "Example: oscip crossings examples/editor Edit Sync{n}{n}\
    Status: 0 the locations are printed, 5 files were left out,{n}\
    1 a module or a name is rejected,{n}\
    2 the command line is invalid, 3 a file can't be read or standard output can't be written,{n}\
    4 out of memory";

/// Text after the help of the command `net`.
pub(crate) const NET_END: &str = "Example: oscip net examples/editor{n}{n}\
    Status: 0 the network is printed, 5 files were left out, 1 a module is rejected,{n}\
    2 the command line is invalid, 3 a file can't be read or standard output can't be written,{n}\
    4 out of memory";

/// Text after the help of the command `why`.
pub(crate) const WHY_END: &str = "Example: oscip why examples/editor Edit Net{n}{n}\
    Status: 0 the path is printed, 5 there is none or files were left out,{n}\
    1 a module or a name is rejected,{n}\
    2 the command line is invalid, 3 a file can't be read or standard output can't be written,{n}\
    4 out of memory";

/// Text after the help of the command `why-net`.
pub(crate) const WHY_NET_END: &str = "Example: oscip why-net examples/six.net A B{n}{n}\
    Status: 0 the path is printed, 5 there is none, 1 the network or a name is rejected,{n}\
    2 the command line is invalid, 3 a file can't be read or standard output can't be written,{n}\
    4 out of memory";

/// Text after the help of the command `reach`.
pub(crate) const REACH_END: &str = "Example: oscip reach --back examples/editor Net{n}{n}\
    Status: 0 the modules are printed, 5 files were left out,{n}\
    1 a module or a name is rejected,{n}\
    2 the command line is invalid, 3 a file can't be read or standard output can't be written,{n}\
    4 out of memory";

/// Text after the help of the command `reach-net`.
pub(crate) const REACH_NET_END: &str = "Example: oscip reach-net examples/six.net A{n}{n}\
    Status: 0 the modules are printed, 1 the network or a name is rejected,{n}\
    2 the command line is invalid, 3 a file can't be read or standard output can't be written,{n}\
    4 out of memory";

/// Text after the help of the command `modules`.
pub(crate) const MODULES_END: &str = "Example: oscip modules examples/editor{n}{n}\
    Status: 0 the modules are printed, 5 files were left out, 1 a module is rejected,{n}\
    2 the command line is invalid, 3 a file can't be read or standard output can't be written,{n}\
    4 out of memory";

/// Text after the help of the command `rules`.
pub(crate) const RULES_END: &str =
    "Example: oscip rules examples/editor examples/editor.rules{n}{n}\
    Status: 0 yes, 5 a rule is broken, an `allow` is stale or files were left out,{n}\
    1 a module or a rule is rejected,{n}\
    2 the command line is invalid, 3 a file can't be read or standard output can't be written,{n}\
    4 out of memory";

/// Text after the help of the command `dot`.
pub(crate) const DOT_END: &str = "Example: oscip dot examples/editor edit.cut{n}{n}\
    Status: 0 the graph is printed, 5 files were left out,{n}\
    1 a module, a price or the report is rejected,{n}\
    2 the command line is invalid, 3 a file can't be read or standard output can't be written,{n}\
    4 out of memory";

/// Text after the help of the command `dot-net`.
pub(crate) const DOT_NET_END: &str =
    "Example: oscip dot-net examples/six.net examples/six.cut{n}{n}\
    Status: 0 the graph is printed, 1 the network, a price or the report is rejected,{n}\
    2 the command line is invalid, 3 a file can't be read or standard output can't be written,{n}\
    4 out of memory";

/// Text after the help of the command `index`.
pub(crate) const INDEX_END: &str = "Example: oscip index --atomic examples/editor editor.scip{n}{n}\
    Status: 0 the index is written, 5 files were left out, 1 a module is rejected,{n}\
    2 the command line is invalid, 3 a file or standard output can't be read or written,{n}\
    4 out of memory";

/// Text after the help of the command `unresolved`.
pub(crate) const UNRESOLVED_END: &str = "Example: oscip unresolved examples/editor{n}{n}\
    Status: 0 the identifiers are printed, 5 files were left out,{n}\
    1 a module is rejected,{n}\
    2 the command line is invalid, 3 a file can't be read or standard output can't be written,{n}\
    4 out of memory";

/// Text after the help of the command `faults`.
pub(crate) const FAULTS_END: &str = "Example: oscip faults examples/editor{n}{n}\
    Status: 0 yes, 5 the faults are printed, 2 the command line is invalid,{n}\
    3 a file can't be read or standard output can't be written, 4 out of memory";

/// Text after the help of the command `def`.
pub(crate) const DEF_END: &str = "Example: oscip def examples/foreign.scip src/view.ts 2 19{n}{n}\
    Status: 0 the locations are printed, 1 the index or the path is rejected,{n}\
    2 the command line is invalid, 3 a file can't be read or standard output can't be written,{n}\
    4 out of memory";

/// Text after the help of the command `refs`.
pub(crate) const REFS_END: &str = "Example: oscip refs examples/foreign.scip src/view.ts 2 19{n}{n}\
    Status: 0 the locations are printed, 1 the index or the path is rejected,{n}\
    2 the command line is invalid, 3 a file can't be read or standard output can't be written,{n}\
    4 out of memory";

/// Text after the help of the command `symbol`.
pub(crate) const SYMBOL_END: &str =
    "Example: oscip symbol examples/foreign.scip src/view.ts 2 19{n}{n}\
    Status: 0 the text is printed, or there is no symbol, 1 the index or the path is rejected,{n}\
    2 the command line is invalid, 3 a file can't be read or standard output can't be written,{n}\
    4 out of memory";

/// Text after the help of the command `symbols`.
pub(crate) const SYMBOLS_END: &str = "Example: oscip symbols examples/foreign.scip{n}{n}\
    Status: 0 the symbols are printed, 1 the index or the path is rejected,{n}\
    2 the command line is invalid, 3 a file can't be read or standard output can't be written,{n}\
    4 out of memory";
