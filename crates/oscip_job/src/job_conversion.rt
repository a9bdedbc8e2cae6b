//! The conversion of the values that `clap` finds into a job.
ghost use Rattle.std.specs.Prelude.{◌≡◌, ◌++◌, ◌≤◌, ◌↔◌, ℕ, IfOk, IfSome, List, codes, map, true};
ghost use Rattle.std.specs.String.{string_bytes};
ghost use Rattle.clap.specs.Words.{found_of, kind_of, rows_of, subcommand_of, subcommand_rows_of};
ghost use Rattle.oscip_job.specs.Jobs.{oscip, AsksForAtomic, Finds, FindsAll, FindsFromZero, FindsNumber, HasAskedSymbol, HasCutRequest, HasDirection, HasPictureRequest, HasIndexRequest, HasOutput, HasPackage, HasPath, FindsPosition, HasPosition, HasReachRequest, HasReportInput, HasSymbolPath, HasSymbolPosition, HasSymbolText, HasText, HasTree, HasTwoNames, HasWorkers, HasCommandAndValues, IsPresent, IsIndexQuestionOf, IsJobOf, IsNetQuestionOf, IsPackage, IsTreeQuestionOf, IsWithin, LacksValue, MayFind, IsWorkerCount, NamesNumbers, NamesPosition, NamesWithin, HasWorkersInRange};

use crate::commands::command;
use crate::job::{
    AskedSymbol, CutRequest, Direction, IndexQuestion, IndexRequest, Job, JobFault, NetQuestion,
    Output, PictureRequest, Places, Position, ReachRequest, ReportInput, SourceTree, TreeQuestion,
    TwoNames,
};
use clap::ArgMatches;
use clap::error::ErrorKind;
use std::alloc::{AllocError, Global};

/// The error for a command line with neither a file nor `--hex`, or with both.
const ONE_OUTPUT: &str =
    "error: either OUT or --hex has to be given, and not both\n\nFor more information, try '--help'.\n";

/// The error for a command line with `--atomic` and `--hex`.
const NO_FILE: &str =
    "error: --atomic can't be given with --hex, by which no file is written\n\nFor more information, try '--help'.\n";

/// The error for a package that can't be part of a symbol.
const WRONG_PACKAGE: &str =
    "error: the package can't be `.` and can't begin with a space\n\nFor more information, try '--help'.\n";

/// The error for a command line that gives no symbol, or gives it by a position and by `--symbol`.
const ONE_SYMBOL: &str =
    "error: either PATH, LINE and COL have to be given, or --symbol without LINE and COL\n\nFor more information, try '--help'.\n";

/// The error for an empty `--symbol`.
const NO_SYMBOL: &str =
    "error: the text of a symbol can't be empty\n\nFor more information, try '--help'.\n";

/// The error for a local symbol without the path of its document.
const NO_DOCUMENT: &str =
    "error: a symbol that begins with `local ` is one of a document, whose PATH has to be given\n\nFor more information, try '--help'.\n";

/// The error for a LINE or COL of 0 with `--editor`, which counts from 1.
const FROM_ONE: &str =
    "error: with --editor LINE and COL are counted from 1\n\nFor more information, try '--help'.\n";

/// Why the values that `clap` found give no job.
#[derive(Drop)]
enum ArgumentError {
    /// A value is missing that `clap` requires, or the symbol isn't given in exactly one of its two forms.
    Missing,
    /// The text of the symbol is empty.
    Empty,
    /// The symbol is local, and the path of its document is missing.
    Document,
    /// Neither a file nor `--hex` is given, or both are.
    Output,
    /// Both `--atomic` and `--hex` are given.
    Atomic,
    /// The package can't be part of a symbol.
    Package,
    /// A line or a column that counts from 1 is 0.
    FromOne,
    /// An allocation failed.
    Memory,
}

impl From<AllocError> for ArgumentError {
    fn from(_error: AllocError) -> ArgumentError {
        ArgumentError::Memory
    }
}

/// The fault `Line` with a copy of this message, or `Memory` if the copy fails.
fn command_line_fault(alloc: Global, text: &str) -> JobFault {
    match String::from_str(alloc, text) {
        Ok(text) => JobFault::Line { text },
        Err(_) => JobFault::Memory,
    }
}

/// The fault for this reason why the values give no job, with the message to write.
fn fault_of(alloc: Global, argument_error: ArgumentError) -> JobFault {
    match argument_error {
        ArgumentError::Missing => command_line_fault(alloc, ONE_SYMBOL),
        ArgumentError::Empty => command_line_fault(alloc, NO_SYMBOL),
        ArgumentError::Document => command_line_fault(alloc, NO_DOCUMENT),
        ArgumentError::Output => command_line_fault(alloc, ONE_OUTPUT),
        ArgumentError::Atomic => command_line_fault(alloc, NO_FILE),
        ArgumentError::Package => command_line_fault(alloc, WRONG_PACKAGE),
        ArgumentError::FromOne => command_line_fault(alloc, FROM_ONE),
        ArgumentError::Memory => JobFault::Memory,
    }
}

/// Copies of the texts, in their order.
fn copy_texts(alloc: Global, texts: &[&str]) -> Result<Vec<String>, AllocError>
    ensures { IfOk result (λ copies. map string_bytes copies.items ≡ map (λ t. t.now) texts.now) }
{
    let mut copies = Vec::with_capacity(alloc, texts.len())?;
    for text in texts {
        copies.push(String::from_str(alloc, text)?)?;
    }
    Ok(copies)
}

/// A copy of the value of an argument. Fails with `Missing` if `clap` found no value.
fn required_value(alloc: Global, found: &ArgMatches<'_>, id: &str) -> Result<String, ArgumentError>
    // With `Ok` the text is the value that `clap` found for the argument.
    ensures { IfOk result (λ text. Finds (rows_of (found_of found.now)) id.now (string_bytes text)) }
{
    match found.get_str(id) {
        None => Err(ArgumentError::Missing),
        Some(text) => Ok(String::from_str(alloc, text)?),
    }
}

/// A copy of the value of an argument, or `None` if the argument isn't given.
fn optional_value(
    alloc: Global,
    found: &ArgMatches<'_>,
    id: &str,
) -> Result<Option<String>, AllocError>
    ensures { IfOk result (MayFind (rows_of (found_of found.now)) id.now) }
{
    match found.get_str(id) {
        None => Ok(None),
        Some(text) => Ok(Some(String::from_str(alloc, text)?)),
    }
}

/// Whether a flag, which is an option without a value, is given.
fn is_present(found: &ArgMatches<'_>, id: &str) -> bool
    ensures { result ≡ true ↔ IsPresent (rows_of (found_of found.now)) id.now }
{
    match found.get_str(id) {
        None => false,
        Some(text) => text == "true",
    }
}

/// Copies of all values of an argument that may be given repeatedly; empty if the argument isn't given.
fn values_of(alloc: Global, found: &ArgMatches<'_>, id: &str) -> Result<Vec<String>, AllocError>
    ensures { IfOk result (λ texts. FindsAll (rows_of (found_of found.now)) id.now (map string_bytes texts.items)) }
{
    match found.get_strs(id) {
        None => Ok(Vec::new(alloc)),
        Some(values) => copy_texts(alloc, values),
    }
}

/// The tree, from the arguments DIR, `--exclude`, `--skip-faults` and `--editor`.
fn tree_of(alloc: Global, found: &ArgMatches<'_>) -> Result<SourceTree, ArgumentError>
    ensures { IfOk result (HasTree (rows_of (found_of found.now))) }
{
    let folder = required_value(alloc, found, "DIR")?;
    let excluded = values_of(alloc, found, "exclude")?;
    Ok(SourceTree {
        folder,
        excluded,
        skips_faults: is_present(found, "skip-faults"),
        for_editor: is_present(found, "editor"),
    })
}

/// The number of workers, as `clap` parsed it. Fails with `Missing` if `clap` found none.
fn worker_count(found: &ArgMatches<'_>) -> Result<u32, ArgumentError>
    // `clap` accepted a number of workers only if it is from 1 to 64.
    requires { HasWorkersInRange (rows_of (found_of found.now)) }
    ensures value { IfOk result (FindsNumber (rows_of (found_of found.now)) (codes "workers")) }
    ensures within { IfOk result IsWorkerCount }
{
    match found.get_one::<u32>("workers") {
        None => Err(ArgumentError::Missing),
        Some(workers) => Ok(workers),
    }
}

/// The names of two modules, which are the values of the arguments `first` and `second`.
fn two_names(
    alloc: Global,
    found: &ArgMatches<'_>,
    first: &str,
    second: &str,
) -> Result<TwoNames, ArgumentError>
    ensures { IfOk result (HasTwoNames (rows_of (found_of found.now)) first.now second.now) }
{
    let from = required_value(alloc, found, first)?;
    let to = required_value(alloc, found, second)?;
    Ok(TwoNames { from, to })
}

/// The request for a cut, from A, B, `--workers` and `--prices`. It doesn't have the path of the input, which is a part of the `Job`.
fn cut_request(alloc: Global, found: &ArgMatches<'_>) -> Result<CutRequest, ArgumentError>
    // `clap` accepted a number of workers only if it is from 1 to 64.
    requires { HasWorkersInRange (rows_of (found_of found.now)) }
    ensures values { IfOk result (HasCutRequest (rows_of (found_of found.now))) }
    // With `Ok` the number of workers is 1 to 64.
    ensures workers { IfOk result (λ it. IsWorkerCount it.workers) }
{
    let workers = worker_count(found)?;
    let from = required_value(alloc, found, "A")?;
    let to = required_value(alloc, found, "B")?;
    let prices = optional_value(alloc, found, "prices")?;
    Ok(CutRequest {
        from,
        to,
        workers,
        prices,
    })
}

/// The paths of the report and of its prices, from REPORT and `--prices`. The path of the input that the report is about is a part of the
/// `Job`.
fn report_input(alloc: Global, found: &ArgMatches<'_>) -> Result<ReportInput, ArgumentError>
    ensures { IfOk result (HasReportInput (rows_of (found_of found.now))) }
{
    let report = required_value(alloc, found, "REPORT")?;
    let prices = optional_value(alloc, found, "prices")?;
    Ok(ReportInput { report, prices })
}

/// The request for a picture, from REPORT, `--prices` and `--flow`. The path of the input that the report is about is a part of the `Job`.
fn picture_request(alloc: Global, found: &ArgMatches<'_>) -> Result<PictureRequest, ArgumentError>
    ensures { IfOk result (HasPictureRequest (rows_of (found_of found.now))) }
{
    let by_flow = is_present(found, "flow");
    let reported = report_input(alloc, found)?;
    Ok(PictureRequest { reported, by_flow })
}

/// The direction in which imports are followed: with `--back` from the imported module to the importing one, otherwise the other way round.
fn direction_of(found: &ArgMatches<'_>) -> Direction
    ensures { HasDirection (rows_of (found_of found.now)) result }
{
    if is_present(found, "back") {
        Direction::Importing
    } else {
        Direction::Imported
    }
}

/// The request for reached modules, from M and `--back`. The path of the input is a part of the `Job`.
fn reach_request(alloc: Global, found: &ArgMatches<'_>) -> Result<ReachRequest, ArgumentError>
    ensures { IfOk result (HasReachRequest (rows_of (found_of found.now))) }
{
    let module = required_value(alloc, found, "M")?;
    let direction = direction_of(found);
    Ok(ReachRequest { module, direction })
}

/// The question about a network that the command of this name asks. The name is given without a final `-net`. Fails with `Missing` for any
/// other name.
fn net_question(
    alloc: Global,
    name: &str,
    found: &ArgMatches<'_>,
) -> Result<NetQuestion, ArgumentError>
    // `clap` accepted a number of workers only if it is from 1 to 64.
    requires { HasWorkersInRange (rows_of (found_of found.now)) }
    ensures { IfOk result (IsNetQuestionOf name.now (rows_of (found_of found.now))) }
{
    if name == "cut" {
        return Ok(NetQuestion::Cut(cut_request(alloc, found)?));
    }
    if name == "check" {
        return Ok(NetQuestion::Check(report_input(alloc, found)?));
    }
    if name == "dot" {
        return Ok(NetQuestion::Dot(picture_request(alloc, found)?));
    }
    if name == "why" {
        return Ok(NetQuestion::Why(two_names(alloc, found, "A", "B")?));
    }
    if name == "reach" {
        return Ok(NetQuestion::Reach(reach_request(alloc, found)?));
    }
    Err(ArgumentError::Missing)
}

/// The question about a tree that the command of this name asks.
fn tree_question(
    alloc: Global,
    name: &str,
    found: &ArgMatches<'_>,
) -> Result<TreeQuestion, ArgumentError>
    // `clap` accepted a number of workers only if it is from 1 to 64.
    requires { HasWorkersInRange (rows_of (found_of found.now)) }
    ensures { IfOk result (IsTreeQuestionOf name.now (rows_of (found_of found.now))) }
{
    if name == "crossings" {
        return Ok(TreeQuestion::Crossings(two_names(alloc, found, "M", "N")?));
    }
    if name == "net" {
        return Ok(TreeQuestion::Net);
    }
    if name == "rules" {
        return Ok(TreeQuestion::Rules(required_value(alloc, found, "FILE")?));
    }
    if name == "faults" {
        return Ok(TreeQuestion::Faults);
    }
    if name == "modules" {
        return Ok(TreeQuestion::Modules);
    }
    Ok(TreeQuestion::OfNet(net_question(alloc, name, found)?))
}

/// The job on a tree that the command of this name requests.
fn tree_job(alloc: Global, name: &str, found: &ArgMatches<'_>) -> Result<Job, ArgumentError>
    // `clap` accepted a number of workers only if it is from 1 to 64.
    requires { HasWorkersInRange (rows_of (found_of found.now)) }
    ensures { IfOk result (IsJobOf (Some (name.now, rows_of (found_of found.now)))) }
{
    let question = tree_question(alloc, name, found)?;
    let tree = tree_of(alloc, found)?;
    Ok(Job::Tree { tree, question })
}

/// The job on a network in a file that the command named `name`, followed by `-net`, requests.
fn net_job(alloc: Global, name: &str, found: &ArgMatches<'_>) -> Result<Job, ArgumentError>
    // `clap` accepted a number of workers only if it is from 1 to 64.
    requires { HasWorkersInRange (rows_of (found_of found.now)) }
    ensures { IfOk result (IsJobOf (Some (name.now ++ codes "-net", rows_of (found_of found.now)))) }
{
    let question = net_question(alloc, name, found)?;
    let network = required_value(alloc, found, "FILE")?;
    Ok(Job::Network { network, question })
}

/// The value of the argument LINE or COL, as `clap` parsed it. Fails with `Missing` if `clap` found none.
fn position_number(found: &ArgMatches<'_>, id: &str) -> Result<u32, ArgumentError>
    // `clap` accepted a number for this argument only if it is from 0 to 2,147,483,647.
    requires { NamesWithin id.now 0 2147483647 (rows_of (found_of found.now)) }
    ensures value { IfOk result (FindsNumber (rows_of (found_of found.now)) id.now) }
    ensures within { IfOk result (λ number. number ≤ 2147483647) }
{
    match found.get_one::<u32>(id) {
        None => Err(ArgumentError::Missing),
        Some(number) => Ok(number),
    }
}

/// The value of the argument LINE or COL, converted to count from 0. With `--editor` the argument counts from 1, so 0 fails with `FromOne`.
fn zero_based_number(found: &ArgMatches<'_>, id: &str) -> Result<u32, ArgumentError>
    // `clap` accepted a number for this argument only if it is from 0 to 2,147,483,647.
    requires { NamesWithin id.now 0 2147483647 (rows_of (found_of found.now)) }
    ensures value { IfOk result (FindsFromZero (rows_of (found_of found.now)) id.now) }
    ensures within { IfOk result (λ number. number ≤ 2147483647) }
{
    let number = position_number(found, id)?;
    if !is_present(found, "editor") {
        return Ok(number);
    }
    if number == 0 {
        return Err(ArgumentError::FromOne);
    }
    Ok(number - 1)
}

/// The position in a document that PATH, LINE and COL give, with a line and a column that count from 0.
fn position_of(alloc: Global, found: &ArgMatches<'_>) -> Result<Position, ArgumentError>
    // `clap` accepted a line and a column only if they are from 0 to 2,147,483,647.
    requires { NamesPosition (rows_of (found_of found.now)) }
    ensures values { IfOk result (FindsPosition (rows_of (found_of found.now))) }
    ensures within { IfOk result IsWithin }
{
    let path = required_value(alloc, found, "PATH")?;
    let line = zero_based_number(found, "LINE")?;
    let column = zero_based_number(found, "COL")?;
    Ok(Position { path, line, column })
}

/// The symbol with this text, which `--symbol` gives. Fails with `Empty` for an empty text, and with `Missing` if LINE or COL is given too.
/// Fails with `Document` for a local symbol without PATH.
fn symbol_from_text(
    alloc: Global,
    found: &ArgMatches<'_>,
    symbol: &str,
) -> Result<AskedSymbol, ArgumentError>
    // The text is the value of `--symbol`.
    requires { Finds (rows_of (found_of found.now)) (codes "symbol") symbol.now }
    // With `Ok` the symbol has the values of its arguments.
    ensures values { IfOk result (HasAskedSymbol (rows_of (found_of found.now))) }
    // With `Ok` the line and column of a position are at most 2,147,483,647.
    ensures position { IfOk result HasSymbolPosition }
    // With `Ok` a local symbol that is given by its text has the path of its document.
    ensures path { IfOk result HasSymbolPath }
    // With `Ok` the text by which a symbol is given isn't empty.
    ensures text { IfOk result HasSymbolText }
{
    if symbol.is_empty() {
        return Err(ArgumentError::Empty);
    }
    if found.get_str("LINE").is_some() || found.get_str("COL").is_some() {
        return Err(ArgumentError::Missing);
    }
    let path = optional_value(alloc, found, "PATH")?;
    if path.is_none() && symbol.as_bytes().starts_with(b"local ") {
        return Err(ArgumentError::Document);
    }
    let symbol = String::from_str(alloc, symbol)?;
    Ok(AskedSymbol::Named { symbol, path })
}

/// The symbol, which is given by a position or by `--symbol`.
fn symbol_from_arguments(
    alloc: Global,
    found: &ArgMatches<'_>,
) -> Result<AskedSymbol, ArgumentError>
    // `clap` accepted a line and a column only if they are from 0 to 2,147,483,647.
    requires { NamesPosition (rows_of (found_of found.now)) }
    // With `Ok` the symbol has the values of its arguments.
    ensures values { IfOk result (HasAskedSymbol (rows_of (found_of found.now))) }
    // With `Ok` the line and column of a position are at most 2,147,483,647.
    ensures position { IfOk result HasSymbolPosition }
    // With `Ok` a local symbol that is given by its text has the path of its document.
    ensures path { IfOk result HasSymbolPath }
    // With `Ok` the text by which a symbol is given isn't empty.
    ensures text { IfOk result HasSymbolText }
{
    match found.get_str("symbol") {
        None => Ok(AskedSymbol::At(position_of(alloc, found)?)),
        Some(symbol) => symbol_from_text(alloc, found, symbol),
    }
}

/// The question about an index that the command of this name asks, or `None` if the command's input isn't an index.
fn index_question(
    alloc: Global,
    name: &str,
    found: &ArgMatches<'_>,
) -> Result<Option<IndexQuestion>, ArgumentError>
    // `clap` accepted a line and a column only if they are from 0 to 2,147,483,647.
    requires { NamesPosition (rows_of (found_of found.now)) }
    ensures { IfOk result (λ asked. IfSome asked (IsIndexQuestionOf name.now (rows_of (found_of found.now)))) }
{
    if name == "symbols" {
        let path = optional_value(alloc, found, "PATH")?;
        return Ok(Some(IndexQuestion::Symbols { path }));
    }
    if name == "symbol" {
        return Ok(Some(IndexQuestion::SymbolAt(position_of(alloc, found)?)));
    }
    let places = match name {
        "def" => Places::Definitions,
        "refs" => Places::References,
        _ => return Ok(None),
    };
    let symbol = symbol_from_arguments(alloc, found)?;
    Ok(Some(IndexQuestion::PlacesOf { places, symbol }))
}

/// The job of a question about an index.
fn index_question_job(
    alloc: Global,
    question: IndexQuestion,
    found: &ArgMatches<'_>,
) -> Result<Job, ArgumentError>
    // If the question is that of the command `name`, then with `Ok` the result is the job of that command.
    ensures { (name : List ℕ) → IsIndexQuestionOf name (rows_of (found_of found.now)) question → IfOk result (IsJobOf (Some (name, rows_of (found_of found.now)))) }
{
    let index = required_value(alloc, found, "INDEX")?;
    Ok(Job::Ask {
        index,
        question,
        for_editor: is_present(found, "editor"),
    })
}

/// The output for `--hex`, which is standard output. Fails with `Atomic` if `--atomic` is given, since no file can be replaced then.
fn hex_output(found: &ArgMatches<'_>) -> Result<Output, ArgumentError>
    // `--hex` is given.
    requires hex { IsPresent (rows_of (found_of found.now)) (codes "hex") }
    // OUT isn't given.
    requires out { LacksValue (rows_of (found_of found.now)) (codes "OUT") }
    ensures { IfOk result (HasOutput (rows_of (found_of found.now))) }
{
    if is_present(found, "atomic") {
        return Err(ArgumentError::Atomic);
    }
    Ok(Output::Hex)
}

/// The output of the index. Fails with `Output` unless exactly one of OUT and `--hex` is given.
fn output_of(alloc: Global, found: &ArgMatches<'_>) -> Result<Output, ArgumentError>
    ensures { IfOk result (HasOutput (rows_of (found_of found.now))) }
{
    let hex = is_present(found, "hex");
    match found.get_str("OUT") {
        None if hex => hex_output(found),
        Some(path) if !hex => Ok(Output::File(String::from_str(alloc, path)?)),
        _ => Err(ArgumentError::Output),
    }
}

/// Whether the text is a valid package in a symbol: it isn't `.` and doesn't begin with a space.
fn is_package(text: &str) -> bool
    ensures { result ≡ true ↔ IsPackage text.now }
{
    let bytes = text.as_bytes();
    text != "." && bytes.first() != Some(&b' ')
}

/// The package of the index. Fails with `Package` if it is invalid.
fn package_of(alloc: Global, found: &ArgMatches<'_>) -> Result<String, ArgumentError>
    ensures value { IfOk result (λ text. Finds (rows_of (found_of found.now)) (codes "package") (string_bytes text)) }
    ensures package { IfOk result (λ text. IsPackage (string_bytes text)) }
{
    let text = required_value(alloc, found, "package")?;
    if is_package(text.as_str()) {
        Ok(text)
    } else {
        Err(ArgumentError::Package)
    }
}

/// Whether the index replaces its file atomically: with `--atomic` or `--skip-faults`.
fn is_atomic(found: &ArgMatches<'_>) -> bool
    ensures { result ≡ true ↔ AsksForAtomic (rows_of (found_of found.now)) }
{
    is_present(found, "atomic") || is_present(found, "skip-faults")
}

/// The request for an index, from DIR, OUT and the options of the command `index`.
fn index_request(alloc: Global, found: &ArgMatches<'_>) -> Result<IndexRequest, ArgumentError>
    // `clap` accepted a number of workers only if it is from 1 to 64.
    requires { HasWorkersInRange (rows_of (found_of found.now)) }
    ensures values { IfOk result (HasIndexRequest (rows_of (found_of found.now))) }
    // With `Ok` the number of workers is 1 to 64.
    ensures workers { IfOk result (λ it. IsWorkerCount it.workers) }
    // With `Ok` the package isn't `.` and doesn't begin with a space.
    ensures package { IfOk result (λ it. IsPackage (string_bytes it.package)) }
{
    let workers = worker_count(found)?;
    let tree = tree_of(alloc, found)?;
    let root = required_value(alloc, found, "root")?;
    let package = package_of(alloc, found)?;
    let output = output_of(alloc, found)?;
    let is_atomic = is_atomic(found);
    Ok(IndexRequest {
        tree,
        output,
        package,
        root,
        workers,
        is_atomic,
    })
}

/// The job that the command `index` requests.
fn index_job(alloc: Global, found: &ArgMatches<'_>) -> Result<Job, ArgumentError>
    // `clap` accepted a number of workers only if it is from 1 to 64.
    requires { HasWorkersInRange (rows_of (found_of found.now)) }
    ensures { IfOk result (IsJobOf (Some (codes "index", rows_of (found_of found.now)))) }
{
    Ok(Job::Index(index_request(alloc, found)?))
}

/// The job that the command `unresolved` requests.
fn unresolved_job(alloc: Global, found: &ArgMatches<'_>) -> Result<Job, ArgumentError>
    ensures { IfOk result (IsJobOf (Some (codes "unresolved", rows_of (found_of found.now)))) }
{
    Ok(Job::Unresolved(tree_of(alloc, found)?))
}

/// The job that the command of this name requests, if its input is a tree or the file of a network.
fn graph_job(alloc: Global, name: &str, found: &ArgMatches<'_>) -> Result<Job, ArgumentError>
    // `clap` accepted a number of workers only if it is from 1 to 64.
    requires { HasWorkersInRange (rows_of (found_of found.now)) }
    ensures { IfOk result (IsJobOf (Some (name.now, rows_of (found_of found.now)))) }
{
    match name.strip_suffix("-net") {
        Some(name) => net_job(alloc, name, found),
        None => tree_job(alloc, name, found),
    }
}

/// The job that the command of this name requests.
fn job_of_command(alloc: Global, name: &str, found: &ArgMatches<'_>) -> Result<Job, ArgumentError>
    // `clap` accepted a number of workers, a line and a column only if they are in range.
    requires { NamesNumbers (rows_of (found_of found.now)) }
    ensures { IfOk result (IsJobOf (Some (name.now, rows_of (found_of found.now)))) }
{
    if name == "index" {
        return index_job(alloc, found);
    }
    if name == "unresolved" {
        return unresolved_job(alloc, found);
    }
    match index_question(alloc, name, found)? {
        Some(question) => index_question_job(alloc, question, found),
        None => graph_job(alloc, name, found),
    }
}

/// The job of the command that `clap` found, with the values of its arguments.
fn job_of_matches(alloc: Global, matches: &ArgMatches<'_>) -> Result<Job, ArgumentError>
    // `clap` accepted a number of workers, a line and a column only if they are in range.
    requires { IfSome (subcommand_rows_of matches.now) (λ found. NamesNumbers found.1) }
    ensures { IfOk result (IsJobOf (subcommand_rows_of matches.now)) }
{
    match matches.subcommand() {
        None => Err(ArgumentError::Missing),
        Some((name, found)) => job_of_command(alloc, name, found),
    }
}

/// The job of the command that `clap` found, or the fault with the message for an invalid command line.
fn job_or_fault(alloc: Global, matches: &ArgMatches<'_>) -> Result<Job, JobFault>
    // `clap` accepted a number of workers, a line and a column only if they are in range.
    requires { IfSome (subcommand_rows_of matches.now) (λ found. NamesNumbers found.1) }
    ensures { IfOk result (IsJobOf (subcommand_rows_of matches.now)) }
{
    match job_of_matches(alloc, matches) {
        Ok(job) => Ok(job),
        Err(argument_error) => Err(fault_of(alloc, argument_error)),
    }
}

/// The fault for an error of `clap`: `Help` if help or the version was requested, `Line` if the command line is invalid, or `Memory`.
fn fault_of_clap_error(alloc: Global, error: &clap::Error) -> JobFault
    ensures { kind_of error.now ≡ ErrorKind.OutOfMemory → result ≡ JobFault.Memory }
{
    if error.kind() == ErrorKind::OutOfMemory {
        return JobFault::Memory;
    }
    match error.to_string(alloc) {
        Err(_) => JobFault::Memory,
        Ok(text) => {
            if error.use_stderr() {
                JobFault::Line { text }
            } else {
                JobFault::Help { text }
            }
        }
    }
}

/// Parses the arguments of the command line, the program's name first, into a job.
/// Fails with `Line` if the command line is invalid, with `Help` if help or the version is requested, and with `Memory`.
pub fn job_of(alloc: Global, words: &[String]) -> Result<Job, JobFault>
    // The job's command and its values are those that `clap` finds for the arguments.
    ensures values { IfOk result (HasCommandAndValues (subcommand_of oscip (map string_bytes words.now))) }
    // A job with a number of workers has 1 to 64 of them.
    ensures workers { IfOk result HasWorkers }
    // The line and column of a job with a position are at most 2,147,483,647.
    ensures position { IfOk result HasPosition }
    // The package of a job that makes an index isn't `.` and doesn't begin with a space.
    ensures package { IfOk result HasPackage }
    // A job that names a symbol which begins with `local ` has the path of the symbol's document.
    ensures path { IfOk result HasPath }
    // The text of a symbol that the job names isn't empty.
    ensures text { IfOk result HasText }
{
    let command = command(alloc)?;
    match Box::into_inner(command).try_get_matches_from(words) {
        Ok(matches) => job_or_fault(alloc, &matches),
        Err(error) => Err(fault_of_clap_error(alloc, &error)),
    }
}
