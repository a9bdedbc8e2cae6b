//! The commands of the program and their arguments, as `clap` parses them. The contract of a function that adds arguments to `command`: if
//! `command` parses the arguments of `app`, then with `Ok` the result parses these and the added ones.
ghost use Rattle.std.specs.Prelude.{◌≡◌, IfOk, codes, false};
ghost use Rattle.clap.specs.Words.{app_of, new_app, new_rule, rule_of, with_rule, with_subcommand, App};
ghost use Rattle.oscip_job.specs.Jobs.{asking_app, crossings_app, exclude_rule, faults_app, flag_rule, index_app, index_question_app, modules_app, net_app, number_rule, oscip, program_app, reach_app, reach_net_app, required_rule, rules_app, symbol_app, symbol_rule, symbols_app, text_rule, unresolved_app, with_editor, with_flow, with_import_commands, with_index_commands, with_location_commands, with_list_commands, with_modules, with_net_commands, with_index_options, with_output, with_picture_commands, with_position, with_prices, with_reach_arguments, with_symbol_commands, with_tree_options, with_tree_commands, with_walk_options, with_workers};
ghost use Rattle.oscip_job.specs.Making.{ParsesArguments};

use crate::help_texts::{
    ATOMIC_HELP, CHECK_END, CHECK_NET_END, CROSSINGS_END, CUT_END, CUT_NET_END, DEF_END, DEF_USAGE,
    DOT_END, DOT_NET_END, EDITOR_HELP, EXCLUDE_HELP, FAULTS_END, FOLDER_HELP, INDEX_END,
    INDEX_SKIP_FAULTS_HELP, INDEX_USAGE, MODULES_END, NET_END, NETWORK_HELP, OUT_HELP, PATH_HELP,
    PRICES_HELP, PROGRAM_END, REACH_END, REACH_NET_END, REFS_END, REFS_USAGE, RULES_END,
    RULES_HELP, SKIP_FAULTS_HELP, SYMBOL_END, SYMBOL_HELP, SYMBOLS_END, TREE_EDITOR_HELP,
    UNRESOLVED_END, VERSION, WHY_END, WHY_NET_END,
};
use clap::{Arg, ArgAction, Command, value_parser};
use std::alloc::{AllocError, Global};

/// A command under construction, or the error of the first failed allocation, which all later functions return unchanged.
/// The command is boxed, so that the contract of the next function refers to it by one name.
type CommandResult<'a> = Result<Box<Command<'a>>, AllocError>;

/// The command in a box. Fails if the allocation fails.
fn box_command<'a>(alloc: Global, command: Command<'a>) -> CommandResult<'a>
    ensures { IfOk result (λ c. c.value ≡ command.entry) }
{
    Ok(Box::new(alloc, command)?)
}

/// A command with this name, the text `about` in its help, and the text `end` after its help.
fn new_command<'a>(alloc: Global, name: &'a str, about: &'a str, end: &'a str) -> CommandResult<'a>
    ensures { IfOk result (λ c. ParsesArguments (new_app name.entry.now) c.value) }
{
    let command = Command::new(alloc, name).about(about).after_help(end);
    box_command(alloc, command)
}

/// Adds an argument to a command. The argument isn't global: it belongs to this command alone.
fn with_arg<'a>(alloc: Global, command: Box<Command<'a>>, arg: Arg<'a>) -> CommandResult<'a>
    requires { arg.global ≡ false }
    ensures { (app : App) → ParsesArguments app command.entry.value → IfOk result (λ c. ParsesArguments (with_rule app (rule_of arg.entry)) c.value) }
{
    let command = Box::into_inner(command).arg(arg)?;
    box_command(alloc, command)
}

/// Adds an argument that has to be given, with this help text.
fn with_required_argument<'a>(
    alloc: Global,
    command: CommandResult<'a>,
    id: &'a str,
    help: &'a str,
) -> CommandResult<'a>
    ensures { (app : App) → IfOk command.entry (λ c. ParsesArguments app c.value) → IfOk result (λ c. ParsesArguments (with_rule app (required_rule id.entry.now)) c.value) }
{
    let command = command?;
    let required = Arg::new(alloc, id).required(true).help(help);
    with_arg(alloc, command, required)
}

/// Adds an argument that may be left out, with this help text.
fn with_optional_argument<'a>(
    alloc: Global,
    command: CommandResult<'a>,
    id: &'a str,
    help: &'a str,
) -> CommandResult<'a>
    ensures { (app : App) → IfOk command.entry (λ c. ParsesArguments app c.value) → IfOk result (λ c. ParsesArguments (with_rule app (new_rule id.entry.now)) c.value) }
{
    let command = command?;
    let value = Arg::new(alloc, id).help(help);
    with_arg(alloc, command, value)
}

/// Sets the usage line of a command. The default doesn't show which arguments go together.
fn with_usage<'a>(alloc: Global, command: CommandResult<'a>, usage: &'a str) -> CommandResult<'a>
    ensures { (app : App) → IfOk command.entry (λ c. ParsesArguments app c.value) → IfOk result (λ c. ParsesArguments app c.value) }
{
    let command = command?;
    box_command(alloc, Box::into_inner(command).override_usage(usage))
}

/// Adds the arguments A and B, the names of two modules, with these help texts.
fn with_modules<'a>(
    alloc: Global,
    command: CommandResult<'a>,
    first_help: &'a str,
    second_help: &'a str,
) -> CommandResult<'a>
    ensures { (app : App) → IfOk command.entry (λ c. ParsesArguments app c.value) → IfOk result (λ c. ParsesArguments (with_modules app) c.value) }
{
    let command = with_required_argument(alloc, command, "A", first_help);
    with_required_argument(alloc, command, "B", second_help)
}

/// Adds the option `--workers`: the number of threads, from 1 to 64.
fn with_workers<'a>(alloc: Global, command: CommandResult<'a>) -> CommandResult<'a>
    ensures { (app : App) → IfOk command.entry (λ c. ParsesArguments app c.value) → IfOk result (λ c. ParsesArguments (with_workers app) c.value) }
{
    let command = command?;
    let workers = Arg::new(alloc, "workers")
        .long("workers")
        .value_name("N")
        .value_parser(value_parser!(u32).range(1..=64))
        .default_value("4")
        .help("How many threads work, from 1 to 64");
    with_arg(alloc, command, workers)
}

/// Adds the option `--prices`: the file of prices.
fn with_prices<'a>(alloc: Global, command: CommandResult<'a>) -> CommandResult<'a>
    ensures { (app : App) → IfOk command.entry (λ c. ParsesArguments app c.value) → IfOk result (λ c. ParsesArguments (with_prices app) c.value) }
{
    let command = command?;
    let prices = Arg::new(alloc, "prices")
        .long("prices")
        .value_name("FILE")
        .help(PRICES_HELP);
    with_arg(alloc, command, prices)
}

/// Adds the options of a command that searches for a cut: `--workers` and `--prices`.
fn with_cut_options<'a>(alloc: Global, command: CommandResult<'a>) -> CommandResult<'a>
    ensures { (app : App) → IfOk command.entry (λ c. ParsesArguments app c.value) → IfOk result (λ c. ParsesArguments (with_prices (with_workers app)) c.value) }
{
    let command = with_workers(alloc, command);
    with_prices(alloc, command)
}

/// Adds the argument REPORT, and the option `--prices` for the prices that the report was made with.
fn with_report<'a>(alloc: Global, command: CommandResult<'a>, help: &'a str) -> CommandResult<'a>
    ensures { (app : App) → IfOk command.entry (λ c. ParsesArguments app c.value) → IfOk result (λ c. ParsesArguments (with_prices (with_rule app (required_rule (codes "REPORT")))) c.value) }
{
    let command = with_required_argument(alloc, command, "REPORT", help);
    with_prices(alloc, command)
}

/// The command `cut` or `cut-net`. Its arguments are the input, which is named `id`, and the names of two modules; its options are
/// `--workers` and `--prices`.
fn new_cut_command<'a>(
    alloc: Global,
    name: &'a str,
    about: &'a str,
    end: &'a str,
    id: &'a str,
    help: &'a str,
) -> CommandResult<'a>
    ensures { IfOk result (λ c. ParsesArguments (with_prices (with_workers (with_modules (with_rule (new_app name.entry.now) (required_rule id.entry.now))))) c.value) }
{
    let command = new_command(alloc, name, about, end);
    let command = with_required_argument(alloc, command, id, help);
    let command = with_modules(
        alloc,
        command,
        "The name of the module that is to reach B no longer",
        "The name of the module that A is to reach no longer",
    );
    with_cut_options(alloc, command)
}

/// A command that checks or draws a report. Its arguments are the input that was cut, which is named `id`, and the report; its option is
/// `--prices`.
fn new_report_command<'a>(
    alloc: Global,
    name: &'a str,
    about: &'a str,
    end: &'a str,
    id: &'a str,
    help: &'a str,
    report_help: &'a str,
) -> CommandResult<'a>
    ensures { IfOk result (λ c. ParsesArguments (with_prices (with_rule (with_rule (new_app name.entry.now) (required_rule id.entry.now)) (required_rule (codes "REPORT")))) c.value) }
{
    let command = new_command(alloc, name, about, end);
    let command = with_required_argument(alloc, command, id, help);
    with_report(alloc, command, report_help)
}

/// Adds a flag, which is an option without a value.
fn with_flag<'a>(
    alloc: Global,
    command: CommandResult<'a>,
    id: &'a str,
    help: &'a str,
) -> CommandResult<'a>
    ensures { (app : App) → IfOk command.entry (λ c. ParsesArguments app c.value) → IfOk result (λ c. ParsesArguments (with_rule app (flag_rule id.entry.now)) c.value) }
{
    let command = command?;
    let flag = Arg::new(alloc, id)
        .long(id)
        .action(ArgAction::SetTrue)
        .help(help);
    with_arg(alloc, command, flag)
}

/// Adds the option `--exclude`, whose values are patterns of files and folders to leave out.
fn with_exclude<'a>(alloc: Global, command: CommandResult<'a>) -> CommandResult<'a>
    ensures { (app : App) → IfOk command.entry (λ c. ParsesArguments app c.value) → IfOk result (λ c. ParsesArguments (with_rule app exclude_rule) c.value) }
{
    let command = command?;
    let exclude = Arg::new(alloc, "exclude")
        .long("exclude")
        .value_name("PATTERN")
        .action(ArgAction::Append)
        .help(EXCLUDE_HELP);
    with_arg(alloc, command, exclude)
}

/// Adds the flag `--editor`, by which locations are written and counted as editors do.
fn with_editor<'a>(alloc: Global, command: CommandResult<'a>, help: &'a str) -> CommandResult<'a>
    ensures { (app : App) → IfOk command.entry (λ c. ParsesArguments app c.value) → IfOk result (λ c. ParsesArguments (with_editor app) c.value) }
{
    with_flag(alloc, command, "editor", help)
}

/// Adds the options of a command that reads the files below a folder: `--exclude` and `--editor`.
fn with_walk_options<'a>(alloc: Global, command: CommandResult<'a>) -> CommandResult<'a>
    ensures { (app : App) → IfOk command.entry (λ c. ParsesArguments app c.value) → IfOk result (λ c. ParsesArguments (with_walk_options app) c.value) }
{
    let command = with_exclude(alloc, command);
    with_editor(alloc, command, TREE_EDITOR_HELP)
}

/// Adds the options of a command that reads the modules below a folder: `--exclude`, `--editor` and `--skip-faults`.
fn with_tree_options<'a>(
    alloc: Global,
    command: CommandResult<'a>,
    skip_help: &'a str,
) -> CommandResult<'a>
    ensures { (app : App) → IfOk command.entry (λ c. ParsesArguments app c.value) → IfOk result (λ c. ParsesArguments (with_tree_options app) c.value) }
{
    let command = with_walk_options(alloc, command);
    with_flag(alloc, command, "skip-faults", skip_help)
}

/// Adds the flag `--flow`, which selects the picture by flow.
fn with_flow<'a>(alloc: Global, command: CommandResult<'a>) -> CommandResult<'a>
    ensures { (app : App) → IfOk command.entry (λ c. ParsesArguments app c.value) → IfOk result (λ c. ParsesArguments (with_flow app) c.value) }
{
    with_flag(
        alloc,
        command,
        "flow",
        "Draw only imports that the report removes, gives flow or has in its path",
    )
}

/// Adds the arguments M and N, the names of two modules.
fn with_two_modules<'a>(alloc: Global, command: CommandResult<'a>) -> CommandResult<'a>
    ensures { (app : App) → IfOk command.entry (λ c. ParsesArguments app c.value) → IfOk result (λ c. ParsesArguments (with_rule (with_rule app (required_rule (codes "M"))) (required_rule (codes "N"))) c.value) }
{
    let command = with_required_argument(alloc, command, "M", "The name of the module that uses N");
    with_required_argument(
        alloc,
        command,
        "N",
        "The name of the module that M uses, which may be one that has no file",
    )
}

fn crossings_command<'a>(alloc: Global) -> CommandResult<'a>
    ensures { IfOk result (λ c. ParsesArguments crossings_app c.value) }
{
    let command = new_command(
        alloc,
        "crossings",
        "Print where an Oberon-07 module uses another: what to rewrite to remove that import",
        CROSSINGS_END,
    );
    let command = with_required_argument(alloc, command, "DIR", FOLDER_HELP);
    let command = with_two_modules(alloc, command);
    with_tree_options(alloc, command, SKIP_FAULTS_HELP)
}

fn net_command<'a>(alloc: Global) -> CommandResult<'a>
    ensures { IfOk result (λ c. ParsesArguments net_app c.value) }
{
    let command = new_command(
        alloc,
        "net",
        "Print which Oberon-07 module imports which, and by how many uses, as a network",
        NET_END,
    );
    let command = with_required_argument(alloc, command, "DIR", FOLDER_HELP);
    with_tree_options(alloc, command, SKIP_FAULTS_HELP)
}

fn rules_command<'a>(alloc: Global) -> CommandResult<'a>
    ensures { IfOk result (λ c. ParsesArguments rules_app c.value) }
{
    let command = new_command(
        alloc,
        "rules",
        "Check Oberon-07 modules against rules that say which may not import which",
        RULES_END,
    );
    let command = with_required_argument(alloc, command, "DIR", FOLDER_HELP);
    let command = with_required_argument(alloc, command, "FILE", RULES_HELP);
    with_tree_options(alloc, command, SKIP_FAULTS_HELP)
}

/// The command `why` or `why-net`. Its arguments are the input, which is named `id`, and the names of two modules.
fn new_path_command<'a>(
    alloc: Global,
    name: &'a str,
    about: &'a str,
    end: &'a str,
    id: &'a str,
    help: &'a str,
) -> CommandResult<'a>
    ensures { IfOk result (λ c. ParsesArguments (with_modules (with_rule (new_app name.entry.now) (required_rule id.entry.now))) c.value) }
{
    let command = new_command(alloc, name, about, end);
    let command = with_required_argument(alloc, command, id, help);
    with_modules(
        alloc,
        command,
        "The name of the module that the path begins with",
        "The name of the module that the path ends with",
    )
}

/// Adds the argument M, the name of a module, and the flag `--back` for the direction against the imports.
fn with_reach_arguments<'a>(alloc: Global, command: CommandResult<'a>) -> CommandResult<'a>
    ensures { (app : App) → IfOk command.entry (λ c. ParsesArguments app c.value) → IfOk result (λ c. ParsesArguments (with_reach_arguments app) c.value) }
{
    let command = with_required_argument(alloc, command, "M", "The name of the module");
    with_flag(alloc, command, "back", "List the modules that reach M")
}

fn reach_command<'a>(alloc: Global) -> CommandResult<'a>
    ensures { IfOk result (λ c. ParsesArguments reach_app c.value) }
{
    let command = new_command(
        alloc,
        "reach",
        "List the Oberon-07 modules that a module reaches by one or more imports",
        REACH_END,
    );
    let command = with_required_argument(alloc, command, "DIR", FOLDER_HELP);
    let command = with_reach_arguments(alloc, command);
    with_tree_options(alloc, command, SKIP_FAULTS_HELP)
}

fn reach_net_command<'a>(alloc: Global) -> CommandResult<'a>
    ensures { IfOk result (λ c. ParsesArguments reach_net_app c.value) }
{
    let command = new_command(
        alloc,
        "reach-net",
        "List the modules of a network that a module reaches by one or more imports",
        REACH_NET_END,
    );
    let command = with_required_argument(alloc, command, "FILE", NETWORK_HELP);
    with_reach_arguments(alloc, command)
}

fn modules_command<'a>(alloc: Global) -> CommandResult<'a>
    ensures { IfOk result (λ c. ParsesArguments modules_app c.value) }
{
    let command = new_command(
        alloc,
        "modules",
        "List Oberon-07 modules and the imported ones without a file",
        MODULES_END,
    );
    let command = with_required_argument(alloc, command, "DIR", FOLDER_HELP);
    with_tree_options(alloc, command, SKIP_FAULTS_HELP)
}

/// Adds an argument whose value is a number from 0 to 2,147,483,647.
fn with_number_argument<'a>(
    alloc: Global,
    command: CommandResult<'a>,
    required: bool,
    id: &'a str,
    help: &'a str,
) -> CommandResult<'a>
    ensures { (app : App) → IfOk command.entry (λ c. ParsesArguments app c.value) → IfOk result (λ c. ParsesArguments (with_rule app (number_rule required id.entry.now)) c.value) }
{
    let command = command?;
    let number = Arg::new(alloc, id)
        .required(required)
        .value_parser(value_parser!(u32).range(0..=2147483647))
        .help(help);
    with_arg(alloc, command, number)
}

/// Adds the arguments PATH, LINE and COL: the path of a document, and a line and a column in it.
fn with_position<'a>(alloc: Global, command: CommandResult<'a>, required: bool) -> CommandResult<'a>
    ensures { (app : App) → IfOk command.entry (λ c. ParsesArguments app c.value) → IfOk result (λ c. ParsesArguments (with_position required app) c.value) }
{
    let command = command?;
    let path = Arg::new(alloc, "PATH").required(required).help(PATH_HELP);
    let command = with_arg(alloc, command, path);
    let command = with_number_argument(
        alloc,
        command,
        required,
        "LINE",
        "A line of the document, counted from 0, or with --editor from 1",
    );
    with_number_argument(
        alloc,
        command,
        required,
        "COL",
        "A column of that line, counted alike, in the units of the index",
    )
}

/// A command of this name whose first argument is INDEX, the file of the index that it queries.
fn new_index_query<'a>(
    alloc: Global,
    name: &'a str,
    about: &'a str,
    end: &'a str,
) -> CommandResult<'a>
    ensures { IfOk result (λ c. ParsesArguments (index_question_app name.entry.now) c.value) }
{
    let command = new_command(alloc, name, about, end);
    with_required_argument(
        alloc,
        command,
        "INDEX",
        "The file of an index in the SCIP format",
    )
}

/// Adds the option `--symbol`, whose value is the text of a symbol.
fn with_symbol<'a>(alloc: Global, command: CommandResult<'a>) -> CommandResult<'a>
    ensures { (app : App) → IfOk command.entry (λ c. ParsesArguments app c.value) → IfOk result (λ c. ParsesArguments (with_rule app symbol_rule) c.value) }
{
    let command = command?;
    let symbol = Arg::new(alloc, "symbol")
        .long("symbol")
        .value_name("TEXT")
        .help(SYMBOL_HELP);
    with_arg(alloc, command, symbol)
}

/// The command `def` or `refs`. Its arguments are the index, and either a position in a document or the text of a symbol.
fn new_location_query<'a>(
    alloc: Global,
    name: &'a str,
    about: &'a str,
    end: &'a str,
    usage: &'a str,
) -> CommandResult<'a>
    ensures { IfOk result (λ c. ParsesArguments (asking_app name.entry.now) c.value) }
{
    let command = new_index_query(alloc, name, about, end);
    let command = with_position(alloc, command, false);
    let command = with_symbol(alloc, command);
    let command = with_editor(alloc, command, EDITOR_HELP);
    with_usage(alloc, command, usage)
}

fn symbol_command<'a>(alloc: Global) -> CommandResult<'a>
    ensures { IfOk result (λ c. ParsesArguments symbol_app c.value) }
{
    let command = new_index_query(
        alloc,
        "symbol",
        "Print the text of the symbol at a position, by an index in the SCIP format",
        SYMBOL_END,
    );
    let command = with_position(alloc, command, true);
    with_editor(alloc, command, EDITOR_HELP)
}

fn symbols_command<'a>(alloc: Global) -> CommandResult<'a>
    ensures { IfOk result (λ c. ParsesArguments symbols_app c.value) }
{
    let command = new_index_query(
        alloc,
        "symbols",
        "List which symbols are defined where, by an index in the SCIP format",
        SYMBOLS_END,
    );
    let command = with_optional_argument(
        alloc,
        command,
        "PATH",
        "The path of one document, as the index has it: only its definitions, also local ones",
    );
    with_editor(alloc, command, EDITOR_HELP)
}

/// Adds the two outputs of an index: the argument OUT, the path of a file, and the flag `--hex`.
fn with_output<'a>(alloc: Global, command: CommandResult<'a>) -> CommandResult<'a>
    ensures { (app : App) → IfOk command.entry (λ c. ParsesArguments app c.value) → IfOk result (λ c. ParsesArguments (with_output app) c.value) }
{
    let command = with_optional_argument(alloc, command, "OUT", OUT_HELP);
    with_flag(
        alloc,
        command,
        "hex",
        "Print the index as a line of hexadecimal digits, and write no file",
    )
}

/// Adds an option whose value is a text. By default the text is empty.
fn with_text_option<'a>(
    alloc: Global,
    command: CommandResult<'a>,
    id: &'a str,
    help: &'a str,
) -> CommandResult<'a>
    ensures { (app : App) → IfOk command.entry (λ c. ParsesArguments app c.value) → IfOk result (λ c. ParsesArguments (with_rule app (text_rule id.entry.now)) c.value) }
{
    let command = command?;
    let text = Arg::new(alloc, id)
        .long(id)
        .value_name("TEXT")
        .default_value("")
        .help(help);
    with_arg(alloc, command, text)
}

/// Adds the options of the command `index`: `--package`, `--root`, `--workers` and `--atomic`.
fn with_index_options<'a>(alloc: Global, command: CommandResult<'a>) -> CommandResult<'a>
    ensures { (app : App) → IfOk command.entry (λ c. ParsesArguments app c.value) → IfOk result (λ c. ParsesArguments (with_index_options app) c.value) }
{
    let command = with_text_option(
        alloc,
        command,
        "package",
        "The package in the symbols: not `.`, and no leading space",
    );
    let command = with_text_option(
        alloc,
        command,
        "root",
        "The root of the project that the index names, as a URI",
    );
    let command = with_workers(alloc, command);
    with_flag(alloc, command, "atomic", ATOMIC_HELP)
}

fn index_command<'a>(alloc: Global) -> CommandResult<'a>
    ensures { IfOk result (λ c. ParsesArguments index_app c.value) }
{
    let command = new_command(
        alloc,
        "index",
        "Write an index of Oberon-07 modules in the SCIP format, for code browsers",
        INDEX_END,
    );
    let command = with_required_argument(alloc, command, "DIR", FOLDER_HELP);
    let command = with_output(alloc, command);
    let command = with_index_options(alloc, command);
    let command = with_tree_options(alloc, command, INDEX_SKIP_FAULTS_HELP);
    with_usage(alloc, command, INDEX_USAGE)
}

fn unresolved_command<'a>(alloc: Global) -> CommandResult<'a>
    ensures { IfOk result (λ c. ParsesArguments unresolved_app c.value) }
{
    let command = new_command(
        alloc,
        "unresolved",
        "List identifiers of Oberon-07 modules that are not declared, imported or predeclared",
        UNRESOLVED_END,
    );
    let command = with_required_argument(alloc, command, "DIR", FOLDER_HELP);
    with_tree_options(alloc, command, SKIP_FAULTS_HELP)
}

fn faults_command<'a>(alloc: Global) -> CommandResult<'a>
    ensures { IfOk result (λ c. ParsesArguments faults_app c.value) }
{
    let command = new_command(
        alloc,
        "faults",
        "List files of a folder that have faults, each with its first one",
        FAULTS_END,
    );
    let command = with_required_argument(alloc, command, "DIR", FOLDER_HELP);
    with_walk_options(alloc, command)
}

/// Adds a command to the program.
fn add_command<'a>(
    alloc: Global,
    program: CommandResult<'a>,
    command: CommandResult<'a>,
) -> CommandResult<'a>
    // If `program` has the commands of `first`, then with `Ok` the result also has the added command, with its arguments.
    ensures { (first : App) → (second : App) → IfOk program.entry (λ c. app_of c.value ≡ first) → IfOk command.entry (λ c. ParsesArguments second c.value) →
        IfOk result (λ c. app_of c.value ≡ with_subcommand first second.top) }
{
    let program = program?;
    let command = command?;
    let program = Box::into_inner(program).subcommand(Box::into_inner(command))?;
    box_command(alloc, program)
}

/// Adds the commands `cut`, `check` and `crossings`.
fn with_tree_commands<'a>(alloc: Global, program: CommandResult<'a>) -> CommandResult<'a>
    ensures { (app : App) → IfOk program.entry (λ c. app_of c.value ≡ app) → IfOk result (λ c. app_of c.value ≡ with_tree_commands app) }
{
    let cut = new_cut_command(
        alloc,
        "cut",
        "Find the cheapest imports of Oberon-07 modules to remove so that A no longer reaches B",
        CUT_END,
        "DIR",
        FOLDER_HELP,
    );
    let cut = with_tree_options(alloc, cut, SKIP_FAULTS_HELP);
    let program = add_command(alloc, program, cut);
    let check = new_report_command(
        alloc,
        "check",
        "Check a report's proof that its cut of Oberon-07 modules is cheapest",
        CHECK_END,
        "DIR",
        FOLDER_HELP,
        "The report of a cut between two of the modules",
    );
    let check = with_tree_options(alloc, check, SKIP_FAULTS_HELP);
    let program = add_command(alloc, program, check);
    let crossings = crossings_command(alloc);
    add_command(alloc, program, crossings)
}

/// Adds the commands `net`, `why` and `rules`.
fn with_import_commands<'a>(alloc: Global, program: CommandResult<'a>) -> CommandResult<'a>
    ensures { (app : App) → IfOk program.entry (λ c. app_of c.value ≡ app) → IfOk result (λ c. app_of c.value ≡ with_import_commands app) }
{
    let net = net_command(alloc);
    let program = add_command(alloc, program, net);
    let why = new_path_command(
        alloc,
        "why",
        "Print why an Oberon-07 module reaches another: the shortest path of imports",
        WHY_END,
        "DIR",
        FOLDER_HELP,
    );
    let why = with_tree_options(alloc, why, SKIP_FAULTS_HELP);
    let program = add_command(alloc, program, why);
    let rules = rules_command(alloc);
    add_command(alloc, program, rules)
}

/// Adds the commands `cut-net`, `check-net` and `why-net`.
fn with_net_commands<'a>(alloc: Global, program: CommandResult<'a>) -> CommandResult<'a>
    ensures { (app : App) → IfOk program.entry (λ c. app_of c.value ≡ app) → IfOk result (λ c. app_of c.value ≡ with_net_commands app) }
{
    let cut = new_cut_command(
        alloc,
        "cut-net",
        "Find the cheapest imports of a network to remove so that A no longer reaches B",
        CUT_NET_END,
        "FILE",
        NETWORK_HELP,
    );
    let program = add_command(alloc, program, cut);
    let check = new_report_command(
        alloc,
        "check-net",
        "Check a report's proof that its cut of a network is cheapest",
        CHECK_NET_END,
        "FILE",
        NETWORK_HELP,
        "The report of a cut between two of its modules",
    );
    let program = add_command(alloc, program, check);
    let why = new_path_command(
        alloc,
        "why-net",
        "Print why a module of a network reaches another: the shortest path of imports",
        WHY_NET_END,
        "FILE",
        NETWORK_HELP,
    );
    add_command(alloc, program, why)
}

/// Adds the commands `modules`, `reach` and `reach-net`.
fn with_list_commands<'a>(alloc: Global, program: CommandResult<'a>) -> CommandResult<'a>
    ensures { (app : App) → IfOk program.entry (λ c. app_of c.value ≡ app) → IfOk result (λ c. app_of c.value ≡ with_list_commands app) }
{
    let modules = modules_command(alloc);
    let program = add_command(alloc, program, modules);
    let reach = reach_command(alloc);
    let program = add_command(alloc, program, reach);
    let reach_net = reach_net_command(alloc);
    add_command(alloc, program, reach_net)
}

/// Adds the commands `dot` and `dot-net`.
fn with_picture_commands<'a>(alloc: Global, program: CommandResult<'a>) -> CommandResult<'a>
    ensures { (app : App) → IfOk program.entry (λ c. app_of c.value ≡ app) → IfOk result (λ c. app_of c.value ≡ with_picture_commands app) }
{
    let tree = new_report_command(
        alloc,
        "dot",
        "Draw a report on Oberon-07 modules, in the language DOT of Graphviz",
        DOT_END,
        "DIR",
        FOLDER_HELP,
        "The report of a cut between two of the modules",
    );
    let tree = with_flow(alloc, tree);
    let tree = with_tree_options(alloc, tree, SKIP_FAULTS_HELP);
    let program = add_command(alloc, program, tree);
    let net = new_report_command(
        alloc,
        "dot-net",
        "Draw a report on a network, in the language DOT of Graphviz",
        DOT_NET_END,
        "FILE",
        NETWORK_HELP,
        "The report of a cut between two of its modules",
    );
    let net = with_flow(alloc, net);
    add_command(alloc, program, net)
}

/// Adds the commands `def` and `refs`.
fn with_location_commands<'a>(alloc: Global, program: CommandResult<'a>) -> CommandResult<'a>
    ensures { (app : App) → IfOk program.entry (λ c. app_of c.value ≡ app) → IfOk result (λ c. app_of c.value ≡ with_location_commands app) }
{
    let def = new_location_query(
        alloc,
        "def",
        "Print where the symbol at a position is defined, by an index in the SCIP format",
        DEF_END,
        DEF_USAGE,
    );
    let program = add_command(alloc, program, def);
    let refs = new_location_query(
        alloc,
        "refs",
        "Print where the symbol at a position is used and not defined, by such an index",
        REFS_END,
        REFS_USAGE,
    );
    add_command(alloc, program, refs)
}

/// Adds the commands `symbol` and `symbols`.
fn with_symbol_commands<'a>(alloc: Global, program: CommandResult<'a>) -> CommandResult<'a>
    ensures { (app : App) → IfOk program.entry (λ c. app_of c.value ≡ app) → IfOk result (λ c. app_of c.value ≡ with_symbol_commands app) }
{
    let symbol = symbol_command(alloc);
    let program = add_command(alloc, program, symbol);
    let symbols = symbols_command(alloc);
    add_command(alloc, program, symbols)
}

/// Adds the commands `index`, `unresolved` and `faults`.
fn with_index_commands<'a>(alloc: Global, program: CommandResult<'a>) -> CommandResult<'a>
    ensures { (app : App) → IfOk program.entry (λ c. app_of c.value ≡ app) → IfOk result (λ c. app_of c.value ≡ with_index_commands app) }
{
    let index = index_command(alloc);
    let program = add_command(alloc, program, index);
    let unresolved = unresolved_command(alloc);
    let program = add_command(alloc, program, unresolved);
    let faults = faults_command(alloc);
    add_command(alloc, program, faults)
}

/// The program `oscip` without its commands, with its version, its description and the text after its help.
fn new_program<'a>(alloc: Global) -> CommandResult<'a>
    ensures { IfOk result (λ c. app_of c.value ≡ program_app) }
{
    let program = Command::new(alloc, "oscip")
        .about(
            "Finds and checks cheapest decoupling cuts of Oberon-07 modules, indexes them in the SCIP format,{n}and queries such indexes",
        )
        .version(VERSION)
        .after_help(PROGRAM_END)
        .subcommand_required(true);
    box_command(alloc, program)
}

/// The program with all its commands.
pub(crate) fn command<'a>(alloc: Global) -> CommandResult<'a>
    ensures { IfOk result (λ c. app_of c.value ≡ oscip) }
{
    let program = new_program(alloc);
    let program = with_tree_commands(alloc, program);
    let program = with_import_commands(alloc, program);
    let program = with_net_commands(alloc, program);
    let program = with_list_commands(alloc, program);
    let program = with_picture_commands(alloc, program);
    let program = with_location_commands(alloc, program);
    let program = with_symbol_commands(alloc, program);
    with_index_commands(alloc, program)
}
