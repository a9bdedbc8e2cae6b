//! The message for an error of a source tree, and which errors are failed allocations.
ghost use Rattle.std.specs.Prelude.{◌≡◌, IfOk};
ghost use Rattle.std.specs.List.{flat_map};
ghost use Rattle.std.specs.String.{string_bytes};
ghost use Rattle.cut_net.specs.Network.{texts};
ghost use Rattle.texts.specs.Places.{style_of};
ghost use Rattle.source_tree.specs.TreeFaults.{after_space, graph_fault_text, graph_out_of_memory, parse_fault_text, parse_out_of_memory, located_text, scan_fault_text, scan_out_of_memory, scope_fault_text, scope_out_of_memory, tree_fault_text, two_modules_text, is_out_of_memory};

use crate::TreeFault;
use ob_grammar::ParseFault;
use ob_imports::GraphFault;
use ob_scan::{Position, ScanFault};
use ob_scope::ScopeFault;
use std::alloc::{AllocError, Global};
use texts::LocationStyle;

/// The names in their order, each with a space before it.
pub fn join_after_spaces(alloc: Global, names: &[String]) -> Result<String, AllocError>
    // With `Ok` the result is the names in their order, each with a space before it.
    ensures { IfOk result (λ t. string_bytes t ≡ flat_map after_space (texts names.now)) }
{
    let mut text = String::new(alloc);
    for name in names {
        text.push(' ')?;
        text.push_str(name.as_str())?;
    }
    Ok(text)
}

/// The location of an error in this style, a colon, a space and the message. Control characters aren't escaped.
fn located_message(
    alloc: Global,
    style: LocationStyle<'_>,
    path: &str,
    at: Position,
    message: &str,
) -> Result<String, AllocError>
    ensures { IfOk result (λ t. string_bytes t ≡ located_text (style_of style.entry) path.now at message.now) }
{
    let mut text = style.full_path(alloc, path)?;
    text.push(':')?;
    style.append_position(&mut text, at.line, at.column)?;
    text.push_str(": ")?;
    text.push_str(message)?;
    Ok(text)
}

/// The name of a scanner error, as messages use it.
fn scan_fault_text(fault: &ScanFault) -> &'static str
    ensures { result.now ≡ scan_fault_text fault.now }
{
    match fault {
        ScanFault::BadByte { .. } => "BadByte",
        ScanFault::BadNumber { .. } => "BadNumber",
        ScanFault::OpenString { .. } => "OpenString",
        ScanFault::OpenComment { .. } => "OpenComment",
        ScanFault::TooLong => "TooLong",
        ScanFault::Memory => "Memory",
    }
}

/// The name of a parser error, as messages use it.
fn parse_fault_text(fault: &ParseFault) -> &'static str
    ensures { result.now ≡ parse_fault_text fault.now }
{
    match fault {
        ParseFault::Syntax { .. } => "Syntax",
        ParseFault::EndName { .. } => "EndName",
        ParseFault::TooDeep { .. } => "TooDeep",
        ParseFault::Memory => "Memory",
    }
}

/// The name of a scope error, and the identifier that is declared twice if there is one.
fn scope_fault_text(alloc: Global, fault: &ScopeFault) -> Result<String, AllocError>
    ensures { IfOk result (λ t. string_bytes t ≡ scope_fault_text fault.now) }
{
    match fault {
        ScopeFault::Twice { name, .. } => format!(in alloc; "Twice {name}"),
        ScopeFault::TwiceField { name, .. } => format!(in alloc; "TwiceField {name}"),
        ScopeFault::Memory => String::from_str(alloc, "Memory"),
    }
}

/// The message for two files with one module: its name, and the two paths in this style.
fn two_modules_text(
    alloc: Global,
    style: LocationStyle<'_>,
    name: &str,
    first_path: &str,
    second_path: &str,
) -> Result<String, AllocError>
    ensures { IfOk result (λ t. string_bytes t ≡ two_modules_text (style_of style.entry) name.now first_path.now second_path.now) }
{
    let first = style.full_path(alloc, first_path)?;
    let second = style.full_path(alloc, second_path)?;
    format!(in alloc; "TwoModules {name} {first} {second}")
}

/// The message for an error of the imports, with paths in this style.
fn graph_fault_text(
    alloc: Global,
    style: LocationStyle<'_>,
    fault: &GraphFault,
) -> Result<String, AllocError>
    ensures { IfOk result (λ t. string_bytes t ≡ graph_fault_text (style_of style.entry) fault.now) }
{
    match fault {
        GraphFault::TwoModules {
            name,
            first_path,
            second_path,
        } => two_modules_text(
            alloc,
            style,
            name.as_str(),
            first_path.as_str(),
            second_path.as_str(),
        ),
        GraphFault::Cycle { names } => {
            let names = join_after_spaces(alloc, names.as_slice())?;
            format!(in alloc; "Cycle{names}")
        }
        GraphFault::TooMany => String::from_str(alloc, "TooMany"),
        GraphFault::Memory => String::from_str(alloc, "Memory"),
    }
}

/// The message for an error of a tree. For an error of a file: path, line and column in this style, and the error's name. For an error of
/// the imports: the error's name, and its module names and its paths (in this style), if it has any. Control characters aren't escaped.
/// Fails if an allocation fails.
pub fn tree_fault_text(
    alloc: Global,
    style: LocationStyle<'_>,
    fault: &TreeFault,
) -> Result<String, AllocError>
    // With `Ok` the result is the whole message.
    ensures { IfOk result (λ t. string_bytes t ≡ tree_fault_text (style_of style.entry) fault.now) }
{
    match fault {
        TreeFault::Scan { path, at, fault } => {
            located_message(alloc, style, path.as_str(), *at, scan_fault_text(fault))
        }
        TreeFault::Parse { path, at, fault } => {
            located_message(alloc, style, path.as_str(), *at, parse_fault_text(fault))
        }
        TreeFault::Scope { path, at, fault } => {
            let message = scope_fault_text(alloc, fault)?;
            located_message(alloc, style, path.as_str(), *at, message.as_str())
        }
        TreeFault::Graph(fault) => graph_fault_text(alloc, style, fault),
        TreeFault::Memory => String::from_str(alloc, "Memory"),
    }
}

/// Whether the scanner error is a failed allocation.
fn scan_out_of_memory(fault: &ScanFault) -> bool
    ensures { result ≡ scan_out_of_memory fault.now }
{
    match fault {
        ScanFault::Memory => true,
        ScanFault::BadByte { .. }
        | ScanFault::BadNumber { .. }
        | ScanFault::OpenString { .. }
        | ScanFault::OpenComment { .. }
        | ScanFault::TooLong => false,
    }
}

/// Whether the parser error is a failed allocation.
fn parse_out_of_memory(fault: &ParseFault) -> bool
    ensures { result ≡ parse_out_of_memory fault.now }
{
    match fault {
        ParseFault::Memory => true,
        ParseFault::Syntax { .. } | ParseFault::EndName { .. } | ParseFault::TooDeep { .. } =>
            false,
    }
}

/// Whether the scope error is a failed allocation.
fn scope_out_of_memory(fault: &ScopeFault) -> bool
    ensures { result ≡ scope_out_of_memory fault.now }
{
    match fault {
        ScopeFault::Memory => true,
        ScopeFault::Twice { .. } | ScopeFault::TwiceField { .. } => false,
    }
}

/// Whether the error of the imports is a failed allocation.
fn graph_out_of_memory(fault: &GraphFault) -> bool
    ensures { result ≡ graph_out_of_memory fault.now }
{
    match fault {
        GraphFault::Memory => true,
        GraphFault::TwoModules { .. } | GraphFault::Cycle { .. } | GraphFault::TooMany => false,
    }
}

/// Whether the error is a failed allocation, in whichever step. If not, the error says why the tree is rejected.
pub fn is_out_of_memory(fault: &TreeFault) -> bool
    // The result is true exactly if the error is a failed allocation.
    ensures { result ≡ is_out_of_memory fault.now }
{
    match fault {
        TreeFault::Scan { fault, .. } => scan_out_of_memory(fault),
        TreeFault::Parse { fault, .. } => parse_out_of_memory(fault),
        TreeFault::Scope { fault, .. } => scope_out_of_memory(fault),
        TreeFault::Graph(fault) => graph_out_of_memory(fault),
        TreeFault::Memory => true,
    }
}
