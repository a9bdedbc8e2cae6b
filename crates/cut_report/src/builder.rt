//! The builder of a report, to which lines are added one by one.
//! Clauses `IsReadAs`: unless an allocation failed, the result is that of the specification's function, for the same builder and line.
ghost use Rattle.std.specs.Prelude.{◌≡◌, ◌+◌, ◌<◌, ◌^◌, ℕ, List, None, length, option_map, Err, IfErr, IfOk, Ok};
ghost use Rattle.cut_report.specs.Lines.{line_of_text, line_content, words_of};
ghost use Rattle.cut_report.specs.Reading.{entry_of};
ghost use Rattle.cut_report.specs.Builders.{chain_of, ends_named, finish_of, step_in_cut, import_of, is_after, last_import, first_line_step, second_step, claimed_part, step_in_path, builder_state_of, step, text_step, IsReadAs, IsReadAtLine};

use crate::fault::ReportLineFault;
use crate::import_guess::ImportCursor;
use crate::line::Line;
use crate::{Report, ReportFault};
use cut_net::{Answer, Cut, Net, Priced};
use std::alloc::Global;

/// The lines of a report that have been read so far.
#[derive(Drop)]
pub(crate) enum ReportBuilder {
    /// No line has been read.
    Start,
    /// Only the first line has been read; the numbers of its two modules.
    FirstLine(u32, u32),
    /// The first line, the weight and perhaps further lines of a cut between these modules have been read, but not the last line.
    CutLines(u32, u32, Cut),
    /// The first line and the line of a path of pinned imports between these modules have been read, but not the last line.
    PathLine(u32, u32, Vec<u32>),
    /// All lines have been read, including the last one.
    Complete(Report),
}

/// The last import of the list; `None` if the list is empty.
fn last_listed(imports: &[Priced]) -> Option<Priced>
    ensures { result ≡ last_import None imports.now }
{
    imports.last().copied()
}

/// Whether `next` comes after `last`, by importer and then by imported module; true if `last` is `None`.
fn comes_after(last: Option<Priced>, next: Priced) -> bool
    ensures { result ≡ is_after last next }
{
    match last {
        None => true,
        Some(last) => last.from < next.from || (last.from == next.from && last.to < next.to),
    }
}

/// The numbers of the modules with these two names. Searches first the imports at the cursor, then all modules. Fails with `UnknownName` if
/// no module has one of the names.
#[tactic(auto, unfolding(crate::specs::Builders::ends_named))]
fn find_ends(
    net: &Net,
    cursor: &mut ImportCursor,
    from: &str,
    to: &str,
) -> Result<(u32, u32), ReportLineFault>
    ensures { result ≡ ends_named net.now from.now to.now }
{
    if let Some(ends) = cursor.find_ends_at_cursor(net, from, to) {
        return Ok(ends);
    }
    let from = net.index_of(from).ok_or(ReportLineFault::UnknownName)?;
    let to = net.index_of(to).ok_or(ReportLineFault::UnknownName)?;
    cursor.move_past(net, (from, to));
    Ok((from, to))
}

/// An import between the modules with these two names, with this amount. Fails with `UnknownName` if no module has one of the names, and
/// with `Order` if the import doesn't come after the last import of `read`.
#[tactic(auto, unfolding(crate::specs::Builders::import_of, crate::specs::Builders::ends_named))]
fn import_in_order(
    net: &Net,
    read: &[Priced],
    cursor: &mut ImportCursor,
    from: &str,
    to: &str,
    amount: u64,
) -> Result<Priced, ReportLineFault>
    ensures { result ≡ import_of net.now (last_import None read.now) from.now to.now amount }
{
    let (from, to) = find_ends(net, cursor, from, to)?;
    let next = Priced { from, to, amount };
    if comes_after(last_listed(read), next) {
        Ok(next)
    } else {
        Err(ReportLineFault::Order)
    }
}

/// The builder after the first line. Fails if that isn't a `cut` line, or if no module has one of its names.
#[tactic(auto, unfolding(crate::specs::Builders::first_line_step))]
fn with_first_line(net: &Net, line: Line) -> Result<ReportBuilder, ReportLineFault>
    ensures { IsReadAs builder_state_of result (first_line_step net.now (line_content line.entry)) }
{
    let Line::Ends(from, to) = line else {
        return Err(ReportLineFault::BadLine);
    };
    let from = net.index_of(from).ok_or(ReportLineFault::UnknownName)?;
    let to = net.index_of(to).ok_or(ReportLineFault::UnknownName)?;
    Ok(ReportBuilder::FirstLine(from, to))
}

/// The numbers of the modules with these names, which are separated by spaces. Fails with `UnknownName` if no module has one of the names.
fn modules_of_names(alloc: Global, net: &Net, names: &str) -> Result<Vec<u32>, ReportLineFault>
    ensures { IsReadAs (λ chain. chain.items) result (chain_of net.now (words_of names.now)) }
{
    let mut chain = Vec::new(alloc);
    for name in names.split(' ') {
        let Some(module) = net.index_of(name) else {
            return Err(ReportLineFault::UnknownName);
        };
        chain.push(module)?;
    }
    Ok(chain)
}

/// The builder after the second line, given the modules of the first one. Fails with `BadLine` if the line is neither a `weight` line nor a
/// `blocked` line, and with `UnknownName` if no module has one of its names.
#[tactic(auto, unfolding(crate::specs::Builders::second_step))]
fn with_second_line(
    alloc: Global,
    net: &Net,
    from: u32,
    to: u32,
    line: Line,
) -> Result<ReportBuilder, ReportLineFault>
    ensures { IsReadAs builder_state_of result (second_step net.now from to (line_content line.entry)) }
{
    match line {
        Line::Weighs(weight) => {
            let cut = Cut {
                imports: Vec::new(alloc),
                weight,
                flow: Vec::new(alloc),
            };
            Ok(ReportBuilder::CutLines(from, to, cut))
        }
        Line::Blocks(names) => {
            let chain = modules_of_names(alloc, net, names)?;
            Ok(ReportBuilder::PathLine(from, to, chain))
        }
        _ => Err(ReportLineFault::BadLine),
    }
}

/// The builder after one more line of a cut: a `remove` line if there is no `flow` line yet, a `flow` line, or the line `end`. Fails with
/// `BadLine` for any other line.
#[tactic(auto, unfolding(crate::specs::Builders::step_in_cut))]
fn with_cut_line(
    from: u32,
    to: u32,
    mut cut: Cut,
    net: &Net,
    cursor: &mut ImportCursor,
    line: Line,
) -> Result<ReportBuilder, ReportLineFault>
    ensures { IsReadAs builder_state_of result (step_in_cut net.now (claimed_part from to cut) (line_content line.entry)) }
{
    match line {
        Line::Removes(importer, imported, weight) if cut.flow.is_empty() => {
            let next = import_in_order(net, &cut.imports, cursor, importer, imported, weight)?;
            cut.imports.push(next)?;
            Ok(ReportBuilder::CutLines(from, to, cut))
        }
        Line::Flows(importer, imported, flow) => {
            let next = import_in_order(net, &cut.flow, cursor, importer, imported, flow)?;
            cut.flow.push(next)?;
            Ok(ReportBuilder::CutLines(from, to, cut))
        }
        Line::Last => {
            let answer = Answer::Cut(cut);
            Ok(ReportBuilder::Complete(Report { from, to, answer }))
        }
        _ => Err(ReportLineFault::BadLine),
    }
}

/// The builder after the line that follows a path of pinned imports. Fails with `BadLine` if that isn't the line `end`.
#[tactic(auto, unfolding(crate::specs::Builders::step_in_path))]
fn with_last_line(
    from: u32,
    to: u32,
    chain: Vec<u32>,
    line: Line,
) -> Result<ReportBuilder, ReportLineFault>
    ensures { IsReadAs builder_state_of result (step_in_path from to chain.items (line_content line.entry)) }
{
    let Line::Last = line else {
        return Err(ReportLineFault::BadLine);
    };
    let answer = Answer::Blocked { chain };
    Ok(ReportBuilder::Complete(Report { from, to, answer }))
}

impl ReportBuilder {
    /// The builder after one more line, which is already parsed. Fails if the line may not follow the previous ones.
    #[tactic(auto, unfolding(crate::specs::Builders::step))]
    fn with_line(
        self,
        alloc: Global,
        net: &Net,
        cursor: &mut ImportCursor,
        line: Line,
    ) -> Result<ReportBuilder, ReportLineFault>
        ensures { IsReadAs builder_state_of result (step net.now (builder_state_of self) (line_content line.entry)) }
    {
        match self {
            ReportBuilder::Start => with_first_line(net, line),
            ReportBuilder::FirstLine(from, to) => with_second_line(alloc, net, from, to, line),
            ReportBuilder::CutLines(from, to, cut) => with_cut_line(
                from, to, cut, net, cursor, line,
            ),
            ReportBuilder::PathLine(from, to, chain) => with_last_line(from, to, chain, line),
            ReportBuilder::Complete(_) => Err(ReportLineFault::BadLine),
        }
    }

    /// The builder after one more line. Fails with `BadLine` if `line` is `None`, which denotes a line whose bytes couldn't be parsed.
    #[tactic(auto, unfolding(crate::specs::Builders::text_step))]
    fn with_parsed_line(
        self,
        alloc: Global,
        net: &Net,
        cursor: &mut ImportCursor,
        line: Option<Line>,
    ) -> Result<ReportBuilder, ReportLineFault>
        // If `line` is the parsed form of the bytes `text`, the result is that of the specification for these bytes.
        ensures { (text : List ℕ) → line_of_text text ≡ option_map line_content line.entry → IsReadAs builder_state_of result (text_step net.now (builder_state_of self) text) }
    {
        let line = line.ok_or(ReportLineFault::BadLine)?;
        self.with_line(alloc, net, cursor, line)
    }

    /// The builder after one more line, which has this number. Fails with an error that has the number, with `BadLine` if `line` is `None`.
    pub(crate) fn with_numbered_line(
        self,
        alloc: Global,
        net: &Net,
        cursor: &mut ImportCursor,
        number: u64,
        line: Option<Line>,
    ) -> Result<ReportBuilder, ReportFault>
        // If `line` is the parsed form of the bytes `text`, the result is that of the specification, with the line's number in an error.
        ensures { (text : List ℕ) → line_of_text text ≡ option_map line_content line.entry → IsReadAtLine number builder_state_of result (text_step net.now (builder_state_of self) text) }
    {
        match self.with_parsed_line(alloc, net, cursor, line) {
            Ok(builder) => Ok(builder),
            Err(fault) => Err(fault.at(number)),
        }
    }

    /// The report, if all its lines have been read and no byte follows. `before` is the number of lines that have been read, and `rest` the
    /// bytes after them. Fails with `NoEnd` if the line `end` is missing, and with `BadLine` if bytes follow it.
    pub(crate) fn finish(self, before: u64, rest: &[u8]) -> Result<Report, ReportFault>
        // The number of the line after the last one read fits into 64 bits.
        requires { before + length rest.now < 2 ^ 64 }
        ensures report { IfOk result (λ report. finish_of (builder_state_of self) before rest.now ≡ Ok (entry_of report)) }
        ensures fault { IfErr result (λ fault. finish_of (builder_state_of self) before rest.now ≡ Err fault) }
    {
        match self {
            ReportBuilder::Complete(report) if rest.is_empty() => Ok(report),
            ReportBuilder::Complete(_) => Err(ReportFault::BadLine { line: before + 1 }),
            ReportBuilder::Start
            | ReportBuilder::FirstLine(..)
            | ReportBuilder::CutLines(..)
            | ReportBuilder::PathLine(..) => { Err(ReportFault::NoEnd) }
        }
    }
}
