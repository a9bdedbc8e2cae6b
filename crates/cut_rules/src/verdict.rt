//! The verdict on a network: whether the rules hold, and the imports that break them.
ghost use Rattle.std.specs.Prelude.{◌≡◌, ◌↔◌, ◌<◌, ◌≤◌, ◌+◌, ◌++◌, ◌∷◌, [], ℕ, All, Contains, IfErr, IfOk, List, OnOk, length, map, not, slice_get, slice_index_or, Some, codes, if◌then◌else◌};
ghost use Rattle.std.specs.Fmt.{decimal};
ghost use Rattle.std.specs.List.{flat_map};
ghost use Rattle.std.specs.String.{string_bytes};
ghost use Rattle.std.specs.Io.KnownBytes.{Appends};
ghost use Rattle.byte_sink.specs.Sinks.{failures_after, AppendsPrefix};
ghost use Rattle.byte_sink.specs.Pieces.{WritesAllBut};
ghost use Rattle.texts.specs.Places.{style_of, writer_style};
ghost use Rattle.digraph.specs.declared.edge.Edge.{Edge as GraphEdge};
ghost use Rattle.digraph.specs.Edges.{IsAscending};
ghost use Rattle.digraph.specs.Graphs.{IsGraph};
ghost use Rattle.cut_net.specs.Network.{name_of};
ghost use Rattle.cut_rules.specs.declared.file.File.{File as TreeFile};
ghost use Rattle.cut_rules.specs.Judged.{AreRuleViolations, IsUnallowed, IsCountedGraph, IsFirstRule, IsSearchFor};
ghost use Rattle.cut_rules.specs.Outcomes.{AreRulesOf};
ghost use Rattle.cut_rules.specs.Verdicts.{import_at, is_clean, is_none, lines_text, names_after_spaces, stale_line, stale_of, verdict_text, violation_line, AreStaleLines, AreViolations, Stale, Violation};

use crate::rule::{Rule, StaleAllow};
use crate::rule_search::RuleSearch;
use crate::{Rules, Site};
use byte_sink::{Sink, SinkFault, flush_if_full, write_fully};
use cut_net::Net;
use digraph::{Edge, Graph, graph_of, sort_and_dedup};
use std::alloc::{AllocError, Global};
use std::fmt::Write;
use texts::{LocationStyle, LocationWriter};

/// A network, the rules that it has to obey, and the locations of its imports.
#[derive(Clone, Copy)]
struct RuleChecker<'a, 'r> {
    net: &'a Net,
    rules: &'r Rules<'a>,
    /// The location of each import of the network.
    sites: &'a [Site<'a>],
}

/// The lines of the output that aren't written yet, and the writer of their locations.
#[derive(Drop)]
struct Lines<'a> {
    places: LocationWriter<'a>,
    text: String,
}

/// The edges of the imports that no line allows, sorted, each once. `allowed` has for each import whether a line allows it.
fn unallowed_edges(alloc: Global, net: &Net, allowed: &[bool]) -> Result<Vec<Edge>, AllocError>
    // There is a flag for each import of the network.
    requires { length allowed.now ≡ length net.now.imports }
    // With `Ok` the edges are strictly ascending.
    ensures ascending { IfOk result (λ edges. IsAscending edges.items) }
    // With `Ok` the edges are exactly those of the imports that no line allows.
    ensures elements { IfOk result (λ edges. (p : GraphEdge) → Contains edges.items p ↔ IsUnallowed net.now allowed.now p) }
{
    let imports = net.imports();
    let mut edges = Vec::new(alloc);
    for number in 0..imports.len() {
        if !allowed[number] {
            edges.push(Edge {
                from: imports[number].from,
                to: imports[number].to,
            })?;
        }
    }
    sort_and_dedup(&mut edges);
    Ok(edges)
}

/// Appends a space and the name to the text.
fn append_name(text: &mut String, name: &str) -> Result<(), AllocError>
    // With `Ok` the text has grown by exactly these bytes.
    ensures { OnOk result (string_bytes text.new ≡ string_bytes text.old ++ 32 ∷ name.now) }
{
    text.push(' ')?;
    text.push_str(name)
}

/// Appends the names of these modules to the text, each after a space.
fn append_names(text: &mut String, net: &Net, modules: &[u32]) -> Result<(), AllocError>
    // The numbers are those of modules of the network.
    requires { All (λ m. m < length net.now.names) modules.now }
    // With `Ok` the text has grown by exactly these bytes.
    ensures { OnOk result (string_bytes text.new ≡ string_bytes text.old ++ names_after_spaces (map (name_of net.now) modules.now)) }
{
    for module in modules {
        append_name(text, net.name(*module))?;
    }
    Ok(())
}

/// Appends the line `stale LINE M N` for an `allow` line whose import the network doesn't have.
fn append_stale(text: &mut String, stale: &StaleAllow<'_>) -> Result<(), AllocError>
    // With `Ok` the text has grown by exactly these bytes.
    ensures { OnOk result (string_bytes text.new ≡ string_bytes text.old ++ stale_line (stale_of stale.now)) }
{
    writeln!(
        text,
        "stale {} {} {}",
        stale.line, stale.importer, stale.imported
    )
}

impl<'a> Lines<'a> {
    /// Appends the output line for the import of number `import`, which breaks the rule of line `line`. `path` is the path of module
    /// numbers that ends at the importing module.
    fn append_violation(
        &mut self,
        judgement: &RuleChecker<'a, '_>,
        line: u64,
        import: usize,
        path: &[u32],
    ) -> Result<(), AllocError>
        // The network has an import of this number.
        requires import { import < length judgement.now.net.now.imports }
        // Each import of the network has a location.
        requires sites { length judgement.now.sites.now ≡ length judgement.now.net.now.imports }
        // The path has only modules of the network.
        requires path { All (λ m. m < length judgement.now.net.now.names) path.now }
        // With `Ok` the text has grown by exactly this line.
        ensures appended { OnOk result (string_bytes self.new.text ≡ string_bytes self.old.text
            ++ violation_line (writer_style self.old.places) judgement.now.net.now judgement.now.sites.now (record { line = line; import_number = import; path = path.now })) }
        // The style of the locations is unchanged.
        ensures style { writer_style self.new.places ≡ writer_style self.old.places }
    {
        let net = judgement.net;
        net.invariants();
        let site = judgement.sites[import];
        self.places
            .append_location(&mut self.text, site.path, site.line, site.column)?;
        write!(self.text, ": no {line}")?;
        append_names(&mut self.text, net, path)?;
        append_name(&mut self.text, net.name(net.imports()[import].to))?;
        self.text.push('\n')
    }
}

impl<'a> RuleChecker<'a, '_> {
    /// If the import of number `import` breaks the rule of line `line`, writes its output line. Returns whether it breaks the rule.
    /// `search` must be the search for this rule.
    fn write_if_violation<S: Sink>(
        &self,
        lines: &mut Lines<'a>,
        search: &RuleSearch,
        line: u64,
        import: usize,
        sink: &mut S,
    ) -> Result<bool, SinkFault>
        // The network has an import of this number.
        requires import { import < length self.now.net.now.imports }
        // Each import of the network has a location.
        requires sites { length self.now.sites.now ≡ length self.now.net.now.imports }
        // The rules are those of a text, and `search` is the search for the rule of this line.
        requires judged { (files : List TreeFile) × (pieces : List (List ℕ)) × AreRulesOf self.now.net.now files pieces self.now.rules.now × IsSearchFor self.now.net.now files pieces line search.now }
        // With `Ok` the line is appended if and only if the import breaks the rule, and the result is whether it does.
        ensures written { IfOk result (λ is_broken. (files : List TreeFile) (pieces : List (List ℕ)) → AreRulesOf self.now.net.now files pieces self.now.rules.now → IsSearchFor self.now.net.now files pieces line search.now
            → (violations : List Violation) × AreRuleViolations self.now.net.now files pieces line import (import + 1) violations × (is_broken ≡ not (is_none violations))
            × WritesAllBut (S.taken sink.old) (S.taken sink.new) (string_bytes lines.old.text ++ flat_map (violation_line (writer_style lines.old.places) self.now.net.now self.now.sites.now) violations) (string_bytes lines.new.text)) }
        // After an error the sink took a prefix of the earlier lines followed by the lines of imports, from this one on, that break the
        // rule.
        ensures prefix { IfErr result (λ _. (files : List TreeFile) (pieces : List (List ℕ)) → AreRulesOf self.now.net.now files pieces self.now.rules.now → IsSearchFor self.now.net.now files pieces line search.now
            → (high : ℕ) × (violations : List Violation) × (import ≤ high) × AreRuleViolations self.now.net.now files pieces line import high violations
            × AppendsPrefix (S.taken sink.old) (S.taken sink.new) (string_bytes lines.old.text ++ flat_map (violation_line (writer_style lines.old.places) self.now.net.now self.now.sites.now) violations)) }
        // The style of the locations is unchanged.
        ensures style { writer_style lines.new.places ≡ writer_style lines.old.places }
        // The sink counts a failure if and only if the result is `Device`.
        ensures failures { S.failures sink.new ≡ failures_after result (S.failures sink.old) }
    {
        self.net.invariants();
        let ends = self.net.imports()[import];
        if self.rules.allowed[import] || !search.targets[ends.to as usize] {
            return Ok(false);
        }
        let alloc = *lines.text.allocator();
        let Ok(found) = search.search.path_to(alloc, ends.from) else {
            return Err(SinkFault::Memory);
        };
        let Some(path) = found else {
            return Ok(false);
        };
        if lines
            .append_violation(self, line, import, path.as_slice())
            .is_err()
        {
            return Err(SinkFault::Memory);
        }
        flush_if_full(&mut lines.text, sink)?;
        Ok(true)
    }

    /// Writes an output line for each import that breaks the rule of line `line`. Returns whether there is one. `search` must be the search
    /// for this rule.
    fn write_imports<S: Sink>(
        &self,
        lines: &mut Lines<'a>,
        search: &RuleSearch,
        line: u64,
        sink: &mut S,
    ) -> Result<bool, SinkFault>
        // Each import of the network has a location.
        requires sites { length self.now.sites.now ≡ length self.now.net.now.imports }
        // The rules are those of a text, and `search` is the search for the rule of this line.
        requires judged { (files : List TreeFile) × (pieces : List (List ℕ)) × AreRulesOf self.now.net.now files pieces self.now.rules.now × IsSearchFor self.now.net.now files pieces line search.now }
        // With `Ok` the sink and the lines that aren't written yet have gained a line for exactly the imports that break the rule. The
        // result is whether there is one.
        ensures written { IfOk result (λ is_broken. (files : List TreeFile) (pieces : List (List ℕ)) → AreRulesOf self.now.net.now files pieces self.now.rules.now → IsSearchFor self.now.net.now files pieces line search.now
            → (violations : List Violation) × AreRuleViolations self.now.net.now files pieces line 0 (length self.now.net.now.imports) violations × (is_broken ≡ not (is_none violations))
            × WritesAllBut (S.taken sink.old) (S.taken sink.new) (string_bytes lines.old.text ++ flat_map (violation_line (writer_style lines.old.places) self.now.net.now self.now.sites.now) violations) (string_bytes lines.new.text)) }
        // After an error the sink took a prefix of the earlier lines followed by those of the imports that break the rule.
        ensures prefix { IfErr result (λ _. (files : List TreeFile) (pieces : List (List ℕ)) → AreRulesOf self.now.net.now files pieces self.now.rules.now → IsSearchFor self.now.net.now files pieces line search.now
            → (high : ℕ) × (violations : List Violation) × AreRuleViolations self.now.net.now files pieces line 0 high violations
            × AppendsPrefix (S.taken sink.old) (S.taken sink.new) (string_bytes lines.old.text ++ flat_map (violation_line (writer_style lines.old.places) self.now.net.now self.now.sites.now) violations)) }
        // The style of the locations is unchanged.
        ensures style { writer_style lines.new.places ≡ writer_style lines.old.places }
        // The sink counts a failure if and only if the result is `Device`.
        ensures failures { S.failures sink.new ≡ failures_after result (S.failures sink.old) }
    {
        let mut any = false;
        for import in 0..self.net.imports().len() {
            any |= self.write_if_violation(lines, search, line, import, sink)?;
        }
        Ok(any)
    }

    /// Searches for the imports that break the rule, and writes an output line for each. Returns whether there is such an import.
    fn write_rule<S: Sink>(
        &self,
        lines: &mut Lines<'a>,
        graph: &Graph<'_>,
        rule: Rule,
        sink: &mut S,
    ) -> Result<bool, SinkFault>
        // Each import of the network has a location.
        requires sites { length self.now.sites.now ≡ length self.now.net.now.imports }
        // The edges of the graph are those of the imports that no line allows.
        requires graph { IsCountedGraph self.now.net.now self.now.rules.now graph.now }
        // The rule is one of the rules. If it is a `may` rule, no earlier one has the same first name.
        requires rule { IsFirstRule self.now.rules.now.rules.items rule }
        // The rules are those of a text.
        requires judged { (files : List TreeFile) × (pieces : List (List ℕ)) × AreRulesOf self.now.net.now files pieces self.now.rules.now }
        // With `Ok` the sink and the lines that aren't written yet have gained a line for exactly the imports that break the rule. The
        // result is whether there is one.
        ensures written { IfOk result (λ is_broken. (files : List TreeFile) (pieces : List (List ℕ)) → AreRulesOf self.now.net.now files pieces self.now.rules.now
            → (violations : List Violation) × AreRuleViolations self.now.net.now files pieces rule.line 0 (length self.now.net.now.imports) violations × (is_broken ≡ not (is_none violations))
            × WritesAllBut (S.taken sink.old) (S.taken sink.new) (string_bytes lines.old.text ++ flat_map (violation_line (writer_style lines.old.places) self.now.net.now self.now.sites.now) violations) (string_bytes lines.new.text)) }
        // After an error the sink took a prefix of the earlier lines followed by those of the imports that break the rule.
        ensures prefix { IfErr result (λ _. (files : List TreeFile) (pieces : List (List ℕ)) → AreRulesOf self.now.net.now files pieces self.now.rules.now
            → (high : ℕ) × (violations : List Violation) × AreRuleViolations self.now.net.now files pieces rule.line 0 high violations
            × AppendsPrefix (S.taken sink.old) (S.taken sink.new) (string_bytes lines.old.text ++ flat_map (violation_line (writer_style lines.old.places) self.now.net.now self.now.sites.now) violations)) }
        // The style of the locations is unchanged.
        ensures style { writer_style lines.new.places ≡ writer_style lines.old.places }
        // The sink counts a failure if and only if the result is `Device`.
        ensures failures { S.failures sink.new ≡ failures_after result (S.failures sink.old) }
    {
        self.net.invariants();
        let alloc = *lines.text.allocator();
        let Ok(search) = self.rules.search(alloc, self.net, graph, rule) else {
            return Err(SinkFault::Memory);
        };
        let any = self.write_imports(lines, &search, rule.line, sink)?;
        Ok(any)
    }

    /// Writes an output line for each import that breaks a rule, rule by rule. Returns whether there is such an import.
    fn write_rules<S: Sink>(
        &self,
        lines: &mut Lines<'a>,
        graph: &Graph<'_>,
        sink: &mut S,
    ) -> Result<bool, SinkFault>
        // Each import of the network has a location.
        requires sites { length self.now.sites.now ≡ length self.now.net.now.imports }
        // The edges of the graph are those of the imports that no line allows.
        requires graph { IsCountedGraph self.now.net.now self.now.rules.now graph.now }
        // The rules are those of a text.
        requires judged { (files : List TreeFile) × (pieces : List (List ℕ)) × AreRulesOf self.now.net.now files pieces self.now.rules.now }
        // With `Ok` the sink and the lines that aren't written yet have gained a line for exactly the violations of the rules. The result
        // is whether there is one.
        ensures written { IfOk result (λ is_broken. (files : List TreeFile) (pieces : List (List ℕ)) → AreRulesOf self.now.net.now files pieces self.now.rules.now
            → (violations : List Violation) × AreViolations self.now.net.now files pieces violations × (is_broken ≡ not (is_none violations))
            × WritesAllBut (S.taken sink.old) (S.taken sink.new) (string_bytes lines.old.text ++ flat_map (violation_line (writer_style lines.old.places) self.now.net.now self.now.sites.now) violations) (string_bytes lines.new.text)) }
        // After an error the sink took a prefix of the earlier lines followed by those of all violations.
        ensures prefix { IfErr result (λ _. (files : List TreeFile) (pieces : List (List ℕ)) → AreRulesOf self.now.net.now files pieces self.now.rules.now → (violations : List Violation) → AreViolations self.now.net.now files pieces violations
            → AppendsPrefix (S.taken sink.old) (S.taken sink.new) (string_bytes lines.old.text ++ flat_map (violation_line (writer_style lines.old.places) self.now.net.now self.now.sites.now) violations)) }
        // The style of the locations is unchanged.
        ensures style { writer_style lines.new.places ≡ writer_style lines.old.places }
        // The sink counts a failure if and only if the result is `Device`.
        ensures failures { S.failures sink.new ≡ failures_after result (S.failures sink.old) }
    {
        self.net.invariants();
        let mut any = false;
        for rule in self.rules.rules.as_slice() {
            if !self.rules.is_repeated(*rule) {
                any |= self.write_rule(lines, graph, *rule, sink)?;
            }
        }
        Ok(any)
    }

    /// Writes the line `stale LINE M N` for each `allow` line whose import the network doesn't have.
    fn write_stale<S: Sink>(&self, lines: &mut Lines<'a>, sink: &mut S) -> Result<(), SinkFault>
        // With `Ok` the sink and the lines that aren't written yet have gained exactly the stale lines.
        ensures written { OnOk result (WritesAllBut (S.taken sink.old) (S.taken sink.new) (string_bytes lines.old.text ++ flat_map stale_line (map stale_of self.now.rules.now.stale.items)) (string_bytes lines.new.text)) }
        // After an error the sink took a prefix of the earlier lines followed by the stale lines.
        ensures prefix { IfErr result (λ _. AppendsPrefix (S.taken sink.old) (S.taken sink.new) (string_bytes lines.old.text ++ flat_map stale_line (map stale_of self.now.rules.now.stale.items))) }
        // The sink counts a failure if and only if the result is `Device`.
        ensures failures { S.failures sink.new ≡ failures_after result (S.failures sink.old) }
    {
        for stale in self.rules.stale.as_slice() {
            if append_stale(&mut lines.text, stale).is_err() {
                return Err(SinkFault::Memory);
            }
            flush_if_full(&mut lines.text, sink)?;
        }
        Ok(())
    }
}

/// The last bytes of the output: `yes` and an LF if `clean`, that is if no rule is broken and no line is stale. Otherwise they are the
/// lines in `text`, which aren't written yet.
fn verdict_bytes(clean: bool, text: &str) -> &[u8]
    ensures { result.now ≡ (if clean then codes "yes" ++ 10 ∷ [] else text.now) }
{
    if clean { b"yes\n" } else { text.as_bytes() }
}

/// Writes a line `PATH:LINE:COL: no LINE A .. M N` for each import that breaks a rule, by the line of the rule and then by the names of
/// the import's two modules, and then a line `stale LINE M N` for each `allow` of an import that the network doesn't have, by line. If
/// there is no such line, writes `yes`. Returns whether there is none.
///
/// An import of N by M that no line allows breaks
/// - `forbid X Y` if N is in Y, and M in X or at the end of a path of unallowed imports from a module of X that enters no module of Y
///   after its start;
/// - `forbid-import X Y` if M is in X and N in Y;
/// - `may X Y`, and is written at the first `may` line of X, if M is in X, and N neither in X nor in the Y of a `may` line of X.
///
/// PATH:LINE:COL is the location of the import in this style. For `forbid` A .. M is the shortest of these paths, of several the one with
/// the smallest names from the first on. For the other two kinds it is M alone. Errors are `Device` and `Memory`; the sink then has a
/// prefix of the text.
pub fn write_verdict<'a, S: Sink>(
    alloc: Global,
    net: &'a Net,
    rules: &Rules<'a>,
    sites: &'a [Site<'a>],
    style: LocationStyle<'a>,
    sink: &mut S,
) -> Result<bool, SinkFault>
    // The rules are those of a text.
    requires rules { (files : List TreeFile) × (pieces : List (List ℕ)) × AreRulesOf net.now files pieces rules.now }
    // Each import of the network has a location.
    requires sites { length sites.now ≡ length net.now.imports }
    // With `Ok` the sink took a line for exactly the imports that break the rules and exactly the stale lines, or `yes` if there is none.
    // The result is whether there is none.
    ensures exact { IfOk result (λ clean. (files : List TreeFile) (pieces : List (List ℕ)) → AreRulesOf net.now files pieces rules.now
        → (violations : List Violation) × (stale : List Stale) × AreViolations net.now files pieces violations × AreStaleLines net.now pieces stale
        × (clean ≡ is_clean violations stale) × Appends (S.taken sink.old) (S.taken sink.new) (verdict_text (style_of style.entry) net.now sites.now violations stale)) }
    // After an error the sink has taken a prefix of the text.
    ensures prefix { IfErr result (λ _. (files : List TreeFile) (pieces : List (List ℕ)) → AreRulesOf net.now files pieces rules.now
        → (violations : List Violation) (stale : List Stale) → AreViolations net.now files pieces violations → AreStaleLines net.now pieces stale
        → AppendsPrefix (S.taken sink.old) (S.taken sink.new) (verdict_text (style_of style.entry) net.now sites.now violations stale)) }
    // The sink counts a failure if and only if the result is `Device`.
    ensures failures { S.failures sink.new ≡ failures_after result (S.failures sink.old) }
{
    net.invariants();
    let Ok(edges) = unallowed_edges(alloc, net, rules.allowed.as_slice()) else {
        return Err(SinkFault::Memory);
    };
    let Ok(graph) = graph_of(alloc, edges.as_slice(), net.nodes() as usize) else {
        return Err(SinkFault::Memory);
    };
    let judgement = RuleChecker { net, rules, sites };
    let mut lines = Lines {
        places: LocationWriter::new(style),
        text: String::new(alloc),
    };
    let has_violations = judgement.write_rules(&mut lines, &graph, sink)?;
    judgement.write_stale(&mut lines, sink)?;
    let clean = !has_violations && rules.stale.is_empty();
    write_fully(sink, verdict_bytes(clean, lines.text.as_str()))?;
    Ok(clean)
}
