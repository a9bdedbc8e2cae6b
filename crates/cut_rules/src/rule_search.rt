//! The search for the imports that break one rule.
ghost use Rattle.std.specs.Prelude.{◌≡◌, ◌↔◌, ◌<◌, ℕ, All, IfOk, IsTrue, List, length, vec_len, true};
ghost use Rattle.digraph.specs.Graphs.{IsGraph};
ghost use Rattle.digraph.specs.Marks.{marked};
ghost use Rattle.cut_rules.specs.Judged.{IsBarredBy, IsFlagSet, IsMayOf, IsDenoted, IsForbiddenByMay, IsRepeated, IsRuleSearch, IsTarget};

use crate::Rules;
use crate::rule::{Rule, RuleKind};
use cut_net::Net;
use digraph::{Graph, Search};
use std::alloc::{AllocError, Global};

/// The result of the search for one rule. An import that no line allows breaks the rule if its importer is reached and its imported module
/// is a target.
#[derive(Drop)]
pub(crate) struct RuleSearch {
    pub(crate) search: Search,
    /// For each module whether it is a target: the rule forbids the modules of its first name to import it.
    pub(crate) targets: Vec<bool>,
}

/// Sets the flags of the nodes in the list to `value`, and leaves the other flags unchanged.
fn set_flags(flags: &mut Vec<bool>, nodes: &[u32], value: bool)
    // Each node has a flag.
    requires { All (λ v. v < vec_len flags.old) nodes.now }
    // The number of flags is unchanged.
    ensures size { vec_len flags.new ≡ vec_len flags.old }
    // The flag of a node in the list is `value` after the call, and any other is unchanged.
    ensures flags { (v : ℕ) → IsFlagSet nodes.now value flags.old.items flags.new.items v }
{
    for node in nodes {
        flags[*node as usize] = value;
    }
}

/// Whether the rule is a `may` rule whose first name has the number `first`.
fn is_may_of(rule: Rule, first: usize) -> bool
    ensures { IsTrue result ↔ IsMayOf rule first }
{
    match rule.kind {
        RuleKind::May => rule.first == first,
        RuleKind::Forbid | RuleKind::ForbidImport => false,
    }
}

impl Rules<'_> {
    /// Whether the rule is a `may` rule, and an earlier `may` rule has the same first name. All `may` rules with one first name are checked
    /// together, at the first of them.
    pub(crate) fn is_repeated(&self, rule: Rule) -> bool
        ensures { IsTrue result ↔ IsRepeated self.now.rules.items rule }
    {
        if !is_may_of(rule, rule.first) {
            return false;
        }
        for other in self.rules.as_slice() {
            if other.line < rule.line && is_may_of(*other, rule.first) {
                return true;
            }
        }
        false
    }

    /// For each module whether the `may` rules whose first name has the number `first` forbid to import it. They do if neither this name
    /// nor the second name of one of these rules denotes the module.
    fn may_targets(&self, alloc: Global, net: &Net, first: usize) -> Result<Vec<bool>, AllocError>
        // With `Ok` there is a flag for each module of the network.
        ensures size { IfOk result (λ flags. vec_len flags ≡ length net.now.names) }
        // With `Ok` a module is flagged if and only if these rules forbid to import it.
        ensures elements { IfOk result (λ flags. (n : ℕ) → n < length net.now.names → (marked flags.items n ≡ true) ↔ IsForbiddenByMay self.now first n) }
    {
        let own = self.members_of(alloc, net, first)?;
        let mut flags = vec![in alloc; true; net.nodes() as usize]?;
        set_flags(&mut flags, own.as_slice(), false);
        for rule in self.rules.as_slice() {
            if is_may_of(*rule, first) {
                let members = self.members_of(alloc, net, rule.second)?;
                set_flags(&mut flags, members.as_slice(), false);
            }
        }
        Ok(flags)
    }

    /// For each module whether the rule forbids to import it.
    fn targets(&self, alloc: Global, net: &Net, rule: Rule) -> Result<Vec<bool>, AllocError>
        // With `Ok` there is a flag for each module of the network.
        ensures size { IfOk result (λ flags. vec_len flags ≡ length net.now.names) }
        // With `Ok` a module is flagged if and only if the rule forbids to import it.
        ensures elements { IfOk result (λ flags. (n : ℕ) → n < length net.now.names → (marked flags.items n ≡ true) ↔ IsTarget self.now rule n) }
    {
        match rule.kind {
            RuleKind::Forbid | RuleKind::ForbidImport => self.flags(alloc, net, rule.second),
            RuleKind::May => self.may_targets(alloc, net, rule.first),
        }
    }

    /// For each module whether the search must not enter it after its start. True for all modules for `may` and `forbid-import`, whose
    /// paths have one import.
    fn barrier(&self, alloc: Global, net: &Net, rule: Rule) -> Result<Vec<bool>, AllocError>
        // With `Ok` a module is flagged if and only if a path of the rule must not enter it after the start.
        ensures { IfOk result (λ flags. (n : ℕ) → n < length net.now.names → (marked flags.items n ≡ true) ↔ IsBarredBy self.now rule rule.kind n) }
    {
        match rule.kind {
            RuleKind::Forbid => self.flags(alloc, net, rule.second),
            RuleKind::ForbidImport | RuleKind::May => vec![in alloc; true; net.nodes() as usize],
        }
    }

    /// Searches for the imports that break a rule. `graph` has the imports that no line allows as its edges.
    pub(crate) fn search(
        &self,
        alloc: Global,
        net: &Net,
        graph: &Graph<'_>,
        rule: Rule,
    ) -> Result<RuleSearch, AllocError>
        // The edges of the graph are strictly sorted, and the list of each node has the successors of the node.
        requires graph { IsGraph graph.now }
        // The graph has a node for each module of the network.
        requires nodes { vec_len graph.now.after ≡ length net.now.names }
        // With `Ok` the search starts at the modules of the rule's first name, and its targets and its barrier are those of the rule.
        ensures { IfOk result (IsRuleSearch self.now (length net.now.names) graph.now.edges.now rule) }
    {
        let starts = self.members_of(alloc, net, rule.first)?;
        let barrier = self.barrier(alloc, net, rule)?;
        let targets = self.targets(alloc, net, rule)?;
        let search = graph.search_from(alloc, starts.as_slice(), barrier.as_slice())?;
        Ok(RuleSearch { search, targets })
    }
}
