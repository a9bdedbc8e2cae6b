//! The builder of rules, to which the lines of a rules text are added one by one.
ghost use Rattle.std.specs.Prelude.{◌≡◌, IfErr, IfOk, List, None, Some, ℕ, Contains};
ghost use Rattle.cut_rules.specs.Builders.{number_of, IsSetIndex, IsStated, HasPreviousLines, IsLineOutcome};
ghost use Rattle.cut_rules.specs.Faults.{cause_of, UnlessMemory};
ghost use Rattle.cut_rules.specs.Folders.{ArePathsInOrder};
ghost use Rattle.cut_rules.specs.LineReading.{selector_content};
ghost use Rattle.cut_rules.specs.Names.{names_in, AreNames, IsDeclaredName, IsKnownName};
ghost use Rattle.cut_rules.specs.RuleLines.{Adds, Allow, IsPieceAt, Restricts};
ghost use Rattle.cut_rules.specs.Rules.{SetIsModule, NoSuchModule, empty_selection_fault};

use crate::File;
use crate::fault::RulesFault;
use crate::line::{Line, Selector, is_empty_or_comment, parse_line};
use crate::names::{Names, name_index};
use crate::rule::{Rule, RuleKind, StaleAllow};
use crate::table::SetTable;
use cut_net::{Net, find_import_number};
use std::alloc::{AllocError, Global};
use std::collections::BTreeSet;

/// The largest number of rules of a text, and also the largest number of patterns.
pub(crate) const MOST_LINES: usize = 4096;

/// What the lines that are read so far state: sets, rules, allowed imports and stale lines.
#[derive(Drop)]
pub(crate) struct RulesBuilder<'a> {
    pub(crate) table: SetTable,
    pub(crate) rules: Vec<Rule>,
    /// For each import of the network whether a line allows it.
    pub(crate) allowed: Vec<bool>,
    pub(crate) stale: Vec<StaleAllow<'a>>,
    /// The two names of each `allow` line.
    pub(crate) pairs: BTreeSet<(&'a str, &'a str)>,
}

/// What adding a line needs besides the builder: the allocator, the tree, the names, and the number of the line.
#[derive(Clone, Copy)]
pub(crate) struct LineContext<'a> {
    pub(crate) alloc: Global,
    pub(crate) net: &'a Net,
    /// The files of the tree, sorted by path.
    pub(crate) files: &'a [File<'a>],
    pub(crate) names: &'a Names<'a>,
    /// The number of the line, from 1.
    pub(crate) line: u64,
}

impl LineContext<'_> {
    /// The number of a name of a rule: a module's number, or for a set its index after all modules. Fails with `NoSuchModule` if the name
    /// is neither a module's nor a set's.
    fn number_of(&self, name: &str) -> Result<usize, RulesFault>
        // The names are those of the network and of some rules text.
        requires { (pieces : List (List ℕ)) × AreNames self.now.net.now pieces self.now.names.now }
        // With `Ok` the result is the number of the name.
        ensures found { IfOk result (λ number. number_of self.now.net.now (names_in self.now.names.now.sets.keys) name.now ≡ Some number) }
        // With `Ok` the name is that of a module, or of a set to which a line adds modules.
        ensures known { IfOk result (λ number. (pieces : List (List ℕ)) → AreNames self.now.net.now pieces self.now.names.now → IsDeclaredName self.now.net.now pieces name.now) }
        // An error other than `Memory` is `NoSuchModule` with this line and name. If the name is in `names`, it is neither a module's nor
        // that of a set to which a line adds modules.
        ensures none { IfErr result (λ fault. UnlessMemory fault ((cause_of fault ≡ Some (self.now.line, NoSuchModule name.now))
            × ((pieces : List (List ℕ)) → AreNames self.now.net.now pieces self.now.names.now → IsKnownName self.now.net.now self.now.names.now.sets.keys name.now → IsDeclaredName self.now.net.now pieces name.now → ⊥))) }
    {
        self.net.invariants();
        if let Some(module) = name_index(&self.names.modules, name.as_bytes()) {
            return Ok(module);
        }
        if let Some(set) = self.names.declared_set_index(name) {
            return Ok(self.net.nodes() as usize + set);
        }
        Err(RulesFault::NoSuchModule {
            line: self.line,
            name: String::from_str(self.alloc, name)?,
        })
    }

    /// The index of the set of this name among the sets that rules name; `None` if no rule names it. Fails with `SetIsModule` if the name
    /// is a module's.
    fn set_index(&self, set: &str) -> Result<Option<usize>, RulesFault>
        // The names are those of the network and of some rules text.
        requires { (pieces : List (List ℕ)) × AreNames self.now.net.now pieces self.now.names.now }
        // With `Ok` no module has the name, and the result is its index among the sets that rules name, if it has one.
        ensures right { IfOk result (IsSetIndex self.now.net.now (names_in self.now.names.now.sets.keys) set.now) }
        // An error other than `Memory` is `SetIsModule` with this line and name, and a module has the name.
        ensures wrong { IfErr result (λ fault. UnlessMemory fault (Contains self.now.net.now.names set.now × (cause_of fault ≡ Some (self.now.line, SetIsModule set.now)))) }
    {
        if let Some(place) = name_index(&self.names.sets, set.as_bytes()) {
            return Ok(Some(place));
        }
        if name_index(&self.names.modules, set.as_bytes()).is_none() {
            return Ok(None);
        }
        Err(RulesFault::SetIsModule {
            line: self.line,
            name: String::from_str(self.alloc, set)?,
        })
    }

    /// The fault of a line that adds no module to its set: `NoSuchModule` if the line names a module, otherwise `EmptySet`.
    fn empty_selection_fault(
        &self,
        set: &str,
        selector: Selector<'_>,
    ) -> Result<RulesFault, AllocError>
        // With `Ok` the fault has the context's line, and names the module, path or pattern of the selector, or the set for a `tree` line.
        ensures { IfOk result (λ fault. cause_of fault ≡ Some (self.now.line, empty_selection_fault set.now (selector_content selector.entry))) }
    {
        let line = self.line;
        match selector {
            Selector::Module(name) => Ok(RulesFault::NoSuchModule {
                line,
                name: String::from_str(self.alloc, name)?,
            }),
            Selector::Folder(text) | Selector::Named(text) => Ok(RulesFault::EmptySet {
                line,
                text: String::from_str(self.alloc, text)?,
            }),
            Selector::Tree => Ok(RulesFault::EmptySet {
                line,
                text: String::from_str(self.alloc, set)?,
            }),
        }
    }
}

impl<'a> RulesBuilder<'a> {
    /// Adds the selected modules to the set that a line names. Fails if the set's name is a module's, if no module is selected, or if there
    /// are too many patterns.
    fn add(
        &mut self,
        context: &LineContext<'_>,
        set: &str,
        selector: Selector<'_>,
    ) -> Result<(), RulesFault>
        // The files are sorted by path.
        requires sorted { ArePathsInOrder context.now.files.now }
        // The builder has the lines before this one, and this line adds the selected modules to `set`.
        requires stated { (pieces : List (List ℕ)) × IsStated context.now pieces (Adds set.now (selector_content selector)) self.old }
        // With `Ok` the builder has this line too. An error is the first fault of the text, or `Memory`.
        ensures { (pieces : List (List ℕ)) → IsStated context.now pieces (Adds set.now (selector_content selector.entry)) self.old → IsLineOutcome context.now.net.now context.now.files.now (names_in context.now.names.now.sets.keys) pieces context.now.line result self.new }
    {
        let place = context.set_index(set)?;
        if !self.table.add(context, place, selector)? {
            return Err(context.empty_selection_fault(set, selector)?);
        }
        if self.table.patterns > MOST_LINES {
            return Err(RulesFault::TooMany { line: context.line });
        }
        Ok(())
    }

    /// Adds a rule of this kind between two names. Fails if a name is unknown, or if there are too many rules.
    fn add_rule(
        &mut self,
        context: &LineContext<'_>,
        kind: RuleKind,
        first: &str,
        second: &str,
    ) -> Result<(), RulesFault>
        // The builder has the lines before this one, and this line states this rule.
        requires { (pieces : List (List ℕ)) × IsStated context.now pieces (Restricts kind first.now second.now) self.old }
        // With `Ok` the builder has this line too. An error is the first fault of the text, or `Memory`.
        ensures { (pieces : List (List ℕ)) → IsStated context.now pieces (Restricts kind first.now second.now) self.old → IsLineOutcome context.now.net.now context.now.files.now (names_in context.now.names.now.sets.keys) pieces context.now.line result self.new }
    {
        let first = context.number_of(first)?;
        let second = context.number_of(second)?;
        let line = context.line;
        if self.rules.len() >= MOST_LINES {
            return Err(RulesFault::TooMany { line });
        }
        self.rules.push(Rule {
            line,
            kind,
            first,
            second,
        })?;
        Ok(())
    }

    /// Allows the import of `imported` by `importer`. If the network doesn't have this import, the line is stale. Fails if an earlier line
    /// allows the same import.
    fn allow(
        &mut self,
        context: &LineContext<'_>,
        importer: &'a str,
        imported: &'a str,
    ) -> Result<(), RulesFault>
        // The builder has the lines before this one, and this line allows this import.
        requires { (pieces : List (List ℕ)) × IsStated context.now pieces (Allow importer.now imported.now) self.old }
        // With `Ok` the builder has this line too. An error is the first fault of the text, or `Memory`.
        ensures { (pieces : List (List ℕ)) → IsStated context.now pieces (Allow importer.now imported.now) self.old → IsLineOutcome context.now.net.now context.now.files.now (names_in context.now.names.now.sets.keys) pieces context.now.line result self.new }
    {
        context.net.invariants();
        let line = context.line;
        if !self.pairs.insert((importer, imported))? {
            return Err(RulesFault::TwiceAllowed {
                line,
                importer: String::from_str(context.alloc, importer)?,
                imported: String::from_str(context.alloc, imported)?,
            });
        }
        let Some(number) = find_import_number(context.net, importer, imported) else {
            self.stale.push(StaleAllow {
                line,
                importer,
                imported,
            })?;
            return Ok(());
        };
        self.allowed[number] = true;
        Ok(())
    }

    /// Parses the bytes of the line with the context's number, and adds what the line states. An empty line and a comment add nothing.
    pub(crate) fn take(
        &mut self,
        context: &LineContext<'_>,
        piece: &'a [u8],
    ) -> Result<(), RulesFault>
        // The files are sorted by path.
        requires sorted { ArePathsInOrder context.now.files.now }
        // The text has these bytes at the line of the context's number, and the builder has the lines before it.
        requires present { (pieces : List (List ℕ)) × IsPieceAt pieces context.now.line piece.now × HasPreviousLines context.now pieces self.old }
        // With `Ok` the builder has this line too. An error is the first fault of the text, or `Memory`.
        ensures { (pieces : List (List ℕ)) → IsPieceAt pieces context.now.line piece.now → HasPreviousLines context.now pieces self.old → IsLineOutcome context.now.net.now context.now.files.now (names_in context.now.names.now.sets.keys) pieces context.now.line result self.new }
    {
        if is_empty_or_comment(piece) {
            return Ok(());
        }
        match parse_line(piece) {
            None => Err(RulesFault::BadLine { line: context.line }),
            Some(Line::Adds(set, selector)) => self.add(context, set, selector),
            Some(Line::Restricts(kind, first, second)) => {
                self.add_rule(context, kind, first, second)
            }
            Some(Line::Allow(importer, imported)) => self.allow(context, importer, imported),
        }
    }
}
