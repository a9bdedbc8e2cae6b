//! The sets of a rules text: the modules that its lines add to each set.
ghost use Rattle.std.specs.Prelude.{◌≡◌, ◌↔◌, ◌⊎◌, ◌+◌, ◌<◌, ◌≤◌, ℕ, IfOk, IfSome, List, Some, length, true};
ghost use Rattle.digraph.specs.Marks.{marked};
ghost use Rattle.cut_rules.specs.Builders.{AreEmptySets, AreSized, HasIndex, InSet, IsAddition, IsTableFor};
ghost use Rattle.cut_rules.specs.Folders.{ArePathsInOrder};
ghost use Rattle.cut_rules.specs.LineReading.{selector_content};
ghost use Rattle.cut_rules.specs.RuleLines.{Module, Named};
ghost use Rattle.cut_rules.specs.declared.file.File.{File as TreeFile};

use crate::builder::LineContext;
use crate::folders::folder_range;
use crate::line::Selector;
use crate::names::name_index;
use glob::Glob;
use std::alloc::{AllocError, Global};

/// The modules of a set, as flags: one for each file, by path, and then one for each module. The set has a module if the flag of the module
/// or of one of the module's files is set. The files below a folder are adjacent, so a `folder` line sets a range of flags.
#[derive(Drop)]
pub struct ModuleSet {
    pub flags: Vec<bool>,
}

/// The modules that the lines read so far add to the sets.
#[derive(Drop)]
pub(crate) struct SetTable {
    /// The number of modules. It is also the number of the first set, since names of sets are numbered after those of modules.
    pub(crate) modules: usize,
    /// The sets that rules name.
    pub(crate) sets: Vec<ModuleSet>,
    /// The number of `named` lines, which have a pattern.
    pub(crate) patterns: usize,
}

/// As many sets as `count`, each without modules and with `places` flags.
pub(crate) fn empty_sets(
    alloc: Global,
    count: usize,
    places: usize,
) -> Result<Vec<ModuleSet>, AllocError>
    // With `Ok` there are `count` sets of `places` flags each, and no flag is set.
    ensures { IfOk result (λ sets. AreEmptySets count places sets.items) }
{
    let mut sets = Vec::with_capacity(alloc, count)?;
    for _ in 0..count {
        let flags = vec![in alloc; false; places]?;
        sets.push(ModuleSet { flags })?;
    }
    Ok(sets)
}

/// Sets the flags with an index in `from..to`.
fn flag_range(flags: &mut [bool], from: usize, to: usize)
    // The range is within the flags.
    requires { to ≤ length flags.old }
    // The number of flags is unchanged.
    ensures size { length flags.new ≡ length flags.old }
    // After the call a flag is set if and only if it was before, or its index is in the range.
    ensures flags { (k : ℕ) → (marked flags.new k ≡ true) ↔ ((marked flags.old k ≡ true) ⊎ ((from ≤ k) × (k < to))) }
{
    for place in from..to {
        flags[place] = true;
    }
}

impl SetTable {
    /// Sets the flags `from..to` of the set at index `set`, if that is `Some`. Returns whether the range is nonempty.
    fn add_range(&mut self, set: Option<usize>, from: usize, to: usize) -> bool
        // The index, if there is one, is that of a set.
        requires set { IfSome set (λ s. s < length self.old.sets.items) }
        // All sets have the same number of flags, and the range is within them.
        requires sized { (places : ℕ) × AreSized places self.old.sets.items × (to ≤ places) }
        // The result is true if and only if the range isn't empty.
        ensures any { (result ≡ true) ↔ (from < to) }
        // After the call each set has exactly its earlier modules; the set at index `set`, if there is one, also has those with an index in
        // the range.
        ensures sets { (files : List TreeFile) (s m : ℕ) → InSet files self.new.sets.items s m ↔ (InSet files self.old.sets.items s m ⊎ ((set ≡ Some s) × HasIndex files from to m)) }
        // The sets have as many flags as before.
        ensures sized { (places : ℕ) → AreSized places self.old.sets.items → AreSized places self.new.sets.items }
        // The number of sets is unchanged.
        ensures count { length self.new.sets.items ≡ length self.old.sets.items }
        // The number of modules is unchanged.
        ensures modules { self.new.modules ≡ self.old.modules }
        // The number of patterns is unchanged.
        ensures patterns { self.new.patterns ≡ self.old.patterns }
    {
        if let Some(set) = set {
            flag_range(self.sets[set].flags.as_mut_slice(), from, to);
        }
        from < to
    }

    /// Adds the module of this name to the set at index `set`, if that is `Some`. Returns whether the module exists.
    fn add_module(&mut self, context: &LineContext<'_>, set: Option<usize>, text: &str) -> bool
        // The index, if there is one, is that of a set.
        requires set { IfSome set (λ s. s < length self.old.sets.items) }
        // The sets have a flag for each file and each module of this tree.
        requires table { IsTableFor context.now self.old }
        // The set at the index, if there is one, also has the selected modules, and the result is whether a module is selected.
        ensures { IsAddition context.now.net.now context.now.files.now self.old set (Module text.now) result self.new }
    {
        context.net.invariants();
        let Some(number) = name_index(&context.names.modules, text.as_bytes()) else {
            return false;
        };
        let place = context.files.len() + number;
        self.add_range(set, place, place + 1)
    }

    /// Adds the modules whose names match the pattern to the set at index `set`, if that is `Some`. Returns whether a name matches.
    fn add_matching(
        &mut self,
        context: &LineContext<'_>,
        set: Option<usize>,
        text: &str,
    ) -> Result<bool, AllocError>
        // The index, if there is one, is that of a set.
        requires set { IfSome set (λ s. s < length self.old.sets.items) }
        // The sets have a flag for each file and each module of this tree.
        requires table { IsTableFor context.now self.old }
        // Adding one pattern to the count doesn't overflow.
        requires few { self.old.patterns ≤ 4096 }
        // With `Ok` the set at the index, if there is one, also has the selected modules, and the result is whether a module is selected.
        ensures { IfOk result (λ any. IsAddition context.now.net.now context.now.files.now self.old set (Named text.now) any self.new) }
    {
        context.net.invariants();
        let pattern = Glob::new(context.alloc, text.as_bytes())?;
        let mut any = false;
        for node in 0..context.net.nodes() {
            if pattern.matches(context.net.name(node).as_bytes()) {
                let place = context.files.len() + node as usize;
                any = self.add_range(set, place, place + 1);
            }
        }
        self.patterns += 1;
        Ok(any)
    }

    /// Adds the modules that the selector selects to the set at index `set`, if that is `Some`. Returns whether it selects a module.
    pub(crate) fn add(
        &mut self,
        context: &LineContext<'_>,
        set: Option<usize>,
        selector: Selector<'_>,
    ) -> Result<bool, AllocError>
        // The files are sorted by path.
        requires sorted { ArePathsInOrder context.now.files.now }
        // The index, if there is one, is that of a set.
        requires set { IfSome set (λ s. s < length self.old.sets.items) }
        // The sets have a flag for each file and each module of this tree.
        requires table { IsTableFor context.now self.old }
        // Adding one pattern to the count doesn't overflow.
        requires few { self.old.patterns ≤ 4096 }
        // With `Ok` the set at the index, if there is one, also has the selected modules, and the result is whether a module is selected.
        ensures { IfOk result (λ any. IsAddition context.now.net.now context.now.files.now self.old set (selector_content selector.entry) any self.new) }
    {
        match selector {
            Selector::Module(module) => Ok(self.add_module(context, set, module)),
            Selector::Folder(path) => {
                let (from, to) = folder_range(context.alloc, context.files, path.as_bytes())?;
                Ok(self.add_range(set, from, to))
            }
            Selector::Named(pattern) => self.add_matching(context, set, pattern),
            Selector::Tree => Ok(self.add_range(set, 0, context.files.len())),
        }
    }
}
