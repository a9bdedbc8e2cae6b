//! The names that a rules text may refer to: those of the modules, and of the sets that its rules name.
ghost use Rattle.std.specs.Prelude.{◌≡◌, ◌⊎◌, ◌<◌, ◌≤◌, ℕ, Contains, IfNone, IfOk, IfSome, List, OnOk, Some, length, false, true};
ghost use Rattle.digraph.specs.Marks.{marked};
ghost use Rattle.cut_rules.specs.LineReading.{set_of};
ghost use Rattle.cut_rules.specs.Names.{index_among, names_in, AreDeclared, AreNames, AreRuleNames, IsKnownName};
ghost use Rattle.cut_rules.specs.RuleLines.{pieces_of};

use crate::builder::MOST_LINES;
use crate::line::{parse_rule_names, parse_set_name, set_field};
use cut_net::Net;
use indexmap::IndexSet;
use std::alloc::{AllocError, Global};
use text_hash::{Name, Seed};

/// A rule with its LF has at least this many bytes for each of its two names. So the length of a text gives an estimate of the number of
/// names in its rules, at most one too low, since the last line may lack its LF.
const BYTES_A_NAME: usize = 4;

/// The names of modules, and of the sets that rules name; lines about other sets are only parsed.
#[derive(Drop)]
pub(crate) struct Names<'a> {
    /// The names of all modules, by their numbers.
    pub(crate) modules: IndexSet<Name<'a>, Seed>,
    /// The names in rules that aren't names of modules, in the order of first occurrence. Rules after the first one too many don't count.
    pub(crate) sets: IndexSet<Name<'a>, Seed>,
    /// For each name in `sets` whether a line adds modules to a set of this name.
    pub(crate) declared: Vec<bool>,
}

impl Names<'_> {
    /// The index in `sets` of the set with this name, if a line adds modules to it; otherwise `None`.
    pub(crate) fn declared_set_index(&self, name: &str) -> Option<usize>
        // There is a flag for each name in `sets`.
        requires { length self.now.declared.items ≡ length self.now.sets.keys }
        // With `Some` the index is that of the name, and its flag is set.
        ensures found { IfSome result (λ k. (index_among self.now.sets.keys name.now ≡ Some k) × (marked self.now.declared.items k ≡ true)) }
        // With `None` the name isn't in `sets`, or its flag isn't set.
        ensures none { IfNone result ((k : ℕ) → index_among self.now.sets.keys name.now ≡ Some k → marked self.now.declared.items k ≡ false) }
    {
        let place = name_index(&self.sets, name.as_bytes())?;
        if !self.declared[place] {
            return None;
        }
        Some(place)
    }
}

/// The index of a name in the set of names, or `None` if the set doesn't have it.
pub(crate) fn name_index(names: &IndexSet<Name<'_>, Seed>, name: &[u8]) -> Option<usize>
    // The result is the index of the name among the names of the set.
    ensures place { result ≡ index_among names.now.keys name.now }
    // An index is smaller than the number of names.
    ensures within { IfSome result (λ k. k < length names.now.keys) }
{
    names.get_index_of(&Name { bytes: name })
}

/// The concatenated names of all modules, to choose the seed of their table: an author of modules can choose names that collide.
fn joined_names(alloc: Global, net: &Net) -> Result<Vec<u8>, AllocError> {
    net.invariants();
    let mut text = Vec::new(alloc);
    for node in 0..net.nodes() {
        text.extend_from_slice(net.name(node).as_bytes())?;
    }
    Ok(text)
}

/// The names of the modules, in the order of the modules' numbers.
fn module_names<'a>(alloc: Global, net: &'a Net) -> Result<IndexSet<Name<'a>, Seed>, AllocError>
    // With `Ok` the names are exactly those of the network, in its order.
    ensures { IfOk result (λ names. names_in names.keys ≡ net.now.names) }
{
    net.invariants();
    let text = joined_names(alloc, net)?;
    let seed = Seed::for_keys(text.as_slice(), net.nodes() as usize);
    let mut names = IndexSet::with_hasher(alloc, seed);
    for node in 0..net.nodes() {
        let bytes = net.name(node).as_bytes();
        names.insert(Name { bytes })?;
    }
    Ok(names)
}

/// Adds a name to `names`, unless it is that of a module.
fn add_name<'a>(
    net: &Net,
    names: &mut IndexSet<Name<'a>, Seed>,
    name: &'a str,
) -> Result<(), AllocError>
    // With `Ok` no name is removed.
    ensures retained { OnOk result ((x : List ℕ) → Contains (names_in names.old.keys) x → Contains (names_in names.new.keys) x) }
    // With `Ok` the name is that of a module, or among `names`.
    ensures noted { OnOk result (IsKnownName net.now names.new.keys name.now) }
    // With `Ok` no added name is that of a module.
    ensures apart { OnOk result ((x : List ℕ) → Contains (names_in names.new.keys) x → Contains (names_in names.old.keys) x ⊎ (Contains net.now.names x → ⊥)) }
{
    if net.index_of(name).is_none() {
        names.insert(Name {
            bytes: name.as_bytes(),
        })?;
    }
    Ok(())
}

/// Adds the two names of a rule to `names`, unless more than `MOST_LINES` rules come before this rule. `rules` is the number of the rules
/// before it.
fn add_names<'a>(
    net: &Net,
    names: &mut IndexSet<Name<'a>, Seed>,
    rules: usize,
    rule: (&'a str, &'a str),
) -> Result<(), AllocError>
    // With `Ok` no name is removed.
    ensures retained { OnOk result ((x : List ℕ) → Contains (names_in names.old.keys) x → Contains (names_in names.new.keys) x) }
    // With `Ok` and within the limit, each of the two names is that of a module, or among `names`.
    ensures noted { OnOk result (rules ≤ 4096 → IsKnownName net.now names.new.keys rule.entry.0.now × IsKnownName net.now names.new.keys rule.entry.1.now) }
    // With `Ok` no added name is that of a module.
    ensures apart { OnOk result ((x : List ℕ) → Contains (names_in names.new.keys) x → Contains (names_in names.old.keys) x ⊎ (Contains net.now.names x → ⊥)) }
{
    if rules > MOST_LINES {
        return Ok(());
    }
    let (first, second) = rule;
    add_name(net, names, first)?;
    add_name(net, names, second)?;
    Ok(())
}

/// The names in the rules of a text that aren't names of modules. Rules after the first one beyond the limit don't count, since they have a
/// fault whatever they name.
fn rule_names<'a>(
    alloc: Global,
    net: &Net,
    bytes: &'a [u8],
) -> Result<IndexSet<Name<'a>, Seed>, AllocError>
    // With `Ok` each name in a rule, up to the first rule too many, is a module's or in the result. No name in the result is a module's.
    ensures { IfOk result (λ names. AreRuleNames net.now (pieces_of bytes.now) names.keys) }
{
    let seed = Seed::for_keys(bytes, bytes.len() / BYTES_A_NAME);
    let mut names = IndexSet::with_hasher(alloc, seed);
    let mut rules = 0;
    for piece in bytes.split(|b| *b == b'\n') {
        if let Some(rule) = parse_rule_names(piece) {
            add_names(net, &mut names, rules, rule)?;
            rules += 1;
        }
    }
    Ok(names)
}

/// The index of the set to which a line adds modules, if the set is among `names` and its flag isn't set; otherwise `None`. Parses a line
/// only if its field for a set has such a name, so most lines aren't parsed.
fn newly_declared_set(
    names: &IndexSet<Name<'_>, Seed>,
    declared: &[bool],
    piece: &[u8],
) -> Option<usize>
    // There is a flag for each name.
    requires { length declared.now ≡ length names.now.keys }
    // With `Some` the line adds modules to the set whose name has this index.
    ensures found { IfSome result (λ k. (k < length names.now.keys) × (x : List ℕ) × (set_of piece.now ≡ Some x) × (index_among names.now.keys x ≡ Some k)) }
    // With `None`, if the line adds modules to a set among `names`, the flag of that set is already set.
    ensures none { IfNone result ((x : List ℕ) (k : ℕ) → set_of piece.now ≡ Some x → index_among names.now.keys x ≡ Some k → marked declared.now k ≡ true) }
{
    let place = name_index(names, set_field(piece)?)?;
    if declared[place] {
        return None;
    }
    parse_set_name(piece)?;
    Some(place)
}

/// Whether all flags are set.
fn are_all_set(flags: &[bool]) -> bool
    // With true each flag is set.
    ensures { result ≡ true → (k : ℕ) → k < length flags.now → marked flags.now k ≡ true }
{
    for place in 0..flags.len() {
        if !flags[place] {
            return false;
        }
    }
    true
}

/// For each name whether a line of the text adds modules to the set of this name. Stops reading the text once all flags are set.
fn declared_sets(
    alloc: Global,
    names: &IndexSet<Name<'_>, Seed>,
    bytes: &[u8],
) -> Result<Vec<bool>, AllocError>
    // With `Ok` the flag of a name is set if and only if a line adds modules to the set of this name.
    ensures { IfOk result (λ declared. AreDeclared (pieces_of bytes.now) names.now.keys declared.items) }
{
    let mut declared = vec![in alloc; false; names.len()]?;
    for piece in bytes.split(|b| *b == b'\n') {
        if let Some(place) = newly_declared_set(names, declared.as_slice(), piece) {
            declared[place] = true;
            if are_all_set(declared.as_slice()) {
                return Ok(declared);
            }
        }
    }
    Ok(declared)
}

/// The names that the lines of a text may refer to: those of the modules, and those of the sets that rules name.
pub(crate) fn names_of<'a>(
    alloc: Global,
    net: &'a Net,
    bytes: &'a [u8],
) -> Result<Names<'a>, AllocError>
    // With `Ok` the names include those of all modules and, up to the first rule too many, those in the rules of this text.
    ensures { IfOk result (AreNames net.now (pieces_of bytes.now)) }
{
    let modules = module_names(alloc, net)?;
    let sets = rule_names(alloc, net, bytes)?;
    let declared = declared_sets(alloc, &sets, bytes)?;
    Ok(Names {
        modules,
        sets,
        declared,
    })
}
