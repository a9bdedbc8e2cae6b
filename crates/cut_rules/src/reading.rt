//! Reading the rules of a tree from their text.
ghost use Rattle.std.specs.Prelude.{◌≡◌, ◌+◌, IfErr, IfOk, length};
ghost use Rattle.cut_rules.specs.Builders.{HasLines, IsEmptyFor};
ghost use Rattle.cut_rules.specs.Faults.{IsRefusal, UnlessMemory};
ghost use Rattle.cut_rules.specs.Folders.{ArePathsInOrder};
ghost use Rattle.cut_rules.specs.Names.{names_in, AreNames};
ghost use Rattle.cut_rules.specs.Outcomes.{AreRulesOf};
ghost use Rattle.cut_rules.specs.RuleLines.{pieces_of};

use crate::builder::{LineContext, RulesBuilder};
use crate::names::{Names, names_of};
use crate::rule::{Rule, StaleAllow};
use crate::table::{SetTable, empty_sets};
use crate::{File, RulesFault};
use cut_net::Net;
use std::alloc::{AllocError, Global};
use std::collections::BTreeSet;

/// The rules that a text has for a tree.
#[derive(Drop)]
pub struct Rules<'a> {
    pub(crate) files: &'a [File<'a>],
    pub(crate) names: Names<'a>,
    pub(crate) table: SetTable,
    /// The rules, in the order of their lines.
    pub(crate) rules: Vec<Rule>,
    /// For each import of the network whether a line allows it.
    pub(crate) allowed: Vec<bool>,
    /// The `allow` lines whose import the network doesn't have, in the order of the lines.
    pub(crate) stale: Vec<StaleAllow<'a>>,
}

/// The builder that no line has been added to: no set has a module, and there is no rule and no allowed import.
fn empty<'a>(context: &LineContext<'_>) -> Result<RulesBuilder<'a>, AllocError>
    // With `Ok` the builder is the one before the first line, for this tree and these names.
    ensures { IfOk result (IsEmptyFor context.now) }
{
    let alloc = context.alloc;
    let modules = context.net.nodes() as usize;
    let places = context.files.len() + modules;
    Ok(RulesBuilder {
        table: SetTable {
            modules,
            sets: empty_sets(alloc, context.names.sets.len(), places)?,
            patterns: 0,
        },
        rules: Vec::new(alloc),
        allowed: vec![in alloc; false; context.net.imports().len()]?,
        stale: Vec::new(alloc),
        pairs: BTreeSet::new(alloc),
    })
}

/// The builder with all lines of a text. Fails with the fault of the first line that has one, or with `Memory`.
fn read_builder<'a>(
    context: &LineContext<'_>,
    bytes: &'a [u8],
) -> Result<RulesBuilder<'a>, RulesFault>
    // The files are sorted by path.
    requires sorted { ArePathsInOrder context.now.files.now }
    // The names are those of the network and of this text.
    requires names { AreNames context.now.net.now (pieces_of bytes.now) context.now.names.now }
    // With `Ok` no line has a fault, and the builder has what all lines state.
    ensures built { IfOk result (HasLines context.now.net.now context.now.files.now (names_in context.now.names.now.sets.keys) (pieces_of bytes.now) (length (pieces_of bytes.now))) }
    // An error is the first fault of the text, or `Memory`.
    ensures fault { IfErr result (λ fault. UnlessMemory fault (IsRefusal context.now.net.now context.now.files.now (pieces_of bytes.now) fault)) }
{
    let mut builder = empty(context)?;
    let mut line = 0;
    for piece in bytes.split(|b| *b == b'\n') {
        line += 1;
        builder.take(&LineContext { line, ..*context }, piece)?;
    }
    Ok(builder)
}

impl Rules<'_> {
    /// The rules of a text for the network of a tree whose modules have these files, sorted by path. Fails with the first error of the
    /// text: that of the first line with an error, and within the line the first in the order of `RulesFault`; or with `Memory`.
    ///
    /// The syntax of lines, with fields separated by one space:
    ///
    /// - `set S M`: the module M is in the set S.
    /// - `folder S PATH`: each module whose file is below PATH is in S.
    /// - `named S PATTERN`: each module whose name matches PATTERN is in S. `*` denotes any letters and digits.
    /// - `tree S`: each module that has a file is in S.
    /// - `forbid X Y`, `forbid-import X Y`, `may X Y`: a rule between X and Y, each a set or else a module (`RuleKind`).
    /// - `allow M N`: the import of N by M counts for no rule.
    ///
    /// Names are identifiers (Oberon-07 report, section 3). PATH and PATTERN are the rest of their lines, in UTF-8. A comment is a `#`
    /// and the rest of the line, at the line's start or, but for `folder` and `named`, after blanks, which belong to it. Empty lines are
    /// skipped. The last line end may be missing. Lines are in any order.
    pub fn read<'a>(
        alloc: Global,
        net: &'a Net,
        files: &'a [File<'a>],
        bytes: &'a [u8],
    ) -> Result<Rules<'a>, RulesFault>
        // The files are sorted by their paths.
        requires { ArePathsInOrder files.now }
        // With `Ok` the text has no fault, and the result has the rules of the text.
        ensures rules { IfOk result (AreRulesOf net.now files.now (pieces_of bytes.now)) }
        // An error is the first fault of the text, or `Memory`.
        ensures fault { IfErr result (λ fault. UnlessMemory fault (IsRefusal net.now files.now (pieces_of bytes.now) fault)) }
    {
        let names = names_of(alloc, net, bytes)?;
        let context = LineContext {
            alloc,
            net: &*net,
            files: &*files,
            names: &names,
            line: 0,
        };
        let RulesBuilder {
            table,
            rules,
            allowed,
            stale,
            ..
        } = read_builder(&context, bytes)?;
        Ok(Rules {
            files,
            names,
            table,
            rules,
            allowed,
            stale,
        })
    }
}
