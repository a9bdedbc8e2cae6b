//! Laws of rules, proved as contracts of functions with an empty body.
ghost use Rattle.std.specs.Prelude.{ℕ, ◌≡◌, List};
ghost use Rattle.cut_net.specs.Network.{Network};
ghost use Rattle.cut_rules.specs.Faults.{cause_of, IsRefusal};
ghost use Rattle.cut_rules.specs.Outcomes.{AreRulesOf};
ghost use Rattle.cut_rules.specs.declared.fault.RulesFault.{RulesFault as Refusal};
ghost use Rattle.cut_rules.specs.declared.file.File.{File as TreeFile};
ghost use Rattle.cut_rules.specs.Verdicts.{import_at, AreViolations, BreaksRule, IsForbiddenPath, IsOnPath, Violation};
ghost use Rattle.cut_rules.specs.declared.reading.Rules.{Rules as TreeRules};

/// The error of a text is unique: its line, its cause and its names.
pub fn error_is_unique()
    // Two errors of one text have the same line, cause and names.
    ensures { (net : Network) (files : List TreeFile) (pieces : List (List ℕ)) (a b : Refusal) → IsRefusal net files pieces a → IsRefusal net files pieces b → cause_of a ≡ cause_of b }
{}

/// A text that has rules for a tree has no error.
pub fn rules_exclude_error()
    // No text has both rules and an error, for the same tree.
    ensures { (net : Network) (files : List TreeFile) (pieces : List (List ℕ)) (rules : TreeRules) (fault : Refusal) → AreRulesOf net files pieces rules → IsRefusal net files pieces fault → ⊥ }
{}

/// A text has at most one list of violations of its rules.
pub fn violations_are_unique()
    // Two lists of the violations of a text's rules are equal.
    ensures { (net : Network) (files : List TreeFile) (pieces : List (List ℕ)) (a b : List Violation) → AreViolations net files pieces a → AreViolations net files pieces b → a ≡ b }
{}

/// Each path that a rule forbids has an import that breaks the rule; so without these imports no such path is left.
pub fn violations_cover_paths()
    // On a path that the rule of a line forbids, not every import keeps this rule.
    ensures { (net : Network) (files : List TreeFile) (pieces : List (List ℕ)) (line : ℕ) (path : List ℕ) → IsForbiddenPath net files pieces line path
        → ((k : ℕ) → IsOnPath net path k → BreaksRule net files pieces line k → ⊥) → ⊥ }
{}

/// Each import that breaks a rule is needed: it is on a path that the rule forbids, whose other imports don't break the rule.
pub fn each_violation_is_needed()
    // The import is on a forbidden path, and each import of that path that breaks the rule has its two modules.
    ensures { (net : Network) (files : List TreeFile) (pieces : List (List ℕ)) (line k : ℕ) → BreaksRule net files pieces line k
        → (path : List ℕ) × IsForbiddenPath net files pieces line path × IsOnPath net path k
        × ((other : ℕ) → IsOnPath net path other → BreaksRule net files pieces line other → ((import_at net other).from ≡ (import_at net k).from) × ((import_at net other).to ≡ (import_at net k).to)) }
{}
