//! Laws of texts and tokens. Each function is a law: its body is empty, and its contract is proved.
ghost use Rattle.std.specs.Prelude.{◌≡◌, ℕ, All, List, Result, true};
ghost use Rattle.ob_scan.specs.declared.fault.ScanFault.{ScanFault};
ghost use Rattle.ob_scan.specs.declared.kind.Kind.TheVariants.{Ident};
ghost use Rattle.ob_scan.specs.declared.token.Token.{Token};
ghost use Rattle.ob_scan.specs.Position.{IsPosition};
ghost use Rattle.ob_scan.specs.Spelling.{AreInText, IsOutcome, Spells};
ghost use Rattle.ob_scan.specs.Texts.{bytes_of};
ghost use Rattle.ob_scan.specs.Tokens.{is_name};

/// A text spells at most one list of tokens.
pub fn spelling_is_unique()
    ensures { (bytes : List ℕ) (ts us : List Token) → Spells bytes ts → Spells bytes us → ts ≡ us }
{}

/// Every text has an outcome: tokens, or an error.
pub fn outcome_exists()
    ensures { (bytes : List ℕ) → (o : Result (List Token) ScanFault) × IsOutcome bytes o }
{}

/// A text has at most one outcome.
pub fn outcome_is_unique()
    ensures { (bytes : List ℕ) (o p : Result (List Token) ScanFault) → IsOutcome bytes o → IsOutcome bytes p → o ≡ p }
{}

/// The tokens that a text spells are in bounds, in order and disjoint, and none is empty.
pub fn tokens_in_text()
    ensures { (bytes : List ℕ) (ts : List Token) → Spells bytes ts → AreInText bytes ts }
{}

/// An offset has at most one line and one column.
pub fn position_is_unique()
    ensures { (bytes : List ℕ) (offset line column row place : ℕ) →
        IsPosition bytes offset line column → IsPosition bytes offset row place →
        (line ≡ row) × (column ≡ place) }
{}

/// The bytes of each identifier that a text spells are a name: a letter, followed by letters and digits.
pub fn identifiers_are_names()
    ensures { (bytes : List ℕ) (ts : List Token) → Spells bytes ts → All (λ t. t.kind ≡ Ident → is_name (bytes_of bytes t) ≡ true) ts }
{}
