//! Laws of symbols and their strings, proved as contracts of functions with an empty body.
ghost use Rattle.std.specs.Prelude.{◌≡◌, ◌<◌, ◌⊎◌, ℕ, List, Ok, Result, length};
ghost use Rattle.scip_symbol.specs.declared.fault.SymbolFault.{SymbolFault};
ghost use Rattle.scip_symbol.specs.declared.symbol.Symbol.{Symbol};
ghost use Rattle.scip_symbol.specs.SymbolTexts.{canonical_text, SymbolModel, SymbolText};
ghost use Rattle.scip_symbol.specs.Views.{symbol_model};
ghost use Rattle.scip_symbol.specs.Outcomes.{AreOfMethods, IsReadOutcome, IsWritable, IsWriteOutcome};

/// At most one symbol has a given string.
pub fn symbol_is_unique()
    // Two symbols that have one string are equal.
    ensures { (text : List ℕ) (s t : SymbolModel) → SymbolText s text → SymbolText t text → s ≡ t }
{}

/// A symbol that has any string has its canonical string. Each of its other strings is longer, since it has backticks around simple names.
pub fn canonical_text_is_shortest()
    // If a symbol has a string, it has its canonical string.
    ensures text { (s : SymbolModel) (text : List ℕ) → SymbolText s text → SymbolText s (canonical_text s) }
    // Each string of a symbol is its canonical string or is longer.
    ensures shortest { (s : SymbolModel) (text : List ℕ) → SymbolText s text → (text ≡ canonical_text s) ⊎ (length (canonical_text s) < length text) }
{}

/// Two different symbols that have strings have different canonical strings.
pub fn canonical_texts_differ()
    // If two symbols have their canonical strings, and these are equal, the symbols are equal.
    ensures { (s t : SymbolModel) → SymbolText s (canonical_text s) → SymbolText t (canonical_text t) → canonical_text s ≡ canonical_text t → s ≡ t }
{}

/// Every string has an outcome of reading: a symbol or an error.
pub fn read_outcome_exists()
    // Each list of bytes has an outcome of reading.
    ensures { (text : List ℕ) → (o : Result SymbolModel SymbolFault) × IsReadOutcome text o }
{}

/// A string has at most one outcome of reading: a symbol or an error.
pub fn read_outcome_is_unique()
    // Two outcomes of reading one string are equal.
    ensures { (text : List ℕ) (o p : Result SymbolModel SymbolFault) → IsReadOutcome text o → IsReadOutcome text p → o ≡ p }
{}

/// Every symbol has an outcome of writing: its canonical string or an error.
pub fn write_outcome_exists()
    // Each symbol has an outcome of writing.
    ensures { (s : Symbol) → (o : Result (List ℕ) SymbolFault) × IsWriteOutcome (symbol_model s) o }
{}

/// A symbol has at most one outcome of writing: its canonical string or an error. So a symbol that has a string isn't rejected.
pub fn write_outcome_is_unique()
    // Two outcomes of writing one symbol are equal.
    ensures { (s : SymbolModel) (o p : Result (List ℕ) SymbolFault) → IsWriteOutcome s o → IsWriteOutcome s p → o ≡ p }
{}

/// `write` returns the canonical string of a symbol that has no error, unless memory runs out. It returns a string for no other symbol.
/// The type of descriptors guarantees that only methods have a disambiguator.
pub fn what_is_writable_is_written()
    // If a symbol has no error, and only its methods have a disambiguator, the outcome of writing it is its canonical string.
    ensures written { (s : SymbolModel) → AreOfMethods s → IsWritable s → IsWriteOutcome s (Ok (canonical_text s)) }
    // In every symbol only methods have a disambiguator.
    ensures methods_only { (s : Symbol) → AreOfMethods (symbol_model s) }
    // If the outcome of writing a symbol is a string, the symbol has no error.
    ensures only { (s : SymbolModel) (text : List ℕ) → IsWriteOutcome s (Ok text) → IsWritable s }
{}

/// The string that is written for a symbol is read as this symbol, and has no other outcome. So by its clause `only` `read` returns the
/// symbol, unless memory runs out.
pub fn what_is_written_is_read()
    // If the outcome of writing a symbol is a string, the symbol is an outcome of reading the string.
    ensures some { (s : SymbolModel) (text : List ℕ) → IsWriteOutcome s (Ok text) → IsReadOutcome text (Ok s) }
    // If the outcome of writing a symbol is a string, each outcome of reading the string is the symbol.
    ensures only { (s : SymbolModel) (text : List ℕ) (o : Result SymbolModel SymbolFault) → IsWriteOutcome s (Ok text) → IsReadOutcome text o → o ≡ Ok s }
{}
