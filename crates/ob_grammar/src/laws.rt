//! Laws of trees and errors. Each function is a law: its body is empty, and its contract is proved.
ghost use Rattle.std.specs.Prelude.{◌≡◌, ◌≢◌, ◌≤◌, ℕ, List, length, Ok};
ghost use Rattle.ob_scan.specs.Spelling.{IsOutcome};
ghost use Rattle.ob_scan.specs.declared.kind.Kind.{Kind};
ghost use Rattle.ob_scan.specs.declared.token.Token.{Token};
ghost use Rattle.ob_tree.specs.Declaring.{module_events};
ghost use Rattle.ob_tree.specs.Derives.{Derives};
ghost use Rattle.ob_tree.specs.declared.declaration.Module.{Module};
ghost use Rattle.ob_grammar.specs.Parsed.{IsTheTree, IsFaultOf, IsStartOrEnd, IsTokenStart};
ghost use Rattle.ob_grammar.specs.declared.fault.ParseFault.{ParseFault};
ghost use Rattle.ob_grammar.specs.declared.fault.ParseFault.TheVariants as faults;

/// The grammar is unambiguous: two trees that derive the tokens have equal event sequences.
pub fn tree_is_unique()
    ensures { (kinds : List Kind) (m n : Module) → Derives kinds m → Derives kinds n → module_events m ≡ module_events n }
{}

/// If a tree of at most 200 levels, with right names after END, derives the tokens of a text, the text has no error but Memory.
pub fn tree_excludes_fault()
    ensures { (bytes : List ℕ) (ts : List Token) (m : Module) (fault : ParseFault) → IsTheTree bytes ts m → IsFaultOf bytes ts fault → fault ≡ faults.Memory }
{}

/// A text has at most one error but Memory: one of Syntax, TooDeep and EndName, at one offset.
pub fn fault_is_unique()
    ensures { (bytes : List ℕ) (ts : List Token) (f g : ParseFault) → IsFaultOf bytes ts f → IsFaultOf bytes ts g →
        (f ≢ faults.Memory) → (g ≢ faults.Memory) → f ≡ g }
{}

/// At the offset of TooDeep a token begins; at that of Syntax a token begins or the text ends.
pub fn fault_offsets()
    ensures syntax { (bytes : List ℕ) (ts : List Token) (at : ℕ) → IsFaultOf bytes ts (faults.Syntax at) → IsStartOrEnd bytes ts at }
    ensures deep { (bytes : List ℕ) (ts : List Token) (at : ℕ) → IsFaultOf bytes ts (faults.TooDeep at) → IsTokenStart ts at }
{}

/// The offset at which a token begins or the text ends is at most the length of the text.
pub fn offsets_in_text()
    ensures { (bytes : List ℕ) (ts : List Token) (at : ℕ) → IsOutcome bytes (Ok ts) → IsStartOrEnd bytes ts at → at ≤ length bytes }
{}
