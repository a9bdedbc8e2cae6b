//! Laws of pictures, proved as contracts of functions with an empty body.
ghost use Rattle.std.specs.Prelude.{◌≡◌, ℕ, Bool, List, [], All, filter};
ghost use Rattle.cut_net.specs.declared.priced.Priced.{Priced};
ghost use Rattle.cut_net.specs.Cuts.{Any, Chain};
ghost use Rattle.cut_net.specs.Network.{Network};
ghost use Rattle.cut_net.specs.Pins.{IsPinChain};
ghost use Rattle.cut_net.specs.WellFormed.{IsNetwork};
ghost use Rattle.cut_dot.specs.Ends.{is_chain_end};
ghost use Rattle.cut_dot.specs.Pictures.{numbers, path_imports, AreStillReached, IsFlowPicture, IsPicture};
ghost use Rattle.cut_dot.specs.Texts.{picture_text, NeedsNoEscape};

/// If no path leads from A to B, the picture has only A and B, and no import.
pub fn only_ends_without_path()
    // If no path leads from a to b, the text of a picture is that of a graph with a and b and no import.
    ensures { (net : Network) (a b : ℕ) (printed flow : List Priced) (text : List ℕ) → IsPicture net a b printed flow text →
        (Chain net.imports Any a b → ⊥) →
        (reached : ℕ → Bool) × AreStillReached net a printed reached × (text ≡ picture_text net a b printed flow reached (filter (is_chain_end a b) (numbers net)) []) }
{}

/// If a cut removes no import and gives none flow, its picture by flow has only A and B, and no import.
pub fn only_ends_without_flow()
    // The text of a picture by flow, with nothing removed and no flow, is that of a graph with a and b and no import.
    ensures { (net : Network) (a b : ℕ) (text : List ℕ) → IsFlowPicture net a b [] [] text →
        (reached : ℕ → Bool) × AreStillReached net a [] reached × (text ≡ picture_text net a b [] [] reached (filter (is_chain_end a b) (numbers net)) []) }
{}

/// The picture of a path of pinned imports from A to B has all imports of the path.
pub fn path_of_pins_is_drawn()
    // The path is one of pinned imports in the network that has only the imports of the picture.
    ensures { (net : Network) (a b : ℕ) (path : List ℕ) → IsPinChain net a b path → IsPinChain (record net { imports = path_imports net path }) a b path }
{}

/// The names of a network's modules need no escape between quotation marks.
pub fn names_need_no_escape()
    // No name has a quotation mark or a backslash.
    ensures { (net : Network) → IsNetwork net → All NeedsNoEscape net.names }
{}
