//! Laws of cuts, flows and texts, proved as contracts of functions with an empty body: weak duality of cuts and flows, the minimal source
//! side, and the reported imports.
ghost use Rattle.std.specs.Prelude.{ℕ, ◌≡◌, ◌≢◌, ◌↔◌, ◌<◌, Bool, true, false, length, Contains, List, [], Result};
ghost use Rattle.cut_net.specs.declared.price_fault.PriceFault.{PriceFault};
ghost use Rattle.cut_net.specs.declared.priced.Priced.{Priced};
ghost use Rattle.cut_net.specs.Network.{Network};
ghost use Rattle.cut_net.specs.WellFormed.{AreBetween};
ghost use Rattle.cut_net.specs.NetText.{IsNetOutcome, NetError};
ghost use Rattle.cut_net.specs.Prices.{IsPriceOutcome};
ghost use Rattle.cut_net.specs.AnswerClaim.{AnswerClaim};
ghost use Rattle.cut_net.specs.Lines.{IsAnswer, IsCheapestAnswer};
ghost use Rattle.cut_net.specs.Pins.{ArePins, AreReportedWithPins, IsAnswerWithPins, IsCheapestAnswerWithPins, IsCheapestWithPins, IsCutWithPins, IsFlowWithPins, InSourceSideWithPins, PinChain};
ghost use Rattle.cut_net.specs.Cuts.{IsSetOf, AreReported, Chain, IsCut, IsCheapest, IsFlow, LeavesSourceSide, InSourceSide, Outside, Reached, weight, without};

use crate::Priced;

/// A cut that weighs as much as the value of a flow is cheapest (weak duality; Ford and Fulkerson 1956).
pub fn weak_duality()
    // No cut weighs less.
    ensures { (net : Network) (a b : ℕ) (x : Priced → Bool) (flow : Priced → ℕ) →
        AreBetween net.imports (length net.names) → a < length net.names →
        IsCut net a b x → IsFlow net a b flow (weight net.imports x) →
        IsCheapest net a b x }
{}

/// If b isn't reachable from a in the residual graph of a flow, the modules reachable from a there are the minimal source side. So this
/// side doesn't depend on which maximum flow was found, nor on the algorithm that found it.
pub fn residual_reach_is_source_side()
    // The reachable modules are the minimal source side.
    ensures { (net : Network) (a b : ℕ) (flow : Priced → ℕ) (value : ℕ) (modules : ℕ → Bool) →
        AreBetween net.imports (length net.names) → a < length net.names → IsFlow net a b flow value →
        IsSetOf modules (Reached net flow a) → modules b ≡ false →
        IsSetOf modules (InSourceSide net a b) }
{}

/// If b isn't reachable from a in the residual graph of a flow, the reported imports are a cheapest cut, whose weight is the value of the
/// flow.
pub fn reported_is_cheapest()
    // The reported imports are a cheapest cut, and weigh as much as the flow's value.
    ensures { (net : Network) (a b : ℕ) (flow : Priced → ℕ) (value : ℕ) (modules : ℕ → Bool) →
        AreBetween net.imports (length net.names) → a < length net.names → IsFlow net a b flow value →
        IsSetOf modules (Reached net flow a) → modules b ≡ false →
        (x : Priced → Bool) → AreReported net a b x →
        IsCheapest net a b x × (weight net.imports x ≡ value) }
{}

/// Each reported import is needed: if only the others are removed, a path leads from a to b.
pub fn reported_are_needed()
    // A path avoids all reported imports but the given one.
    ensures { (net : Network) (a b : ℕ) (x : Priced → Bool) →
        AreBetween net.imports (length net.names) → a < length net.names → AreReported net a b x →
        (i : Priced) → Contains net.imports i → x i ≡ true → Chain net.imports (Outside (without x i)) a b }
{}

/// An import has weight 0 if it leaves the minimal source side and isn't reported.
pub fn unreported_weigh_nothing()
    // The weight of the import is 0.
    ensures { (net : Network) (a b : ℕ) (x : Priced → Bool) →
        AreBetween net.imports (length net.names) → a < length net.names → AreReported net a b x →
        (i : Priced) → Contains net.imports i → LeavesSourceSide net a b i → x i ≡ false → i.amount ≡ 0 }
{}

/// If no path of pinned imports leads from a to b, a solver may ignore pins: its answer is right with pins too. The reason is that the
/// weight of a pinned import exceeds the weight of a cheapest cut.
pub fn answer_stays_right_with_pins()
    // A solver's answer without regard to pins is one with pins.
    ensures answer { (net : Network) (a b : ℕ) (claim : AnswerClaim) → ArePins net → (PinChain net a b → ⊥) →
        IsAnswer net a b claim → IsCheapestAnswer net a b claim → IsAnswerWithPins net a b claim }
    // A cheapest cut without regard to pins is cheapest with pins.
    ensures cheapest { (net : Network) (a b : ℕ) (claim : AnswerClaim) → ArePins net → (PinChain net a b → ⊥) →
        IsAnswer net a b claim → IsCheapestAnswer net a b claim → IsCheapestAnswerWithPins net a b claim }
{}

/// If no path of pinned imports leads from a to b, the definitions of the minimal source side and of the reported imports with pins agree
/// with those without pins. A flow by the definition without pins is always a flow with pins.
pub fn source_side_with_pins()
    // The minimal source sides agree.
    ensures near { (net : Network) (a b m : ℕ) → ArePins net → (PinChain net a b → ⊥) → InSourceSideWithPins net a b m ↔ InSourceSide net a b m }
    // The reported imports agree.
    ensures printed { (net : Network) (a b : ℕ) (x : Priced → Bool) → ArePins net → (PinChain net a b → ⊥) → AreReportedWithPins net a b x ↔ AreReported net a b x }
    // A flow that is within the weights of all imports, also of the pinned ones, is a flow with pins.
    ensures flow { (net : Network) (a b : ℕ) (flow : Priced → ℕ) (value : ℕ) → IsFlow net a b flow value → IsFlowWithPins net a b flow value }
{}

/// A cut of unpinned imports that weighs as much as the value of a flow is cheapest among the cuts of unpinned imports. The flow over
/// pinned imports may be of any size.
pub fn weak_duality_with_pins()
    // No cut of unpinned imports weighs less.
    ensures { (net : Network) (a b : ℕ) (x : Priced → Bool) (flow : Priced → ℕ) →
        AreBetween net.imports (length net.names) → a < length net.names →
        IsCutWithPins net a b x → IsFlowWithPins net a b flow (weight net.imports x) →
        IsCheapestWithPins net a b x }
{}

/// If a path of pinned imports leads from a to b, no set of unpinned imports is a cut.
pub fn pinned_path_excludes_cut()
    // A path of pinned imports and a cut of unpinned ones exclude each other.
    ensures { (net : Network) (a b : ℕ) (x : Priced → Bool) → PinChain net a b → IsCutWithPins net a b x → ⊥ }
{}

/// Each import reported by the definition with pins is needed: if only the other reported imports are removed, a path leads from a to b.
pub fn reported_with_pins_are_needed()
    // A path avoids all reported imports but the given one.
    ensures { (net : Network) (a b : ℕ) (x : Priced → Bool) →
        AreBetween net.imports (length net.names) → a < length net.names → ArePins net → (PinChain net a b → ⊥) → AreReportedWithPins net a b x →
        (i : Priced) → Contains net.imports i → x i ≡ true → Chain net.imports (Outside (without x i)) a b }
{}

/// If nothing is pinned, each definition with pins (`IsCutWithPins` and so on) agrees with the one without.
pub fn agrees_without_pins()
    // A network without pins satisfies the invariant of pins.
    ensures pins { (net : Network) → net.pins ≡ [] → ArePins net }
    // A set of imports is a cut with pins if and only if it is a cut.
    ensures cut { (net : Network) (a b : ℕ) (x : Priced → Bool) → net.pins ≡ [] → IsCutWithPins net a b x ↔ IsCut net a b x }
    // A set of imports is a cheapest cut with pins if and only if it is a cheapest cut.
    ensures cheapest { (net : Network) (a b : ℕ) (x : Priced → Bool) → net.pins ≡ [] → IsCheapestWithPins net a b x ↔ IsCheapest net a b x }
    // The minimal source side with pins has the same modules as the one without.
    ensures near { (net : Network) (a b m : ℕ) → net.pins ≡ [] → a ≢ b → InSourceSideWithPins net a b m ↔ InSourceSide net a b m }
    // The definitions with and without pins report the same imports.
    ensures printed { (net : Network) (a b : ℕ) (x : Priced → Bool) → net.pins ≡ [] → a ≢ b → AreReportedWithPins net a b x ↔ AreReported net a b x }
    // A function is a flow with pins of this value if and only if it is a flow of this value.
    ensures flow { (net : Network) (a b : ℕ) (flow : Priced → ℕ) (value : ℕ) → net.pins ≡ [] → IsFlowWithPins net a b flow value ↔ IsFlow net a b flow value }
{}

/// A text has at most one outcome: a network or a first error.
pub fn outcome_is_unique()
    // Two outcomes of one text are equal.
    ensures { (bytes : List ℕ) (o p : Result Network NetError) → IsNetOutcome bytes o → IsNetOutcome bytes p → o ≡ p }
{}

/// A prices file has at most one outcome for a network: the network with the prices, or a first error.
pub fn price_outcome_is_unique()
    // Two outcomes of one prices file for one network are equal.
    ensures { (net : Network) (bytes : List ℕ) (o p : Result Network PriceFault) → IsPriceOutcome net bytes o → IsPriceOutcome net bytes p → o ≡ p }
{}
