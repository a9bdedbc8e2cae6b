//! Laws of answers, proved as contracts of functions with an empty body.
ghost use Rattle.std.specs.Prelude.{◌≡◌, ℕ, Err, List, Result};
ghost use Rattle.cut_net.specs.Network.{Network};
ghost use Rattle.cut_net.specs.Pins.{ArePins};
ghost use Rattle.cut_net.specs.AnswerClaim.{AnswerClaim};
ghost use Rattle.cut_net.specs.WellFormed.{IsNetwork};
ghost use Rattle.cut_solve.specs.Solving.{AreEqualOutcomes, IsSolveOutcome, SolveError};

/// If two names have an error as an outcome, they have no other outcome.
pub fn error_is_unique()
    // If an error is an outcome for two names, each outcome for them is this error.
    ensures { (net : Network) (from to : List ℕ) (refusal : SolveError) (o : Result AnswerClaim SolveError) → IsSolveOutcome net from to (Err refusal) → IsSolveOutcome net from to o → o ≡ Err refusal }
{}

/// Any two names have an outcome in every network: a cheapest cut with a flow of its weight, a path of pinned imports, or an error in the
/// names.
pub fn outcome_exists()
    // In any network with valid pins, any two names have an outcome.
    ensures { (net : Network) (from to : List ℕ) → IsNetwork net → ArePins net → (o : Result AnswerClaim SolveError) × IsSolveOutcome net from to o }
{}

/// The outcome for two names is unique apart from the flow: two outcomes have equal cuts and weights, equal paths of pinned imports, or
/// equal errors.
pub fn outcome_is_unique_but_for_flow()
    // Two outcomes differ at most in their flows.
    ensures { (net : Network) (from to : List ℕ) (o p : Result AnswerClaim SolveError) → IsSolveOutcome net from to o → IsSolveOutcome net from to p → AreEqualOutcomes o p }
{}
