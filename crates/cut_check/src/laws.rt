//! A law of verdicts, proved as the contract of a function with an empty body.
ghost use Rattle.std.specs.Prelude.{ℕ, ◌≡◌};
ghost use Rattle.cut_net.specs.Network.{Network};
ghost use Rattle.cut_net.specs.AnswerClaim.{AnswerClaim};
ghost use Rattle.cut_net.specs.WellFormed.{IsNetwork};
ghost use Rattle.cut_check.specs.declared.verdict.Verdict.{Verdict};
ghost use Rattle.cut_check.specs.Verdicts.{HasVerdict, IsVerdict};

/// For any answer for two modules, exactly one verdict holds.
pub fn verdict_is_unique()
    // For any answer a verdict holds.
    ensures some { (net : Network) (a b : ℕ) (claim : AnswerClaim) → IsNetwork net → HasVerdict net a b claim }
    // Any two verdicts that hold for one answer are equal.
    ensures only { (net : Network) (a b : ℕ) (claim : AnswerClaim) (verdict other : Verdict) →
        IsVerdict net a b claim verdict → IsVerdict net a b claim other → verdict ≡ other }
{}
