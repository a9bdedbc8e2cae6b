//! Answers for two modules: a cut, or a path of pinned imports, which shows that no cut exists.
ghost use Rattle.std.specs.Prelude.{◌≡◌, ◌<◌, IfNone, IfOk, IfSome, length};
ghost use Rattle.cut_net.specs.Answers.{answer_claim, cut_claim};
ghost use Rattle.cut_net.specs.Lines.{IsAnswer, IsCheapestAnswer};
ghost use Rattle.cut_net.specs.Pins.{IsAnswerWithPins, IsCheapestAnswerWithPins, PinChain};

use cut_net::laws::{answer_stays_right_with_pins, pinned_path_excludes_cut};
use cut_net::{Answer, Cut, Net};
use std::alloc::{AllocError, Global};

/// The answer that no cut exists, with the shortest path of pinned imports from `from` to `to`; `None` if there is no such path. Fails if
/// an allocation fails.
pub fn find_blocked_answer(
    alloc: Global,
    net: &Net,
    from: u32,
    to: u32,
) -> Result<Option<Answer>, AllocError>
    // `from` is a module.
    requires from { from < length net.now.names }
    // `to` is a module.
    requires to { to < length net.now.names }
    // With an answer its path is the shortest one of pinned imports, as the definition of answers requires.
    ensures answer { IfOk result (λ found. IfSome found (λ answer. IsAnswerWithPins net.now from to (answer_claim answer))) }
    // If there is an answer, no set of unpinned imports is a cut.
    ensures cheapest { IfOk result (λ found. IfSome found (λ answer. IsCheapestAnswerWithPins net.now from to (answer_claim answer))) }
    // With `None` no path of pinned imports leads from `from` to `to`.
    ensures none { IfOk result (λ found. IfNone found (PinChain net.now from to → ⊥)) }
{
    pinned_path_excludes_cut();
    match net.pinned_chain(from, to)? {
        Some(chain) => Ok(Some(Answer::Blocked { chain })),
        None => Ok(None),
    }
}

/// The answer with this cheapest cut between two modules. The cut was computed as if nothing were pinned. It is still right, since no path
/// of pinned imports leads from `from` to `to`.
pub fn answer_of_cut(net: &Net, cut: Cut, from: u32, to: u32) -> Answer
    // No path of pinned imports leads from `from` to `to`.
    requires free { PinChain net.now from to → ⊥ }
    // If pins are ignored, the cut has exactly the imports to report, their weight and a flow of this value.
    requires answer { IsAnswer net.now from to (cut_claim cut) }
    // No set of imports that is a cut weighs less.
    requires cheapest { IsCheapestAnswer net.now from to (cut_claim cut) }
    // By the definition with pins, the answer has exactly the imports to report, their weight and a flow of this value.
    ensures answer { IsAnswerWithPins net.now from to (answer_claim result) }
    // No set of unpinned imports that is a cut weighs less.
    ensures cheapest { IsCheapestAnswerWithPins net.now from to (answer_claim result) }
{
    answer_stays_right_with_pins();
    net.invariants();
    Answer::Cut(cut)
}
