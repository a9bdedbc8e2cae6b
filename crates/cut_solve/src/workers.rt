//! A worker: in each critical section it tries the event that it found in the previous one, and finds the next event.
ghost use Rattle.std.specs.Prelude.{◌≡◌, ◌≤◌, ◌↔◌, true, false, IsNone, IfSome};
ghost use Rattle.cut_preflow.specs.declared.event.Event.{Event as EventValue};
ghost use Rattle.cut_preflow.specs.Kept.{IsQuiet};
ghost use Rattle.cut_preflow.specs.Trace.{state_of};
ghost use Rattle.cut_solve.specs.Turns.{CanTry, IsTried};

use crate::{Gate, Locked, Look};
use cut_preflow::{Event, NetworkLedger, Outcome, Preflow, Share};
use std::sync::{MutexGuard, Wait};
use std::thread;

/// The largest number of times that a worker yields to other threads before it tries the lock again.
const MOST_RESTS: u32 = 4096;

/// Yields to other threads this number of times.
fn yield_times(times: u32) {
    for _ in 0..times {
        thread::yield_now();
    }
}

/// Takes the lock. While another worker holds it, yields to other threads, each time twice as often as before, up to `MOST_RESTS` times. A
/// queue of waiting threads would have to wake a thread for each step, which takes longer than the step.
fn lock_with_backoff<'a, L: NetworkLedger, R: Wait>(
    rt: &R,
    locked: &'a Locked<L>,
) -> MutexGuard<'a, Preflow<L>> {
    let mut rests = 1u32;
    for _ in rt.forever() {
        if let Some(guard) = locked.try_lock() {
            return guard;
        }
        yield_times(rests);
        rests = rests.saturating_mul(2).min(MOST_RESTS);
    }
    unreachable!()
}

/// An event of this worker whose step can be applied to the preflow; `Quiet` if no module other than the source and the sink has excess.
pub fn look<L: NetworkLedger>(preflow: &Preflow<L>, worker: u32) -> Look
    // The result is `Quiet` exactly if no module but the source and the sink has excess.
    ensures quiet { (result ≡ Look.Quiet) ↔ IsQuiet preflow.now.trace.net (state_of preflow.now.trace) }
    // If the result has an event, it is this worker's, and its step can be applied to the preflow.
    ensures event { (event : EventValue) → result ≡ Look.Try event → CanTry preflow.now worker event }
{
    match preflow.next_step() {
        None => Look::Quiet,
        Some(step) => Look::Try {
            event: Event { worker, step },
        },
    }
}

/// An event for the worker to try next; if no module is active, marks the worker's share and returns `None`.
fn find_event_or_flag<L: NetworkLedger>(
    preflow: &Preflow<L>,
    number: u32,
    share: &mut Share<L>,
) -> Option<Event>
    ensures some { IfSome result (CanTry preflow.now number) }
    ensures none { IsNone result → share.new.marked ≡ true }
    ensures count { share.new.count ≡ share.old.count }
{
    match look(preflow, number) {
        Look::Try { event } => Some(event),
        Look::Quiet => {
            preflow.note_quiet(share);
            None
        }
    }
}

/// Tries an event, and returns an event for the worker to try next. If no module is active or an allocation failed, the share is marked and
/// the result is `None`.
fn try_and_find_next<L: NetworkLedger>(
    preflow: &mut Preflow<L>,
    event: Event,
    number: u32,
    share: &mut Share<L>,
) -> Option<Event>
    ensures tried { IsTried event preflow.old preflow.new share.old.count share.new.count }
    ensures some { IfSome result (CanTry preflow.new number) }
    ensures none { IsNone result → share.new.marked ≡ true }
{
    if preflow.apply_as(event, share) == Outcome::Refused {
        return None;
    }
    find_event_or_flag(preflow, number, share)
}

/// Runs the worker with this number until no module is active or an allocation fails in a step; then its share is marked and returned.
/// Each critical section tries the event that the previous one found, and finds the next one. An event that no longer applies, since other
/// workers have changed the preflow in between, changes nothing. Calls `gate` between two sections. May wait for the lock.
pub fn worker<L: NetworkLedger, R: Wait, G: Gate>(
    rt: &R,
    locked: &Locked<L>,
    number: u32,
    mut share: Share<L>,
    gate: &G,
) -> Share<L>
    // The share isn't marked yet.
    requires unmarked { share.marked ≡ false }
    // The returned share is marked.
    ensures marked { result.marked ≡ true }
    // The returned share counts at least as many steps as the passed one.
    ensures counted { share.count ≤ result.count }
{
    let Some(mut event) = find_event_or_flag(&*lock_with_backoff(rt, locked), number, &mut share)
    else {
        return share;
    };
    let mut turn = 0u64;
    for _ in rt.forever() {
        gate.at(number, turn);
        turn = turn.saturating_add(1);
        let Some(found) = try_and_find_next(
            &mut *lock_with_backoff(rt, locked),
            event,
            number,
            &mut share,
        ) else {
            return share;
        };
        event = found;
    }
    unreachable!()
}
