//! The dependency scheduler: which modules are claimed and delivered, and which modules each claimed module reaches.
ghost use Rattle.std.specs.Prelude.{◌≡◌, ◌<◌, ◌≤◌, ◌+◌, ◌⊎◌, ℕ, true, false, length, map, replicate, All, IfOk, IfErr, OnOk, ◌++◌, slice_index, slice_set, None, Some};
ghost use Rattle.std.specs.Arc.{arc_value};
ghost use Rattle.std.specs.List.{flat_map};
ghost use Rattle.work_board.specs.Graphs.{lists, list_at, occurrences_in, IsAcyclic, Reaches};
ghost use Rattle.work_board.specs.Cores.{abandoned_after, has_entry, is_claimed, new_core, share_at, shared_part, with_claims_released, AreModuleEntries, AreShares, IsClaim, IsDelivery, IsIdle, IsOver, IsReady, IsDeliveryFault};
ghost use Rattle.work_board.specs.Keeping.{state_after_delivery, state_after_release, state_at, taken, IsFit, IsChosenClaim};

use crate::flags::{cleared_flag_lists, cleared_flags, replace_reached_flags};
use crate::scans::{any_marked, first_free};
use crate::state::State;
use crate::{BoardFault, Claim, Graph, NamedTree, WorkEntry};
use std::alloc::{AllocError, Global};
use std::marker::{Model, PhantomData};
use std::sync::Arc;

/// A dependency scheduler for the modules of a graph, to be guarded by a lock. A worker claims a module, makes its entry and delivers it.
/// A module is ready once the entries of all modules that it imports are delivered. Only `new` and `interfaces` allocate memory.
/// The type parameter `T` identifies the graph, so that schedulers of different graphs have different types.
#[derive(Drop)]
pub struct Board<'g, T: NamedTree, E: WorkEntry> {
    graph: &'g Graph,
    /// For each module its entry, `None` until it is delivered.
    entries: Vec<Option<E>>,
    states: Vec<State>,
    /// For each module how many of its imports aren't delivered.
    waiting: Vec<u32>,
    /// For each module a flag for each module of the graph: whether the first one reaches the second one by imports. The flags of a module
    /// that isn't claimed have no meaning.
    reached: Vec<Vec<bool>>,
    /// Memory for the flags of the next claimed module, so that `claim` need not allocate.
    spare: Vec<bool>,
    abandoned: bool,
    of: PhantomData<T>,
}

impl<'g, T: NamedTree, E: WorkEntry> Model for Board<'g, T, E> {
    ghost use Rattle.std.specs.Prelude.{◌≡◌, map};
    ghost use Rattle.work_board.specs.Graphs.{lists};
    ghost use Rattle.work_board.specs.Cores.{Core};
    ghost use Rattle.work_board.specs.Keeping.{taken, IsValidBoard};

    ghost Value = { Core E };

    ghost view = { λ b. record { entries = b.entries.items; claimed = map taken b.states.items; abandoned = b.abandoned } };

    ghost invariant = { λ b. (b.graph.now ≡ T.graph) × IsValidBoard E.is_of T.graph b.waiting.items b.states.items (lists b.reached.items) b.spare.items b.entries.items };
}

/// Whether all modules are delivered.
fn are_all_delivered(states: &[State]) -> bool
    ensures all { result ≡ true → (k : ℕ) → k < length states.now → state_at states.now k ≡ State.Delivered }
    ensures other { result ≡ false → (k : ℕ) × (k < length states.now) × (state_at states.now k ≡ State.Delivered → ⊥) }
{
    for place in 0..states.len() {
        match states[place] {
            State::Delivered => {}
            State::Waiting | State::Free | State::Claimed => return false,
        }
    }
    true
}

/// The free module with the smallest number. If no module is free, `Finished` or `Later`, depending on whether all are delivered.
fn choose_claim(states: &[State]) -> Claim
    requires { length states.now ≤ 4096 }
    ensures { IsChosenClaim states.now result }
{
    let place = first_free(states);
    if place < states.len() {
        Claim::Module {
            number: place as u32,
        }
    } else if are_all_delivered(states) {
        Claim::Finished
    } else {
        Claim::Later
    }
}

/// The state of a module; `Waiting` if there is no such module.
fn state_of(states: &[State], place: usize) -> State
    ensures value { result ≡ state_at states.now place }
    ensures within { (result ≡ State.Waiting → ⊥) → place < length states.now }
{
    if place < states.len() {
        states[place]
    } else {
        State::Waiting
    }
}

/// Decrements the number of undelivered imports of each module in `importers`, once for each of its occurrences in the list. A module
/// becomes free when this number becomes 0.
fn decrement_waiting(waiting: &mut [u32], states: &mut [State], importers: &[u32])
    requires size { length states.old ≡ length waiting.old }
    requires within { All (λ m. m < length waiting.old) importers.now }
    requires counted { (m : ℕ) → m < length waiting.old → occurrences_in m importers.now ≤ slice_index waiting.old m }
    requires fits_state { (m : ℕ) → m < length waiting.old → IsFit (state_at states.old m) (slice_index waiting.old m) }
    ensures waiting { (m : ℕ) → m < length waiting.old → slice_index waiting.new m + occurrences_in m importers.now ≡ slice_index waiting.old m }
    ensures states { (m : ℕ) → m < length waiting.old → state_at states.new m ≡ state_after_delivery (state_at states.old m) (slice_index waiting.new m) }
{
    for module in importers {
        let place = *module as usize;
        waiting[place] -= 1;
        if waiting[place] == 0 {
            states[place] = State::Free;
        }
    }
}

/// `count` slots without an entry.
fn empty_entries<E: WorkEntry>(alloc: Global, count: usize) -> Result<Vec<Option<E>>, AllocError>
    ensures { IfOk result (λ entries. entries.items ≡ replicate count None) }
{
    let mut entries = Vec::with_capacity(alloc, count)?;
    for _ in 0..count {
        entries.push(None)?;
    }
    Ok(entries)
}

/// For each module the number of its imports, repeated ones counted.
fn import_counts(alloc: Global, graph: &Graph) -> Result<Vec<u32>, AllocError>
    ensures size { IfOk result (λ counts. length counts.items ≡ length graph.now.names) }
    ensures counts { IfOk result (λ counts. (m : ℕ) → m < length graph.now.names → slice_index counts.items m ≡ length (list_at graph.now.imports m)) }
{
    graph.invariants();
    let count = graph.modules();
    let mut counts = Vec::with_capacity(alloc, count as usize)?;
    for module in 0..count {
        counts.push(graph.imports_of(module).len() as u32)?;
    }
    Ok(counts)
}

/// The initial state of a module that has this number of imports.
fn initial_module_state(count: u32) -> State
    ensures { result ≡ state_after_delivery State.Waiting count }
{
    if count == 0 {
        State::Free
    } else {
        State::Waiting
    }
}

/// The initial states of modules with these numbers of imports: a module without imports is free, any other waits.
fn initial_states(alloc: Global, counts: &[u32]) -> Result<Vec<State>, AllocError>
    ensures { IfOk result (λ states. states.items ≡ map (state_after_delivery State.Waiting) counts.now) }
{
    let mut states = Vec::with_capacity(alloc, counts.len())?;
    for count in counts {
        states.push(initial_module_state(*count))?;
    }
    Ok(states)
}

/// Frees each module that is claimed and not delivered.
fn free_all_claimed(states: &mut [State])
    ensures { states.new ≡ map state_after_release states.old }
{
    for place in 0..states.len() {
        if let State::Claimed = states[place] {
            states[place] = State::Free;
        }
    }
}

/// Appends the shared part of the entry to `parts`, if there is an entry.
fn append_shared_part<E: WorkEntry>(
    parts: &mut Vec<Arc<E::Shared>>,
    entry: &Option<E>,
) -> Result<(), AllocError>
    ensures { OnOk result (map arc_value parts.new.items ≡ map arc_value parts.old.items ++ shared_part E.shared_of true entry.now) }
{
    match entry {
        Some(entry) => {
            parts.push(Arc::try_clone(entry.shared())?)?;
            Ok(())
        }
        None => Ok(()),
    }
}

/// The shared parts of those modules of `order` whose flag is set.
fn flagged_shared_parts<E: WorkEntry>(
    alloc: Global,
    flags: &[bool],
    entries: &[Option<E>],
    order: &[u32],
) -> Result<Vec<Arc<E::Shared>>, AllocError>
    requires size { length flags.now ≡ length entries.now }
    requires within { All (λ v. v < length entries.now) order.now }
    ensures { IfOk result (λ parts. map arc_value parts.items ≡ flat_map (share_at E.shared_of flags.now entries.now) order.now) }
{
    let mut parts = Vec::new(alloc);
    for number in order {
        let place = *number as usize;
        if flags[place] {
            append_shared_part(&mut parts, &entries[place])?;
        }
    }
    Ok(parts)
}

/// As `flagged_shared_parts`, but if no flag is set, it doesn't visit the modules one by one.
fn shared_parts<E: WorkEntry>(
    alloc: Global,
    flags: &[bool],
    entries: &[Option<E>],
    order: &[u32],
) -> Result<Vec<Arc<E::Shared>>, AllocError>
    requires size { length flags.now ≡ length entries.now }
    requires within { All (λ v. v < length entries.now) order.now }
    ensures { IfOk result (λ parts. map arc_value parts.items ≡ flat_map (share_at E.shared_of flags.now entries.now) order.now) }
{
    if !any_marked(flags, 0, flags.len()) {
        return Ok(Vec::new(alloc));
    }
    flagged_shared_parts(alloc, flags, entries, order)
}

/// The flags of the module with number `place`.
fn flags_at(rows: &[Vec<bool>], place: usize) -> &[bool]
    requires { place < length rows.now }
    ensures { result.now ≡ list_at (lists rows.now) place }
{
    rows[place].as_slice()
}

/// Whether a module is claimed or delivered.
fn is_claimed_or_delivered(states: &[State], place: usize) -> bool
    ensures { result ≡ taken (state_at states.now place) }
{
    match state_of(states, place) {
        State::Waiting => false,
        State::Free => false,
        State::Claimed => true,
        State::Delivered => true,
    }
}

impl<'g, T: NamedTree, E: WorkEntry> Board<'g, T, E> {
    /// A scheduler for the modules of a graph, with memory for all flags and states.
    pub fn new(alloc: Global, graph: &'g Graph) -> Result<Board<'g, T, E>, AllocError>
        // The graph is the one that the type parameter identifies.
        requires { graph.now ≡ T.graph }
        // No module is claimed, delivered or abandoned.
        ensures { IfOk result (λ board. board ≡ new_core (length T.graph.names)) }
    {
        graph.invariants();
        let count = graph.modules() as usize;
        let waiting = import_counts(alloc, graph)?;
        let states = initial_states(alloc, waiting.as_slice())?;
        let reached = cleared_flag_lists(alloc, count)?;
        let spare = cleared_flags(alloc, count)?;
        let entries = empty_entries(alloc, count)?;
        Ok(Board {
            graph,
            entries,
            states,
            waiting,
            reached,
            spare,
            abandoned: false,
            of: PhantomData,
        })
    }

    /// The invariant of a scheduler.
    pub fn invariants(&self)
        // There is a slot for an entry for each module of the graph.
        ensures size { length self.now.entries ≡ length T.graph.names }
        // Each entry is the entry of its module, by name.
        ensures own { AreModuleEntries E.is_of T.graph.names self.now.entries }
        // A delivered module is claimed.
        ensures claimed { (n : ℕ) → has_entry self.now.entries n ≡ true → is_claimed self.now n ≡ true }
        // All modules that a claimed module reaches are delivered.
        ensures reached { (n v : ℕ) → is_claimed self.now n ≡ true → Reaches T.graph.imports n v → has_entry self.now.entries v ≡ true }
        // There is a flag for each module of the graph, whether it is claimed.
        ensures flags { length self.now.claimed ≡ length T.graph.names }
        // If the graph is acyclic, each claimed module is delivered and no module is ready, then the work is over.
        ensures goes_on { IsAcyclic T.graph.imports → IsIdle self.now → ((n : ℕ) → IsReady T.graph.imports self.now n → ⊥) → IsOver self.now }
    {
        self.graph.invariants();
    }

    /// Whether a claimed module was abandoned, since an allocation failed.
    pub fn is_abandoned(&self) -> bool
        // It is the flag of `abandon`.
        ensures { result ≡ self.now.abandoned }
    {
        self.abandoned
    }

    /// The shared parts of the entries of all modules that a claimed module reaches, sorted by name.
    /// Fails with `NotClaimed` for a module that isn't claimed, and with `Memory`.
    pub fn interfaces(&self, number: u32) -> Result<Vec<Arc<E::Shared>>, BoardFault>
        // They are the shared parts of exactly the modules that the module reaches, sorted by name.
        ensures shared_parts { IfOk result (λ parts. AreShares E.shared_of T.graph self.now number (map arc_value parts.items)) }
        // The module is claimed.
        ensures claimed { IfOk result (λ parts. is_claimed self.now number ≡ true) }
        // The error is `NotClaimed` for a module that isn't claimed, or else `Memory`.
        ensures refused { IfErr result (λ fault. ((fault ≡ BoardFault.NotClaimed) × (is_claimed self.now number ≡ false)) ⊎ (fault ≡ BoardFault.Memory)) }
    {
        if !is_claimed_or_delivered(self.states.as_slice(), number as usize) {
            return Err(BoardFault::NotClaimed);
        }
        self.graph.invariants();
        let flags = flags_at(self.reached.as_slice(), number as usize);
        Ok(shared_parts(
            *self.entries.allocator(),
            flags,
            self.entries.as_slice(),
            self.graph.by_name(),
        )?)
    }

    /// Claims the ready module with the smallest number, unless the work is over: all modules are delivered, or one was abandoned.
    pub fn claim(&mut self) -> Claim
        // The result is `Finished` if the work is over, the claimed module, or `Later` if no module is ready.
        ensures { IsClaim T.graph.imports self.old result self.new }
    {
        if self.abandoned {
            return Claim::Finished;
        }
        self.graph.invariants();
        let claim = choose_claim(self.states.as_slice());
        if let Claim::Module { number } = claim {
            self.claim_ready(number);
        }
        claim
    }

    /// Claims a ready module, and sets the flags of the modules that it reaches.
    fn claim_ready(&mut self, number: u32)
        requires { IsReady T.graph.imports self.old number }
        ensures { self.new ≡ record self.old { claimed = slice_set self.old.claimed number true } }
    {
        self.graph.invariants();
        let place = number as usize;
        replace_reached_flags(
            &mut self.reached,
            &mut self.spare,
            place,
            self.graph.imports_of(number),
        );
        self.states[place] = State::Claimed;
    }

    /// The error with which the delivery of this entry fails; `None` if it succeeds.
    fn delivery_fault(&self, number: u32, entry: &E) -> Option<BoardFault>
        ensures fits_state { IsDeliveryFault T.graph.names (E.name_of entry.now) self.now number result }
        ensures kept { E.is_of (E.name_of entry.now) entry.now }
        ensures within { result ≡ None → number < length T.graph.names }
    {
        let name = entry.name();
        match state_of(self.states.as_slice(), number as usize) {
            State::Waiting => Some(BoardFault::NotClaimed),
            State::Free => Some(BoardFault::NotClaimed),
            State::Delivered => Some(BoardFault::Twice),
            State::Claimed => {
                if name == self.graph.name(number) {
                    None
                } else {
                    Some(BoardFault::WrongModule)
                }
            }
        }
    }

    /// Stores the entry of a claimed module, which is delivered then. Frees the modules that waited only for this one.
    fn store(&mut self, number: u32, entry: E)
        requires within { number < length T.graph.names }
        requires claimed { is_claimed self.old number ≡ true }
        requires none { has_entry self.old.entries number ≡ false }
        requires own { E.is_of (list_at T.graph.names number) entry }
        ensures { self.new ≡ record self.old { entries = slice_set self.old.entries number (Some entry) } }
    {
        self.graph.invariants();
        let place = number as usize;
        self.entries[place] = Some(entry);
        self.states[place] = State::Delivered;
        decrement_waiting(
            self.waiting.as_mut_slice(),
            self.states.as_mut_slice(),
            self.graph.importers_of(number),
        );
    }

    /// Delivers the entry of a claimed module. An error returns the entry, and nothing changes.
    /// Fails with `NotClaimed` if the module isn't claimed, else with `Twice` if it is delivered, else with `WrongModule` if the entry is
    /// that of a module of another name.
    pub fn deliver(&mut self, number: u32, entry: E) -> Result<(), (BoardFault, E)>
        // The entry is stored, or returned with the first of these errors while nothing changes.
        ensures { IsDelivery T.graph.names (E.name_of entry) entry number self.old result self.new }
    {
        match self.delivery_fault(number, &entry) {
            Some(fault) => Err((fault, entry)),
            None => {
                self.store(number, entry);
                Ok(())
            }
        }
    }

    /// Records that an allocation failed for a claimed module, which stays claimed. Changes nothing for a module that isn't claimed or
    /// that is delivered.
    pub fn abandon(&mut self, number: u32)
        // The flag `abandoned` is set if the module is claimed and not delivered, or if it was set before.
        ensures { self.new ≡ record self.old { abandoned = abandoned_after self.old number } }
    {
        if let Some(State::Claimed) = self.states.get(number as usize) {
            self.abandoned = true;
        }
    }

    /// Frees each module that is claimed and not delivered, so that it can be claimed again. Called once all workers have ended.
    pub fn release_claims(&mut self)
        // No worker holds a module.
        ensures idle { IsIdle self.new }
        // A module is claimed exactly if it is delivered, and nothing else changes.
        ensures back { self.new ≡ with_claims_released self.old }
    {
        free_all_claimed(self.states.as_mut_slice());
    }

    /// The entries by module number, `None` for a module that isn't delivered.
    pub fn gather(self) -> Vec<Option<E>>
        // They are the entries of the scheduler.
        ensures entries { result.items ≡ self.entry.entries }
        // There is a slot for each module of the graph.
        ensures size { length result.items ≡ length T.graph.names }
        // Each entry is the entry of its module, by name.
        ensures own { AreModuleEntries E.is_of T.graph.names result.items }
    {
        let Board {
            graph: _,
            entries,
            states: _,
            waiting: _,
            reached: _,
            spare: _,
            abandoned: _,
            of: _,
        } = self;
        entries
    }
}
