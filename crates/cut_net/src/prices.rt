//! Prices: changes of the weights and pins of a network's imports.
ghost use Rattle.std.specs.Prelude.{◌≡◌, ◌<◌, ◌≤◌, ◌↔◌, true, Contains, IfErr, IfNone, IfOk, IfSome, IsTrue, List, Option, Result, length, map, slice_index_or, sum_by};
ghost use Rattle.std.specs.List.{flat_map};
ghost use Rattle.cut_net.specs.declared.price_fault.PriceFault.{PriceFault};
ghost use Rattle.cut_net.specs.declared.priced.Priced.{Priced};
ghost use Rattle.cut_net.specs.declared.pin_state.Change.{Change};
ghost use Rattle.cut_net.specs.declared.pin_state.PinState.{PinState};
ghost use Rattle.cut_net.specs.Network.{Network, missing_item};
ghost use Rattle.cut_net.specs.Pins.{most_weight};
ghost use Rattle.cut_net.specs.Prices.{import_with_state, is_named, pin_of_state, pin_state_of, with_pin_states, changed_state, initial_state, IsPriceOutcome, PriceLine, HasOutcome, UnlessMemory};
ghost use Rattle.cut_net.specs.PriceReading.{weight_if_unpinned, AreChanges, AreChangesOf, TakesPricePiece};

use crate::found::{find_import, find_import_index};
use crate::numbering::copy_names;
use crate::pin_state::{Change, PinState};
use crate::price_fault::PriceLineFault;
use crate::price_lines::parse_price_line;
use crate::{Net, PriceFault, Priced};
use std::alloc::{AllocError, Global};

/// The limit on the sum of the weights of unpinned imports.
const MOST_WEIGHT: u64 = 1 << 40;

/// The number of the import between the modules of two names; none if the network lacks it.
pub fn find_import_number(net: &Net, importer: &str, imported: &str) -> Option<usize>
    // It is the number of an import between the modules of these names.
    ensures found { IfSome result (λ k. (k < length net.now.imports) × (is_named net.now importer.now imported.now (slice_index_or net.now.imports k missing_item) ≡ true)) }
    // Without a result the network has no import between them.
    ensures none { IfNone result ((i : Priced) → Contains net.now.imports i → is_named net.now importer.now imported.now i ≡ true → ⊥) }
{
    net.invariants();
    let from = net.index_of(importer)?;
    let to = net.index_of(imported)?;
    find_import_index(
        net.imports(),
        Priced {
            from,
            to,
            amount: 0,
        },
    )
}

/// Parses the bytes between two line ends, and records the change of their line in `changes`, at the number of its import. Empty bytes
/// record nothing.
fn record_change(
    net: &Net,
    changes: &mut Vec<Option<Change>>,
    piece: &[u8],
) -> Result<(), PriceLineFault>
    requires { length changes.old.items ≡ length net.now.imports }
    ensures { (before : List PriceLine) → AreChanges net.now before changes.old.items → TakesPricePiece net.now before piece.now result changes.new.items }
{
    net.invariants();
    if piece.is_empty() {
        return Ok(());
    }
    let Some(line) = parse_price_line(piece) else {
        return Err(PriceLineFault::BadLine);
    };
    let Some(number) = find_import_number(net, line.importer, line.imported) else {
        return Err(PriceLineFault::NoSuchImport);
    };
    if changes[number].is_some() {
        return Err(PriceLineFault::TwicePrice);
    }
    changes[number] = Some(line.change);
    Ok(())
}

/// For each import the change that a line of the file states, `None` if no line is about it. Or the error of the first line that has one.
fn read_changes(alloc: Global, net: &Net, bytes: &[u8]) -> Result<Vec<Option<Change>>, PriceFault>
    ensures changes { IfOk result (λ changes. AreChangesOf net.now bytes.now changes.items) }
    ensures fault { IfErr result (λ fault. UnlessMemory fault (IsPriceOutcome net.now bytes.now (Err fault))) }
{
    let mut changes = vec![in alloc; None; net.imports().len()]?;
    let mut line = 0;
    for piece in bytes.split(|b| *b == b'\n') {
        line += 1;
        if let Err(fault) = record_change(net, &mut changes, piece) {
            return Err(fault.at(line));
        }
    }
    Ok(changes)
}

/// The state of an import after its change, if it has one. `pin` is the import's current pin, with the weight before it was pinned.
fn pin_state_after(import: Priced, pin: Option<Priced>, changes: Option<Change>) -> PinState
    ensures { result ≡ changed_state (initial_state import pin) changes }
{
    let before = match pin {
        Some(pin) => pin.amount,
        None => import.amount,
    };
    match changes {
        Some(Change::Price(weight)) => PinState::WithWeight(weight),
        Some(Change::Pin) => PinState::WithPin(before),
        None => {
            if pin.is_some() {
                PinState::WithPin(before)
            } else {
                PinState::WithWeight(before)
            }
        }
    }
}

/// For each import of the network its weight and whether it is pinned, after its change if it has one.
fn pin_states_of(
    alloc: Global,
    net: &Net,
    changes: &[Option<Change>],
) -> Result<Vec<PinState>, AllocError>
    requires { length changes.now ≡ length net.now.imports }
    ensures { IfOk result (λ pin_states. (claim : Priced → Option Change) → changes.now ≡ map claim net.now.imports →
        pin_states.items ≡ map (λ i. changed_state (pin_state_of net.now i) (claim i)) net.now.imports) }
{
    net.invariants();
    let imports = net.imports();
    let mut pin_states = Vec::new(alloc);
    for number in 0..imports.len() {
        let pin = find_import(net.pins(), imports[number]);
        pin_states.push(pin_state_after(imports[number], pin, changes[number]))?;
    }
    Ok(pin_states)
}

/// Whether the weights of the unpinned imports sum to at most 2^40.
fn are_weights_in_limit(pin_states: &[PinState]) -> bool
    ensures { IsTrue result ↔ (sum_by weight_if_unpinned pin_states.now ≤ most_weight) }
{
    let mut total: u64 = 0;
    for pin_state in pin_states {
        if let PinState::WithWeight(weight) = pin_state {
            if *weight > MOST_WEIGHT - total {
                return false;
            }
            total += *weight;
        }
    }
    true
}

/// The import with the weight that its state gives in the network: 2^40 + 1 if it is pinned.
fn import_with_state(import: Priced, pin_state: PinState) -> Priced
    ensures { result ≡ import_with_state import pin_state }
{
    let amount = match pin_state {
        PinState::WithWeight(weight) => weight,
        PinState::WithPin(_) => MOST_WEIGHT + 1,
    };
    Priced {
        from: import.from,
        to: import.to,
        amount,
    }
}

/// The imports with the weights that their states give in the network: 2^40 + 1 for a pinned import.
fn imports_with_states(
    alloc: Global,
    imports: &[Priced],
    pin_states: &[PinState],
) -> Result<Vec<Priced>, AllocError>
    requires { length pin_states.now ≡ length imports.now }
    ensures { IfOk result (λ changed. (pin_state : Priced → PinState) → pin_states.now ≡ map pin_state imports.now → changed.items ≡ map (λ i. import_with_state i (pin_state i)) imports.now) }
{
    let mut changed = Vec::new(alloc);
    for number in 0..imports.len() {
        changed.push(import_with_state(imports[number], pin_states[number]))?;
    }
    Ok(changed)
}

/// The pinned imports, each with the weight that it had before it was pinned.
fn pins_of_states(
    alloc: Global,
    imports: &[Priced],
    pin_states: &[PinState],
) -> Result<Vec<Priced>, AllocError>
    requires { length pin_states.now ≡ length imports.now }
    ensures { IfOk result (λ pins. (pin_state : Priced → PinState) → pin_states.now ≡ map pin_state imports.now → pins.items ≡ flat_map (λ i. pin_of_state i (pin_state i)) imports.now) }
{
    let mut pins = Vec::new(alloc);
    for number in 0..imports.len() {
        if let PinState::WithPin(amount) = pin_states[number] {
            pins.push(Priced {
                from: imports[number].from,
                to: imports[number].to,
                amount,
            })?;
        }
    }
    Ok(pins)
}

/// The network with these states of its imports.
fn with_pin_states(alloc: Global, net: &Net, pin_states: &[PinState]) -> Result<Net, AllocError>
    requires pin_state { (pin_state : Priced → PinState) × (pin_states.now ≡ map pin_state net.now.imports) }
    requires light { sum_by weight_if_unpinned pin_states.now ≤ most_weight }
    ensures { IfOk result (λ changed. (pin_state : Priced → PinState) → pin_states.now ≡ map pin_state net.now.imports → changed ≡ with_pin_states net.now pin_state) }
{
    net.invariants();
    let names = copy_names(alloc, net.names.as_slice())?;
    let imports = imports_with_states(alloc, net.imports(), pin_states)?;
    let pins = pins_of_states(alloc, net.imports(), pin_states)?;
    Ok(Net::with_pins(names, imports, pins))
}

impl Net {
    /// The network with the prices and pins of the file. Or its error: that of the first line that has one, else `PriceOverflow` if the
    /// weights of the unpinned imports sum to more than 2^40.
    ///
    /// Each line has the syntax of a network's lines. `price M N k` sets the weight of the import of N by M to k, and ends its pin.
    /// `pin M N` pins the import: it can't be removed, and its capacity is unlimited. An import has at most one line; without a line it
    /// keeps its weight and its pin.
    pub fn price(&self, bytes: &[u8]) -> Result<Net, PriceFault>
        // The result is an outcome of the file, unless an allocation failed.
        ensures exact { HasOutcome result (IsPriceOutcome self.now bytes.now) }
        // Any outcome of the file is the result, unless an allocation failed.
        ensures only { (o : Result Network PriceFault) → IsPriceOutcome self.now bytes.now o → HasOutcome result (λ p. p ≡ o) }
    {
        self.priced(bytes)
    }

    /// As `price`, without the clause that the outcome is unique.
    fn priced(&self, bytes: &[u8]) -> Result<Net, PriceFault>
        ensures { HasOutcome result (IsPriceOutcome self.now bytes.now) }
    {
        let alloc = *self.names.allocator();
        let changes = read_changes(alloc, self, bytes)?;
        let pin_states = pin_states_of(alloc, self, &changes)?;
        if !are_weights_in_limit(&pin_states) {
            return Err(PriceFault::PriceOverflow);
        }
        Ok(with_pin_states(alloc, self, &pin_states)?)
    }
}
