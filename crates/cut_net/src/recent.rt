//! Caches of lookups. Most lines name modules that an earlier line names: a cached index is verified by one comparison, which saves a
//! lookup in the hash table. A second cache finds repeated imports early.
//! A slot is chosen by multiplicative hashing (Knuth, volume 3, 6.4), and the hash is reduced to the number of slots by a product and a
//! shift (Lemire 2019).
ghost use Rattle.std.specs.Prelude.{◌≡◌, ◌<◌, [], IfOk, IfSome, OnOk, length, true};
ghost use Rattle.cut_net.specs.NetList.{HaveImportBetween};
ghost use Rattle.std.specs.List.{slice_index_or};
ghost use Rattle.cut_net.specs.NetReading.{with_name};
ghost use Rattle.cut_net.specs.Network.{texts};

use crate::Priced;
use crate::builder::intern_name;
use indexmap::IndexSet;
use std::alloc::{AllocError, Global};
use text_hash::Seed;

/// The name cache has a slot for each 64 bytes of a text (about three lines), but at most `MOST_SLOTS`.
const BYTES_A_SLOT: usize = 64;

const MOST_SLOTS: usize = 32768;

/// Slots for each name of a given list, so that few names collide.
const SLOTS_A_NAME: usize = 4;

/// There is a slot for imports for each 8 bytes of a text, so that few slots are occupied, but at most `MOST_IMPORT_SLOTS`.
const BYTES_AN_IMPORT: usize = 8;

const MOST_IMPORT_SLOTS: usize = 131_072;

/// The number of consecutive slots that are probed for an import.
const TRIES: usize = 8;

/// Indices of names, each in the slot that the name's hash chooses. A slot has the index of one of the names that choose it, so an index
/// is used only if the name at the index is equal.
#[derive(Drop)]
pub(crate) struct NameCache {
    slots: Vec<u16>,
}

/// The bytes as a number in base 256: a hash of at most three bytes.
fn hash_short(bytes: &[u8]) -> u64 {
    let mut mix = 0u64;
    for byte in bytes {
        mix = mix.wrapping_mul(256).wrapping_add(u64::from(*byte));
    }
    mix
}

/// A hash of the first and the last eight bytes, or four if there are fewer than eight. So a name of at most sixteen bytes is hashed as a
/// whole.
fn hash_ends(bytes: &[u8]) -> u64 {
    if let (Some(first), Some(last)) = (bytes.first_chunk::<8>(), bytes.last_chunk::<8>()) {
        let (first, last) = (u64::from_le_bytes(*first), u64::from_le_bytes(*last));
        return first.wrapping_mul(31).wrapping_add(last);
    }
    if let (Some(first), Some(last)) = (bytes.first_chunk::<4>(), bytes.last_chunk::<4>()) {
        let (first, last) = (u32::from_le_bytes(*first), u32::from_le_bytes(*last));
        return u64::from(first)
            .wrapping_mul(31 << 32)
            .wrapping_add(u64::from(last));
    }
    hash_short(bytes)
}

/// The index of the slot for a hash, below `slots`. No contract depends on it, as it affects only the running time.
fn slot_for_hash(mix: u64, slots: usize) -> usize {
    let spread = mix.wrapping_mul(0x9E37_79B9_7F4A_7C15) >> 32;
    (spread.wrapping_mul(slots as u64) >> 32) as usize
}

/// The slot of a name.
fn slot_of(name: &str, slots: usize) -> usize {
    let bytes = name.as_bytes();
    let mix = hash_ends(bytes).wrapping_add(bytes.len() as u64);
    slot_for_hash(mix, slots)
}

/// `count` slots with value 0. If the allocation fails, there are no slots, and no lookup is cached.
fn empty_slots(alloc: Global, count: usize) -> Vec<u16> {
    match vec![in alloc; 0u16; count] {
        Ok(slots) => slots,
        Err(_) => Vec::new(alloc),
    }
}

/// The index `at`, if `names` has the name `name` there.
fn index_if_equal(names: &IndexSet<String, Seed>, at: usize, name: &str) -> Option<usize>
    ensures within { IfSome result (λ at. at < length (texts names.now.keys)) }
    ensures place { IfSome result (λ at. slice_index_or (texts names.now.keys) at [] ≡ name.now) }
{
    let kept = names.get_index(at)?;
    if kept.as_str() == name {
        Some(at)
    } else {
        None
    }
}

impl NameCache {
    /// An empty cache for the names of a text of `bytes` bytes.
    pub(crate) fn new(alloc: Global, bytes: usize) -> NameCache {
        NameCache {
            slots: empty_slots(alloc, (bytes / BYTES_A_SLOT).min(MOST_SLOTS)),
        }
    }

    /// A cache of the indices of these names.
    pub(crate) fn from_names(alloc: Global, names: &[String]) -> NameCache {
        let mut slots = empty_slots(alloc, names.len().saturating_mul(SLOTS_A_NAME));
        for (at, name) in names.iter().enumerate() {
            let slot = slot_of(name.as_str(), slots.len());
            if let Some(kept) = slots.get_mut(slot) {
                *kept = u16::try_from(at).unwrap_or(0);
            }
        }
        NameCache { slots }
    }

    /// The index in the name's slot, which may be that of another name.
    pub(crate) fn cached_index(&self, name: &str) -> usize {
        let slot = slot_of(name, self.slots.len());
        usize::from(self.slots.get(slot).copied().unwrap_or(0))
    }

    /// The index of the name in `names`, to which a new name is appended. Looks into the name's slot first.
    pub(crate) fn intern(
        &mut self,
        alloc: Global,
        names: &mut IndexSet<String, Seed>,
        name: &str,
    ) -> Result<usize, AllocError>
        ensures names { OnOk result (texts names.new.keys ≡ with_name (texts names.old.keys) name.now) }
        ensures within { IfOk result (λ at. at < length (texts names.new.keys)) }
        ensures place { IfOk result (λ at. slice_index_or (texts names.new.keys) at [] ≡ name.now) }
    {
        let slot = slot_of(name, self.slots.len());
        let recent = self.slots.get(slot).copied().unwrap_or(0);
        if let Some(at) = index_if_equal(names, usize::from(recent), name) {
            return Ok(at);
        }
        let at = intern_name(alloc, names, name)?;
        if let Some(recent) = self.slots.get_mut(slot) {
            *recent = u16::try_from(at).unwrap_or(0);
        }
        Ok(at)
    }
}

/// Indices of imports in hash slots with linear probing: an import is in the first free one of the `TRIES` slots from its hash on. A slot
/// has the index plus one, or 0 if it is free. No index is replaced, so an import with a slot is found again.
#[derive(Drop)]
pub(crate) struct ImportSlots {
    slots: Vec<u16>,
    all: bool,
}

/// Whether the import at this index has these two modules.
fn is_between(imports: &[Priced], at: usize, from: u32, to: u32) -> bool
    ensures { result ≡ true → HaveImportBetween imports.now from to }
{
    match imports.get(at) {
        Some(import) => import.from == from && import.to == to,
        None => false,
    }
}

impl ImportSlots {
    /// Free slots for the imports of a text of `bytes` bytes.
    pub(crate) fn new(alloc: Global, bytes: usize) -> ImportSlots {
        ImportSlots {
            slots: empty_slots(alloc, (bytes / BYTES_AN_IMPORT).min(MOST_IMPORT_SLOTS)),
            all: true,
        }
    }

    /// Whether each import passed to `find_or_insert` got a slot, so that no repeat was missed.
    pub(crate) fn has_slot_for_each(&self) -> bool {
        self.all
    }

    /// Returns true if the slots show that `imports` has an import of these modules. Otherwise stores the index that the next import of the
    /// list will have, if one of its slots is free.
    pub(crate) fn find_or_insert(&mut self, imports: &[Priced], from: u32, to: u32) -> bool
        ensures { result ≡ true → HaveImportBetween imports.now from to }
    {
        let mix = u64::from(from)
            .wrapping_mul(8192)
            .wrapping_add(u64::from(to));
        let first = slot_for_hash(mix, self.slots.len());
        for slot in first..first.saturating_add(TRIES).min(self.slots.len()) {
            let kept = self.slots[slot];
            if kept == 0 {
                self.slots[slot] = u16::try_from(imports.len().saturating_add(1)).unwrap_or(0);
                return false;
            }
            if is_between(imports, usize::from(kept - 1), from, to) {
                return true;
            }
        }
        self.all = false;
        false
    }
}
