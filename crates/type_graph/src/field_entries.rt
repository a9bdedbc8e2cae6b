//! The fields of the records on heavy paths, sorted by name, then by the index of the record.
ghost use Rattle.std.specs.Prelude.{◌≡◌, IsPermutation};
ghost use Rattle.std.specs.Ordering.{is_le};
ghost use Rattle.type_graph.specs.PathOrder.{field_key_cmp, field_key_of, IsSortedByName, IsSlotAfter, IsCountUpTo};

use std::cmp::Ordering;

/// A field that a record declares itself: its name, and the index of the record.
#[derive(Drop)]
pub(crate) struct FieldEntry {
    pub(crate) name: Vec<u8>,
    pub(crate) slot: usize,
}

/// Compares a field with a name and the index of a record: by name, then by index.
fn compare_field(it: &FieldEntry, name: &[u8], slot: usize) -> Ordering
    ensures { result ≡ field_key_cmp (field_key_of it.now) (name.now, slot) }
{
    match it.name.as_slice().cmp(&name) {
        Ordering::Equal => it.slot.cmp(&slot),
        Ordering::Less => Ordering::Less,
        Ordering::Greater => Ordering::Greater,
    }
}

/// Sorts fields by name, then by the index of their record.
pub(crate) fn sort_by_name(fields: &mut Vec<FieldEntry>)
    ensures sorted { IsSortedByName fields.new.items }
    ensures same { IsPermutation fields.old.items fields.new.items }
{
    fields.sort_unstable_by(|a, b| compare_field(a, b.name.as_slice(), b.slot));
}

/// Whether a field comes before the name and index `slot`, or has both.
fn is_at_most(it: &FieldEntry, name: &[u8], slot: usize) -> bool
    ensures { result ≡ is_le (field_key_cmp (field_key_of it.now) (name.now, slot)) }
{
    compare_field(it, name, slot).is_le()
}

/// The number of fields that come before the name and index `slot`, or have both. The fields are sorted.
fn count_up_to(fields: &[FieldEntry], name: &[u8], slot: usize) -> usize
    requires { IsSortedByName fields.now }
    ensures { IsCountUpTo fields.now (name.now, slot) result }
{
    fields.partition_point(
        |it: &FieldEntry| -> bool
            ensures { result ≡ is_le (field_key_cmp (field_key_of it.now) (name.entry.now, slot)) }
        { is_at_most(it, name, slot) },
    )
}

/// The smallest index after `slot` whose record declares a field of this name, by binary search; `None` if there is none.
pub(crate) fn next_slot_with_name(fields: &[FieldEntry], name: &[u8], slot: usize) -> Option<usize>
    requires { IsSortedByName fields.now }
    ensures { IsSlotAfter fields.now name.now slot result }
{
    let at = count_up_to(fields, name, slot);
    if at >= fields.len() {
        return None;
    }
    let it = &fields[at];
    if it.name.as_slice() == name {
        Some(it.slot)
    } else {
        None
    }
}
