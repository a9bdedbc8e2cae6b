//! The order of index entries, and binary search in it.
ghost use Rattle.std.specs.Prelude.{◌≡◌, Contains, IfSome, IfNone, IsPermutation};
ghost use Rattle.std.specs.Ordering.{nat_cmp};
ghost use Rattle.ob_interface.specs.Orders.{key_cmp, name_key, index_by_name, record_key, index_by_record, AreByName, AreByRecord};
ghost use Rattle.ob_interface.specs.IndexEntries.{rank_cmp, IsSmallestIndex};
ghost use Rattle.ob_interface.specs.Texts.{text_in};
ghost use Rattle.ob_interface.specs.declared.rows.NameIndexEntry.{NameIndexEntry as NameEntry};
ghost use Rattle.ob_interface.specs.declared.rows.RecordIndexEntry.{RecordIndexEntry as RecordEntry};

use crate::rows::{BufferSpan, NameIndexEntry, RecordIndexEntry};
use std::cmp::Ordering;

/// The bytes of a span; offsets beyond the buffer are ignored.
pub(crate) fn span_text(text: &[u8], span: BufferSpan) -> &[u8]
    ensures { result.now ≡ text_in text.now span }
{
    let rest = &text[span.start.min(text.len())..];
    let length = span.end.saturating_sub(span.start);
    &rest[..length.min(rest.len())]
}

/// Compares the key of an entry with a record (`None` for the module's block) and a name.
fn compare_key(text: &[u8], entry: &NameIndexEntry, record: Option<u32>, name: &[u8]) -> Ordering
    ensures { result ≡ key_cmp (name_key text.now entry.now) («record», name.now) }
{
    match entry.record.cmp(&record) {
        Ordering::Equal => span_text(text, entry.name).cmp(&name),
        Ordering::Less => Ordering::Less,
        Ordering::Greater => Ordering::Greater,
    }
}

/// Compares two entries by record, name and index.
fn compare_name_entries(text: &[u8], a: &NameIndexEntry, b: &NameIndexEntry) -> Ordering
    ensures { result ≡ rank_cmp key_cmp (name_key text.now) index_by_name a.now b.now }
{
    match compare_key(text, a, b.record, span_text(text, b.name)) {
        Ordering::Equal => a.index.cmp(&b.index),
        Ordering::Less => Ordering::Less,
        Ordering::Greater => Ordering::Greater,
    }
}

/// Compares two entries by record and index.
fn compare_record_entries(a: &RecordIndexEntry, b: &RecordIndexEntry) -> Ordering
    ensures { result ≡ rank_cmp nat_cmp record_key index_by_record a.now b.now }
{
    match a.record.cmp(&b.record) {
        Ordering::Equal => a.index.cmp(&b.index),
        Ordering::Less => Ordering::Less,
        Ordering::Greater => Ordering::Greater,
    }
}

/// Sorts entries by record, name and index.
pub(crate) fn sort_by_name(text: &[u8], entries: &mut Vec<NameIndexEntry>)
    // The entries are sorted by record, name and index.
    ensures sorted { AreByName text.now entries.new.items }
    // No entry is added or lost.
    ensures same { IsPermutation entries.old.items entries.new.items }
{
    entries.sort_unstable_by(|a, b| compare_name_entries(text, a, b));
}

/// Sorts entries by record and index.
pub(crate) fn sort_by_record(entries: &mut Vec<RecordIndexEntry>)
    // The entries are sorted by record and index.
    ensures sorted { AreByRecord entries.new.items }
    // No entry is added or lost.
    ensures same { IsPermutation entries.old.items entries.new.items }
{
    entries.sort_unstable_by(|a, b| compare_record_entries(a, b));
}

/// The smallest index of the entries with this record (`None` for the module's block) and this name, by binary search; `None` if no entry
/// has them.
pub(crate) fn first_index_by_name(
    text: &[u8],
    entries: &[NameIndexEntry],
    record: Option<u32>,
    name: &[u8],
) -> Option<u32>
    // The index is sorted by record, name and index.
    requires { AreByName text.now entries.now }
    // The result is the smallest index among the entries with the key.
    ensures found { IfSome result (IsSmallestIndex (name_key text.now) index_by_name entries.now («record», name.now)) }
    // Without a result no entry has the key.
    ensures none { IfNone result ((e : NameEntry) → Contains entries.now e → name_key text.now e ≡ («record», name.now) → ⊥) }
{
    let at = entries.partition_point(|entry| compare_key(text, entry, record, name).is_lt());
    if at >= entries.len() {
        return None;
    }
    let entry = entries[at];
    if compare_key(text, &entry, record, name).is_eq() {
        Some(entry.index)
    } else {
        None
    }
}

/// The smallest index of the entries with this record, by binary search; `None` if no entry has it.
pub(crate) fn first_index_by_record(entries: &[RecordIndexEntry], record: u32) -> Option<u32>
    // The index is sorted by record and index.
    requires { AreByRecord entries.now }
    // The result is the smallest index among the entries with the key.
    ensures found { IfSome result (IsSmallestIndex record_key index_by_record entries.now «record») }
    // Without a result no entry has the key.
    ensures none { IfNone result ((e : RecordEntry) → Contains entries.now e → record_key e ≡ «record» → ⊥) }
{
    let at = entries.partition_point(|entry| entry.record.cmp(&record).is_lt());
    if at >= entries.len() {
        return None;
    }
    let entry = entries[at];
    if entry.record.cmp(&record).is_eq() {
        Some(entry.index)
    } else {
        None
    }
}
