//! Look-up in lists that are sorted by token number.

ghost use Rattle.std.specs.Prelude.{◌≡◌, ℕ, ◌<◌, ◌≤◌, ◌^◌, Contains, IfSome, IfNone, length, nat_eq};
ghost use Rattle.std.specs.List.{filter};
ghost use Rattle.module_table.specs.Order.{IsIncreasingBy, HasNoneBy, IsIndexBy, IsMonotoneBy};

use crate::rows::{Block, DeclGroup, Declared, Import, Record, Selector, TypePart};

/// An entry with a key, by which its list is sorted.
pub trait Keyed {
    ghost number_in: { Self → ℕ };

    /// The key, a token number.
    fn key(&self) -> u32
        ensures { result ≡ number_in self.now };
}

/// An entry of a group. All entries of a group return the same key, a token number.
pub(crate) trait Grouped {
    ghost group_in: { Self → ℕ };

    fn group(&self) -> u32
        ensures { result ≡ group_in self.now };
}

impl Keyed for DeclGroup {
    ghost number_in = { λ row. row.first };

    fn key(&self) -> u32 {
        self.first
    }
}

impl Keyed for Declared {
    ghost number_in = { λ row. row.number };

    fn key(&self) -> u32 {
        self.number
    }
}

impl Keyed for Record {
    ghost number_in = { λ row. row.number };

    fn key(&self) -> u32 {
        self.number
    }
}

impl Keyed for Block {
    ghost number_in = { λ row. row.first };

    fn key(&self) -> u32 {
        self.first
    }
}

impl Keyed for Import {
    ghost number_in = { λ row. row.alias };

    fn key(&self) -> u32 {
        self.alias
    }
}

impl Grouped for TypePart {
    ghost group_in = { λ row. row.declared_by };

    fn group(&self) -> u32 {
        self.declared_by
    }
}

impl Grouped for Selector {
    ghost group_in = { λ row. row.of };

    fn group(&self) -> u32 {
        self.of
    }
}

/// The index of the entry with this key, by binary search; `None` if there is no such entry.
#[inline(always)]
pub fn index_of<T: Keyed>(rows: &[T], number: u32) -> Option<usize>
    // The list is sorted by strictly increasing keys.
    requires { IsIncreasingBy T.number_in rows.now }
    // The entry with the returned index has the key.
    ensures found { IfSome result (IsIndexBy T.number_in rows.now number) }
    // `None` is returned only if no entry has the key.
    ensures none { IfNone result (HasNoneBy T.number_in rows.now number) }
{
    rows.binary_search_by_key(&number, |row| row.key()).ok()
}

/// The entry with this key, by binary search; `None` if there is none.
pub(crate) fn find_entry<T: Keyed>(rows: &[T], number: u32) -> Option<&T>
    requires { IsIncreasingBy T.number_in rows.now }
    ensures found { IfSome result (λ row. Contains rows.now row.now) }
    ensures number { IfSome result (λ row. T.number_in row.now ≡ number) }
    ensures none { IfNone result ((row : T) → Contains rows.now row → T.number_in row ≡ number → ⊥) }
{
    let at = index_of(rows, number)?;
    Some(&rows[at])
}

/// A `u32` is below 2^32. A call makes this fact known to the prover.
fn u32_is_bounded(number: u32)
    ensures { number < 2 ^ 32 }
{}

/// A strictly increasing list of keys of 32 bits has at most 2^32 entries.
pub(crate) fn rows_are_bounded<T: Keyed>(rows: &[T])
    requires { IsIncreasingBy T.number_in rows.now }
    ensures { length rows.now ≤ 2 ^ 32 }
{
    match rows.last() {
        Some(last) => u32_is_bounded(last.key()),
        None => {}
    }
}

/// The entries of a group, which are adjacent, by two binary searches.
pub(crate) fn group_of<T: Grouped>(rows: &[T], group: u32) -> &[T]
    requires { IsMonotoneBy T.group_in rows.now }
    ensures { result.now ≡ filter (λ (row : T). nat_eq (T.group_in row) group) rows.now }
{
    let from = rows.partition_point(|row| row.group() < group);
    let rest = &rows[from..];
    let many = rest.partition_point(|row| row.group() <= group);
    &rest[..many]
}
