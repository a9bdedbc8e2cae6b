//! Tables from strings to lists of entries.
ghost use Rattle.std.specs.Prelude.{◌≡◌, ◌<◌, ◌++◌, [], ◌∷◌, length, map, slice_set, IfOk, OnOk, None};
ghost use Rattle.std.specs.String.{string_bytes};
ghost use Rattle.index_store.specs.Tables.{text_index, rows_at, rows_in, text_at, texts_in, IsInserted};

use indexmap::IndexSet;
use std::alloc::{AllocError, Global};

/// A table from strings to lists of entries. It has each string once, in the order of insertion.
#[derive(Drop)]
pub(crate) struct StringTable<T: Drop> {
    texts: IndexSet<String>,
    rows: Vec<Vec<T>>,
}

/// Inserts a string that isn't in the set, after the others.
fn add_text(texts: &mut IndexSet<String>, alloc: Global, text: &str) -> Result<(), AllocError>
    // The set doesn't have the string.
    requires { text_index (map string_bytes texts.old.keys) text.now ≡ None }
    // With `Ok` the set has grown by the string, at the end.
    ensures { OnOk result (map string_bytes texts.new.keys ≡ map string_bytes texts.old.keys ++ text.now ∷ []) }
{
    let text = String::from_str(alloc, text)?;
    texts.insert(text)?;
    Ok(())
}

impl<T: Drop> StringTable<T> {
    /// A table without strings.
    pub(crate) fn new(alloc: Global) -> StringTable<T>
        ensures texts { texts_in result ≡ [] }
        ensures rows { rows_in result ≡ [] }
    {
        StringTable {
            texts: IndexSet::new(alloc),
            rows: Vec::new(alloc),
        }
    }

    /// The allocator of the table.
    pub(crate) fn allocator(&self) -> Global {
        *self.rows.allocator()
    }

    /// The index of the string in the order of insertion, or `None` if the table doesn't have it.
    pub(crate) fn text_index(&self, text: &str) -> Option<usize>
        ensures { result ≡ text_index (texts_in self.now) text.now }
    {
        self.texts.get_index_of(text)
    }

    /// Inserts a string that the table doesn't have, after the others and with no entries. Returns its index.
    fn insert_new_text(&mut self, alloc: Global, text: &str) -> Result<usize, AllocError>
        // The table doesn't have the string.
        requires new { text_index (texts_in self.old) text.now ≡ None }
        // Each string has a list of entries.
        requires as_many { length (texts_in self.old) ≡ length (rows_in self.old) }
        // With `Ok` the strings have grown by this one, at the end.
        ensures texts { OnOk result (texts_in self.new ≡ texts_in self.old ++ text.now ∷ []) }
        // With `Ok` the string has an empty list of entries.
        ensures rows { OnOk result (rows_in self.new ≡ rows_in self.old ++ [] ∷ []) }
        // With `Ok` the result is the number of strings before the call, which is the index of this one.
        ensures last { IfOk result (λ n. n ≡ length (texts_in self.old)) }
    {
        let number = self.rows.len();
        add_text(&mut self.texts, alloc, text)?;
        self.rows.push(Vec::new(alloc))?;
        Ok(number)
    }

    /// The index of the string. A string that isn't in the table is inserted after the others, with no entries.
    pub(crate) fn find_or_insert(&mut self, alloc: Global, text: &str) -> Result<usize, AllocError>
        // Each string has a list of entries.
        requires as_many { length (texts_in self.old) ≡ length (rows_in self.old) }
        // With `Ok` the result is the index of the string. The table is unchanged, or has grown by the string with no entries.
        ensures { IfOk result (IsInserted (texts_in self.old) (rows_in self.old) text.now (texts_in self.new) (rows_in self.new)) }
    {
        match self.text_index(text) {
            Some(number) => Ok(number),
            None => self.insert_new_text(alloc, text),
        }
    }

    /// Appends an entry to those of the string at this index.
    pub(crate) fn push(&mut self, number: usize, row: T) -> Result<(), AllocError>
        // A string has this index.
        requires within { number < length (rows_in self.old) }
        // The strings are unchanged.
        ensures texts { texts_in self.new ≡ texts_in self.old }
        // With `Ok` only the list at this index has changed: the entry is appended to it.
        ensures rows { OnOk result (rows_in self.new ≡ slice_set (rows_in self.old) number (rows_at (rows_in self.old) number ++ row ∷ [])) }
    {
        self.rows[number].push(row)?;
        Ok(())
    }

    /// The string at this index.
    pub(crate) fn text(&self, number: usize) -> &str
        // A string has this index.
        requires within { number < length (texts_in self.now) }
        ensures { result.now ≡ text_at (texts_in self.now) number }
    {
        self.texts[number].as_str()
    }

    /// The entries of the string at this index.
    pub(crate) fn rows(&self, number: usize) -> &[T]
        // A string has this index.
        requires within { number < length (rows_in self.now) }
        ensures { result.now ≡ rows_at (rows_in self.now) number }
    {
        self.rows[number].as_slice()
    }
}
