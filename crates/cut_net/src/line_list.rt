//! Reading in one pass: lines are added to a list, and imports are sorted at the end. If the sorted list has no two equal neighbours, no
//! import repeats. A repeated import is reported at once if the imports before it are known to be distinct. All other texts are read
//! again by the builder (`NetBuilder`), which finds the first error.
ghost use Rattle.std.specs.Prelude.{◌≡◌, ◌≤◌, ◌<◌, ◌++◌, ◌∷◌, [], ℕ, true, IfErr, IfOk, IfSome, OnOk, List, length, map};
ghost use Rattle.cut_net.specs.NetList.{AreNumbersOf, AddsFirstPiece, IsList, IsListOf, IsRepeat, IsRepeatAt, Repeats};
ghost use Rattle.cut_net.specs.NetReading.{import_line, line_content, net_of};
ghost use Rattle.cut_net.specs.NetText.{AreValidLines, IsNetLine, IsNetOutcome, NetLine, net_line, NetText, Module, Import, Spell, UnlessMemory};
ghost use Rattle.cut_net.specs.WellFormed.{AreBetween};
ghost use Rattle.cut_net.specs.declared.line_list.Stop.TheVariants.{RepeatedImport};
ghost use Rattle.cut_net.specs.declared.line_list.FillResult.TheVariants as filled;

use crate::builder::{MOST_IMPORTS, MOST_NAMES, seed_of, text_for_sizing};
use crate::lines::{Line, parse_first_line_within, parse_line};
use crate::numbering::{numbers_of, renumbered_import, sort_imports, sorted_copy};
use crate::ordering::{are_imports_distinct, is_ascending};
use crate::recent::{ImportSlots, NameCache};
use crate::{NetFault, Priced};
use indexmap::IndexSet;
use std::alloc::{AllocError, AllocFailed, Global};
use text_hash::Seed;
use texts::fields::split_at_byte;
use texts::prefixes::strip_byte;

/// Why reading in one pass stops.
pub(crate) enum Stop {
    /// An earlier line has the import of the next line.
    RepeatedImport,
    /// There are more names than the limit of the list.
    TooManyNames,
    /// The text has to be read again by the builder: there is another error, an earlier import may repeat, or an allocation failed.
    Undecided,
}

impl From<AllocError> for Stop {
    ghost use Rattle.std.specs.Prelude.{◌≡◌};
    ghost use Rattle.cut_net.specs.declared.line_list.Stop.TheVariants.{Undecided};

    ghost from_gives = { λ _ stop. stop ≡ Undecided };

    fn from(_error: AllocError) -> Stop {
        Stop::Undecided
    }
}

impl<T: Drop> From<AllocFailed<T>> for Stop {
    ghost use Rattle.std.specs.Prelude.{◌≡◌};
    ghost use Rattle.cut_net.specs.declared.line_list.Stop.TheVariants.{Undecided};

    ghost from_gives = { λ _ stop. stop ≡ Undecided };

    fn from(_error: AllocFailed<T>) -> Stop {
        Stop::Undecided
    }
}

/// How far a text was read.
pub(crate) enum FillResult {
    /// To the end of the text.
    Whole,
    /// To the line of this number, whose import an earlier line has.
    RepeatedImport(u64),
    /// To a line with one name more than the limit.
    TooManyNames,
    /// To a line at which one pass can't decide, so that the text has to be read again by the builder.
    Undecided,
}

/// The number of bytes that are read before the first check for repeated imports.
const FIRST_CHECK: usize = 4096;

/// The largest number of names in a table with the fixed seed. For more names the seed is made from the text.
const FEW_NAMES: usize = 1024;

/// The names of the lines read so far, and their imports by the indices of the names.
#[derive(Drop)]
pub(crate) struct LineList {
    pub(crate) names: IndexSet<String, Seed>,
    pub(crate) imports: Vec<Priced>,
    recent: NameCache,
    import_slots: ImportSlots,
    /// The number of bytes that are read before the next check for repeated imports.
    next_check: usize,
    /// The limit on the number of names.
    most: usize,
}

impl LineList {
    /// The list of no lines, for a text of `bytes` bytes. `seed` is the hash seed of the table of names, `most` the limit on their number.
    fn new(alloc: Global, bytes: usize, seed: Seed, most: usize) -> LineList
        ensures { IsList [] result }
    {
        LineList {
            names: IndexSet::with_hasher(alloc, seed),
            imports: Vec::new(alloc),
            recent: NameCache::new(alloc, bytes),
            import_slots: ImportSlots::new(alloc, bytes),
            next_check: FIRST_CHECK,
            most,
        }
    }

    /// Adds the name of a `module` line. Fails with `TooManyNames` above the limit of the list, and with `Undecided` above that of
    /// networks.
    fn add_module(&mut self, alloc: Global, name: &str) -> Result<(), Stop>
        ensures listed { OnOk result ((before : List NetLine) → IsList before self.old → IsNetLine (Module name.now) → IsList (before ++ Module name.now ∷ []) self.new) }
        ensures twice { IfErr result (λ stop. stop ≡ RepeatedImport → (before : List NetLine) → IsList before self.old → IsRepeat before (Module name.now) self.new) }
    {
        self.recent.intern(alloc, &mut self.names, name)?;
        if self.names.len() > self.most {
            return Err(Stop::TooManyNames);
        }
        if self.names.len() > MOST_NAMES {
            return Err(Stop::Undecided);
        }
        Ok(())
    }

    /// Adds an import. Fails with `RepeatedImport` if the list is known to have it.
    fn add_import(
        &mut self,
        alloc: Global,
        importer: &str,
        imported: &str,
        weight: u64,
    ) -> Result<(), Stop>
        ensures listed { OnOk result ((before : List NetLine) → IsList before self.old → IsNetLine (Import importer.now imported.now weight) → IsList (before ++ Import importer.now imported.now weight ∷ []) self.new) }
        ensures twice { IfErr result (λ stop. stop ≡ RepeatedImport → (before : List NetLine) → IsList before self.old → IsRepeat before (Import importer.now imported.now weight) self.new) }
    {
        let from = self.recent.intern(alloc, &mut self.names, importer)?;
        let to = self.recent.intern(alloc, &mut self.names, imported)?;
        if self.names.len() > self.most {
            return Err(Stop::TooManyNames);
        }
        if self.names.len() > MOST_NAMES || self.imports.len() >= MOST_IMPORTS {
            return Err(Stop::Undecided);
        }
        if self
            .import_slots
            .find_or_insert(&self.imports, from as u32, to as u32)
        {
            return Err(Stop::RepeatedImport);
        }
        self.imports.push(Priced {
            from: from as u32,
            to: to as u32,
            amount: weight,
        })?;
        Ok(())
    }

    /// Adds a parsed line.
    fn add(&mut self, alloc: Global, line: Line<'_>) -> Result<(), Stop>
        ensures listed { OnOk result ((before : List NetLine) → IsList before self.old → IsNetLine (line_content line.entry) → IsList (before ++ line_content line.entry ∷ []) self.new) }
        ensures twice { IfErr result (λ stop. stop ≡ RepeatedImport → (before : List NetLine) → IsList before self.old → IsRepeat before (line_content line.entry) self.new) }
    {
        match line {
            Line::Module(name) => self.add_module(alloc, name),
            Line::Import(importer, imported, weight) => {
                self.add_import(alloc, importer, imported, weight)
            }
        }
    }

    /// Parses the bytes between two line ends, and adds their line. Empty bytes add nothing.
    fn take(&mut self, alloc: Global, piece: &[u8]) -> Result<(), Stop>
        ensures listed { OnOk result ((before : List NetLine) → IsList before self.old → (more : List NetLine) × Spell (piece.now ∷ []) more × IsList (before ++ more) self.new) }
        ensures twice { IfErr result (λ stop. stop ≡ RepeatedImport → (before : List NetLine) → IsList before self.old → (line : NetLine) × (net_line line ≡ piece.now) × IsNetLine line × IsRepeat before line self.new) }
    {
        if piece.is_empty() {
            return Ok(());
        }
        let Some(line) = parse_line(piece) else {
            return Err(Stop::Undecided);
        };
        self.add(alloc, line)
    }

    /// Adds the first line of the text, up to its line end or the end of the text. Returns the bytes after it.
    fn consume_first<'a>(&mut self, alloc: Global, text: &'a [u8]) -> Result<&'a [u8], Stop>
        ensures goes_on { IfOk result (λ rest. (before : List NetLine) → IsList before self.old → AddsFirstPiece text.now rest.now before self.new) }
        ensures shorter { IfOk result (λ rest. 0 < length text.now → length rest.now < length text.now) }
        ensures twice { IfErr result (λ stop. stop ≡ RepeatedImport → (before : List NetLine) → IsList before self.old → Repeats text.now before self.new) }
    {
        let Some((piece, rest)) = split_at_byte(text, b'\n') else {
            let (_, rest) = text.split_at(text.len());
            return match self.take(alloc, text) {
                Ok(()) => Ok(rest),
                Err(stop) => Err(stop),
            };
        };
        match self.take(alloc, piece) {
            Ok(()) => Ok(rest),
            Err(stop) => Err(stop),
        }
    }

    /// Whether no import of the list repeats, as far as is known: true at once if each import has a slot, otherwise by a counting pass, and
    /// true if the allocation for it fails. Schedules the next check after four times the bytes of this one.
    fn has_distinct_imports(&mut self, alloc: Global) -> bool
        ensures { (lines : List NetLine) → IsList lines self.old → IsList lines self.new }
    {
        self.next_check = self.next_check.saturating_mul(4);
        self.import_slots.has_slot_for_each()
            || are_imports_distinct(alloc, &self.imports).unwrap_or(true)
    }

    /// Adds the first line of `text`, before which `read` bytes have been read, and returns the bytes after it. If the line goes beyond the
    /// next check for repeats, the check is made first, so that reading stops soon after a repeated import.
    fn consume_line<'a>(
        &mut self,
        alloc: Global,
        text: &'a [u8],
        read: usize,
    ) -> Result<&'a [u8], Stop>
        ensures goes_on { IfOk result (λ rest. (before : List NetLine) → IsList before self.old → AddsFirstPiece text.now rest.now before self.new) }
        ensures shorter { IfOk result (λ rest. 0 < length text.now → length rest.now < length text.now) }
        ensures twice { IfErr result (λ stop. stop ≡ RepeatedImport → (before : List NetLine) → IsList before self.old → Repeats text.now before self.new) }
    {
        let near = self.next_check.saturating_sub(read);
        if let Some(rest) = after_line_end(text, near) {
            return Ok(rest);
        }
        if let Some((line, rest)) = parse_first_line_within(text, near) {
            return match self.add(alloc, line) {
                Ok(()) => Ok(rest),
                Err(stop) => Err(stop),
            };
        }
        if near < text.len() && !self.has_distinct_imports(alloc) {
            return Err(Stop::Undecided);
        }
        self.consume_first(alloc, text)
    }
}

/// The bytes after the line end with which the text begins. None if it doesn't begin with one, or if a check for repeats is due: `near` is
/// the number of bytes before the next check, and 0 means that it is due.
fn after_line_end(text: &[u8], near: usize) -> Option<&[u8]>
    ensures { IfSome result (λ rest. text.now ≡ 10 ∷ rest.now) }
{
    if near == 0 {
        return None;
    }
    strip_byte(text, b'\n')
}

/// Adds the lines of the text to an empty list, up to the first line that can't be added.
fn fill_list(alloc: Global, bytes: &[u8], list: &mut LineList) -> FillResult
    requires { IsList [] list.old }
    ensures whole { result ≡ filled.Whole → IsListOf bytes.now list.new }
    ensures twice { (line : ℕ) → result ≡ filled.RepeatedImport line → IsRepeatAt bytes.now line list.new }
{
    let mut rest = bytes;
    let mut line = 0;
    while !rest.is_empty() {
        line += 1;
        let read = bytes.len().saturating_sub(rest.len());
        match list.consume_line(alloc, rest, read) {
            Ok(after) => rest = after,
            Err(Stop::RepeatedImport) => return FillResult::RepeatedImport(line),
            Err(Stop::TooManyNames) => return FillResult::TooManyNames,
            Err(Stop::Undecided) => return FillResult::Undecided,
        }
    }
    FillResult::Whole
}

/// As `fill_list`. If the names exceed the list's limit, empties the list and reads the text again, with the hash seed of the text. So few
/// lines are read twice, and no digest is computed for a text with an early error.
fn fill_with_seed(alloc: Global, bytes: &[u8], list: &mut LineList) -> FillResult
    requires { IsList [] list.old }
    ensures whole { result ≡ filled.Whole → IsListOf bytes.now list.new }
    ensures twice { (line : ℕ) → result ≡ filled.RepeatedImport line → IsRepeatAt bytes.now line list.new }
{
    match fill_list(alloc, bytes, list) {
        FillResult::TooManyNames => {
            *list = LineList::new(alloc, bytes.len(), seed_of(bytes), MOST_NAMES);
            fill_list(alloc, bytes, list)
        }
        ended => ended,
    }
}

/// Whether no import of the list repeats, by sorting a copy. Fails if an allocation fails.
fn has_distinct_imports_by_sorting(alloc: Global, list: &LineList) -> Result<bool, AllocError>
    ensures { IfOk result (λ apart. apart ≡ true → (lines : List NetLine) → IsList lines list.now → AreValidLines lines) }
{
    let mut imports = list.imports.to_vec(alloc)?;
    sort_imports(&mut imports);
    Ok(is_ascending(&imports))
}

/// The imports, with module m replaced by `numbers[m]`.
fn renumbered_imports(
    alloc: Global,
    numbers: &[u32],
    imports: &[Priced],
) -> Result<Vec<Priced>, AllocError>
    requires { AreBetween imports.now (length numbers.now) }
    ensures between { IfOk result (λ list. (old names : List (List ℕ)) → AreNumbersOf old names numbers.now → AreBetween list.items (length names)) }
    ensures lines { IfOk result (λ list. (old names : List (List ℕ)) → AreNumbersOf old names numbers.now → map (import_line names) list.items ≡ map (import_line old) imports.now) }
{
    let mut list = Vec::with_capacity(alloc, imports.len())?;
    for import in imports {
        let ends = (import.from as usize, import.to as usize);
        list.push(renumbered_import(numbers, ends, import.amount))?;
    }
    Ok(list)
}

/// The names and imports of the list's lines, both sorted, with module numbers by name. None if an import repeats.
fn sorted_if_distinct(
    alloc: Global,
    list: &LineList,
) -> Result<Option<(Vec<String>, Vec<Priced>)>, AllocError>
    requires { (lines : List NetLine) × IsList lines list.now }
    ensures text { IfOk result (λ found. IfSome found (λ lists. (bytes : List ℕ) → IsListOf bytes list.now → NetText bytes (net_of lists.0.items lists.1.items))) }
    ensures few_names { IfOk result (λ found. IfSome found (λ lists. length lists.0.items ≤ 8192)) }
    ensures few_imports { IfOk result (λ found. IfSome found (λ lists. length lists.1.items ≤ 65536)) }
{
    let names = sorted_copy(alloc, list.names.as_slice())?;
    let numbers = numbers_of(alloc, list.names.as_slice(), &names)?;
    let mut imports = renumbered_imports(alloc, &numbers, &list.imports)?;
    sort_imports(&mut imports);
    if is_ascending(&imports) {
        Ok(Some((names, imports)))
    } else {
        Ok(None)
    }
}

/// The names and imports of the text, read in one pass, or the error of the first repeated import. `None` means that the builder has to
/// read the text again.
pub(crate) fn lists_in_one_pass(
    alloc: Global,
    bytes: &[u8],
) -> Result<Option<(Vec<String>, Vec<Priced>)>, NetFault>
    ensures text { IfOk result (λ found. IfSome found (λ lists. NetText bytes.now (net_of lists.0.items lists.1.items))) }
    ensures few_names { IfOk result (λ found. IfSome found (λ lists. length lists.0.items ≤ 8192)) }
    ensures few_imports { IfOk result (λ found. IfSome found (λ lists. length lists.1.items ≤ 65536)) }
    ensures fault { IfErr result (λ fault. UnlessMemory fault (λ refusal. IsNetOutcome bytes.now (Err refusal))) }
{
    let seed = Seed::for_keys(&[], 0);
    let mut list = LineList::new(alloc, text_for_sizing(bytes).len(), seed, FEW_NAMES);
    match fill_with_seed(alloc, bytes, &mut list) {
        FillResult::Whole => Ok(sorted_if_distinct(alloc, &list)?),
        FillResult::RepeatedImport(line) => {
            if has_distinct_imports_by_sorting(alloc, &list)? {
                Err(NetFault::TwiceImport { line })
            } else {
                Ok(None)
            }
        }
        FillResult::TooManyNames | FillResult::Undecided => Ok(None),
    }
}
