//! Reserved entries for selectors, and the look-ahead that estimates how many are needed.
//! Clauses `number` about a builder: it has counted the same tokens as before the call. Clauses `stage`: unless an allocation failed, the
//! entries are changed in exactly this way.

ghost use Rattle.std.specs.Prelude.{◌≡◌, ◌+◌, ◌<◌, ◌≤◌, ◌^◌, ◌++◌, ◌∷◌, ℕ, false, length, IfSome, List};
ghost use Rattle.ob_tree.specs.declared.token.Leaf.{Leaf};
ghost use Rattle.ob_tree.specs.declared.token.Leaf.TheVariants as leafs;
ghost use Rattle.ob_tree.specs.Widths.{name_width};
ghost use Rattle.module_table.specs.TableStages.{added, PerformsStep};
ghost use Rattle.module_table.specs.Parts.{these_selectors};
ghost use Rattle.ob_grammar.specs.ParsesAs.{remaining, with_remaining};
ghost use Rattle.table_reader.specs.SelectorShapes.{dot_at, is_present};
ghost use Rattle.table_reader.specs.SelectorSlots.{placeholder, slots, inserted, removed, written, EnsuresSlot};
ghost use Rattle.table_reader.specs.declared.slots.SoleName.TheVariants as sole_names;
ghost use Rattle.ob_grammar.specs.Lookahead.{uncons};
ghost use Rattle.table_reader.specs.SoleNames.{sole_name_of, leading_name, IsSoleName};

use crate::source::{ParserInput, kind_or_dot};
use module_table::builder::TableBuilder;
use module_table::{Designator as DesignatorRow, Selector as SelectorRow, Step, TypeName};
use ob_grammar::cursor::Cursor;
use ob_grammar::tokens::accept;
use ob_scan::{Kind, Token};
use ob_tree::token::Leaf;

/// The index of the token after the selector that seems to begin at `at`; `at` if none seems to. Skips a bracket with its content up to the
/// closing bracket, and a dot with the name after it. So the estimate stops at the bracket that closes the enclosing list, and each token
/// is inspected for at most one designator, also in rejected sources.
fn skip_selector(source: &ParserInput, at: u32) -> u32 {
    match kind_or_dot(source.tokens, at) {
        Kind::Dot => match kind_or_dot(source.tokens, at.saturating_add(1)) {
            Kind::Ident => at.saturating_add(2),
            _ => at,
        },
        Kind::Caret => at.saturating_add(1),
        Kind::LeftBracket | Kind::LeftParen => match source.brackets.get(at as usize) {
            None => at,
            Some(closing) => closing.saturating_add(1),
        },
        _ => at,
    }
}

/// An estimate of the number of selectors from `input` on. Nothing is proved of it, since it affects only the speed.
pub(crate) fn estimate_selectors(source: &ParserInput, input: Cursor) -> u32 {
    let mut at = input.number();
    let mut count = 0;
    for _ in 0..source.tokens.len() {
        let next = skip_selector(source, at);
        if next <= at {
            break;
        }
        at = next;
        count = u32::saturating_add(count, 1);
    }
    count
}

/// The argument `member` of `append_use` for a designator: `Some` if a dot is next. Its value 0 has no meaning.
pub(crate) fn member_placeholder(tokens: &[Token], input: Cursor) -> Option<u32>
    ensures dot { is_present result ≡ dot_at tokens.now input }
    // A dot at `input` has an index of 32 bits, so the index after the dot and a name is at most 2^32 + 1.
    ensures number { input.at + name_width result ≤ 2 ^ 32 + 1 }
{
    match input.next(tokens) {
        Some((Leaf::Word(Kind::Dot), _)) => Some(0),
        _ => None,
    }
}

/// The number of selector entries, which is the index of the next entry that is appended.
pub(crate) fn selector_count(builder: &TableBuilder) -> usize
    ensures { result ≡ length builder.now.selectors.items }
{
    builder.selectors.len()
}

/// Appends `count` placeholders for selectors of the designator whose first identifier has the index `head`. Stops if an allocation fails.
pub(crate) fn reserve_slots(builder: &mut TableBuilder, head: u32, count: u32)
    ensures stage { PerformsStep (added (these_selectors (slots head count))) builder.old builder.new }
    ensures number { builder.new.number ≡ builder.old.number }
{
    for slot in 0..count {
        if builder.failed {
            return;
        }
        builder.add_selector(SelectorRow {
            of: head,
            step: Step::Target,
        });
    }
}

/// Ensures that a reserved entry is at index `slot`: if `slot` is `end`, the end of the reserved entries, inserts a placeholder there.
/// Returns the new end of the reserved entries. `head` is the index of the designator's first identifier.
pub(crate) fn ensure_slot(builder: &mut TableBuilder, head: u32, slot: usize, end: usize) -> usize
    requires { builder.old.failed ≡ false → (slot ≤ end) × (end ≤ length builder.old.selectors.items) }
    // Unless an allocation failed, `slot` was before `end` and nothing changes, or one placeholder was inserted at `end`.
    ensures room { EnsuresSlot head slot end builder.old builder.new result }
    ensures slot { builder.new.failed ≡ false → slot < length builder.new.selectors.items }
    ensures number { builder.new.number ≡ builder.old.number }
{
    if slot < end || builder.failed {
        return end;
    }
    insert_slot(builder, head, end)
}

/// Inserts a placeholder for a selector at index `at`, and returns the index after it.
#[inline(never)]
fn insert_slot(builder: &mut TableBuilder, head: u32, at: usize) -> usize
    requires { at ≤ length builder.old.selectors.items }
    ensures stage { PerformsStep (inserted at (placeholder head)) builder.old builder.new }
    ensures slot { result ≡ at + 1 }
    ensures number { builder.new.number ≡ builder.old.number }
{
    let row = SelectorRow {
        of: head,
        step: Step::Target,
    };
    if builder.selectors.insert(at, row).is_err() {
        builder.failed = true;
        builder.selectors.clear();
    }
    at + 1
}

/// Removes the reserved entries from index `slot` up to `end`, which no selector of the designator needed.
pub(crate) fn trim_slots(builder: &mut TableBuilder, slot: usize, end: usize)
    requires { builder.old.failed ≡ false → (slot ≤ end) × (end ≤ length builder.old.selectors.items) }
    ensures stage { PerformsStep (removed slot end) builder.old builder.new }
    ensures number { builder.new.number ≡ builder.old.number }
{
    if slot < end && !builder.failed {
        remove_slots(builder, slot, end);
    }
}

/// Removes the selector entries from index `slot` up to `end`.
#[inline(never)]
fn remove_slots(builder: &mut TableBuilder, slot: usize, end: usize)
    requires { (slot ≤ end) × (end ≤ length builder.old.selectors.items) }
    ensures stage { PerformsStep (removed slot end) builder.old builder.new }
    ensures number { builder.new.number ≡ builder.old.number }
{
    drop(builder.selectors.drain(slot..end));
}

/// The number of designator entries, which is the index of the next entry that is appended.
pub(crate) fn designator_count(builder: &TableBuilder) -> usize
    ensures { result ≡ length builder.now.designators.items }
{
    builder.designators.len()
}

/// Replaces the entry of the designator at this index. An index out of bounds, which only a failed allocation can cause, is ignored.
#[tactic(auto, using(module_table::proofs::Steps::growing), unfolding(module_table::specs::TableStages::stage_of, crate::specs::SelectorSlots::written))]
pub(crate) fn set_designator(builder: &mut TableBuilder, at: usize, row: DesignatorRow)
    ensures stage { PerformsStep (written at row) builder.old builder.new }
    ensures number { builder.new.number ≡ builder.old.number }
{
    if at < builder.designators.len() {
        builder.designators[at] = row;
    }
}

/// The name that the tokens between two cursors form, if they are exactly `name` or `name.name`; otherwise `None`.
pub(crate) fn sole_name(tokens: &[Token], input: Cursor, here: Cursor) -> Option<TypeName>
    // For the tokens `ls` between the cursors: the result is the name that they form, if `here` isn't at the end of the tokens.
    ensures { (ls : List Leaf) → remaining tokens.now input ≡ ls ++ remaining tokens.now here → 0 < length (remaining tokens.now here) → result ≡ sole_name_of ls input.at }
{
    match classify_tokens(tokens, input, here) {
        SoleName::No => None,
        SoleName::Bare => Some(TypeName {
            head: input.number(),
            member: None,
        }),
        SoleName::Dotted => Some(TypeName {
            head: input.number(),
            member: Some(input.number() + 2),
        }),
    }
}

/// What the tokens between two cursors are: `Bare` for a single name, `Dotted` for a name, a dot and a name, `No` for anything else.
enum SoleName {
    No,
    Bare,
    Dotted,
}

/// Classifies the tokens between the two cursors.
fn classify_tokens(tokens: &[Token], input: Cursor, here: Cursor) -> SoleName
    ensures number { result ≡ sole_names.Dotted → input.at + 2 < 2 ^ 32 }
    // The tokens `ls` between the cursors are of the returned class, if `here` isn't at the end of the tokens.
    ensures sole { (ls : List Leaf) → remaining tokens.now input ≡ ls ++ remaining tokens.now here → 0 < length (remaining tokens.now here) → IsSoleName ls result }
{
    if input.number() == here.number() {
        return SoleName::No;
    }
    match name_at(tokens, input) {
        None => SoleName::No,
        Some((_, following)) => {
            if following.number() == here.number() {
                SoleName::Bare
            } else {
                classify_after_name(tokens, following, here)
            }
        }
    }
}

/// Classifies a name together with the tokens after it, which are those between the two cursors: `Dotted` if these are a dot and a name.
fn classify_after_name(tokens: &[Token], input: Cursor, here: Cursor) -> SoleName
    ensures number { result ≡ sole_names.Dotted → input.at + 1 < 2 ^ 32 }
    // A name and the tokens `ls` between the cursors together are of the returned class, if `ls` isn't empty and `here` isn't at the end.
    ensures sole { (n : ℕ) (ls : List Leaf) → remaining tokens.now input ≡ ls ++ remaining tokens.now here → 0 < length (remaining tokens.now here) → 0 < length ls → IsSoleName (leafs.Name n ∷ ls) result }
{
    match accept(tokens, input, Kind::Dot) {
        None => SoleName::No,
        Some(following) => match name_at(tokens, following) {
            None => SoleName::No,
            Some((_, following)) => {
                if following.number() == here.number() {
                    SoleName::Dotted
                } else {
                    SoleName::No
                }
            }
        },
    }
}

/// The index of the next token, and the cursor after it; `None` if the next token isn't an identifier.
fn name_at(tokens: &[Token], input: Cursor) -> Option<(u32, Cursor)>
    ensures read { with_remaining tokens.now result ≡ leading_name (uncons (remaining tokens.now input)) }
    ensures number { IfSome result (λ x. x.1.at ≡ input.at + 1) }
{
    match input.next(tokens) {
        Some((Leaf::Name(number), rest)) => Some((number, rest)),
        _ => None,
    }
}
