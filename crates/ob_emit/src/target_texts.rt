//! Makes and stores the symbol strings of the targets that a module's identifiers denote. Each string is made once.
//! In the clauses, `AreSymbolTexts view package_name texts` says that the stored strings are those of the targets' symbols in this package.
//! `named`, `of_names` and `external` say that names are identifiers.
ghost use Rattle.std.specs.Prelude.{◌≡◌, ◌++◌, IfOk, OnOk, Some, take, length, map, count_by, codes};
ghost use Rattle.std.specs.Fmt.{decimal};
ghost use Rattle.std.specs.Option.{option_map};
ghost use Rattle.std.specs.String.{string_bytes};
ghost use Rattle.std.specs.Prelude.{List, ℕ};
ghost use Rattle.scip_symbol.specs.SymbolTexts.{canonical_text, DescriptorModel};
ghost use Rattle.ob_emit.specs.StoredTexts.{prefix_text, path_text, AreDeclaredTexts, AreSymbolTexts};
ghost use Rattle.ob_emit.specs.Named.{NamesAreIdentifiers, ReferencesAreIdentifiers, IsName};
ghost use Rattle.ob_view.specs.declared.target.Target.TheVariants.{External};
ghost use Rattle.ob_view.specs.World.{text};
ghost use Rattle.ob_emit.specs.Symbols.{is_local, declared_path, symbol_at};

use crate::declaration_index::DeclarationIndex;
use crate::foreign_texts::{ForeignTexts, external_table_seed};
use crate::module_texts::module_text;
use crate::own_declarations::is_local;
use crate::path::path_text;
use crate::prefixes::Prefixes;
use module_table::Declared;
use ob_view::{Reference, Target, View};
use std::alloc::{AllocError, Global};

/// The symbol strings of the targets that a module's identifiers denote, in a package, and the prefixes from which further strings are
/// made.
#[derive(Drop)]
pub(crate) struct Texts<'a> {
    pub(crate) prefixes: Prefixes,
    /// The symbol string of the module itself.
    pub(crate) own: String,
    /// The symbol string of each declaration of the module, by the declaration's index; `None` for a declaration without a symbol.
    pub(crate) declared: Vec<Option<String>>,
    /// Finds the index of a declaration of the module from its token number.
    pub(crate) locations: DeclarationIndex<'a>,
    pub(crate) foreign: Box<ForeignTexts<'a>>,
}

/// The symbol string of the local symbol with this number: `local ` and the number in decimal.
fn local_symbol_text(alloc: Global, number: usize) -> Result<String, AllocError>
    ensures { IfOk result (λ text. string_bytes text ≡ codes "local " ++ decimal number) }
{
    /// The number of bytes of `local ` and of the longest number of 32 bits.
    const ROOM: usize = 16;
    let mut text = String::with_capacity(alloc, ROOM)?;
    text.push_str("local ")?;
    write!(text, "{number}")?;
    Ok(text)
}

/// The symbol string of the declaration at token `number`, in the module's block or in a record there. `Ok(None)` if the declaration has no
/// path of descriptors.
fn block_declaration_text(
    alloc: Global,
    view: &View<'_>,
    prefix: &str,
    number: u32,
) -> Result<Option<String>, AllocError>
    requires { NamesAreIdentifiers view.now }
    ensures { IfOk result (λ text. option_map string_bytes text ≡ option_map (λ (ds : List DescriptorModel). prefix.now ++ path_text ds) (declared_path view.now number)) }
{
    path_text(
        alloc,
        prefix,
        view.text(view.table().module_name_token()),
        view,
        number,
    )
}

/// The symbol string of the declaration `row`. A local declaration gets a local symbol, whose number is `locals`, the number of local
/// declarations before it. The string of any other declaration is made from its path.
fn declaration_text(
    alloc: Global,
    view: &View<'_>,
    prefix: &str,
    row: &Declared,
    local: bool,
    locals: usize,
) -> Result<Option<String>, AllocError>
    requires named { NamesAreIdentifiers view.now }
    requires local { local ≡ is_local view.now row.now }
    // Let `prefix` be that of a package, and let `locals` count the local declarations before index `i`. Then the string with `Ok` is the
    // canonical one of the symbol that `row` has at index `i`.
    ensures { (package_name : List ℕ) (i : ℕ) → prefix.now ≡ prefix_text package_name → locals ≡ count_by (is_local view.now) (take i view.now.rows.declared) →
        IfOk result (λ text. option_map string_bytes text ≡ option_map canonical_text (symbol_at view.now package_name i row.now)) }
{
    if local {
        Ok(Some(local_symbol_text(alloc, locals)?))
    } else {
        block_declaration_text(alloc, view, prefix, row.number)
    }
}

/// The symbol strings of the module's declarations, in the order of the module table; `None` for a declaration without a symbol.
fn declared_texts(
    alloc: Global,
    view: &View<'_>,
    prefix: &str,
) -> Result<Vec<Option<String>>, AllocError>
    requires { NamesAreIdentifiers view.now }
    ensures { (package_name : List ℕ) → prefix.now ≡ prefix_text package_name → IfOk result (λ v. AreDeclaredTexts view.now package_name (length view.now.rows.declared) (map (option_map string_bytes) v.items)) }
{
    let declared = view.table().declared();
    let mut texts = Vec::with_capacity(alloc, declared.len())?;
    let (mut locals, mut hint) = (0, 0);
    for row in declared {
        let local = is_local(view, &mut hint, row);
        let text = declaration_text(alloc, view, prefix, row, local, locals)?;
        texts.push(text)?;
        if local {
            locals += 1;
        }
    }
    Ok(texts)
}

/// Makes the index that finds the module's declarations from their token numbers.
fn index_declarations<'a>(
    alloc: Global,
    view: &View<'a>,
) -> Result<DeclarationIndex<'a>, AllocError>
    ensures { IfOk result (λ p. p.declared.now ≡ view.now.rows.declared) }
{
    let table = view.table();
    table.invariants();
    DeclarationIndex::new(alloc, table.declared(), view.tokens().len())
}

impl<'a> Texts<'a> {
    /// Makes the symbol strings of the module, of its declarations, and of the modules that its import items name. `refs` affects only the
    /// seed of a hash table, not the strings.
    pub(crate) fn from_declarations(
        alloc: Global,
        view: &View<'a>,
        refs: &[Reference],
        package_name: &str,
    ) -> Result<Texts<'a>, AllocError>
        requires { NamesAreIdentifiers view.now }
        ensures { IfOk result (AreSymbolTexts view.now package_name.now) }
    {
        let prefixes = Prefixes::new(alloc, package_name)?;
        let name = view.text(view.table().module_name_token());
        let own = module_text(alloc, prefixes.tree.as_str(), name)?;
        let declared = declared_texts(alloc, view, prefixes.tree.as_str())?;
        let locations = index_declarations(alloc, view)?;
        let foreign = ForeignTexts::new(alloc, view, &prefixes, external_table_seed(view, refs))?;
        Ok(Texts {
            prefixes,
            own,
            declared,
            locations,
            foreign,
        })
    }

    /// Stores the symbol string of a target that is declared outside of the module, unless the string is stored already.
    /// With `Ok` returns a hint for `stored_symbol`: the index of the string of a declaration of another module, or the index of a
    /// declaration of the module itself. The hint for any other target is 0.
    pub(crate) fn intern(
        &mut self,
        alloc: Global,
        view: &View<'a>,
        target: Target,
    ) -> Result<usize, AllocError>
        requires named { NamesAreIdentifiers view.now }
        requires external { (item name : ℕ) → target ≡ External item name → IsName (text view.now name) }
        ensures { (package_name : List ℕ) → AreSymbolTexts view.now package_name self.old →
            OnOk result (AreSymbolTexts view.now package_name self.new) }
    {
        match target {
            Target::Declared(number) => Ok(self.locations.index_by_cache(number)),
            _ => self.foreign.intern(alloc, view, &self.prefixes, target),
        }
    }

    /// Makes the symbol strings of all targets of these references of the module.
    pub(crate) fn new(
        alloc: Global,
        view: &View<'a>,
        refs: &[Reference],
        package_name: &str,
    ) -> Result<Texts<'a>, AllocError>
        requires named { NamesAreIdentifiers view.now }
        requires of_names { ReferencesAreIdentifiers view.now refs.now }
        ensures { IfOk result (AreSymbolTexts view.now package_name.now) }
    {
        let mut texts = Texts::from_declarations(alloc, view, refs, package_name)?;
        for reference in refs {
            texts.intern(alloc, view, reference.target)?;
        }
        Ok(texts)
    }
}
