//! Hints for the indexes of table entries. A hint affects only speed: an entry found by a hint is used only if a test shows that it is the
//! right one. So the functions have no contracts.

use module_table::{DeclGroup, Declared, Table, TypePart};
use std::alloc::{AllocError, Global};

/// Hints are stored only if there are at most this many tokens for each declared identifier, and at most this many components of type
/// expressions. So the time to build hints is linear in the number of declared identifiers.
const MAX_PER_IDENTIFIER: usize = 256;

/// The hints of a declared identifier: the probable indexes of its declaration group and of the outermost component of its type.
#[derive(Clone, Copy, Drop)]
pub(crate) struct Hint {
    pub(crate) decl_group: u32,
    pub(crate) type_expr: u32,
}

/// The hints for a module table, which replace most binary searches. Both lists are empty if no hints are stored.
#[derive(Drop)]
pub(crate) struct Hints {
    /// For each token, by its number, the index of the identifier that the token declares; 0 if it declares none.
    pub(crate) declared: Vec<u32>,
    /// For each declared identifier, by its index, the hints for its declaration group and its type.
    pub(crate) of_declared: Vec<Hint>,
}

/// Converts an index to 32 bits; 0 if it is too large, which is allowed, since a hint needn't be right.
fn index_u32(index: usize) -> u32 {
    match u32::try_from(index) {
        Ok(index) => index,
        Err(_) => 0,
    }
}

/// The first index, from `from` on, of a declaration group that begins with this token or a later one.
fn decl_group_index(decl_groups: &[DeclGroup], from: usize, first: u32) -> usize {
    let mut at = from;
    'decl_groups: while at < decl_groups.len() && decl_groups[at].first < first {
        at += 1;
    }
    at
}

/// The first index, from `from` on, of a component whose declaration group begins with this token or a later one.
fn type_index(parts: &[TypePart], from: usize, first: u32) -> usize {
    let mut at = from;
    'parts: while at < parts.len() && parts[at].declared_by < first {
        at += 1;
    }
    at
}

/// Computes the hints of all declared identifiers in one pass over the table: the groups and the components are in the order of the
/// identifiers.
fn hints_of_declared(alloc: Global, table: &Table) -> Result<Vec<Hint>, AllocError> {
    let rows = table.declared();
    let mut hints = Vec::with_capacity(alloc, rows.len())?;
    let (mut decl_group, mut type_expr) = (0, 0);
    for row in rows {
        decl_group = decl_group_index(table.decl_groups(), decl_group, row.declared_by);
        type_expr = type_index(table.parts(), type_expr, row.declared_by);
        hints.push(Hint {
            decl_group: index_u32(decl_group),
            type_expr: index_u32(type_expr),
        })?;
    }
    Ok(hints)
}

/// Stores the index of each declared identifier in the element for the token that declares it.
fn store_indexes(indexes: &mut [u32], rows: &[Declared]) {
    for at in 0..rows.len() {
        let token = rows[at].number as usize;
        if token < indexes.len() {
            indexes[token] = index_u32(at);
        }
    }
}

/// Whether hints are stored for this table: whether it has enough declared identifiers for its numbers of tokens and of components.
fn is_worthwhile(table: &Table, tokens: usize) -> bool {
    let most = table.declared().len().saturating_mul(MAX_PER_IDENTIFIER);
    tokens <= most && table.parts().len() <= most
}

/// Builds the hints for a module table; `tokens` is the number of the module's tokens. Returns empty hints if storing them isn't
/// worthwhile; entries are then found by binary search.
pub(crate) fn build_hints(
    alloc: Global,
    table: &Table,
    tokens: usize,
) -> Result<Hints, AllocError> {
    if !is_worthwhile(table, tokens) {
        return Ok(Hints {
            declared: Vec::new(alloc),
            of_declared: Vec::new(alloc),
        });
    }
    let of_declared = hints_of_declared(alloc, table)?;
    let mut declared = vec![in alloc; 0u32; tokens]?;
    store_indexes(declared.as_mut_slice(), table.declared());
    Ok(Hints {
        declared,
        of_declared,
    })
}

impl Hints {
    /// The probable index of the identifier that a token declares; 0 if no hint is stored.
    pub(crate) fn index(&self, token: u32) -> usize {
        match self.declared.as_slice().get(token as usize) {
            Some(index) => *index as usize,
            None => 0,
        }
    }

    /// The hints for the declaration group and the type of the identifier with this index; both are 0 if none are stored.
    pub(crate) fn at(&self, index: usize) -> Hint {
        match self.of_declared.as_slice().get(index) {
            Some(hint) => *hint,
            None => Hint {
                decl_group: 0,
                type_expr: 0,
            },
        }
    }
}
