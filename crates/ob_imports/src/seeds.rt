//! The hash seed of the table of names. It depends on the names, as the authors of the files may choose names that collide.

use crate::Parsed;
use std::alloc::{AllocError, Global};
use text_hash::Seed;

/// The largest number of names for which the fixed seed is used, so that no digest of the names is computed.
const MAX_FIXED_SEED_NAMES: usize = 1024;

/// An upper bound of the number of names: the module name of each file and its import items.
fn name_count(parsed: &[Parsed]) -> usize {
    let mut count = parsed.len();
    for file in parsed {
        count = count.saturating_add(file.imports.len());
    }
    count
}

/// Appends the names of a file, each with a line end.
fn append_file_names(text: &mut Vec<u8>, file: &Parsed) -> Result<(), AllocError> {
    text.extend_from_slice(file.name.as_bytes())?;
    text.push(b'\n')?;
    for name in &file.imports {
        text.extend_from_slice(name.as_bytes())?;
        text.push(b'\n')?;
    }
    Ok(())
}

/// All names, each with a line end.
fn concatenate_names(alloc: Global, parsed: &[Parsed]) -> Result<Vec<u8>, AllocError> {
    let mut text = Vec::new(alloc);
    for file in parsed {
        append_file_names(&mut text, file)?;
    }
    Ok(text)
}

/// The seed of the table of names: names that were chosen to collide under one seed get a different seed.
pub(crate) fn name_table_seed(alloc: Global, parsed: &[Parsed]) -> Result<Seed, AllocError> {
    let count = name_count(parsed);
    if count <= MAX_FIXED_SEED_NAMES {
        return Ok(Seed::for_keys(&[], count));
    }
    let text = concatenate_names(alloc, parsed)?;
    Ok(Seed::for_keys(text.as_slice(), count))
}
