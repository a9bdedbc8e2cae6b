//! Makes the types of a module of a tree, a graph in which the designators of the module are followed. In the clauses:
//! `in_text`: the tokens are nonempty ranges of the bytes, each before the next. `few`: indices of reached modules fit 32 bits.
//! `by_name`: the reached modules are sorted by name. `ServesModule` adds: precomputed chains are for a tree that has these modules.
ghost use Rattle.std.specs.Prelude.{◌≡◌, ◌≤◌, ◌^◌, length, map, IfOk};
ghost use Rattle.std.specs.Arc.{arc_value};
ghost use Rattle.module_table.specs.Tables.{rows_in};
ghost use Rattle.ob_scan.specs.Spelling.{AreInText};
ghost use Rattle.ob_view.specs.ModuleNumbers.{AreByName};
ghost use Rattle.ob_view.specs.World.{world};
ghost use Rattle.ob_board.specs.PrecomputedChains.{ServesModule};

use crate::precomputed_chains::PrecomputedChains;
use ob_interface::Interface;
use ob_types::Types;
use source_tree::{ModuleParts, Source};
use std::alloc::{AllocError, Global};
use std::sync::Arc;

/// Makes the types of a module from the module's source and parts and from the interfaces of the modules that it reaches, without
/// precomputed chains.
pub(crate) fn types_with_interfaces<'a>(
    alloc: Global,
    source: &'a Source,
    parts: &'a ModuleParts,
    reached: &'a [Arc<Interface>],
) -> Result<Types<'a>, AllocError>
    requires in_text { AreInText source.now.bytes.items parts.now.tokens }
    requires few { length (map arc_value reached.now) ≤ 2 ^ 32 }
    requires by_name { AreByName (map arc_value reached.now) }
    ensures { IfOk result (λ t. t ≡ world source.now.bytes.items parts.now.tokens (rows_in parts.now.table) parts.now.scopes (map arc_value reached.now)) }
{
    Types::new(
        alloc,
        source.bytes.as_slice(),
        parts.tokens.as_slice(),
        &parts.table,
        &parts.scopes,
        reached,
    )
}

/// Makes the types of a module from the module's source and parts, the interfaces of the modules that it reaches, and the tree's
/// precomputed type chains.
pub(crate) fn module_types<'a>(
    alloc: Global,
    source: &'a Source,
    parts: &'a ModuleParts,
    reached: &'a [Arc<Interface>],
    precomputed_chains: &'a PrecomputedChains,
) -> Result<Types<'a>, AllocError>
    requires in_text { AreInText source.now.bytes.items parts.now.tokens }
    requires few { length (map arc_value reached.now) ≤ 2 ^ 32 }
    requires precomputed_chains { ServesModule (map arc_value reached.now) precomputed_chains.now }
    ensures { IfOk result (λ t. t ≡ world source.now.bytes.items parts.now.tokens (rows_in parts.now.table) parts.now.scopes (map arc_value reached.now)) }
{
    let types = types_with_interfaces(alloc, source, parts, reached)?;
    Ok(types.with_precomputed(precomputed_chains.precomputed()))
}
