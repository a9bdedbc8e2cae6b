//! The types of a module and of the modules that it imports directly or indirectly, as one graph. Depends on `ob_view` for the module, its
//! names and declarations and those of the modules that it reaches, on `type_graph` for searches in the graph, and on `text_hash` and
//! `indexmap` for the index of fields. It also depends on `ob_scan`, `module_table`, `scopes` and `ob_interface` for what a view is made
//! of. Main type: `Types`, a `TypeGraph`; each look-up returns exactly what the module's table and the interfaces contain.
//! `precompute_types` precomputes long chains of types once for all modules of a tree; results are equal with and without it.
#![tactic(auto)]

mod chain_lengths;
mod field_index;
mod indexed_module;
mod listed;
mod nodes;
mod precompute;
mod precomputed;
mod shapes;
mod types;

pub use nodes::{Field, Named, Node, Record};
pub use precompute::precompute_types;
pub use precomputed::PrecomputedTypes;
pub use types::Types;
