//! The last step of building a table.

ghost use Rattle.std.specs.Prelude.{◌≡◌};
ghost use Rattle.module_table.specs.Tables.{rows_in};
ghost use Rattle.table_rules.specs.Declaring.{rows_of};
ghost use Rattle.module_table.specs.TableStages.{builder_rows};
ghost use Rattle.ob_tree.specs.declared.declaration.Module.{Module};

use module_table::Table;
use module_table::builder::TableBuilder;

/// The table of a builder that has the entries of a module. The builder appended them in order, so nothing is sorted or copied.
pub fn finish_table(builder: TableBuilder) -> Table
    // Some module has exactly the entries of the builder.
    requires { (m : Module) × (builder_rows builder ≡ rows_of m) }
    // The table has the entries of the builder.
    ensures { rows_in result ≡ builder_rows builder }
{
    builder.into_table()
}
