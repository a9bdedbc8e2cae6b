//! Laws of record types. Each function is a law: its body is empty, and its contract is proved.
ghost use Rattle.std.specs.Prelude.{◌≡◌, ◌≤◌, ℕ, Contains, Some};
ghost use Rattle.ob_tree.specs.declared.declaration.Module.{Module};
ghost use Rattle.module_table.specs.declared.rows.Declared.{Declared};
ghost use Rattle.module_table.specs.declared.rows.DeclGroup.{DeclGroup};
ghost use Rattle.module_table.specs.declared.rows.TypePart.{TypePart};
ghost use Rattle.module_table.specs.declared.rows.Part.TheVariants as part_kinds;
ghost use Rattle.module_table.specs.declared.rows.Record.{Record};
ghost use Rattle.table_rules.specs.Declaring.{rows_of};
ghost use Rattle.table_laws.specs.Owners.{EndsTypeExpr, IsFieldOf, IsOfRecord};

/// Two records of a module have different owners: the type of a declaration contains at most one record, directly or through arrays and
/// pointers.
pub fn owner_has_one_record()
    ensures { (m : Module) (r s : Record) → Contains (rows_of m).records r → Contains (rows_of m).records s → r.owner ≡ s.owner → r.number ≡ s.number }
{}

/// The type of the owner of a record ends with that record. Conversely each record in the type of a declaration is a record of the table
/// that this declaration owns.
pub fn record_ends_owner_type()
    ensures here { (m : Module) (r : Record) → Contains (rows_of m).records r → EndsTypeExpr (rows_of m) r }
    ensures unique { (m : Module) (q : TypePart) → Contains (rows_of m).parts q → q.part ≡ part_kinds.Record → IsOfRecord (rows_of m) q }
{}

/// A field is in a record of the module. The owner of the record is declared before the field, in the block of the field, as a type, a
/// variable or a field.
pub fn fields_have_owners()
    ensures { (m : Module) (f : DeclGroup) (r : ℕ) → Contains (rows_of m).decl_groups f → f.of_record ≡ Some r → IsFieldOf (rows_of m) f r }
{}

/// An identifier does not precede the first token of its declaration group.
pub fn identifiers_follow_group_start()
    ensures { (m : Module) (d : Declared) → Contains (rows_of m).declared d → d.declared_by ≤ d.number }
{}
