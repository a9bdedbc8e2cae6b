//! The law of interfaces. The function's body is empty, and its contract is proved.
ghost use Rattle.std.specs.Prelude.{◌≡◌, ◌↔◌, ℕ, List, Option, Some, None};
ghost use Rattle.std.specs.Option.{option_and_then};
ghost use Rattle.ob_scan.specs.declared.token.Token.{Token};
ghost use Rattle.module_table.specs.declared.rows.Declared.{Declared};
ghost use Rattle.module_table.specs.declared.rows.DeclGroup.{DeclGroup};
ghost use Rattle.module_table.specs.Order.{AreRowsSorted};
ghost use Rattle.module_table.specs.Parts.{Rows};
ghost use Rattle.ob_interface.specs.Interfaces.{interface_of, Declaration};
ghost use Rattle.ob_interface.specs.OwnTable.{Declares, IsFirstDeclared};
ghost use Rattle.ob_interface.specs.Placed.{declaration_at, index_of};

/// A look-up by name in the interface of a module finds exactly what the module's own table declares, if the table is sorted, as every
/// `Table` is.
pub fn lookup_is_exact()
    // A look-up finds a declaration exactly if it is the first entry of that name in the record or block.
    ensures found { (bytes : List ℕ) (ts : List Token) (rows : Rows) (of_record : Option ℕ) (name : List ℕ) (d : Declaration) → AreRowsSorted rows →
        option_and_then (declaration_at (interface_of bytes ts rows)) (index_of (interface_of bytes ts rows) of_record name) ≡ Some d ↔ IsFirstDeclared bytes ts rows of_record name d }
    // A look-up finds nothing exactly if no entry declares the name.
    ensures none { (bytes : List ℕ) (ts : List Token) (rows : Rows) (of_record : Option ℕ) (name : List ℕ) → AreRowsSorted rows →
        option_and_then (declaration_at (interface_of bytes ts rows)) (index_of (interface_of bytes ts rows) of_record name) ≡ None ↔
        ((row : Declared) (by : DeclGroup) → Declares bytes ts rows of_record name row by → ⊥) }
{}
