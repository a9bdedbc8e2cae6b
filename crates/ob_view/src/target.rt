//! The targets of identifiers, and references.
ghost use Rattle.std.specs.Prelude.{◌≡◌};
ghost use Rattle.ob_view.specs.TargetKinds.{is_unresolved};

/// What an identifier denotes, or that it denotes nothing.
#[derive(Clone, Copy, Drop)]
pub enum Target {
    /// A declaration of the module itself, which can be that of a field, by the token number of the declared name.
    Declared(u32),
    /// A declaration of another module, which can be that of a field: `reached` is the index of the module among the reached ones, and
    /// `declaration` the index of the declaration in the module's interface.
    Imported { reached: u32, declaration: u32 },
    /// A name of a module that isn't in the tree: `item` is the index of the import item that names the module, and `name` the token number
    /// of the name.
    External { item: u32, name: u32 },
    /// The module itself.
    Own,
    /// The module that the import item at this index names.
    Module(u32),
    /// A predeclared name.
    Predeclared,
    /// Nothing: the identifier can't be resolved.
    Unresolved,
}

impl Target {
    /// Returns whether the target is `Unresolved`.
    pub fn is_unresolved(&self) -> bool
        // The result is true if and only if the target is `Unresolved`.
        ensures { result ≡ is_unresolved self.now }
    {
        match self {
            Target::Unresolved => true,
            Target::Declared(_) => false,
            Target::Imported { .. } => false,
            Target::External { .. } => false,
            Target::Own => false,
            Target::Module(_) => false,
            Target::Predeclared => false,
        }
    }
}

/// An identifier of a module, given by its token number, with its target and its role.
#[derive(Clone, Copy, Drop)]
pub struct Reference {
    pub number: u32,
    pub target: Target,
    /// The role of the identifier (scip.proto, `SymbolRole`): 1 for a declaration, 2 for an import, 4 for a write, 8 for a read, and 0 for
    /// any other use.
    pub role: u8,
}
