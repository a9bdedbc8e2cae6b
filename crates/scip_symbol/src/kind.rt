//! The kinds of descriptors.

/// The kind of a descriptor (scip.proto, `Descriptor.Suffix`).
#[derive(Clone, Copy, PartialEq, Eq)]
pub enum DescriptorKind {
    /// A module or another namespace: `name/`.
    Namespace,
    /// A type: `name#`.
    TypeName,
    /// A constant, a variable or a field: `name.`.
    Term,
    /// A procedure: `name().`, or with a disambiguator `name(+1).`.
    Method,
    /// Anything that has no other kind: `name:`.
    Meta,
    /// A macro: `name!`.
    Macro,
    /// A parameter of a type: `[name]`.
    TypeParameter,
    /// A parameter: `(name)`.
    Parameter,
}
