//! Imports with an amount.

/// An import, given by the numbers of its two modules, with its weight or its flow.
#[derive(Clone, Copy)]
pub struct Priced {
    /// The number of the importer.
    pub from: u32,
    /// The number of the imported module.
    pub to: u32,
    /// The weight of the import or the flow on it. In the network of a tree the unit is one qualified reference.
    pub amount: u64,
}
