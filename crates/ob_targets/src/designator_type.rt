//! The module or the type that a designator is known to denote while its selectors are followed.

use ob_types::Node;

/// What a prefix of a designator is known to denote. A prefix is the designator's head with its first selectors, or with none.
#[derive(Clone, Copy, Drop)]
pub enum DesignatorType {
    /// It isn't known that the prefix denotes a module, or a value of some type.
    Nothing,
    /// The prefix denotes the module that the import item at this index names.
    Module(u32),
    /// The prefix denotes a value of this type.
    Typed(Node),
}
