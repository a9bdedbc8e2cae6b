//! The type of networks.
ghost use Rattle.std.specs.Prelude.{◌≡◌, ◌<◌, IfSome, length, slice_get};
ghost use Rattle.std.specs.List.{position};
ghost use Rattle.std.specs.Str.{bytes_eq};
ghost use Rattle.std.specs.List.Sorted.{IsStrictlySortedBy};
ghost use Rattle.std.specs.String.{string_bytes, string_cmp};
ghost use Rattle.cut_net.specs.NetReading.{net_of, net_with};
ghost use Rattle.cut_net.specs.Network.{index_of, name_of};
ghost use Rattle.cut_net.specs.Pins.{is_pinned, ArePins};
ghost use Rattle.cut_net.specs.Prices.{with_own_weight};
ghost use Rattle.cut_net.specs.WellFormed.{IsNetwork};

use crate::Priced;
use crate::found::find_import;
use std::alloc::Global;
use std::marker::Model;

/// A network: modules numbered by name, and imports numbered by importer and imported name. An import may be pinned: it can't be removed,
/// and its capacity is unlimited.
#[derive(Drop)]
pub struct Net {
    pub(crate) names: Vec<String>,
    pub(crate) imports: Vec<Priced>,
    pub(crate) pins: Vec<Priced>,
}

impl Model for Net {
    ghost use Rattle.std.specs.Prelude.{map};
    ghost use Rattle.std.specs.String.{string_bytes};
    ghost use Rattle.cut_net.specs.Network.{Network, texts};
    ghost use Rattle.cut_net.specs.Pins.{ArePins};
    ghost use Rattle.cut_net.specs.WellFormed.{IsNetwork};

    ghost Value = { Network };

    ghost view = { λ n. record { names = map string_bytes n.names.items; imports = n.imports.items; pins = n.pins.items } };

    ghost invariant = { λ n. IsNetwork (record { names = map string_bytes n.names.items; imports = n.imports.items; pins = n.pins.items })
        × ArePins (record { names = map string_bytes n.names.items; imports = n.imports.items; pins = n.pins.items }) };
}

/// The index of a name in a strictly sorted list, by binary search; none if the list lacks it.
pub fn name_index(names: &[String], name: &str) -> Option<usize>
    // The names are strictly sorted.
    requires { IsStrictlySortedBy string_cmp names.now }
    // It is the index of the name, or none.
    ensures { result ≡ position (λ x. bytes_eq (string_bytes x) name.now) names.now }
{
    names
        .binary_search_by(|other| other.as_str().cmp(name))
        .ok()
}

impl Net {
    /// The network of these names and imports, which satisfy the invariant. Nothing is pinned.
    pub fn from_parts(alloc: Global, names: Vec<String>, imports: Vec<Priced>) -> Net
        // Names and imports satisfy the invariant.
        requires { IsNetwork (net_of names.items imports.items) }
        // The network has these names and imports, and no pins.
        ensures { result ≡ net_of names.items imports.items }
    {
        let pins = Vec::new(alloc);
        Net {
            names,
            imports,
            pins,
        }
    }

    /// The network of these names, imports and pins, which satisfy the invariant.
    pub fn with_pins(names: Vec<String>, imports: Vec<Priced>, pins: Vec<Priced>) -> Net
        // Names and imports satisfy the invariant.
        requires network { IsNetwork (net_with names.items imports.items pins.items) }
        // The pins satisfy the invariant of pins.
        requires pins { ArePins (net_with names.items imports.items pins.items) }
        // The network has these names, imports and pins.
        ensures { result ≡ net_with names.items imports.items pins.items }
    {
        Net {
            names,
            imports,
            pins,
        }
    }

    /// The invariant of a network: names and imports are strictly sorted and within the limits, the imports are acyclic, and the pins are
    /// imports of the network.
    pub fn invariants(&self)
        // Names and imports are strictly sorted and within the limits, and the imports are acyclic.
        ensures network { IsNetwork self.now }
        // The pins are imports of the network, and the unpinned imports weigh at most 2^40 if there is a pin.
        ensures pins { ArePins self.now }
    {
        // The prover knows the type's invariant only after a use of a field.
        let _ = &self.names;
    }

    /// The number of modules.
    pub fn nodes(&self) -> u32
        // It is the number of names.
        ensures { result ≡ length self.now.names }
    {
        self.names.len() as u32
    }

    /// The name of a module.
    pub fn name(&self, node: u32) -> &str
        // `node` is a module.
        requires { node < length self.now.names }
        // It is the module's name.
        ensures { result.now ≡ name_of self.now node }
    {
        self.names[node as usize].as_str()
    }

    /// The number of the module with this name, by binary search; none if the network lacks it.
    #[tactic(auto, using(crate::proofs::Places::position_named))]
    pub fn index_of(&self, name: &str) -> Option<u32>
        // It is the index of the name, or none.
        ensures { result ≡ index_of self.now name.now }
    {
        let at = name_index(self.names.as_slice(), name)?;
        Some(at as u32)
    }

    /// All imports by number, with their weights. A pinned one has the weight 2^40 + 1, which exceeds the weight of every cut.
    pub fn imports(&self) -> &[Priced]
        // They are the imports of the network.
        ensures { result.now ≡ self.now.imports }
    {
        self.imports.as_slice()
    }

    /// The import of this number, with its weight. A pinned one has the weight that it had before it was pinned.
    pub fn import(&self, import: u32) -> Priced
        // There is an import of this number.
        requires { import < length self.now.imports }
        // It has its weight, or the weight that it had before it was pinned.
        ensures { IfSome (slice_get self.now.imports import) (λ i. result ≡ with_own_weight self.now i) }
    {
        let import = self.imports[import as usize];
        match find_import(self.pins.as_slice(), import) {
            Some(pin) => Priced {
                from: import.from,
                to: import.to,
                amount: pin.amount,
            },
            None => import,
        }
    }

    /// Whether the import of this number is pinned.
    pub fn pinned(&self, import: u32) -> bool
        // There is an import of this number.
        requires { import < length self.now.imports }
        // It is whether the import is pinned.
        ensures { IfSome (slice_get self.now.imports import) (λ i. result ≡ is_pinned self.now i) }
    {
        find_import(self.pins.as_slice(), self.imports[import as usize]).is_some()
    }

    /// The pinned imports, strictly sorted, each with the weight that it had before it was pinned.
    pub fn pins(&self) -> &[Priced]
        // They are the pins of the network.
        ensures { result.now ≡ self.now.pins }
    {
        self.pins.as_slice()
    }
}
