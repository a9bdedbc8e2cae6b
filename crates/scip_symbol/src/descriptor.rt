//! The descriptors of symbols.
ghost use Rattle.std.specs.Prelude.{◌≡◌, ◌≢◌, []};
ghost use Rattle.std.specs.String.{string_bytes};
ghost use Rattle.scip_symbol.specs.declared.kind.DescriptorKind.TheVariants.{Method};

use crate::DescriptorKind;

/// A descriptor (scip.proto, `Descriptor`): its kind, its name, and for a method a disambiguator, which distinguishes methods of one name.
/// The type guarantees that only a method has a disambiguator that isn't empty.
#[derive(PartialEq, Eq, Drop)]
pub struct Descriptor {
    kind: DescriptorKind,
    name: String,
    disambiguator: String,
    pub ghost of_method: { kind ≢ Method → string_bytes disambiguator ≡ [] },
}

impl Descriptor {
    ghost use Rattle.std.specs.Prelude.{◌≡◌, ◌≢◌, []};
    ghost use Rattle.std.specs.String.{string_bytes};
    ghost use Rattle.scip_symbol.specs.declared.kind.DescriptorKind.TheVariants.{Method};
    ghost use Rattle.scip_symbol.specs.Views.{descriptor_model};

    /// A descriptor of this kind and name without a disambiguator, as `T#` for a type or `p().` for a method. `name` isn't escaped.
    pub fn new(kind: DescriptorKind, name: String) -> Descriptor
        // The result has this kind and name and an empty disambiguator.
        ensures { descriptor_model result ≡ record { kind = kind; name = string_bytes name; disambiguator = [] } }
    {
        let disambiguator = String::new(*name.allocator());
        Descriptor {
            kind,
            name,
            disambiguator,
        }
    }

    /// A descriptor of a method with this name and this disambiguator, as `p(+1).`; an empty disambiguator means none. `name` isn't
    /// escaped.
    pub fn method(name: String, disambiguator: String) -> Descriptor
        // The result is a method with this name and this disambiguator.
        ensures { descriptor_model result ≡ record { kind = Method; name = string_bytes name; disambiguator = string_bytes disambiguator } }
    {
        Descriptor {
            kind: DescriptorKind::Method,
            name,
            disambiguator,
        }
    }

    /// The kind of the descriptor.
    pub fn kind(&self) -> DescriptorKind
        // The result is the descriptor's kind.
        ensures { result ≡ (descriptor_model self.now).kind }
    {
        self.kind
    }

    /// The name of the descriptor, unescaped.
    pub fn name(&self) -> &str
        // The result is the descriptor's name.
        ensures { result.now ≡ (descriptor_model self.now).name }
    {
        self.name.as_str()
    }

    /// The disambiguator of the descriptor; empty if it is no method, or a method without one.
    pub fn disambiguator(&self) -> &str
        // The result is the descriptor's disambiguator.
        ensures value { result.now ≡ (descriptor_model self.now).disambiguator }
        // If the descriptor isn't a method, the result is empty.
        ensures of_method { (descriptor_model self.now).kind ≢ Method → result.now ≡ [] }
    {
        self.disambiguator.as_str()
    }
}
