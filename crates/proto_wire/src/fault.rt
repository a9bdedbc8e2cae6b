//! Why bytes can't be decoded, or why a record can't be written.

use byte_sink::SinkFault;
use std::alloc::{AllocError, AllocFailed};
use thiserror::Error;

/// The first fault of bytes, with the offset of its record's key in the whole input, in bytes from 0; or why a record can't be written.
#[derive(Clone, Copy, Debug, PartialEq, Eq, Error)]
pub enum WireFault {
    /// The bytes end inside the record, or a packed payload inside a number.
    #[error("the record at {at} is cut off")]
    Truncated { at: usize },
    /// The tenth byte of a varint has the continuation bit.
    #[error("the record at {at} has a varint of more than ten bytes")]
    LongVarint { at: usize },
    /// The wire type is 3, 4, 6 or 7: a group, or unknown.
    #[error("the record at {at} is a group")]
    Group { at: usize },
    /// The field number is 0 or above 536,870,911.
    #[error("the record at {at} has no field number")]
    ZeroField { at: usize },
    /// A string field isn't UTF-8.
    #[error("the text of the record at {at} is no UTF-8")]
    BadText { at: usize },
    /// The sink failed.
    #[error("the device failed")]
    Device,
    /// An allocation failed.
    #[error("memory ran out")]
    Memory,
}

impl From<AllocError> for WireFault {
    ghost use Rattle.std.specs.Prelude.{◌≡◌};
    ghost use Rattle.proto_wire.specs.declared.fault.WireFault.TheVariants.{Memory};

    ghost from_gives = { λ _ fault. fault ≡ Memory };

    fn from(_error: AllocError) -> WireFault {
        WireFault::Memory
    }
}

impl<T: Drop> From<AllocFailed<T>> for WireFault {
    ghost use Rattle.std.specs.Prelude.{◌≡◌};
    ghost use Rattle.proto_wire.specs.declared.fault.WireFault.TheVariants.{Memory};

    ghost from_gives = { λ _ fault. fault ≡ Memory };

    fn from(_error: AllocFailed<T>) -> WireFault {
        WireFault::Memory
    }
}

impl From<SinkFault> for WireFault {
    ghost use Rattle.std.specs.Prelude.{◌≡◌};
    ghost use Rattle.proto_wire.specs.Writers.{fault_of_sink};

    ghost from_gives = { λ fault given. given ≡ fault_of_sink fault };

    fn from(fault: SinkFault) -> WireFault {
        match fault {
            SinkFault::Memory => WireFault::Memory,
            SinkFault::Device => WireFault::Device,
        }
    }
}
