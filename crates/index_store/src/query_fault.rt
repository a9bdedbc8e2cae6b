//! The errors of queries, with their texts and exit statuses.
ghost use Rattle.std.specs.Prelude.{◌≡◌, IfOk};
ghost use Rattle.std.specs.String.{string_bytes};
ghost use Rattle.index_store.specs.Faults.{query_fault_text, query_status, wire_fault_text, wire_status};

use crate::StoreFault;
use byte_sink::SinkFault;
use proto_wire::WireFault;
use std::alloc::{AllocError, Global};
use thiserror::Error;

/// Why a query on an index fails. The `From` implementations convert every failed allocation to `Memory` and every failed sink to `Device`,
/// so a `Wire` that they return holds neither.
#[derive(Clone, Copy, Debug, PartialEq, Eq, Error)]
pub enum QueryFault {
    /// The bytes encode no index. The value is their first fault.
    #[error(transparent)]
    Wire(WireFault),
    /// No document of the index has the path in the query.
    #[error("no document has this path")]
    NoDocument,
    /// The sink failed.
    #[error("cannot write")]
    Device,
    /// An allocation failed.
    #[error("memory ran out")]
    Memory,
}

impl From<AllocError> for QueryFault {
    ghost use Rattle.std.specs.Prelude.{◌≡◌};
    ghost use Rattle.index_store.specs.declared.query_fault.QueryFault.TheVariants.{Memory};

    ghost from_gives = { λ _ fault. fault ≡ Memory };

    fn from(_error: AllocError) -> QueryFault {
        QueryFault::Memory
    }
}

impl From<WireFault> for QueryFault {
    ghost use Rattle.std.specs.Prelude.{◌≡◌};
    ghost use Rattle.index_store.specs.Faults.{of_wire};

    ghost from_gives = { λ lower fault. fault ≡ of_wire lower };

    fn from(fault: WireFault) -> QueryFault {
        match fault {
            WireFault::Memory => QueryFault::Memory,
            WireFault::Device => QueryFault::Device,
            fault => QueryFault::Wire(fault),
        }
    }
}

impl From<StoreFault> for QueryFault {
    ghost use Rattle.std.specs.Prelude.{◌≡◌};
    ghost use Rattle.index_store.specs.Faults.{of_store};

    ghost from_gives = { λ lower fault. fault ≡ of_store lower };

    fn from(fault: StoreFault) -> QueryFault {
        match fault {
            StoreFault::NoDocument => QueryFault::NoDocument,
            StoreFault::Memory => QueryFault::Memory,
        }
    }
}

impl From<SinkFault> for QueryFault {
    ghost use Rattle.std.specs.Prelude.{◌≡◌};
    ghost use Rattle.index_store.specs.Faults.{of_sink};

    ghost from_gives = { λ lower fault. fault ≡ of_sink lower };

    fn from(fault: SinkFault) -> QueryFault {
        match fault {
            SinkFault::Memory => QueryFault::Memory,
            SinkFault::Device => QueryFault::Device,
        }
    }
}

/// The text of a fault of the wire format: its name and, for a fault of the bytes, the offset of its record's key.
fn wire_fault_text(alloc: Global, fault: WireFault) -> Result<String, AllocError>
    ensures { IfOk result (λ t. string_bytes t ≡ wire_fault_text fault) }
{
    match fault {
        WireFault::Truncated { at } => format!(in alloc; "Truncated {at}"),
        WireFault::LongVarint { at } => format!(in alloc; "LongVarint {at}"),
        WireFault::Group { at } => format!(in alloc; "Group {at}"),
        WireFault::ZeroField { at } => format!(in alloc; "ZeroField {at}"),
        WireFault::BadText { at } => format!(in alloc; "BadText {at}"),
        WireFault::Device => String::from_str(alloc, "cannot write"),
        WireFault::Memory => String::from_str(alloc, "Memory"),
    }
}

/// The text of an error. A fault of the bytes is its name and the offset of its record's key, in bytes from 0. `Device` is `cannot write`,
/// and the others are their names.
/// Fails with `AllocError` if an allocation fails.
pub fn query_fault_text(alloc: Global, fault: &QueryFault) -> Result<String, AllocError>
    // With `Ok` the string is exactly the text of the error.
    ensures { IfOk result (λ t. string_bytes t ≡ query_fault_text fault.now) }
{
    match fault {
        QueryFault::Wire(fault) => wire_fault_text(alloc, *fault),
        QueryFault::NoDocument => String::from_str(alloc, "NoDocument"),
        QueryFault::Device => String::from_str(alloc, "cannot write"),
        QueryFault::Memory => String::from_str(alloc, "Memory"),
    }
}

/// The exit status for a fault of the wire format: 1 for invalid bytes, 3 if the sink failed, 4 if an allocation failed.
fn wire_status(fault: WireFault) -> u8
    ensures { result ≡ wire_status fault }
{
    match fault {
        WireFault::Memory => 4,
        WireFault::Device => 3,
        WireFault::Truncated { .. }
        | WireFault::LongVarint { .. }
        | WireFault::Group { .. }
        | WireFault::ZeroField { .. }
        | WireFault::BadText { .. } => 1,
    }
}

/// The exit status of a run that ends with this error: 1 for invalid input, 3 if the sink failed, 4 if an allocation failed.
pub fn query_status(fault: &QueryFault) -> u8
    // The result is exactly the exit status of the error.
    ensures { result ≡ query_status fault.now }
{
    match fault {
        QueryFault::Wire(fault) => wire_status(*fault),
        QueryFault::NoDocument => 1,
        QueryFault::Device => 3,
        QueryFault::Memory => 4,
    }
}
