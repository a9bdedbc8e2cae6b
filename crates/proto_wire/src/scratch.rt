//! Buffers that are reused.
ghost use Rattle.std.specs.Prelude.{◌≡◌, []};

use std::alloc::{AllocError, Global};

/// Buffers for the payloads of nested messages, one for each level. They keep their capacity, so no payload allocates once they are as
/// large as the largest one.
#[derive(Drop)]
pub struct Scratch {
    alloc: Global,
    buffers: Vec<Vec<u8>>,
}

impl Scratch {
    /// A store without buffers. Allocates nothing.
    pub fn new(alloc: Global) -> Self {
        Scratch {
            alloc,
            buffers: Vec::new(alloc),
        }
    }

    /// Takes an empty buffer: one that `give_back` stored, or else a new one.
    pub(crate) fn take_buffer(&mut self) -> Vec<u8>
        ensures { result.items ≡ [] }
    {
        match self.buffers.pop() {
            None => Vec::new(self.alloc),
            Some(mut buffer) => {
                buffer.clear();
                buffer
            }
        }
    }

    /// Stores a buffer for the next payload, so that its capacity is reused. If an allocation fails, the buffer is dropped.
    pub(crate) fn give_back(&mut self, buffer: Vec<u8>) -> Result<(), AllocError> {
        self.buffers.push(buffer)?;
        Ok(())
    }
}
