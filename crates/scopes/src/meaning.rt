//! The meaning of a use, by token numbers.

use module_table::Keyed;

/// The tokens of a use and of the declaration that it means.
#[derive(Clone, Copy)]
pub struct Resolution {
    pub used: u32,
    pub declared: u32,
}

impl Keyed for Resolution {
    ghost number_in = { λ row. row.used };

    fn key(&self) -> u32 {
        self.used
    }
}
