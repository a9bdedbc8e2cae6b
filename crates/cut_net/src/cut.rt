//! Cuts with their certificates.

use crate::Priced;

/// A claimed cut: imports to remove with their weights, the sum of the weights, and a flow whose value is that sum, as a certificate. The
/// type has no invariant. In cuts of the solver and of the reader of reports both lists are strictly sorted, and no flow is 0.
#[derive(Drop)]
pub struct Cut {
    /// The imports to remove, each with its weight as amount.
    pub imports: Vec<Priced>,
    /// The claimed sum of the weights of the imports to remove.
    pub weight: u64,
    /// The imports with flow, each with its flow as amount.
    pub flow: Vec<Priced>,
}
