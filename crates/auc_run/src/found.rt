//! What a search for a full assignment finds.

use auc_claim::{Cert, Picks};

/// An arc for each person, or the certificate that there is no assignment.
#[derive(Debug, Drop)]
pub enum Found {
    /// The pick of each person: an assignment, of whatever cost.
    Full(Picks),
    /// Persons who together have arcs to fewer objects than they number.
    Hall(Cert),
}
