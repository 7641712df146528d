//! What a check comes to.

use auc_claim::CertRefused;

/// What a check comes to.
#[derive(Clone, Copy, Debug, PartialEq, Eq)]
pub(crate) enum Checked {
    Valid,
    Invalid(ClaimFault),
}

/// Why a claim in the caller's memory doesn't pass.
#[derive(Clone, Copy, Debug, PartialEq, Eq)]
pub(crate) enum ClaimFault {
    /// The place of this person, the first such, is none of the list, or that of another one's arc.
    Misplaced { person: u32 },
    /// A number is out of range, or the numbers don't rise.
    OutOfRange,
    /// The checker refuses the claim.
    Refused(CertRefused),
}
