//! The claims of certificates, and the checker.
//!
//! [`check`] tests a claim by weak duality or by Hall's condition (1935), in O(arcs + persons + objects) time.
//!
//! Proved: what [`check`] accepts is true of the problem, of all its assignments. So nobody who made a certificate has
//! to be trusted. The text of certificates is in `auc_cert`.
#![tactic(auto)]

mod cert;
mod checking;
mod flags;
mod hall;
mod laws;
mod limits;
mod lists;
mod picks;
mod reason;
mod refused;
mod start;
mod start_error;
mod version;

pub use cert::{Cert, CertParts};
pub use checking::check;
pub use laws::{
    assignments_pass, brackets_pass, faultless_claims_are_allowed, faultless_claims_are_spelled,
    hall_sets_pass,
};
pub use limits::{HIGHEST_START, MOST_NAMED, MOST_OBJECTS_IN_FIRST};
pub use lists::{Pick, Picks, Prices};
pub use picks::cost_of;
pub use reason::Reason;
pub use refused::CertRefused;
pub use start::{high_price, start_prices};
pub use start_error::StartError;
pub use version::{Version, names_version};
