//! The text of certificates: each has one spelling, which [`read_cert`] reads and [`write_cert`] writes. The reader
//! takes O(length) time.
//!
//! Proved: [`read_cert`] reads exactly the spellings of certificates, each as its certificate, and a whole
//! [`write_cert`] writes just the spelling. What a certificate claims, and whether it is true, is for [`auc_claim`],
//! whose names are re-exported here.
#![tactic(auto)]

mod cert_lines;
mod choice_reading;
mod fields;
mod form;
mod laws;
mod line;
mod name_reading;
mod output;
mod reading;
mod second_line;
mod text_error;
mod words;
mod writing;

pub use auc_claim::{
    Cert, CertParts, CertRefused, HIGHEST_START, Pick, Picks, Prices, Reason, StartError, check,
    cost_of, high_price, start_prices,
};
pub use form::Form;
pub use laws::{faultless_claims_have_texts, no_spelling_begins_another};
pub use output::{Part, WriteFault, write_counted, write_parts, write_whole};
pub use reading::{read_cert, read_large_cert};
pub use text_error::CertTextError;
pub use writing::{write_cert, write_picks};
