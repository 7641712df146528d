//! The brand of a mail and its seats in the types.

use std::marker::Brand;
use std::sync::ledger::Ledger;

/// The name of a mail in the types, which its seats share, so that a seat fits no other mail.
///
/// It fixes the numbers that the mail was made with, and is the ledger of its calls. Code that calls a mail is generic
/// over the name; the maker of a mail calls that code with `Brand`.
pub trait MailBrand: Ledger {
    ghost use Rattle.std.specs.Prelude.{ℕ};

    /// The number of boxes.
    ghost boxes: { ℕ };

    /// The number of workers. Each is a sender.
    ghost workers: { ℕ };

    /// The number of letters that may wait, in all boxes together.
    ghost nodes: { ℕ };

    /// The number of letters that may be posted in each lane.
    ghost most: { ℕ };

    /// The number of lines that the trail has room for.
    ghost room: { ℕ };
}

impl MailBrand for Brand {
    ghost boxes = { 0 };

    ghost workers = { 0 };

    ghost nodes = { 0 };

    ghost most = { 0 };

    ghost room = { 0 };
}
