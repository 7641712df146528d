//! The row that is scanned, and the copies of the prices.
//!
//! Its requirements are stated here once. It is passed by value through all methods of finding a bid.

ghost use Rattle.std.specs.Prelude.{◌≡◌, ◌<◌, All, length};
ghost use Rattle.auc_graph.specs.Price.{IsPrice};

use auc_graph::Rows;

/// A person, the rows of all persons, and the copies of the prices, indexed by object, at which the person's row is
/// scanned.
#[derive(Clone, Copy)]
pub(crate) struct PersonRow<'a> {
    pub rows: &'a Rows,
    pub person: u32,
    pub copies: &'a [i64],
    ghost known: { person < length rows.now.rows },
    ghost objects: { rows.now.objects ≡ length copies.now },
    ghost are_prices: { All IsPrice copies.now },
}
