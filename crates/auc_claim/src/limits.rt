//! The limits of a certificate.

pub(crate) use auc_graph::{
    MOST_COST, MOST_OBJECTS, MOST_PERSONS, MOST_PRICE, TEXT_OBJECTS, TEXT_PERSONS,
};

/// The greatest number of objects in version 1 of the text.
pub const MOST_OBJECTS_IN_FIRST: u32 = 10_000;

/// The greatest number of objects that an infeasible certificate names: they are fewer than persons.
pub const MOST_NAMED: u32 = 10_000;

/// The greatest price that a run may start from, 2^60, on the scale of costs times persons + 1: half of the greatest
/// price there is.
pub const HIGHEST_START: i64 = 1_152_921_504_606_846_976;
