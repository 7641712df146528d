//! The keys from which a search starts.

use crate::gaps::Gap;
use crate::passes::least_value;
use crate::table::{Table, row_of};
use std::alloc::{AllocError, Global};

/// Twice the lower bound that keys of free objects give (weak duality): the least value of each row, less all keys.
fn bound_at<const G: bool>(table: &Table, gap: Gap<G>, keys: &[i64]) -> i128 {
    let mut bound: i128 = 0;
    for person in 0..table.persons {
        let least = least_value(gap, row_of(table, person), keys);
        bound = bound.wrapping_add(least as i128);
    }
    for key in keys {
        bound = bound.wrapping_sub(*key as i128);
    }
    bound
}

/// The keys of free objects at start prices, which are `scale` times costs of the table, where these give a greater
/// lower bound than prices of 0; else the keys at prices of 0. So a start that is of no use costs the passes of both
/// bounds and no more. With more objects than persons no start is of use.
pub(crate) fn start_keys<const G: bool>(
    alloc: Global,
    table: &Table,
    gap: Gap<G>,
    start: &[i64],
    scale: i64,
) -> Result<Vec<i64>, AllocError> {
    let mut keys = vec![in alloc; 0; table.objects as usize]?;
    if table.persons != table.objects || start.len() != keys.len() {
        return Ok(keys);
    }
    let bound = bound_at(table, gap, keys.as_slice());
    for object in 0..keys.len() {
        let price = start[object].checked_div(scale).unwrap_or(0);
        keys[object] = price.wrapping_mul(2);
    }
    if bound_at(table, gap, keys.as_slice()) > bound {
        return Ok(keys);
    }
    for object in 0..keys.len() {
        keys[object] = 0;
    }
    Ok(keys)
}
