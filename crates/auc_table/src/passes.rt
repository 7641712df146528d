//! Passes over a row and over arrays indexed by object. None has a branch that depends on a cost, nor ends before the
//! row does, so that the compiler vectorizes it. So each pass does one thing.
//!
//! The **key** of an object is twice its price, and one more where it has a holder. Where two objects are as good, the
//! free one comes first by twice the cost plus the key.
ghost use Rattle.std.specs.Prelude.{◌<◌, length, IfSome};

use crate::gaps::Gap;

/// The distance of an object that isn't reached.
pub(crate) const UNREACHED: i64 = 1_152_921_504_606_846_976;

/// Twice the value of an entry to the person of its row, plus one where its object has a holder: `value` in names here.
#[inline(always)]
pub(crate) fn value_of(cost: i64, key: i64) -> i64 {
    cost.wrapping_mul(2).wrapping_add(key)
}

/// The least value of a row's entries.
#[inline(never)]
pub(crate) fn least_value<const G: bool>(gap: Gap<G>, row: &[i64], keys: &[i64]) -> i64 {
    let many = row.len().min(keys.len());
    let mut least = i64::MAX;
    for object in 0..many {
        let value = value_of(gap.cost_of(row[object]), keys[object]);
        least = if value < least { value } else { least };
    }
    least
}

/// The first object whose entry has this value.
pub(crate) fn object_of_value<const G: bool>(
    gap: Gap<G>,
    row: &[i64],
    keys: &[i64],
    value: i64,
) -> Option<usize>
    ensures row { IfSome result (λ object. object < length row.now) }
    ensures keys { IfSome result (λ object. object < length keys.now) }
{
    let many = row.len().min(keys.len());
    for object in 0..many {
        if value_of(gap.cost_of(row[object]), keys[object]) == value {
            return Some(object);
        }
    }
    None
}

/// Relaxes every object through this person: `more` added to an entry's value is the distance of its object through the
/// person. Returns the least distance of an object that isn't settled. The key of a settled object is so high that its
/// distance can't be improved.
#[inline(never)]
pub(crate) fn come_nearer<const G: bool>(
    gap: Gap<G>,
    row: &[i64],
    keys: &[i64],
    more: i64,
    person: u64,
    distances: &mut [i64],
    reached_by: &mut [u64],
) -> i64 {
    let many = row
        .len()
        .min(keys.len())
        .min(distances.len())
        .min(reached_by.len());
    let mut nearest = UNREACHED;
    for object in 0..many {
        let distance = value_of(gap.cost_of(row[object]), keys[object]).wrapping_add(more);
        let old = distances[object];
        // Read in any case, so that there is no branch.
        let before = reached_by[object];
        reached_by[object] = if distance < old { person } else { before };
        let distance = if distance < old { distance } else { old };
        distances[object] = distance;
        nearest = if distance < nearest {
            distance
        } else {
            nearest
        };
    }
    nearest
}

/// The first object at this distance.
pub(crate) fn object_at(distances: &[i64], distance: i64) -> Option<usize>
    ensures { IfSome result (λ object. object < length distances.now) }
{
    for object in 0..distances.len() {
        if distances[object] == distance {
            return Some(object);
        }
    }
    None
}
