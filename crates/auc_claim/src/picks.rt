//! What the picks alone show: their cost, whether two take one object, and the objects that nobody takes.

ghost use Rattle.std.specs.Prelude.{◌≡◌, ◌<◌, ◌^◌, [], length, map, All, IfOk};
ghost use Rattle.std.specs.List.{position, range_with_len};
ghost use Rattle.auc_graph.specs.Assignment.{total_cost};
ghost use Rattle.auc_claim.specs.Claim.{chosen, picked, repeated, is_left_over, AreListed};

use crate::lists::Pick;
use std::alloc::{AllocError, Global};

/// The total cost of the picks. O(persons).
pub fn cost_of(choice: &[Pick]) -> i128
    requires { length choice.now < 2 ^ 32 }
    ensures { result ≡ total_cost (chosen 0 choice.now) }
{
    let mut sum: i128 = 0;
    for pick in choice {
        sum += pick.cost as i128;
    }
    sum
}

/// The object of the first person whose object an earlier person takes too.
pub(crate) fn repeated_object(
    alloc: Global,
    objects: usize,
    choice: &[Pick],
) -> Result<Option<u32>, AllocError>
    requires { All (λ c. c.object < objects) choice.now }
    ensures { IfOk result (λ o. o ≡ repeated [] (map (λ c. c.object) choice.now)) }
{
    let mut seen = vec![in alloc; false; objects]?;
    for pick in choice {
        let object = pick.object as usize;
        if seen[object] {
            return Ok(Some(pick.object));
        }
        seen[object] = true;
    }
    Ok(None)
}

/// A flag for each object: whether any person picks it.
fn picked_flags(alloc: Global, objects: usize, choice: &[Pick]) -> Result<Vec<bool>, AllocError>
    requires { All (λ c. c.object < objects) choice.now }
    ensures size { IfOk result (λ v. length v.items ≡ objects) }
    ensures flags { IfOk result (λ v. AreListed (picked choice.now) v.items) }
{
    let mut flags = vec![in alloc; false; objects]?;
    for pick in choice {
        flags[pick.object as usize] = true;
    }
    Ok(flags)
}

/// The first object that nobody picks and that has a price above 0. O(persons + objects).
pub(crate) fn left_over(
    alloc: Global,
    choice: &[Pick],
    prices: &[i64],
) -> Result<Option<u32>, AllocError>
    requires few { length prices.now < 2 ^ 32 }
    requires objects { All (λ c. c.object < length prices.now) choice.now }
    ensures { IfOk result (λ o. o ≡ position (is_left_over choice.now prices.now)
        (range_with_len 0 (length prices.now))) }
{
    let picked = picked_flags(alloc, prices.len(), choice)?;
    for object in 0..prices.len() {
        if !picked[object] && prices[object] != 0 {
            return Ok(Some(object as u32));
        }
    }
    Ok(None)
}
