//! The result of one pass over the arcs for each person's pick: a flag for each person.

ghost use Rattle.std.specs.Prelude.{◌≡◌, ◌<◌, ◌≤◌, ◌+◌, ◌^◌, not, ◌&&◌, true, length, map, All, None, IfOk, pos, neg_ℤ};
ghost use Rattle.std.specs.Prelude.{◌+ℤ◌, ◌*ℤ◌, ◌≤ℤ◌, int_le};
ghost use Rattle.std.specs.List.{position};
ghost use Rattle.auc_graph.specs.Problem.{IsWithin};
ghost use Rattle.auc_graph.specs.declared.limits.TheConstants.{MOST_PERSONS, MOST_COST};
ghost use Rattle.auc_graph.specs.Price.{IsPrice};
ghost use Rattle.auc_graph.specs.Dual.{price_at, arc_value};
ghost use Rattle.auc_claim.specs.InRange.{IsChoiceInRange};
ghost use Rattle.auc_claim.specs.Claim.{arc_of, pick_value, chosen, same_arc, is_missing, is_slack_beside};
ghost use Rattle.auc_claim.specs.Claim.{is_slack_right, AreFlags, is_flag};

use crate::lists::Pick;
use auc_graph::Arc;
use std::alloc::{AllocError, Global};

fn both(a: bool, b: bool) -> bool
    ensures { result ≡ (a && b) }
{
    a && b
}

/// The first person whose flag is this one.
fn first_person(flags: &[bool], flag: bool) -> Option<u32>
    requires { length flags.now < 2 ^ 32 }
    ensures { result ≡ position (is_flag flag) flags.now }
{
    for i in 0..flags.len() {
        if flags[i] == flag {
            return Some(i as u32);
        }
    }
    None
}

fn is_same(person: u32, pick: Pick, arc: Arc) -> bool
    ensures { result ≡ same_arc (arc_of person pick) arc }
{
    person == arc.person && pick.object == arc.object && pick.cost == arc.cost
}

/// For each person, that the pick is none of the person's arcs.
fn missing_flags(alloc: Global, choice: &[Pick], arcs: &[Arc]) -> Result<Vec<bool>, AllocError>
    requires { All (λ a. a.person < length choice.now) arcs.now }
    ensures { IfOk result (λ v. AreFlags (is_missing arcs.now) choice.now v.items) }
{
    let mut flags = vec![in alloc; true; choice.len()]?;
    for arc in arcs {
        let person = arc.person as usize;
        let is_other = !is_same(arc.person, choice[person], *arc);
        flags[person] = both(flags[person], is_other);
    }
    Ok(flags)
}

/// The first person whose pick is no arc of that person.
pub(crate) fn missing_person(
    alloc: Global,
    choice: &[Pick],
    arcs: &[Arc],
) -> Result<Option<u32>, AllocError>
    requires few { length choice.now < 2 ^ 32 }
    requires persons { All (λ a. a.person < length choice.now) arcs.now }
    ensures { IfOk result (λ o. o ≡ position (is_missing arcs.now) (chosen 0 choice.now)) }
{
    let missing = missing_flags(alloc, choice, arcs)?;
    Ok(first_person(missing.as_slice(), true))
}

/// The value of an arc: its scaled cost plus the price of its object.
fn value_of(scale: u32, cost: i64, price: i64) -> i128
    ensures is { result ≡ pos scale *ℤ cost +ℤ price }
    ensures low { neg_ℤ (pos (2 ^ 96)) ≤ℤ result }
    ensures high { result ≤ℤ pos (2 ^ 96) }
{
    scale as i128 * cost as i128 + price as i128
}

/// Whether an arc leaves a pick slack-right: it is another person's, or not better by more than 1.
fn is_slack_beside_arc(scale: u32, prices: &[i64], person: u32, pick: Pick, arc: Arc) -> bool
    requires pick { pick.object < length prices.now }
    requires arc { arc.object < length prices.now }
    ensures { result ≡ is_slack_beside scale prices.now (arc_of person pick) arc }
{
    person != arc.person
        || value_of(scale, pick.cost, prices[pick.object as usize])
            <= value_of(scale, arc.cost, prices[arc.object as usize]) + 1
}

/// For each person, that the pick is slack-right.
fn slack_flags(
    alloc: Global,
    scale: u32,
    choice: &[Pick],
    prices: &[i64],
    arcs: &[Arc],
) -> Result<Vec<bool>, AllocError>
    requires arcs { All (IsWithin (length choice.now) (length prices.now)) arcs.now }
    requires picks { All (λ p. p.object < length prices.now) choice.now }
    ensures { IfOk result (λ v. AreFlags (is_slack_right scale prices.now arcs.now) choice.now v.items) }
{
    let mut flags = vec![in alloc; true; choice.len()]?;
    for arc in arcs {
        let person = arc.person as usize;
        let is_fine = is_slack_beside_arc(scale, prices, arc.person, choice[person], *arc);
        flags[person] = both(flags[person], is_fine);
    }
    Ok(flags)
}

/// The first person who has an arc better than the pick by more than 1.
pub(crate) fn slack_person(
    alloc: Global,
    scale: u32,
    choice: &[Pick],
    prices: &[i64],
    arcs: &[Arc],
) -> Result<Option<u32>, AllocError>
    requires few { length choice.now < 2 ^ 32 }
    requires arcs { All (IsWithin (length choice.now) (length prices.now)) arcs.now }
    requires picks { All (λ p. p.object < length prices.now) choice.now }
    ensures { IfOk result (λ o. o ≡ position (λ c. not (is_slack_right scale prices.now arcs.now c))
        (chosen 0 choice.now)) }
{
    let fine = slack_flags(alloc, scale, choice, prices, arcs)?;
    Ok(first_person(fine.as_slice(), false))
}

/// The value of an arc of a problem or a certificate, whose costs and prices are so small that it has 64 bits.
fn small_value(scale: u32, cost: i64, price: i64) -> i64
    requires scale { scale ≤ MOST_PERSONS + 1 }
    requires cost_low { neg_ℤ MOST_COST ≤ℤ cost }
    requires cost_high { cost ≤ℤ MOST_COST }
    requires price { IsPrice price }
    ensures is { result ≡ pos scale *ℤ cost +ℤ price }
    ensures high { result ≤ℤ pos (2 ^ 62) }
{
    i64::from(scale) * cost + price
}

/// The price of an object, and 0 where it has none.
fn price_of(prices: &[i64], object: u32) -> i64
    requires { All IsPrice prices.now }
    ensures is { result ≡ price_at prices.now object }
    ensures price { IsPrice result }
{
    match prices.get(object as usize) {
        Some(price) => *price,
        None => 0,
    }
}

/// The value of each pick.
fn pick_values(
    alloc: Global,
    scale: u32,
    choice: &[Pick],
    prices: &[i64],
) -> Result<Vec<i64>, AllocError>
    requires scale { scale ≤ MOST_PERSONS + 1 }
    requires choice { IsChoiceInRange choice.now prices.now }
    ensures { IfOk result (λ v. v.items ≡ map (pick_value scale prices.now) choice.now) }
{
    let mut values = Vec::with_capacity(alloc, choice.len())?;
    for pick in choice {
        values.push(small_value(scale, pick.cost, price_of(prices, pick.object)))?;
    }
    Ok(values)
}

/// Whether an arc is not better than a pick of this value by more than 1.
fn is_near(scale: u32, prices: &[i64], value: i64, arc: Arc) -> bool
    requires scale { scale ≤ MOST_PERSONS + 1 }
    requires object { arc.object < length prices.now }
    requires cost_low { neg_ℤ MOST_COST ≤ℤ arc.cost }
    requires cost_high { arc.cost ≤ℤ MOST_COST }
    requires prices { All IsPrice prices.now }
    ensures { result ≡ int_le value (arc_value scale prices.now arc +ℤ pos 1) }
{
    value <= small_value(scale, arc.cost, prices[arc.object as usize]) + 1
}

/// The first person whose pick is no arc of that person, and whether no person has an arc better than the pick by more
/// than 1.
pub(crate) fn first_look(
    alloc: Global,
    scale: u32,
    choice: &[Pick],
    prices: &[i64],
    arcs: &[Arc],
) -> Result<(Option<u32>, bool), AllocError>
    requires scale { scale ≤ MOST_PERSONS + 1 }
    requires choice { IsChoiceInRange choice.now prices.now }
    requires arcs { All (IsWithin (length choice.now) (length prices.now)) arcs.now }
    ensures missing { IfOk result (λ x. x.0 ≡ position (is_missing arcs.now) (chosen 0 choice.now)) }
    ensures slack { IfOk result
        (λ x. x.1 ≡ true → position (λ c. not (is_slack_right scale prices.now arcs.now c)) (chosen 0 choice.now)
        ≡ None) }
{
    let values = pick_values(alloc, scale, choice, prices)?;
    let mut missing = vec![in alloc; true; choice.len()]?;
    let mut is_slack = true;
    for arc in arcs {
        let person = arc.person as usize;
        let is_other = !is_same(arc.person, choice[person], *arc);
        missing[person] = both(missing[person], is_other);
        is_slack = both(is_slack, is_near(scale, prices, values[person], *arc));
    }
    Ok((first_person(missing.as_slice(), true), is_slack))
}
