//! The places of the arcs that picks name.

ghost use Rattle.std.specs.Prelude.{◌≡◌, ◌≤◌, ◌<◌, true, length, All, Contains};
ghost use Rattle.auc_graph.specs.declared.limits.TheConstants.{MOST_ARCS};
ghost use Rattle.auc_claim.specs.Claim.{chosen};
ghost use Rattle.auc_call.specs.Memory.{AreAt};

use auc_claim::Pick;
use auc_graph::Arc;

/// Whether at these places of the list are the arcs that picks name, person by person.
fn are_places(arcs: &[Arc], picks: &[Pick], places: &[u32]) -> bool
    ensures { result ≡ true → AreAt arcs.now places.now (chosen 0 picks.now) }
{
    if places.len() != picks.len() {
        return false;
    }
    for person in 0..picks.len() {
        let place = places[person] as usize;
        if place >= arcs.len() {
            return false;
        }
        let arc = arcs[place];
        let pick = picks[person];
        if arc.person as usize != person || arc.object != pick.object || arc.cost != pick.cost {
            return false;
        }
    }
    true
}

/// Writes for each person the place of an arc that is his pick, in a pass over the list.
fn find_places(arcs: &[Arc], picks: &[Pick], choice: &mut [u32])
    requires few { length arcs.now ≤ MOST_ARCS }
    requires persons { All (λ a. a.person < length picks.now) arcs.now }
    requires size { length choice.old ≡ length picks.now }
    requires there { All (Contains arcs.now) (chosen 0 picks.now) }
    ensures { AreAt arcs.now choice.new (chosen 0 picks.now) }
{
    for place in 0..arcs.len() {
        let arc = arcs[place];
        let person = arc.person as usize;
        let pick = picks[person];
        if pick.object == arc.object && pick.cost == arc.cost {
            choice[person] = place as u32;
        }
    }
}

/// Writes for each person the place of an arc that is his pick: the places that came with the picks where they are
/// right, as those of a solve are, and else what is found in the list.
pub(crate) fn set_places(arcs: &[Arc], picks: &[Pick], places: Option<&[u32]>, choice: &mut [u32])
    requires few { length arcs.now ≤ MOST_ARCS }
    requires persons { All (λ a. a.person < length picks.now) arcs.now }
    requires size { length choice.old ≡ length picks.now }
    requires there { All (Contains arcs.now) (chosen 0 picks.now) }
    ensures { AreAt arcs.now choice.new (chosen 0 picks.now) }
{
    if let Some(places) = places {
        if are_places(arcs, picks, places) {
            choice.copy_from_slice(places);
            return;
        }
    }
    find_places(arcs, picks, choice);
}
