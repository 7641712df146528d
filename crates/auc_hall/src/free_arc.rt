//! The scan for a free object among the arcs of one person.

ghost use Rattle.std.specs.Prelude.{◌≡◌, ◌<◌, length, IfSome};
ghost use Rattle.auc_hall.specs.Search.{IsFreeArc};

use auc_graph::{RowArc, Rows};

/// The person's first arc to an object that nobody holds. `scanned` is the number of arcs of each person that were
/// scanned before.
///
/// In a completion an object that is held stays held, so a scan goes on where the last one ended. All of them together
/// scan each arc once, O(arcs). If one were left out, the search would still find it.
pub(crate) fn free_arc(
    rows: &Rows,
    holder: &[Option<u32>],
    scanned: &mut [usize],
    person: u32,
) -> Option<RowArc>
    requires person { person < length rows.now.rows }
    requires objects { length holder.now ≡ rows.now.objects }
    ensures { IfSome result (λ a. IsFreeArc rows.now holder.now person a) }
{
    let row = rows.row(person);
    let person = person as usize;
    if person >= scanned.len() {
        return None;
    }
    let mut at = scanned[person];
    while at < row.len() {
        let arc = row[at];
        if holder[arc.object as usize].is_none() {
            scanned[person] = at;
            return Some(arc);
        }
        at += 1;
    }
    scanned[person] = at;
    None
}
