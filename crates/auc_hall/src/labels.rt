//! The search for any full assignment, by labels of the objects (push and relabel).
//!
//! A person who needs an object takes the one in the row with the lowest label, and raises that label to one more than
//! the next lowest. The displaced person does the same, until a person takes a free object.
//!
//! A free object has the label 0. Any other label is at most the number of persons who have to move until the object is
//! free, its holder last. So persons move towards close free objects, and a label found for one person saves work for
//! the others.
//!
//! Where the lowest label of a row isn't 0 and no object has the label below it, there is a gap. Nobody who holds an
//! object with that label or a higher one has an arc to any other object. These persons and the one who needs an object
//! are a Hall violator, and the search gives up.
//!
//! Goldberg and Tarjan, "A new approach to the maximum-flow problem", Journal of the ACM 35 (1988). For assignments:
//! Kaya, Langguth, Manne and Uçar, "Push-relabel based algorithms for the maximum transversal problem", Computers and
//! Operations Research 40 (2013). The gap below a label: Derigs and Meier, "Implementing Goldberg's
//! max-flow-algorithm", Zeitschrift für Operations Research 33 (1989). It is the auction of Bertsekas (1988) where all
//! costs are the same, with labels for prices.
//!
//! Nothing is proved of it but that it ends, since its proposal is checked. So it tests holders as it goes, and its
//! sums saturate.

ghost use Rattle.std.specs.Prelude.{◌≡◌, ◌<◌, ◌+◌, All, false, length};

use auc_graph::{RowArc, Rows};
use std::alloc::{AllocError, Global};

/// The number of scans of each arc, in the mean, after which the search gives up; the scans for persons who find a free
/// object at once don't count.
const MOST_SCANS: usize = 16;

/// More than any label.
const NO_LABEL: u32 = u32::MAX;

/// The place of a person who has no arc yet.
const NO_PLACE: u32 = u32::MAX;

/// The place in a row of the arc to the object with the lowest label, that label, and the next lowest one.
#[derive(Clone, Copy)]
struct Lowest {
    place: usize,
    label: u32,
    next: u32,
}

/// The outcome of a person's search for an object.
enum Taken {
    /// The person takes a free one.
    Free,
    /// The person takes one that this person held.
    From(u32),
    /// The person takes none, since no path leads to a free one.
    Nothing,
}

/// The object with the lowest label, the first of them. For a free one, 0 is given in place of the next lowest label.
fn lowest_of(row: &[RowArc], labels: &[u32]) -> Lowest
    requires { All (λ a. a.object < length labels.now) row.now }
{
    let mut lowest = Lowest {
        place: 0,
        label: NO_LABEL,
        next: NO_LABEL,
    };
    for place in 0..row.len() {
        let label = labels[row[place].object as usize];
        // Most arcs need this test only.
        if label >= lowest.next {
            continue;
        }
        if label >= lowest.label {
            lowest.next = label;
            continue;
        }
        lowest = Lowest {
            place,
            label,
            next: lowest.label,
        };
        if label == 0 {
            lowest.next = 0;
            break;
        }
    }
    lowest
}

/// The search: the label and the holder of each object, and the place in the row of each person's arc.
#[derive(Drop)]
pub(crate) struct Labels<'a> {
    rows: &'a Rows,
    labels: Vec<u32>,
    // The number of objects of each label, up to the number of persons.
    counts: Vec<u32>,
    pub(crate) holders: Vec<Option<u32>>,
    pub(crate) places: Vec<u32>,
    ghost objects_have_labels: { length labels.items ≡ rows.now.objects },
    ghost labels_have_counts: { length counts.items ≡ length rows.now.rows + 1 },
    ghost objects_have_holders: { length holders.items ≡ rows.now.objects },
    ghost persons_have_places: { length places.items ≡ length rows.now.rows },
}

impl<'a> Labels<'a> {
    /// All objects are free.
    pub(crate) fn new(alloc: Global, rows: &'a Rows) -> Result<Labels<'a>, AllocError> {
        let persons = rows.persons() as usize;
        let objects = rows.objects() as usize;
        Ok(Labels {
            rows,
            labels: vec![in alloc; 0; objects]?,
            counts: vec![in alloc; 0; persons + 1]?,
            holders: vec![in alloc; None; objects]?,
            places: vec![in alloc; NO_PLACE; persons]?,
        })
    }

    /// Each person in order takes the first free object of the row, where there is one.
    fn place_freely(&mut self) {
        let rows = self.rows;
        let mut placed = 0u32;
        for person in 0..rows.persons() {
            let row = rows.row(person);
            let free = lowest_of(row, self.labels.as_slice());
            if free.label != 0 || free.place >= row.len() {
                continue;
            }
            let object = row[free.place].object as usize;
            self.labels[object] = 1;
            self.holders[object] = Some(person);
            self.places[person as usize] = free.place as u32;
            placed = placed.saturating_add(1);
        }
        self.counts[0] = rows.objects().saturating_sub(placed);
        self.counts[1] = placed;
    }

    /// Whether no path to a free object leads over objects with this label: as many persons as there are would have to
    /// move, or no object has the label below.
    fn is_cut_off(&self, label: u32) -> bool
        ensures { result ≡ false → label < length self.now.counts.items }
    {
        if label == 0 {
            return false;
        }
        let label = label as usize;
        label + 1 >= self.counts.len() || self.counts[label - 1] == 0
    }

    /// The person takes the object of the row with the lowest label.
    fn take(&mut self, person: u32) -> Taken
        requires { person < length self.old.rows.now.rows }
    {
        let rows = self.rows;
        let row = rows.row(person);
        let lowest = lowest_of(row, self.labels.as_slice());
        if lowest.place >= row.len() || self.is_cut_off(lowest.label) {
            return Taken::Nothing;
        }
        let object = row[lowest.place].object as usize;
        let raised = lowest.next.saturating_add(1).min(rows.persons());
        let before = lowest.label as usize;
        self.counts[before] = self.counts[before].saturating_sub(1);
        self.counts[raised as usize] = self.counts[raised as usize].saturating_add(1);
        self.labels[object] = raised;
        self.places[person as usize] = lowest.place as u32;
        let holder = self.holders[object];
        self.holders[object] = Some(person);
        match holder {
            Some(displaced) => Taken::From(displaced),
            None => Taken::Free,
        }
    }

    /// Finds an object for a person, and for the displaced person, and so on until a person takes a free one. False
    /// where no path leads to one, or where no scans are left.
    fn place(&mut self, start: u32, scans: &mut usize) -> bool {
        let mut person = start;
        while *scans > 0 && person < self.rows.persons() {
            *scans = scans.saturating_sub(self.rows.row(person).len().max(1));
            match self.take(person) {
                Taken::Free => return true,
                Taken::From(displaced) => person = displaced,
                Taken::Nothing => return false,
            }
        }
        false
    }

    /// Finds an object for each person; false where it gives up. At the end each holder has the object by the arc at
    /// the holder's place of the row.
    pub(crate) fn search(&mut self) -> bool {
        let rows = self.rows;
        self.place_freely();
        let mut scans = 0usize;
        for person in 0..rows.persons() {
            // Each person adds scans of the person's own arcs to the limit, so the arcs need not be counted before.
            let brought = rows.row(person).len().saturating_mul(MOST_SCANS);
            scans = scans.saturating_add(brought);
            if self.places.get(person as usize) != Some(&NO_PLACE) {
                continue;
            }
            if !self.place(person, &mut scans) {
                return false;
            }
        }
        true
    }
}
