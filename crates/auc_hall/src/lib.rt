//! Gives each person an object by one of the person's arcs, no object twice, or returns a Hall violator: persons who
//! together have arcs to fewer objects than they number. It shows a planner why there is no full assignment.
//!
//! The method is augmenting paths by breadth-first search (Kuhn, 1955), and for the quick test push and relabel
//! (Goldberg and Tarjan, 1988). [`complete`] takes O(persons * arcs) time at most, and mostly far less: a search scans
//! an arc at most once, and stops at the first one to a free object. [`has_full_matching`] takes O(arcs + persons +
//! objects) time, for callers who only ask whether there is a full assignment; where it finds none, `complete` decides.
//!
//! Proved: a matching is an assignment, and a Hall violator leaves no assignment. Nothing is proved of the search by
//! labels. Its proposal is checked. Persons, objects and arcs are numbered from 0.
#![tactic(auto)]

mod completion;
mod exchange;
mod free_arc;
mod full;
mod hall_set;
mod labels;
mod laws;
mod matching;
mod partial;
mod search;

pub use completion::complete;
pub use full::has_full_matching;
pub use hall_set::places_of;
pub use laws::{
    full_assignments_stay, hall_sets_leave_no_assignment, matchings_hold_of_the_problem,
};
pub use matching::Matching;
pub use partial::Partial;
