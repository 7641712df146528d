//! What a completion means for the problem whose rows it was made for, as contracts of functions without a body.

ghost use Rattle.std.specs.Prelude.{◌≡◌, ℕ, List, Option};
ghost use Rattle.auc_graph.specs.declared.arc.Arc.{Arc};
ghost use Rattle.auc_graph.specs.Problem.{Problem};
ghost use Rattle.auc_graph.specs.Assignment.{IsAssignment};
ghost use Rattle.auc_graph.specs.HallSet.{IsHallSet};
ghost use Rattle.auc_graph.specs.Table.{Table, IsTableOf};
ghost use Rattle.auc_graph.specs.declared.rows.RowArc.{RowArc};
ghost use Rattle.auc_hall.specs.declared.matching.Matching.{Matching};
ghost use Rattle.auc_hall.specs.Matching.{IsMatching, IsMatchingOf};
ghost use Rattle.auc_hall.specs.Completion.{AreAllPlaced, IsGrown};

/// A fact about the rows of a problem is one about its arcs: a full assignment of the rows is one of the problem, and
/// so is a Hall violator.
pub fn matchings_hold_of_the_problem()
    ensures { (p : Problem) (t : Table) (m : Matching) → IsTableOf p t → IsMatching t m → IsMatchingOf p m }
{}

/// Where there is a Hall violator, there is no assignment.
pub fn hall_sets_leave_no_assignment()
    ensures { (p : Problem) (persons objects : List ℕ) → IsHallSet p persons objects → (choice : List Arc)
        → IsAssignment p choice → ⊥ }
{}

/// A completion leaves a full assignment as it is.
pub fn full_assignments_stay()
    ensures { (t : Table) (choice after : List (Option RowArc)) → AreAllPlaced t choice → IsGrown t after choice
        → after ≡ choice }
{}
