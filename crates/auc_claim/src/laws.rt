//! The laws that the checker rests on, as contracts of functions without a body.

ghost use Rattle.std.specs.Prelude.{◌≡◌, ◌++◌, ◌<◌, ◌≤◌, [], ℕ, List, ℤ, pos, None, map, length, All, Contains};
ghost use Rattle.auc_graph.specs.declared.arc.Arc.{Arc};
ghost use Rattle.auc_graph.specs.Problem.{Problem, IsProblem};
ghost use Rattle.auc_graph.specs.Assignment.{IsAssignment, total_cost};
ghost use Rattle.auc_graph.specs.Dual.{AreFewPriced, IsLower, IsNoPriceLeft, IsSlackRight, dual, scale_of};
ghost use Rattle.auc_graph.specs.HallSet.{IsHallSet};
ghost use Rattle.auc_graph.specs.Rising.{IsRising};
ghost use Rattle.auc_claim.specs.declared.cert.CertParts.{CertParts};
ghost use Rattle.auc_claim.specs.declared.cert.CertParts.TheVariants.{Bracket, Infeasible, Optimal};
ghost use Rattle.auc_graph.specs.Price.{IsPrice};
ghost use Rattle.auc_claim.specs.declared.reason.Reason.{Reason};
ghost use Rattle.auc_graph.specs.declared.limits.TheConstants.{TEXT_OBJECTS, TEXT_PERSONS};
ghost use Rattle.auc_claim.specs.InRange.{IsInRange};
ghost use Rattle.auc_claim.specs.Spelled.{IsSpelled};
ghost use Rattle.auc_claim.specs.Claim.{fault_of, pick_of, IsAllowed};

/// A claim in which the checker finds no fault is true of the problem: what it says of all assignments names no price.
pub fn faultless_claims_are_allowed()
    ensures { (p : Problem) (c : CertParts) → IsProblem p → IsInRange c → fault_of p c ≡ None → IsAllowed p c }
{}

/// A claim in range has a text where the checker finds no fault in it and the problem has a text.
pub fn faultless_claims_are_spelled()
    ensures { (p : Problem) (c : CertParts) → IsProblem p → p.persons ≤ TEXT_PERSONS → p.objects ≤ TEXT_OBJECTS
        → IsInRange c → fault_of p c ≡ None → IsSpelled c }
{}

/// A Hall violator has a certificate, if persons and objects are in rising order, and the checker finds no fault in it.
pub fn hall_sets_pass()
    ensures in_range { (p : Problem) (persons objects : List ℕ) → IsProblem p → IsHallSet p persons objects
        → IsRising persons → IsRising objects → ((j : ℕ) → Contains objects j → j < p.objects)
        → IsInRange (Infeasible persons objects) }
    ensures faultless { (p : Problem) (persons objects : List ℕ) → IsHallSet p persons objects
        → ((j : ℕ) → Contains objects j → j < p.objects) → fault_of p (Infeasible persons objects) ≡ None }
{}

/// An assignment has an optimal certificate with each list of prices in range, one for each object. The checker finds
/// no fault in it where two facts hold at these prices. No arc of a person is better than the chosen one by more than
/// 1, and each object that nobody takes has price 0.
pub fn assignments_pass()
    ensures in_range { (p : Problem) (choice : List Arc) (prices : List ℤ) → IsProblem p → IsAssignment p choice
        → length prices ≡ p.objects → All IsPrice prices
        → IsInRange (Optimal (total_cost choice) (map pick_of choice) prices) }
    ensures faultless { (p : Problem) (choice : List Arc) (prices : List ℤ) → IsAssignment p choice
        → length prices ≡ p.objects → All (IsSlackRight (pos 1) (scale_of p) prices p.arcs) choice
        → IsNoPriceLeft prices choice → fault_of p (Optimal (total_cost choice) (map pick_of choice) prices) ≡ None }
{}

/// An assignment has a bracket, whichever limit ended the run, with each list of prices in range, one for each object,
/// of which no more than persons are above 0. Its bound is the least cost that their dual bound allows. The checker
/// finds no fault in it.
pub fn brackets_pass()
    ensures in_range { (p : Problem) (choice : List Arc) (prices : List ℤ) (lower : ℤ) (reason : Reason) → IsProblem p
        → IsAssignment p choice → length prices ≡ p.objects → All IsPrice prices → AreFewPriced p prices
        → IsLower (scale_of p) (dual p prices) lower
        → IsInRange (Bracket reason lower (total_cost choice) (map pick_of choice) prices) }
    ensures faultless { (p : Problem) (choice : List Arc) (prices : List ℤ) (lower : ℤ) (reason : Reason)
        → IsAssignment p choice → length prices ≡ p.objects → IsLower (scale_of p) (dual p prices) lower
        → fault_of p (Bracket reason lower (total_cost choice) (map pick_of choice) prices) ≡ None }
{}
