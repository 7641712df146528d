//! Laws of the definitions, as contracts of functions without a body: what prices show of the cost of every assignment,
//! and the numbers of the limits.

ghost use Rattle.std.specs.Prelude.{◌≡◌, ◌+◌, ◌^◌, ◌≤◌, ◌-ℤ◌, ◌*ℤ◌, ◌≤ℤ◌, ℕ, List, ℤ, pos, neg_ℤ, length, All};
ghost use Rattle.std.specs.Prelude.{FitsSigned, Ok, true};
ghost use Rattle.std.specs.Int.{w64};
ghost use Rattle.auc_graph.specs.declared.arc.Arc.{Arc};
ghost use Rattle.auc_graph.specs.Problem.{Problem, IsSquare, IsWithin};
ghost use Rattle.auc_graph.specs.Reading.{objects_for, reading};
ghost use Rattle.auc_graph.specs.Assignment.{IsAssignment, IsLeast, total, total_cost};
ghost use Rattle.auc_graph.specs.Price.{IsPrice};
ghost use Rattle.auc_graph.specs.Dual.{scale_of, dual, is_lower, IsLower, IsSlackRight, AreNotNegative, AreFewPriced};
ghost use Rattle.auc_graph.specs.Dual.{IsNoPriceLeft, EachHasArc};

use crate::limits::{
    MOST_ARCS, MOST_COST, MOST_OBJECTS, MOST_PERSONS, MOST_PRICE, MOST_READS, MOST_SCALE,
    TEXT_ARCS, TEXT_OBJECTS, TEXT_PERSONS,
};

/// Weak duality: at prices that aren't negative no assignment costs, scaled, less than the dual bound. So none costs
/// less than the least number that reaches this bound when scaled. There may be more objects than persons.
pub fn prices_bound_costs()
    ensures scaled { (p : Problem) (prices : List ℤ) (choice : List Arc) → All (IsWithin p.persons p.objects) p.arcs
        → length prices ≡ p.objects → AreNotNegative prices → IsAssignment p choice
        → dual p prices ≤ℤ (pos (scale_of p) *ℤ total_cost choice) }
    ensures lower { (p : Problem) (prices : List ℤ) (choice : List Arc) (lower : ℤ)
        → All (IsWithin p.persons p.objects) p.arcs → length prices ≡ p.objects → AreNotNegative prices
        → IsAssignment p choice → IsLower (scale_of p) (dual p prices) lower → lower ≤ℤ total_cost choice }
{}

/// The least cost that a dual bound allows: there is one at most, and a test without division finds it. Where there is
/// an assignment, it is at most the greatest cost times the persons. It is below the negative of that by no more than
/// all prices together, scaled down (`top`). So where no more objects than persons have a price above 0, each at most
/// 2^61, it has 64 bits.
pub fn bounds_fit()
    ensures one { (scale : ℕ) (d lower other : ℤ) → IsLower scale d lower → IsLower scale d other → lower ≡ other }
    ensures tested { (n : ℕ) (d lower : ℤ) → is_lower (n + 1) d lower ≡ true → IsLower (n + 1) d lower }
    ensures passes { (n : ℕ) (d lower : ℤ) → IsLower (n + 1) d lower → is_lower (n + 1) d lower ≡ true }
    ensures low { (p : Problem) (prices : List ℤ) (choice : List Arc) (top lower : ℤ)
        → All (IsWithin p.persons p.objects) p.arcs → length prices ≡ p.objects → AreNotNegative prices
        → total prices ≤ℤ (pos (scale_of p) *ℤ top) → IsAssignment p choice
        → IsLower (scale_of p) (dual p prices) lower → ((pos p.persons *ℤ neg_ℤ MOST_COST) -ℤ top) ≤ℤ lower }
    ensures high { (p : Problem) (prices : List ℤ) (choice : List Arc) (lower : ℤ)
        → All (IsWithin p.persons p.objects) p.arcs → length prices ≡ p.objects → AreNotNegative prices
        → IsAssignment p choice → IsLower (scale_of p) (dual p prices) lower → lower ≤ℤ (pos p.persons *ℤ MOST_COST) }
    ensures fits { (p : Problem) (prices : List ℤ) (choice : List Arc) (lower : ℤ) → p.persons ≤ MOST_PERSONS
        → All (IsWithin p.persons p.objects) p.arcs → length prices ≡ p.objects → All IsPrice prices
        → AreFewPriced p prices → IsAssignment p choice → IsLower (scale_of p) (dual p prices) lower
        → FitsSigned w64 lower }
{}

/// An assignment has the least cost if there are prices that aren't negative with two properties. No arc of a person is
/// better than the chosen one by more than 1, and each object that nobody takes has price 0. There may be more objects
/// than persons.
pub fn slack_right_costs_least()
    ensures { (p : Problem) (prices : List ℤ) (choice : List Arc) → All (IsWithin p.persons p.objects) p.arcs
        → length prices ≡ p.objects → AreNotNegative prices → IsAssignment p choice
        → All (IsSlackRight (pos 1) (scale_of p) prices p.arcs) choice → IsNoPriceLeft prices choice
        → IsLeast p choice }
{}

/// Where there are as many objects as persons, an assignment leaves none, and so no price.
pub fn assignments_leave_no_price()
    ensures { (p : Problem) (prices : List ℤ) (choice : List Arc) → All (IsWithin p.persons p.objects) p.arcs
        → IsSquare p → length prices ≡ p.objects → IsAssignment p choice → IsNoPriceLeft prices choice }
{}

/// No more objects than persons have a price above 0 where there are no more objects than persons, or where each object
/// that an assignment leaves has price 0.
pub fn prices_are_few()
    ensures square { (p : Problem) (prices : List ℤ) → IsSquare p → length prices ≡ p.objects → AreFewPriced p prices }
    ensures assigned { (p : Problem) (prices : List ℤ) (choice : List Arc) → IsAssignment p choice
        → IsNoPriceLeft prices choice → AreFewPriced p prices }
{}

/// The problem of a text has the wanted number of objects: as many as persons where this is 0, else this number, which
/// is not below that of the persons. It has no more persons than the limit of reading.
pub fn wanted_objects_are_read()
    ensures objects { (most limit wanted : ℕ) (text : List ℕ) (p : Problem) → reading most limit wanted text ≡ Ok p
        → objects_for wanted p.persons ≡ Ok p.objects }
    ensures square { (most limit : ℕ) (text : List ℕ) (p : Problem) → reading most limit 0 text ≡ Ok p → IsSquare p }
    ensures persons { (most limit wanted : ℕ) (text : List ℕ) (p : Problem) → reading most limit wanted text ≡ Ok p
        → p.persons ≤ most }
{}

/// Where there is an assignment each person has an arc, as the dual bound needs it.
pub fn assigned_persons_have_arcs()
    ensures { (p : Problem) (choice : List Arc) → IsAssignment p choice → EachHasArc p }
{}

/// The numbers of the limits.
pub fn limits_are()
    ensures persons { MOST_PERSONS ≡ 2 ^ 22 }
    ensures objects { MOST_OBJECTS ≡ 2 ^ 22 }
    ensures arcs { MOST_ARCS ≡ 2 ^ 28 }
    ensures scale { MOST_SCALE ≡ pos (2 ^ 22 + 1) }
    ensures text { (TEXT_PERSONS ≡ 10000) × (TEXT_OBJECTS ≡ 20000) × (TEXT_ARCS ≡ 33554432) }
    ensures reads { MOST_READS ≡ 1073741824 }
    ensures cost { MOST_COST ≡ pos 1000000000 }
    ensures price { MOST_PRICE ≡ pos (2 ^ 61) }
{}
