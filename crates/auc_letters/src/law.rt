//! Laws of letters, of limits and of the award rule. The functions do nothing: their contracts are theorems.

ghost use Rattle.std.specs.Prelude.{◌≡◌, ◌^◌, ℤ, pos, ◌≤ℤ◌, ◌↔◌, true, List, None, IsTrue};
ghost use Rattle.auc_letters.specs.contracts.letter.LetterPartialEq.TheImpl.{eq-value as letter_eq};
ghost use Rattle.auc_letters.specs.declared.limits.TheConstants.{MOST_EPS as most_eps, MOST_SHARDS as most_shards};
ghost use Rattle.auc_letters.specs.declared.letter.Bid.{Bid as ABid};
ghost use Rattle.auc_graph.specs.Price.{IsPrice};
ghost use Rattle.auc_letters.specs.Price.{IsEps, is_amount};
ghost use Rattle.auc_letters.specs.Award.{Sale, award_all};

use crate::letter::Letter;

/// Letters that are equal by `==` are the same letter.
pub fn equal_letters_are_same()
    ensures { (a b : Letter) → letter_eq.it a b ≡ true → a ≡ b }
{}

/// The numbers of the limits; and an amount is lawful where it may be a price.
pub fn limits_are()
    ensures eps { most_eps ≡ pos (2 ^ 60) }
    ensures shards { most_shards ≡ 16 }
    ensures amounts { (amount : ℤ) → IsTrue (is_amount amount) ↔ IsPrice amount }
{}

/// Bids on an object never lower its price. Where nobody holds the object after them, it is unchanged.
pub fn awards_raise_prices()
    ensures rises { (eps : ℤ) (sale : Sale) (bids : List ABid) → IsEps eps
        → sale.price ≤ℤ (award_all eps sale bids).price }
    ensures unheld { (eps : ℤ) (sale : Sale) (bids : List ABid) → (award_all eps sale bids).holder ≡ None
        → (award_all eps sale bids) ≡ sale }
{}
