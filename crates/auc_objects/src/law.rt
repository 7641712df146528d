//! A law of shards that take letters, one after another. The function does nothing: its contract is the theorem.

ghost use Rattle.std.specs.Prelude.{ℕ, ℤ, ◌≡◌, [], ◌∷◌};
ghost use Rattle.auc_letters.specs.declared.letter.Letter.{Letter};
ghost use Rattle.auc_letters.specs.declared.letter.Bid.{Bid};
ghost use Rattle.auc_letters.specs.Award.{award_all, bids_on};
ghost use Rattle.auc_objects.specs.Objects.{AreObjects, IsBidIn, Objects, Owns, after_bid, sale_of};

/// The effect of a letter on each object of a shard is that of the award rule, by the bids on the object among letters.
/// A letter that is a bid that fits is such a bid. Any other letter has no bid on an object of the shard.
pub fn letters_sell_by_their_bids()
    ensures dealt { (s : Objects) (eps : ℤ) (letter : Letter) (bid : Bid) (j : ℕ) → AreObjects s
        → IsBidIn s letter bid
        → sale_of (after_bid s eps bid) j ≡ award_all eps (sale_of s j) (bids_on j (letter ∷ [])) }
    ensures stray { (s : Objects) (letter : Letter) (j : ℕ) → Owns s j → ((bid : Bid) → IsBidIn s letter bid → ⊥)
        → bids_on j (letter ∷ []) ≡ [] }
{}
