//! The letters that answer a bid.

ghost use Rattle.std.specs.Prelude.{◌≡◌};
ghost use Rattle.auc_objects.specs.Answers.{letters_of};

use arrayvec::ArrayVec;
use auc_letters::Out;

/// The letters that answer a bid, by its outcome: one or two, so that no list of them need be made.
#[derive(Clone, Copy, Debug, PartialEq, Eq)]
pub enum Answers {
    /// The bid is too low: the bidder gets the price.
    Refused { refused: Out },
    /// The object had no holder: the bidder gets it, and the hub counts it.
    First { award: Out, first: Out },
    /// The object had a holder: the first letter is to that holder, the second gives the object to the bidder.
    Outbid { outbid: Out, award: Out },
}

impl Answers {
    /// The letters as a list, in the order in which they are sent.
    #[inline]
    pub fn into_list(self) -> ArrayVec<Out, 4>
        ensures { result.items ≡ letters_of self }
    {
        let mut letters = ArrayVec::new();
        match self {
            Answers::Refused { refused } => letters.push(refused),
            Answers::First { award, first } => {
                letters.push(award);
                letters.push(first);
            }
            Answers::Outbid { outbid, award } => {
                letters.push(outbid);
                letters.push(award);
            }
        }
        letters
    }
}
