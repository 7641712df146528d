//! The reason why a phase ends: a letter with a fault, or one that was refused.

ghost use Rattle.std.specs.Prelude.{◌≡◌, ◌≢◌, ◌⊎◌, true, false, IfSome, IfNone};
ghost use Rattle.auc_mail.specs.declared.call.PostRefused.{PostRefused};
ghost use Rattle.auc_model.specs.Posting.{is_price, reason};
ghost use Rattle.auc_phases.specs.Reasons.{reason_for};

use auc_letters::{Letter, Why};
use auc_mail::PostRefused;
use auc_persons::PersonFault;

/// The reason why a phase ends where a shard of the persons finds a fault in a letter.
#[inline]
pub fn reason_for(fault: PersonFault) -> Why
    ensures { result ≡ reason_for fault }
{
    match fault {
        PersonFault::Stray => Why::Stray,
        PersonFault::Fell => Why::Fell,
    }
}

/// The reason why a shard stops where its letter was refused: `Posts` where the lane has had all its posts, `Mail`
/// where the mail is full. It doesn't stop where the box is closed, or where the letter is a price, which may be
/// dropped.
#[inline]
pub fn reason_to_stop(refused: PostRefused, letter: Letter) -> Option<Why>
    ensures some { IfSome result (λ y. (refused ≢ PostRefused.Closed) × (is_price letter ≡ false)
        × (y ≡ reason refused)) }
    ensures none { IfNone result ((refused ≡ PostRefused.Closed) ⊎ ((refused ≢ PostRefused.Closed)
        × (is_price letter ≡ true))) }
{
    if let Letter::Price { .. } = letter {
        return None;
    }
    match refused {
        PostRefused::Closed => None,
        PostRefused::Spent => Some(Why::Posts),
        PostRefused::Full => Some(Why::Mail),
    }
}
